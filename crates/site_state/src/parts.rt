//! What a site is looked up in.

ghost use Rattle.std.specs.Prelude.{◌≡◌, ◌++◌, ◌∷◌, [], ℕ, List, None, OnOk, OnErr, IfSome, option_to_list};
ghost use Rattle.trust_types.specs.declared.records.Record.{Record as Kept};
ghost use Rattle.trust_types.specs.Tables.{Table};
ghost use Rattle.trust_types.specs.Kept.{change_of};
ghost use Rattle.cert_book.specs.Books.{IsAccount, book};
ghost use Rattle.site_history.specs.Histories.{changes_graph};
ghost use Rattle.sessions.specs.Sessions.{Session, who, without};
ghost use Rattle.site_history.specs.Sites.{joined_secret};
ghost use Rattle.site_state.specs.inner.Parts.{ArePartsOf, HasRoom, HasChangeRoom, CanAdd, MayChange, AreFew, IsChanged, IsSameBut};

use cert_book::CertBook;
use posting_policy::PostKind;
use postings::Postings;
use sessions::{Sessions, Token};
use std::alloc::Global;
use std::sync::ledger::Ledger;
use trust_types::{AccountNo, Caps, NoMemory, Record, Secret, Steps};

/// The certificates, the posts, what is kept of passwords, the records that changed the graph or the table, in order, and the live sessions.
#[derive(Drop)]
pub(crate) struct Parts {
    pub(crate) certs: CertBook,
    pub(crate) posts: Postings,
    /// By account.
    pub(crate) secrets: Vec<Secret>,
    pub(crate) graph: Vec<Record>,
    pub(crate) sessions: Sessions,
}

impl Parts {
    /// Of a site that begins with this table, without records. It takes no memory.
    pub(crate) fn new(alloc: Global, opening: Caps) -> Parts
        ensures { ArePartsOf opening [] [] result }
    {
        Parts {
            certs: CertBook::new(alloc, opening),
            posts: Postings::new(alloc),
            secrets: Vec::new(alloc),
            graph: Vec::new(alloc),
            sessions: Sessions::new(alloc),
        }
    }

    /// Makes room for a record, which may be added, wherever it is to be added. The parts say the same, whatever it answers.
    pub(crate) fn reserve<L: Ledger>(
        &mut self,
        entry: &Record,
        steps: &mut Steps<L>,
    ) -> Result<(), NoMemory>
        requires { CanAdd (book self.old.certs) self.old.posts.posts entry.now }
        ensures room { OnOk result (HasRoom self.new entry.now) }
        ensures same { (opening : Table) (k : List Kept) (live : List Session) → ArePartsOf opening k live self.old → ArePartsOf opening k live self.new }
    {
        match entry {
            Record::Join { .. } => {
                self.secrets.reserve(1)?;
                self.reserve_change(None, None, steps)
            }
            Record::Seed { subject, .. } | Record::Unseed { subject, .. } => {
                self.reserve_change(None, Some(*subject), steps)
            }
            Record::Cert {
                author,
                subject,
                ..
            } => self.reserve_change(Some(*author), Some(*subject), steps),
            Record::Table { .. } => self.reserve_change(None, None, steps),
            Record::Diary { author, .. } => self.posts.reserve(PostKind::Diary, *author, 0),
            Record::Article { author, .. } => self.posts.reserve(PostKind::Article, *author, 0),
            Record::Reply {
                author,
                article,
                ..
            } => self.posts.reserve(PostKind::Reply, *author, *article),
            Record::Project { author, .. } => self.posts.reserve(PostKind::Project, *author, 0),
        }
    }

    /// Makes room for a change that touches these accounts.
    fn reserve_change<L: Ledger>(
        &mut self,
        author: Option<AccountNo>,
        subject: Option<AccountNo>,
        steps: &mut Steps<L>,
    ) -> Result<(), NoMemory>
        requires author { IfSome author (IsAccount (book self.old.certs)) }
        requires subject { IfSome subject (IsAccount (book self.old.certs)) }
        ensures room { OnOk result (HasChangeRoom self.new author subject) }
        ensures secrets { self.new.secrets ≡ self.old.secrets }
        ensures same { (opening : Table) (k : List Kept) (live : List Session) → ArePartsOf opening k live self.old → ArePartsOf opening k live self.new }
    {
        self.graph.reserve(1)?;
        self.certs.reserve(author, subject, steps)
    }

    /// Adds a record for which there is room, and which may be added. It takes no memory and cannot fail.
    pub(crate) fn add<L: Ledger>(&mut self, entry: Record, steps: &mut Steps<L>)
        requires room { HasRoom self.old entry }
        requires can { CanAdd (book self.old.certs) self.old.posts.posts entry }
        requires few { AreFew self.old }
        ensures { (opening : Table) (k : List Kept) (live : List Session) → ArePartsOf opening k live self.old → ArePartsOf opening (k ++ entry ∷ []) live self.new }
    {
        if changes_graph(&entry) {
            self.change(&entry, steps);
            self.graph.push_reserved(entry);
        } else {
            self.posts.add(entry);
        }
    }

    /// Begins a session under a token that no live session has. It makes room for it first.
    ///
    /// # Errors
    /// [`NoMemory`] where there isn't enough. The parts say the same.
    pub(crate) fn log_in(&mut self, account: AccountNo, token: Token) -> Result<(), NoMemory>
        requires free { who self.old.sessions.live token ≡ None }
        ensures ok { OnOk result (self.new.sessions.live ≡ self.old.sessions.live ++ (token, account) ∷ []) }
        ensures err { OnErr result (self.new.sessions.live ≡ self.old.sessions.live) }
        ensures same { IsSameBut self.old self.new }
    {
        self.sessions.reserve()?;
        self.sessions.login(account, token);
        Ok(())
    }

    /// Ends the session of a token.
    pub(crate) fn log_out(&mut self, token: &Token)
        ensures live { self.new.sessions.live ≡ without self.old.sessions.live token.now }
        ensures same { IsSameBut self.old self.new }
    {
        self.sessions.logout(token);
    }

    /// Makes the change of a record in the graph or the table.
    fn change<L: Ledger>(&mut self, entry: &Record, steps: &mut Steps<L>)
        requires room { HasRoom self.old entry.now }
        requires can { MayChange (book self.old.certs) (change_of entry.now) }
        requires few { AreFew self.old }
        ensures certs { IsChanged (book self.old.certs) (book self.new.certs) (change_of entry.now) }
        ensures secrets { self.new.secrets.items ≡ self.old.secrets.items ++ option_to_list (joined_secret entry.now) }
        ensures posts { self.new.posts ≡ self.old.posts }
        ensures sessions { self.new.sessions ≡ self.old.sessions }
        ensures graph { self.new.graph ≡ self.old.graph }
    {
        match entry {
            Record::Join { name, secret, .. } => {
                self.certs.add_join(*name, steps);
                self.secrets.push_reserved(*secret);
            }
            Record::Seed { subject, .. } => self.certs.add_seed(*subject, steps),
            Record::Unseed { subject, .. } => self.certs.add_unseed(*subject),
            Record::Cert {
                author,
                subject,
                level,
                ..
            } => self.certs.add_cert(*author, *subject, *level, steps),
            Record::Table { caps, .. } => self.certs.add_table(*caps),
            Record::Diary { .. }
            | Record::Article { .. }
            | Record::Reply { .. }
            | Record::Project { .. } => {}
        }
    }
}

/// Whether a record changes the graph or the table.
fn changes_graph(entry: &Record) -> bool
    ensures { result ≡ changes_graph entry.now }
{
    match entry {
        Record::Join { .. }
        | Record::Seed { .. }
        | Record::Unseed { .. }
        | Record::Cert { .. }
        | Record::Table { .. } => true,
        Record::Diary { .. }
        | Record::Article { .. }
        | Record::Reply { .. }
        | Record::Project { .. } => false,
    }
}
