//! The state of a site.

ghost use Rattle.std.specs.Prelude.{◌≡◌, ◌≢◌, ◌↔◌, ◌<◌, ◌≤◌, ◌+◌, ◌*◌, [], Some, None, true, IfOk, IfErr, IfSome, OnOk, OnErr, IsSome, IsTrue, MatchOption, length, slice_get};
ghost use Rattle.trust_types.specs.Kept.{IsMoment, accounts, moment_of, revision};
ghost use Rattle.trust_types.specs.NameLists.{number_of};
ghost use Rattle.trust_types.specs.Tables.{has_grade};
ghost use Rattle.trust_types.specs.declared.levels.Level.{Level as Grade};
ghost use Rattle.frozen.specs.Sites.{parts_for};
ghost use Rattle.roster_form.specs.Candidates.{IsSound, lists_at};
ghost use Rattle.sessions.specs.Sessions.{who};
ghost use Rattle.site_history.specs.declared.replies.Reply.TheVariants.{LoggedIn, LoggedOut};
ghost use Rattle.site_history.specs.Live.{live};
ghost use Rattle.site_history.specs.Answers.{is_refusal};
ghost use Rattle.cert_book.specs.Books.{IsAccount};
ghost use Rattle.site_history.specs.Held.{level_of};
ghost use Rattle.site_history.specs.Histories.{Published, last_revision, just_opened, with_opened, with_entry, places, records, publications, last_published, graph_records, is_kept, record_of, author_of, published_of, Done, Freeze, Publish, KeeperFault};
ghost use Rattle.site_history.specs.Legal.{IsLegal, StandsFor, IsFrozenOf, Suits, IsNewer};
ghost use Rattle.site_history.specs.Replies.{judge, number_in};
ghost use Rattle.site_history.specs.Sites.{site_of};
ghost use Rattle.site_history.specs.Texts.{texts, texts_in};
ghost use Rattle.site_state.specs.Opened.{RefusesRecord};
ghost use Rattle.site_state.specs.Weighed.{IsJudged, IsWeighed, is_given, token_of, author_token};
ghost use Rattle.site_state.specs.inner.Parts.{CanAdd};

use crate::judged::Judged;
use crate::opening::{RecordFault, texts_in_record};
use crate::parts::Parts;
use frozen::Frozen;
use roster_form::{Candidate, Publication};
use sessions::Token;
use site_history::{Act, Command, Past, Reply};
use std::alloc::Global;
use std::marker::Model;
use std::snapshot::Snapshot;
use std::sync::Arc;
use std::sync::ledger::Ledger;
use trust_types::{AccountNo, Caps, Level, Name, NoMemory, Record, Steps};

/// The state of a site: what its history comes to, in a form in which everything is found without a search. Contracts see the history, and for which
/// record there is room.
///
/// The history itself takes no memory, however long it is.
#[derive(Drop)]
pub struct State {
    pub(crate) parts: Parts,
    places: u64,
    texts: u64,
    published: u32,
    last: Option<Arc<Publication>>,
    opening: Caps,
    room: Option<Snapshot<Record>>,
    past: Snapshot<Past>,
}

impl Model for State {
    ghost use Rattle.std.specs.Prelude.{◌≡◌, IfSome, option_map};
    ghost use Rattle.site_state.specs.States.{Known};
    ghost use Rattle.site_state.specs.inner.States.{IsState, HasRoomFor};

    ghost Value = { Known };

    ghost view = { λ s. record { history = s.past.value; room = option_map (λ x. x.value) s.room } };

    ghost invariant = { λ s. record {
      state : IsState s.past.value s.parts s.places s.texts s.published s.last;
      opening : s.opening ≡ s.past.value.opening;
      room : IfSome s.room (λ x. HasRoomFor s.parts x.value);
    } };
}

impl State {
    /// A site that begins with this table, to which nothing happened yet. It takes no memory.
    pub fn begin(alloc: Global, opening: Caps) -> State
        ensures history { result.history ≡ just_opened opening [] }
        ensures room { result.room ≡ None }
    {
        State {
            parts: Parts::new(alloc, opening),
            places: 0,
            texts: 0,
            published: 0,
            last: None,
            opening,
            room: None,
            past: Past::begin(opening),
        }
    }

    /// How many places the history has.
    pub fn places(&self) -> u64
        ensures value { result ≡ places self.now.history }
        ensures legal { IsLegal self.now.history }
    {
        self.places
    }

    /// How many bytes of text the history has.
    pub fn texts(&self) -> u64
        ensures value { result ≡ texts self.now.history }
        ensures few { result ≤ 536_870_912 }
    {
        self.texts
    }

    /// How many publications there were.
    pub fn published(&self) -> u32
        ensures value { result ≡ length (publications self.now.history) }
        ensures few { result ≤ 100_000 }
    {
        self.published
    }

    /// The table with which the site began.
    pub fn opening(&self) -> &Caps
        ensures { result.now ≡ self.now.history.opening }
    {
        &self.opening
    }

    /// The number of the revision.
    pub fn revision(&self) -> u32
        ensures value { result ≡ revision (records self.now.history) }
        ensures few { result ≤ 4_000_000 }
    {
        self.parts.certs.revision()
    }

    /// The account of that name.
    pub fn find(&self, name: &Name) -> Option<AccountNo>
        ensures { result ≡ number_of (accounts (records self.now.history)) name.now }
    {
        self.parts.certs.find(name)
    }

    /// The n-th of the records that changed the graph or the table, counted from 0.
    pub fn graph_record(&self, n: u32) -> &Record
        requires { n < revision (records self.now.history) }
        ensures { Some result.now ≡ slice_get (graph_records (records self.now.history)) n }
    {
        record_at(&self.parts.graph, n as usize)
    }

    /// The level that an account holds by the last publication; Observer where there is none. It takes no memory, and at most six binary searches.
    pub fn level_of(&self, account: AccountNo) -> Level
        ensures { result ≡ level_of self.now.history account }
    {
        match &self.last {
            Some(last) => last.level_of(account),
            None => Level::Observer,
        }
    }

    /// The revision of the last publication.
    pub fn last_revision(&self) -> Option<u32>
        ensures { result ≡ last_revision self.now.history }
    {
        match &self.last {
            Some(last) => Some(last.revision),
            None => None,
        }
    }

    /// The last publication.
    pub fn last(&self) -> Option<&Arc<Publication>>
        ensures { MatchOption result (last_published self.now.history ≡ None) (λ q. (p : Published) × (last_published self.now.history ≡ Some p) × StandsFor self.now.history.opening (records self.now.history) q.now.value p) }
    {
        self.last.as_ref()
    }

    /// What becomes of an act: its reply, and what it adds.
    pub fn weigh(&self, act: Act, moment: u64) -> Judged
        ensures { IsJudged self.now.history act moment result }
    {
        let Act { author, command } = act;
        match self.parts.judge_author(&author) {
            Err(reply) => Judged::Refused(reply),
            Ok(found) => self.weigh_command(found, command, moment),
        }
    }

    fn weigh_command(&self, author: Option<AccountNo>, command: Command, moment: u64) -> Judged
        requires author { IfSome author (IsAccount (site_of self.now.history).certs) }
        requires given { IsTrue (is_given command author) }
        ensures { IsWeighed (site_of self.now.history) (level_of self.now.history (number_in author)) author moment command result }
    {
        let held = self.level_of(number_in(&author));
        self.parts.weigh(held, author, command, moment)
    }

    /// Makes room for a record that may be added, so that adding it takes no memory. The history stays, whatever it answers.
    ///
    /// # Errors
    /// [`NoMemory`] where there isn't enough. There is no room then.
    pub fn reserve<L: Ledger>(
        &mut self,
        entry: &Record,
        steps: &mut Steps<L>,
    ) -> Result<(), NoMemory>
        requires { CanAdd (site_of self.old.history).certs (site_of self.old.history).posts entry.now }
        ensures room { OnOk result (self.new.room ≡ Some entry.now) }
        ensures history { self.new.history ≡ self.old.history }
    {
        self.room = None;
        self.parts.reserve(entry, steps)?;
        self.room = Some(Snapshot::of(entry));
        Ok(())
    }

    /// Opens the site with one record more, to which nothing happened yet. Whether its author might post it isn't asked again, and nobody is logged
    /// in by it.
    ///
    /// # Errors
    /// The first that applies: [`RecordFault::Bad`] exactly where the record doesn't continue those before it, [`RecordFault::Full`] exactly where
    /// it passes a limit on accounts, certificates, one text or all texts, [`RecordFault::NoMemory`]. The history is then as it was.
    pub fn open_with<L: Ledger>(
        &mut self,
        entry: Record,
        steps: &mut Steps<L>,
    ) -> Result<(), RecordFault>
        requires begun { self.old.history.entries ≡ [] }
        requires moment { IsMoment (moment_of entry) }
        requires places { places self.old.history < 4_000_000 }
        ensures ok { OnOk result (self.new.history ≡ with_opened self.old.history entry) }
        ensures refused { IfErr result (RefusesRecord self.old.history.opening self.old.history.opened entry) }
        ensures same { OnErr result (self.new.history ≡ self.old.history) }
    {
        self.parts.judge_record(&entry)?;
        let bytes = texts_in_record(&entry);
        if bytes > 536_870_912 - self.texts {
            return Err(RecordFault::Full);
        }
        self.room = None;
        self.parts.reserve(&entry, steps)?;
        self.past = Past::opened(&self.past, &entry);
        self.places += 1;
        self.texts += bytes;
        self.parts.add(entry, steps);
        Ok(())
    }

    /// Adds the entry of an act that was refused. It takes no memory and cannot fail.
    pub fn refuse(&mut self, caller: u64, act: Snapshot<Act>, reply: Reply, moment: u64, bytes: u64)
        requires reply { reply ≡ judge self.old.history act.value }
        requires refusal { is_refusal reply ≡ true }
        requires moment { IsMoment moment }
        requires places { places self.old.history < 4_000_000 }
        requires bytes { bytes ≡ texts_in act.value }
        requires texts { texts self.old.history + bytes ≤ 536_870_912 }
        ensures history { self.new.history ≡ with_entry self.old.history (Done caller act.value reply moment) }
    {
        self.past = Past::done(&self.past, caller, act, reply, moment);
        self.places += 1;
        self.texts += bytes;
    }

    /// Adds the entry and the record of an act that was accepted, for which there is room. It takes no memory and cannot fail.
    pub fn keep<L: Ledger>(
        &mut self,
        caller: u64,
        act: Snapshot<Act>,
        entry: Record,
        reply: Reply,
        moment: u64,
        bytes: u64,
        steps: &mut Steps<L>,
    )
        requires room { self.old.room ≡ Some entry }
        requires reply { reply ≡ judge self.old.history act.value }
        requires kept { is_kept reply ≡ true }
        requires entry { record_of (accounts (records self.old.history)) (author_of (accounts (records self.old.history)) act.value.author) moment act.value.command ≡ Some entry }
        requires moment { IsMoment moment }
        requires places { places self.old.history < 4_000_000 }
        requires bytes { bytes ≡ texts_in act.value }
        requires texts { texts self.old.history + bytes ≤ 536_870_912 }
        ensures history { self.new.history ≡ with_entry self.old.history (Done caller act.value reply moment) }
    {
        self.room = None;
        self.past = Past::done(&self.past, caller, act, reply, moment);
        self.places += 1;
        self.texts += bytes;
        self.parts.add(entry, steps);
    }

    /// Adds the entry of a login, and the session. It makes room for it first.
    ///
    /// # Errors
    /// [`NoMemory`] where there isn't enough. The history stays.
    pub fn log_in(
        &mut self,
        caller: u64,
        act: Snapshot<Act>,
        account: AccountNo,
        token: Token,
        moment: u64,
        bytes: u64,
    ) -> Result<(), NoMemory>
        requires judged { judge self.old.history act.value ≡ LoggedIn account }
        requires token { token_of act.value.command ≡ Some token }
        requires free { who (live self.old.history) token ≡ None }
        requires moment { IsMoment moment }
        requires places { places self.old.history < 4_000_000 }
        requires bytes { bytes ≡ texts_in act.value }
        requires texts { texts self.old.history + bytes ≤ 536_870_912 }
        ensures ok { OnOk result (self.new.history ≡ with_entry self.old.history (Done caller act.value (LoggedIn account) moment)) }
        ensures err { OnErr result (self.new.history ≡ self.old.history) }
    {
        self.room = None;
        self.parts.log_in(account, token)?;
        self.past = Past::done(&self.past, caller, act, Reply::LoggedIn(account), moment);
        self.places += 1;
        self.texts += bytes;
        Ok(())
    }

    /// Adds the entry of a logout, and ends the session. It takes no memory and cannot fail.
    pub fn log_out(
        &mut self,
        caller: u64,
        act: Snapshot<Act>,
        token: Token,
        moment: u64,
        bytes: u64,
    )
        requires judged { judge self.old.history act.value ≡ LoggedOut }
        requires token { author_token act.value.author ≡ Some token }
        requires moment { IsMoment moment }
        requires places { places self.old.history < 4_000_000 }
        requires bytes { bytes ≡ texts_in act.value }
        requires texts { texts self.old.history + bytes ≤ 536_870_912 }
        ensures { self.new.history ≡ with_entry self.old.history (Done caller act.value LoggedOut moment) }
    {
        self.room = None;
        self.parts.log_out(&token);
        self.past = Past::done(&self.past, caller, act, Reply::LoggedOut, moment);
        self.places += 1;
        self.texts += bytes;
    }

    /// The graph as it is now, and the entry of the freeze. At most two steps a block of 64 accounts, and one more.
    ///
    /// # Errors
    /// [`NoMemory`] where there isn't enough. The history stays.
    pub fn freeze<L: Ledger>(
        &mut self,
        caller: u64,
        steps: &mut Steps<L>,
    ) -> Result<Arc<Frozen>, NoMemory>
        requires newer { last_revision self.old.history ≢ Some (revision (records self.old.history)) }
        requires places { places self.old.history < 4_000_000 }
        ensures ok { OnOk result (self.new.history ≡ with_entry self.old.history (Freeze caller (revision (records self.old.history)))) }
        ensures graph { IfOk result (λ f. IsFrozenOf self.old.history.opening (records self.old.history) f.value) }
        ensures err { OnErr result (self.new.history ≡ self.old.history) }
        ensures steps { steps.new ≤ steps.old + (2 * parts_for (length (accounts (records self.old.history))) + 1) }
    {
        self.room = None;
        let graph = self.parts.certs.freeze(steps)?;
        let revision = self.parts.certs.revision();
        self.past = Past::frozen(&self.past, caller, revision);
        self.places += 1;
        Ok(graph)
    }

    /// Publishes a candidate that suits the records, and answers its number. The publication takes the place of the last one.
    ///
    /// # Errors
    /// [`NoMemory`] where there isn't enough. The history stays.
    pub fn publish(
        &mut self,
        alloc: Global,
        caller: u64,
        candidate: Candidate,
    ) -> Result<u32, NoMemory>
        requires suits { Suits self.old.history.opening (records self.old.history) candidate }
        requires newer { IsNewer (last_revision self.old.history) candidate.graph.number }
        requires few { length (publications self.old.history) < 100_000 }
        requires places { places self.old.history < 4_000_000 }
        ensures number { IfOk result (λ n. n ≡ length (publications self.old.history) + 1) }
        ensures ok { IfOk result (λ n. self.new.history ≡ with_entry self.old.history (Publish caller (published_of n candidate))) }
        ensures err { OnErr result (self.new.history ≡ self.old.history) }
    {
        vouch(&candidate);
        let number = self.published + 1;
        let revision = candidate.frozen().revision();
        let past = Past::published(&self.past, caller, number, &candidate);
        let publication = Publication {
            number,
            revision,
            candidate,
        };
        let Ok(shared) = Arc::new(alloc, publication) else {
            return Err(NoMemory);
        };
        self.last = Some(shared);
        self.past = past;
        self.published = number;
        self.places += 1;
        Ok(number)
    }

    /// Adds the entry of a fault of the keeper. It takes no memory and cannot fail.
    pub fn fail(&mut self, caller: u64)
        requires places { places self.old.history < 4_000_000 }
        ensures history { self.new.history ≡ with_entry self.old.history (KeeperFault caller) }
    {
        self.past = Past::failed(&self.past, caller);
        self.places += 1;
    }
}

/// The record at a place of a list.
fn record_at(records: &[Record], n: usize) -> &Record
    requires { n < length records.now }
    ensures { Some result.now ≡ slice_get records.now n }
{
    &records[n]
}

/// The account of an author, or the first one.
fn number_in(author: &Option<AccountNo>) -> AccountNo
    ensures { result ≡ number_in author.now }
{
    match author {
        Some(account) => *account,
        None => AccountNo(0),
    }
}

/// What a candidate's readers tell of the roster of a level: there is one for each grade of the table, and its lists prove whom it has.
fn vouch_at(candidate: &Candidate, level: Level)
    ensures grades { IsSome (lists_at candidate.now level) ↔ IsTrue (has_grade candidate.now.graph.caps level) }
    ensures sound { IfSome (lists_at candidate.now level) (IsSound candidate.now.graph level) }
{
    let _roster = candidate.roster(level);
}

/// What they tell of all of them.
fn vouch(candidate: &Candidate)
    ensures grades { (level : Grade) → IsSome (lists_at candidate.now level) ↔ IsTrue (has_grade candidate.now.graph.caps level) }
    ensures sound { (level : Grade) → IfSome (lists_at candidate.now level) (IsSound candidate.now.graph level) }
{
    vouch_at(candidate, Level::Apprentice);
    vouch_at(candidate, Level::Journeyer);
    vouch_at(candidate, Level::Master);
    vouch_at(candidate, Level::Fellow);
    vouch_at(candidate, Level::Warden);
    vouch_at(candidate, Level::Elder);
}
