//! The records with which a site is opened: which may follow others, and how one is added.

ghost use Rattle.std.specs.Prelude.{◌≡◌, ◌+◌, ◌-◌, ◌^◌, OnOk, find, is_none, length, min};
ghost use Rattle.cert_book.specs.Books.{IsAccount, book};
ghost use Rattle.postings.specs.Posts.{is_project_named};
ghost use Rattle.site_history.specs.Texts.{texts_in_record};
ghost use Rattle.site_state.specs.inner.Opening.{by_certs, by_posts, bad_unless, account_in, judged_seed, judged_unseed, judged_cert, judged_diary, judged_article, judged_reply, judged_project, judged_record};

use crate::parts::Parts;
use cert_book::CertFault;
use postings::PostFault;
use trust_types::{AccountNo, Cert, Name, NoMemory, Record, Text};

/// Why a site isn't opened with a record.
#[derive(Clone, Copy, Debug, Drop, PartialEq, Eq)]
pub enum RecordFault {
    /// It doesn't continue the records before it.
    Bad,
    /// It continues them, but passes a limit.
    Full,
    /// Memory ran out.
    NoMemory,
}

impl From<NoMemory> for RecordFault {
    ghost use Rattle.std.specs.Prelude.{◌≡◌};
    ghost use Rattle.site_state.specs.declared.opening.RecordFault.TheVariants.{NoMemory as OutOfMemory};

    ghost from_gives = { λ _ e. e ≡ OutOfMemory };

    fn from(_refusal: NoMemory) -> RecordFault {
        RecordFault::NoMemory
    }
}

impl Parts {
    /// Whether a record may be added, by its numbers and names. It takes no memory.
    pub(crate) fn judge_record(&self, entry: &Record) -> Result<(), RecordFault>
        ensures { result ≡ judged_record (book self.now.certs) self.now.posts.posts entry.now }
    {
        match entry {
            Record::Join { name, .. } => by_certs(self.certs.judge_name(name)),
            Record::Seed { subject, .. } => self.judge_seed(*subject),
            Record::Unseed { subject, .. } => self.judge_unseed(*subject),
            Record::Cert {
                author,
                subject,
                level,
                ..
            } => self.judge_cert(&Cert {
                from: *author,
                to: *subject,
                level: *level,
            }),
            Record::Table { caps, .. } => by_certs(self.certs.judge_table(caps)),
            Record::Diary { author, text, .. } => self.judge_diary(*author, text),
            Record::Article {
                author,
                title,
                text,
                ..
            } => self.judge_article(*author, title, text),
            Record::Reply {
                author,
                article,
                text,
                ..
            } => self.judge_reply(*author, *article, text),
            Record::Project {
                author,
                name,
                text,
                ..
            } => self.judge_project(*author, name, text),
        }
    }

    fn judge_account(&self, account: AccountNo) -> Result<(), RecordFault>
        ensures judged { result ≡ account_in (book self.now.certs) account }
        ensures account { OnOk result (IsAccount (book self.now.certs) account) }
    {
        bad_unless(account.0 < self.certs.accounts())
    }

    fn judge_seed(&self, subject: AccountNo) -> Result<(), RecordFault>
        ensures { result ≡ judged_seed (book self.now.certs) subject }
    {
        self.judge_account(subject)?;
        by_certs(self.certs.judge_seeding(subject))
    }

    fn judge_unseed(&self, subject: AccountNo) -> Result<(), RecordFault>
        ensures { result ≡ judged_unseed (book self.now.certs) subject }
    {
        self.judge_account(subject)?;
        by_certs(self.certs.judge_unseeding(subject))
    }

    fn judge_cert(&self, cert: &Cert) -> Result<(), RecordFault>
        ensures { result ≡ judged_cert (book self.now.certs) cert.now }
    {
        self.judge_account(cert.from)?;
        self.judge_account(cert.to)?;
        by_certs(self.certs.judge_certifying(cert))
    }

    fn judge_diary(&self, author: AccountNo, text: &Text) -> Result<(), RecordFault>
        ensures { result ≡ judged_diary (book self.now.certs) author text.now }
    {
        self.judge_account(author)?;
        by_posts(self.posts.judge_diary(text))
    }

    fn judge_article(&self, author: AccountNo, title: &Text, text: &Text) -> Result<(), RecordFault>
        ensures { result ≡ judged_article (book self.now.certs) author title.now text.now }
    {
        self.judge_account(author)?;
        by_posts(self.posts.judge_article(title, text))
    }

    fn judge_reply(&self, author: AccountNo, article: u32, text: &Text) -> Result<(), RecordFault>
        ensures { result ≡ judged_reply (book self.now.certs) self.now.posts.posts author article text.now }
    {
        self.judge_account(author)?;
        by_posts(self.posts.judge_reply(article, text))
    }

    fn judge_project(&self, author: AccountNo, name: &Name, text: &Text) -> Result<(), RecordFault>
        ensures { result ≡ judged_project (book self.now.certs) self.now.posts.posts author name.now text.now }
    {
        self.judge_account(author)?;
        bad_unless(self.is_free(name))?;
        by_posts(self.posts.judge_diary(text))
    }

    /// Whether no project has the name.
    fn is_free(&self, name: &Name) -> bool
        ensures { result ≡ is_none (find (is_project_named name.now) self.now.posts.posts) }
    {
        self.posts.project(name).is_none()
    }
}

fn bad_unless(test: bool) -> Result<(), RecordFault>
    ensures { result ≡ bad_unless test }
{
    if test { Ok(()) } else { Err(RecordFault::Bad) }
}

fn by_certs(judged: Result<(), CertFault>) -> Result<(), RecordFault>
    ensures { result ≡ by_certs judged }
{
    match judged {
        Ok(()) => Ok(()),
        Err(CertFault::AccountsFull | CertFault::CertsFull) => Err(RecordFault::Full),
        Err(_) => Err(RecordFault::Bad),
    }
}

fn by_posts(judged: Result<(), PostFault>) -> Result<(), RecordFault>
    ensures { result ≡ by_posts judged }
{
    match judged {
        Ok(()) => Ok(()),
        Err(PostFault::LongText(_)) => Err(RecordFault::Full),
        Err(_) => Err(RecordFault::Bad),
    }
}

fn size(text: &Text) -> u64
    ensures { result ≡ length text.now }
{
    text.as_str().len() as u64
}

fn two_sizes(first: u64, second: &Text) -> u64
    ensures { result ≡ min (first + length second.now) (2 ^ 64 - 1) }
{
    first.saturating_add(size(second))
}

/// How many bytes of text a record has. It saturates.
pub(crate) fn texts_in_record(entry: &Record) -> u64
    ensures { result ≡ min (texts_in_record entry.now) (2 ^ 64 - 1) }
{
    match entry {
        Record::Join { name, .. } => name.bytes().len() as u64,
        Record::Seed { .. } | Record::Unseed { .. } | Record::Cert { .. } | Record::Table { .. } =>
            0,
        Record::Diary { text, .. } | Record::Reply { text, .. } => size(text),
        Record::Article { title, text, .. } => two_sizes(size(title), text),
        Record::Project { name, text, .. } => two_sizes(name.bytes().len() as u64, text),
    }
}
