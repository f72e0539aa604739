ghost use Rattle.std.specs.Prelude.{◌≡◌, Some};
ghost use Rattle.site_history.specs.Words.{kind_word, refusal_words, reply_words};

use posting_policy::PostKind;
use std::fmt;
use trust_types::{AccountNo, Level};

/// What a site answers to an act. All but the first five and `Fault` refuse it, and then nothing is changed.
#[derive(Clone, Copy, Debug, PartialEq, Eq)]
pub enum Reply {
    /// An account has joined, under this number.
    Joined(AccountNo),
    /// The graph or the table has changed; this is the revision's number now.
    Revised(u32),
    /// A post was added, under this number: of diary entries by author, of replies by article, of articles and projects over the site.
    Posted(PostKind, u32),
    /// The account of this number is logged in.
    LoggedIn(AccountNo),
    /// The author's session has ended.
    LoggedOut,
    /// The author isn't logged in under its token.
    NoSession,
    /// The author has no account.
    NoSuchAuthor,
    /// The word is no name.
    BadName,
    /// The account or project of this number has the name.
    NameTaken(u32),
    /// There are as many accounts as a site may have.
    AccountsFull,
    /// There is no account of that name.
    NoSuchAccount,
    /// No account certifies itself.
    SelfCert,
    /// The table in force hasn't the level; it has this many levels.
    NoSuchLevel(u32),
    /// It is so already.
    Same,
    /// There are as many standing certificates as a site may have.
    CertsFull,
    /// The account is no seed.
    NotSeed,
    /// The account is the only seed.
    LastSeed,
    /// The new table has fewer levels than the one in force, which has this many.
    LevelsFall(u32),
    /// There is no article of that number.
    NoSuchArticle,
    /// The text or title has this many bytes, which is too many.
    LongText(u64),
    /// The account has no password, or another one.
    WrongPassword,
    /// A live session has the token.
    TokenTaken,
    /// There are as many live sessions as a site may have.
    SessionsFull,
    /// The author holds the first level, and the post needs the second, which is above it.
    Denied(Level, Level),
    /// The author is no seed, and seeds alone change seeds and the table.
    NotSteward,
    /// The keeper failed. The command was accepted, but what it would have added wasn't kept, so it isn't there.
    Fault,
}

/// Why an act got no reply. The site is as it was, and the history has no entry of it.
#[derive(Clone, Copy, Debug, PartialEq, Eq)]
pub enum Refusal {
    /// The history has as many places as it may have.
    HistoryFull,
    /// The texts of the act are more than fit; the history's have this many bytes.
    TextFull(u64),
    /// Memory ran out.
    NoMemory,
}

/// A reply, or a refusal.
pub type Answer = Result<Reply, Refusal>;

/// The word of a kind of post.
fn kind_word(kind: PostKind) -> &'static str
    ensures { result.now ≡ kind_word kind }
{
    match kind {
        PostKind::Diary => "diary",
        PostKind::Reply => "reply",
        PostKind::Project => "project",
        PostKind::Article => "article",
    }
}

impl fmt::Display for Reply {
    ghost output = { λ reply. Some (reply_words reply) };

    fn fmt<W: fmt::Write>(&self, f: &mut fmt::Formatter<W>) -> fmt::Result {
        match *self {
            Reply::Joined(AccountNo(number)) => write!(f, "joined {number}"),
            Reply::Revised(revision) => write!(f, "revision {revision}"),
            Reply::Posted(kind, number) => {
                let kind = kind_word(kind);
                write!(f, "posted {kind} {number}")
            }
            Reply::LoggedIn(AccountNo(number)) => write!(f, "logged in {number}"),
            Reply::LoggedOut => write!(f, "logged out"),
            Reply::NoSession => write!(f, "no session"),
            Reply::NoSuchAuthor => write!(f, "no such author"),
            Reply::BadName => write!(f, "bad name"),
            Reply::NameTaken(number) => write!(f, "name taken {number}"),
            Reply::AccountsFull => write!(f, "accounts full"),
            Reply::NoSuchAccount => write!(f, "no such account"),
            Reply::SelfCert => write!(f, "self cert"),
            Reply::NoSuchLevel(levels) => write!(f, "no such level {levels}"),
            Reply::Same => write!(f, "same"),
            Reply::CertsFull => write!(f, "certificates full"),
            Reply::NotSeed => write!(f, "not a seed"),
            Reply::LastSeed => write!(f, "last seed"),
            Reply::LevelsFall(levels) => write!(f, "levels fall {levels}"),
            Reply::NoSuchArticle => write!(f, "no such article"),
            Reply::LongText(length) => write!(f, "long text {length}"),
            Reply::WrongPassword => write!(f, "wrong password"),
            Reply::TokenTaken => write!(f, "token taken"),
            Reply::SessionsFull => write!(f, "sessions full"),
            Reply::Denied(held, needed) => write!(f, "denied {held} needs {needed}"),
            Reply::NotSteward => write!(f, "not a steward"),
            Reply::Fault => write!(f, "keeper fault"),
        }
    }
}

impl fmt::Display for Refusal {
    ghost output = { λ refusal. Some (refusal_words refusal) };

    fn fmt<W: fmt::Write>(&self, f: &mut fmt::Formatter<W>) -> fmt::Result {
        match *self {
            Refusal::HistoryFull => write!(f, "history full"),
            Refusal::TextFull(bytes) => write!(f, "text full {bytes}"),
            Refusal::NoMemory => write!(f, "out of memory"),
        }
    }
}
