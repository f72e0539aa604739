//! The answers to acts, as output lines.

ghost use Rattle.std.specs.Prelude.{◌≡◌, ◌++◌, codes, decimal};
ghost use Rattle.trust_types.specs.Levels.{level_name};
ghost use Rattle.site_history.specs.Words.{kind_word, reply_words};

use crate::outputs::{Line, numbered, put_level, text};
use posting_policy::PostKind;
use site_history::Reply;
use trust_types::{AccountNo, Level};

/// The line of a reply.
pub(crate) fn reply_line(reply: Reply) -> Line
    ensures { result.bytes ≡ reply_words reply }
{
    match reply {
        Reply::Joined(AccountNo(number)) => numbered("joined ", u64::from(number)),
        Reply::Revised(revision) => numbered("revision ", u64::from(revision)),
        Reply::Posted(kind, number) => posted_line(kind, number),
        Reply::LoggedIn(AccountNo(number)) => numbered("logged in ", u64::from(number)),
        Reply::LoggedOut => text("logged out"),
        Reply::NoSession => text("no session"),
        Reply::NoSuchAuthor => text("no such author"),
        Reply::BadName => text("bad name"),
        Reply::NameTaken(number) => numbered("name taken ", u64::from(number)),
        Reply::AccountsFull => text("accounts full"),
        Reply::NoSuchAccount => text("no such account"),
        Reply::SelfCert => text("self cert"),
        Reply::NoSuchLevel(levels) => numbered("no such level ", u64::from(levels)),
        Reply::Same => text("same"),
        Reply::CertsFull => text("certificates full"),
        Reply::NotSeed => text("not a seed"),
        Reply::LastSeed => text("last seed"),
        Reply::LevelsFall(levels) => numbered("levels fall ", u64::from(levels)),
        Reply::NoSuchArticle => text("no such article"),
        Reply::LongText(length) => numbered("long text ", length),
        Reply::WrongPassword => text("wrong password"),
        Reply::TokenTaken => text("token taken"),
        Reply::SessionsFull => text("sessions full"),
        Reply::Denied(held, needed) => denied_line(held, needed),
        Reply::NotSteward => text("not a steward"),
        Reply::Fault => text("keeper fault"),
    }
}

fn posted_line(kind: PostKind, number: u32) -> Line
    ensures { result.bytes ≡ codes "posted " ++ (kind_word kind ++ (codes " " ++ decimal number)) }
{
    let number = u64::from(number);
    match kind {
        PostKind::Diary => numbered("posted diary ", number),
        PostKind::Reply => numbered("posted reply ", number),
        PostKind::Project => numbered("posted project ", number),
        PostKind::Article => numbered("posted article ", number),
    }
}

fn denied_line(held: Level, needed: Level) -> Line
    ensures { result.bytes ≡ codes "denied " ++ (level_name held ++ (codes " needs " ++ level_name needed)) }
{
    let mut line = Line::new();
    line.push_str("denied ");
    put_level(&mut line, held);
    line.push_str(" needs ");
    put_level(&mut line, needed);
    line
}
