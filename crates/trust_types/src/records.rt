use crate::accounts::AccountNo;
use crate::levels::Level;
use crate::names::Name;
use crate::tables::Caps;
use crate::texts::Text;

/// What is kept of an account's password.
#[derive(Clone, Copy, Debug, PartialEq, Eq)]
pub enum Secret {
    /// The account has none.
    Absent,
    /// A digest of 256 bits, as its bytes.
    Digest([u8; 32]),
}

/// What is kept of an accepted command. A moment is a number of seconds after 1970.
#[derive(Debug, Drop)]
pub enum Record {
    /// An account joins, under the next number.
    Join {
        moment: u64,
        name: Name,
        secret: Secret,
    },
    /// An account becomes a seed.
    Seed {
        moment: u64,
        subject: AccountNo,
    },
    /// An account is a seed no more.
    Unseed {
        moment: u64,
        subject: AccountNo,
    },
    /// An account certifies another, in place of what it said before.
    Cert {
        moment: u64,
        author: AccountNo,
        subject: AccountNo,
        level: Level,
    },
    /// The site has another capacity table from here on.
    Table {
        moment: u64,
        caps: Caps,
    },
    /// An entry of the author's diary.
    Diary {
        moment: u64,
        author: AccountNo,
        text: Text,
    },
    /// An article of the site, under the next number.
    Article {
        moment: u64,
        author: AccountNo,
        title: Text,
        text: Text,
    },
    /// A reply to an article, by its number.
    Reply {
        moment: u64,
        author: AccountNo,
        article: u32,
        text: Text,
    },
    /// A project, under a name of its own.
    Project {
        moment: u64,
        author: AccountNo,
        name: Name,
        text: Text,
    },
}
