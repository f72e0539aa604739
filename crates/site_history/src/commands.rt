use sessions::Token;
use trust_types::{Caps, Level, Secret, Text};

/// Who acts.
#[derive(Drop)]
pub enum Author {
    /// The account of this name, as a script or an operator names it.
    Named(Text),
    /// The account of this name, which is to be logged in under this token.
    Session(Text, Token),
}

/// What is asked of a site. Words are as they were given: the site judges them.
#[derive(Drop)]
pub enum Command {
    /// An account of this name joins.
    Join {
        name: Text,
        secret: Secret,
    },
    /// An account becomes a seed.
    Seed {
        subject: Text,
    },
    /// An account is a seed no more.
    Unseed {
        subject: Text,
    },
    /// The author certifies an account at a level, in place of what it said before. At Observer the certificate is withdrawn.
    Cert {
        subject: Text,
        level: Level,
    },
    /// The site has another capacity table from here on.
    Table {
        caps: Caps,
    },
    /// The author writes into its diary.
    Diary {
        text: Text,
    },
    /// The author writes an article.
    Article {
        title: Text,
        text: Text,
    },
    /// The author replies to the article of this number.
    Reply {
        article: u32,
        text: Text,
    },
    /// The author opens a project.
    Project {
        name: Text,
        text: Text,
    },
    /// An account logs in under a token, with the digest of its password as proof.
    Login {
        name: Text,
        proof: [u8; 32],
        token: Token,
    },
    /// The author's session ends.
    Logout,
}
