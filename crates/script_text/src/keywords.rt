ghost use Rattle.std.specs.Prelude.{◌≡◌};
ghost use Rattle.script_text.specs.Keywords.{keyword_of, spelling};

use text_lines::is_same;

/// What form a line of a script has.
#[derive(Clone, Copy)]
pub(crate) enum Keyword {
    Moment,
    Join,
    Seed,
    Unseed,
    Cert,
    Table,
    Diary,
    Article,
    Reply,
    Project,
    Login,
    Logout,
    Freeze,
    Solve,
    Publish,
    Look,
    Level,
}

/// All forms. Most lines of a long script are the first ones.
const KEYWORDS: [Keyword; 17] = [
    Keyword::Cert,
    Keyword::Join,
    Keyword::Seed,
    Keyword::Unseed,
    Keyword::Table,
    Keyword::Moment,
    Keyword::Diary,
    Keyword::Article,
    Keyword::Reply,
    Keyword::Project,
    Keyword::Login,
    Keyword::Logout,
    Keyword::Freeze,
    Keyword::Solve,
    Keyword::Publish,
    Keyword::Look,
    Keyword::Level,
];

impl Keyword {
    /// The form of the lines with that first word; `None` where there is none.
    pub fn of(word: &[u8]) -> Option<Keyword>
        ensures { result ≡ keyword_of word.now }
    {
        KEYWORDS
            .iter()
            .copied()
            .find(|keyword| is_same(keyword.spelling(), word))
    }

    /// How its first word is spelled.
    fn spelling(self) -> &'static [u8]
        ensures { result.now ≡ spelling self }
    {
        match self {
            Keyword::Moment => b"moment",
            Keyword::Join => b"join",
            Keyword::Seed => b"seed",
            Keyword::Unseed => b"unseed",
            Keyword::Cert => b"cert",
            Keyword::Table => b"table",
            Keyword::Diary => b"diary",
            Keyword::Article => b"article",
            Keyword::Reply => b"reply",
            Keyword::Project => b"project",
            Keyword::Login => b"login",
            Keyword::Logout => b"logout",
            Keyword::Freeze => b"freeze",
            Keyword::Solve => b"solve",
            Keyword::Publish => b"publish",
            Keyword::Look => b"look",
            Keyword::Level => b"level",
        }
    }
}
