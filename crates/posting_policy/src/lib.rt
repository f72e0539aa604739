//! Which level a member has to hold to post.
#![tactic(auto)]

ghost use Rattle.std.specs.Prelude.{◌≡◌};
ghost use Rattle.posting_policy.specs.Policy.{needs, admits};

use trust_types::Level;

/// A kind of post.
#[derive(Clone, Copy, Debug, PartialEq, Eq)]
pub enum PostKind {
    /// An entry of the author's own diary.
    Diary,
    /// A reply to an article.
    Reply,
    /// A project, under a name of its own.
    Project,
    /// An article of the site.
    Article,
}

/// The lowest level that may post this: anybody may write a diary, an Apprentice may reply and open projects, a Journeyer may write articles.
pub fn needs(kind: PostKind) -> Level
    ensures { result ≡ needs kind }
{
    match kind {
        PostKind::Diary => Level::Observer,
        PostKind::Reply | PostKind::Project => Level::Apprentice,
        PostKind::Article => Level::Journeyer,
    }
}

/// Whether who holds this level may post this: it is the needed level or one above.
pub fn admits(kind: PostKind, held: Level) -> bool
    ensures { result ≡ admits kind held }
{
    held >= needs(kind)
}
