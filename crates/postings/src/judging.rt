ghost use Rattle.std.specs.Prelude.{◌≡◌};
ghost use Rattle.postings.specs.Judged.{fits};

use trust_types::{LONGEST_TEXT, Text};

/// Why a post is refused.
#[derive(Clone, Copy, Debug, PartialEq, Eq)]
pub enum PostFault {
    /// There is no article of that number.
    NoSuchArticle,
    /// The word is no name.
    BadName,
    /// The project of this number has the name.
    NameTaken(u32),
    /// The text or title has this many bytes, which is more than [`LONGEST_TEXT`].
    LongText(u64),
}

/// Whether a text or title is within its limit.
///
/// # Errors
/// [`PostFault::LongText`] with its length exactly where it has more than [`LONGEST_TEXT`] bytes.
pub(crate) fn fits(text: &Text) -> Result<(), PostFault>
    ensures { result ≡ fits text.now }
{
    let length = text.as_str().len();
    if length <= LONGEST_TEXT {
        Ok(())
    } else {
        Err(PostFault::LongText(length as u64))
    }
}
