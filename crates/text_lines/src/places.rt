//! What the places of a line hold.

ghost use Rattle.std.specs.Prelude.{◌≡◌};
ghost use Rattle.std.specs.Str.{bytes_eq};
ghost use Rattle.text_lines.specs.Places.{name_in, level_in, grade_in};

use crate::faults::TextKind;
use crate::steps::fault_unless;
use trust_types::{Caps, Level, Name};

/// Whether the word is that one.
pub fn is_same(word: &[u8], other: &[u8]) -> bool
    ensures { result ≡ bytes_eq word.now other.now }
{
    word == other
}

/// The name that stands in a name's place.
///
/// # Errors
/// [`TextKind::BadName`] exactly where the word is not a name.
pub fn name_in(word: &[u8]) -> Result<Name, TextKind>
    ensures { result ≡ name_in word.now }
{
    Name::read(word).ok_or(TextKind::BadName)
}

/// The level that stands in a level's place.
///
/// # Errors
/// [`TextKind::BadLevel`] exactly where the word spells no level that the table has.
pub fn level_in(table: &Caps, word: &[u8]) -> Result<Level, TextKind>
    ensures { result ≡ level_in table.now word.now }
{
    let level = Level::of_name(word).ok_or(TextKind::BadLevel)?;
    fault_unless(table.has(level), TextKind::BadLevel)?;
    Ok(level)
}

/// The grade that stands in a grade's place.
///
/// # Errors
/// [`TextKind::BadLevel`] exactly where the word spells no grade that the table has.
pub fn grade_in(table: &Caps, word: &[u8]) -> Result<Level, TextKind>
    ensures { result ≡ grade_in table.now word.now }
{
    let level = level_in(table, word)?;
    fault_unless(level.is_grade(), TextKind::BadLevel)?;
    Ok(level)
}
