//! The line between a site and what is claimed of it.

ghost use Rattle.std.specs.Prelude.{◌≡◌, true, IfOk};
ghost use Rattle.trust_types.specs.Levels.{IsGrade};
ghost use Rattle.trust_types.specs.Tables.{has_level};
ghost use Rattle.text_lines.specs.Words.{words};
ghost use Rattle.claim_lines.specs.Claim.{begins_with_level, is_level_line, level_form, level_line};

use text_lines::{TextKind, Words, fault_unless, grade_in, is_line, is_same};
use trust_types::{Caps, Level};

/// Whether the line ends the site: it is one whose first word is `level`. Of another line it looks at the first word alone.
pub fn is_level_line(line: &[u8]) -> bool
    ensures { result ≡ is_level_line line.now }
{
    begins_with_level(line) && is_line(line)
}

fn begins_with_level(line: &[u8]) -> bool
    ensures { result ≡ begins_with_level (words line.now) }
{
    match Words::of(line).next_word() {
        Some(word) => is_same(word, b"level"),
        None => false,
    }
}

/// The grade of a line `level GRADE`, which the table has.
///
/// # Errors
/// [`TextKind::BadLine`] where the line has another form, and then [`TextKind::BadLevel`] where its second word spells no
/// grade that the table has.
#[tactic(auto, unfolding(crate::specs::Claim::level_line))]
pub fn read_level(table: &Caps, line: &[u8]) -> Result<Level, TextKind>
    ensures level { result ≡ level_line table.now line.now }
    ensures grade { IfOk result IsGrade }
    ensures has { IfOk result (λ level. has_level table.now level ≡ true) }
{
    fault_unless(is_level_line(line), TextKind::BadLine)?;
    grade_of(table, &mut Words::of(line))
}

/// The grade that the second of two words spells.
fn grade_of(table: &Caps, words: &mut Words) -> Result<Level, TextKind>
    ensures level { result ≡ level_form table.now words.old }
    ensures grade { IfOk result IsGrade }
    ensures has { IfOk result (λ level. has_level table.now level ≡ true) }
{
    let _keyword = words.first()?;
    grade_in(table, words.one()?)
}
