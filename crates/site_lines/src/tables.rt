//! A site's first line, and its second where that says how many levels there are.

ghost use Rattle.std.specs.Prelude.{◌≡◌, IfOk};
ghost use Rattle.trust_types.specs.Tables.{IsLevelCount};
ghost use Rattle.text_lines.specs.Words.{words};
ghost use Rattle.site_lines.specs.Site.{caps_line, caps_form, entries_in, count_of, begins_with_levels, is_levels_line, levels_form, levels_line};

use crate::entries::FirstEntries;
use text_lines::{TextKind, Words, fault_unless, is_line, is_same, number};
use trust_types::{Entries, FEWEST_LEVELS, MOST_LEVELS};

/// The entries of a line `caps default`, or `caps` and the entries of a table.
///
/// # Errors
/// The line's fault: of several kinds the first in the order of [`TextKind`].
#[tactic(auto, unfolding(crate::specs::Site::caps_line))]
pub fn read_entries(line: &[u8]) -> Result<Entries, TextKind>
    ensures { result ≡ caps_line line.now }
{
    if !is_line(line) {
        return Err(TextKind::BadLine);
    }
    let mut words = Words::of(line);
    match words.next_word() {
        Some(word) if is_same(word, b"caps") => entries_in(&mut words),
        _ => Err(TextKind::BadLine),
    }
}

/// The entries that the words behind `caps` write.
fn entries_in(words: &mut Words) -> Result<Entries, TextKind>
    ensures { result ≡ entries_in words.old }
{
    let Some(first) = words.next_word() else {
        return Err(TextKind::Empty);
    };
    if is_same(first, b"default") {
        return match words.next_word() {
            None => Ok(Entries::standard()),
            Some(_) => Err(TextKind::BadNumber),
        };
    }
    match FirstEntries::read(first, words) {
        Some(entries) => entries.judged(),
        None => Err(TextKind::BadNumber),
    }
}

/// Whether the line is one whose first word is `levels`. Of another line it looks at the first word alone.
pub fn is_levels_line(line: &[u8]) -> bool
    ensures { result ≡ is_levels_line line.now }
{
    begins_with_levels(line) && is_line(line)
}

fn begins_with_levels(line: &[u8]) -> bool
    ensures { result ≡ begins_with_levels (words line.now) }
{
    match Words::of(line).next_word() {
        Some(word) => is_same(word, b"levels"),
        None => false,
    }
}

/// The number of levels of a line `levels NUMBER`: [`FEWEST_LEVELS`] to [`MOST_LEVELS`].
///
/// # Errors
/// [`TextKind::BadLine`] where the line has another form, [`TextKind::BadNumber`] where its second word is no number, and
/// [`TextKind::BadCount`] where it is a number that is out of that range.
#[tactic(auto, unfolding(crate::specs::Site::levels_line))]
pub fn read_levels(line: &[u8]) -> Result<u32, TextKind>
    ensures levels { result ≡ levels_line line.now }
    ensures within { IfOk result (λ levels. IsLevelCount levels) }
{
    fault_unless(is_levels_line(line), TextKind::BadLine)?;
    levels_form(&mut Words::of(line))
}

/// The number behind the first word.
fn levels_form(words: &mut Words) -> Result<u32, TextKind>
    ensures levels { result ≡ levels_form words.old }
    ensures within { IfOk result (λ levels. IsLevelCount levels) }
{
    let _keyword = words.first()?;
    count_of(words.one()?)
}

/// The number of levels that a word writes.
fn count_of(word: &[u8]) -> Result<u32, TextKind>
    ensures count { result ≡ count_of word.now }
    ensures within { IfOk result (λ count. IsLevelCount count) }
{
    let count = number(word).ok_or(TextKind::BadNumber)?;
    let within = FEWEST_LEVELS <= count && count <= MOST_LEVELS;
    fault_unless(within, TextKind::BadCount)?;
    Ok(count)
}
