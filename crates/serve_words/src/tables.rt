//! The table of the option `--caps`.

ghost use Rattle.std.specs.Prelude.{◌≡◌, ◌<◌, ◌∷◌, [], IfOk, IfSome, MatchOption, length, option_map};
ghost use Rattle.std.specs.List.{slice_split};
ghost use Rattle.serve_words.specs.Plans.{entries_of, is_comma, table_of};

use std::alloc::Global;
use text_lines::number;
use trust_types::{Caps, NoMemory};

/// What stands before the first comma of a text, and what stands behind it.
fn at_comma(text: &str) -> Option<(&str, &str)>
    ensures parts { MatchOption result (slice_split is_comma text.now ≡ text.now ∷ []) (λ parts. slice_split is_comma text.now ≡ parts.0.now ∷ slice_split is_comma parts.1.now) }
    ensures shorter { IfSome result (λ parts. length parts.1.now < length text.now) }
{
    text.split_once(',')
}

/// The numbers that the parts of a text between its commas write; `None` where one of them is no number.
fn entries_of(alloc: Global, text: &str) -> Result<Option<Vec<u32>>, NoMemory>
    ensures { IfOk result (λ entries. option_map (λ entries. entries.items) entries ≡ entries_of text.now) }
{
    let mut entries = Vec::new(alloc);
    let mut rest = text;
    while let Some((part, others)) = at_comma(rest) {
        let Some(entry) = number(part.as_bytes()) else {
            return Ok(None);
        };
        entries.push(entry)?;
        rest = others;
    }
    let Some(entry) = number(rest.as_bytes()) else {
        return Ok(None);
    };
    entries.push(entry)?;
    Ok(Some(entries))
}

/// The table that a value of `--caps` is, or the standard one where there is none; `None` where the value is no table.
///
/// # Errors
/// [`NoMemory`] where there isn't enough for the entries.
pub fn table_of(alloc: Global, value: Option<&str>) -> Result<Option<Caps>, NoMemory>
    ensures { IfOk result (λ table. table ≡ table_of (option_map (λ text. text.now) value.entry)) }
{
    let Some(text) = value else {
        return Ok(Some(Caps::standard()));
    };
    match entries_of(alloc, text)? {
        Some(entries) => Ok(Caps::read(&entries).ok()),
        None => Ok(None),
    }
}
