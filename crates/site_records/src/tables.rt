//! The two values of a table.

ghost use Rattle.std.specs.Prelude.{◌≡◌, ◌≤◌, ◌==◌, ◌++◌, ◌∷◌, [], MatchResult, length, IfOk};
ghost use Rattle.std.specs.List.{slice_split};
ghost use Rattle.trust_types.specs.Tables.{IsLevelCount, judged_entries};
ghost use Rattle.site_records.specs.declared.faults.RowFault.TheVariants.{NotARow};
ghost use Rattle.site_records.specs.inner.Reading.{levels_in, entries_in, judged};
ghost use Rattle.site_records.specs.inner.Entering.{pieces, bytes_left};

use crate::faults::RowFault;
use crate::fields::place_of;
use crate::parts::{number_in, unless_not};
use std::marker::Model;
use trust_types::{Entries, FEWEST_LEVELS, GREATEST_ENTRY, MOST_ENTRIES, MOST_LEVELS};

/// How many levels a table has.
pub fn levels_in(value: &[u8]) -> Result<u32, RowFault>
    ensures levels { result ≡ levels_in value.now }
    ensures within { IfOk result (λ levels. IsLevelCount levels) }
{
    let levels = number_in(MOST_LEVELS as u64, value)? as u32;
    unless_not(FEWEST_LEVELS <= levels)?;
    Ok(levels)
}

/// Entries while they are read: as many as a table can have. Contracts see their list.
#[derive(Drop)]
struct FirstEntries {
    kept: [u32; MOST_ENTRIES],
    len: usize,
}

impl Model for FirstEntries {
    ghost use Rattle.std.specs.Prelude.{ℕ, List, take, ◌≤◌};

    ghost Value = { List ℕ };

    ghost view = { λ entries. take entries.len entries.kept };

    ghost invariant = { λ entries. entries.len ≤ 16 };
}

impl FirstEntries {
    fn new() -> FirstEntries
        ensures { result ≡ [] }
    {
        FirstEntries {
            kept: [0; MOST_ENTRIES],
            len: 0,
        }
    }

    /// Adds an entry. There is no room for one that no table has.
    fn push(&mut self, entry: u32) -> Result<(), RowFault>
        ensures { MatchResult result (λ _. self.new ≡ self.old ++ entry ∷ []) (λ fault. (fault ≡ NotARow) × (length self.old ≡ MOST_ENTRIES)) }
    {
        if self.len == MOST_ENTRIES {
            return Err(RowFault::NotARow);
        }
        self.kept[self.len] = entry;
        self.len += 1;
        Ok(())
    }

    /// The entries of a table that they are.
    fn judged(&self) -> Result<Entries, RowFault>
        ensures { result ≡ judged (judged_entries self.now) }
    {
        match Entries::read(&self.kept[..self.len]) {
            Ok(entries) => Ok(entries),
            Err(_) => Err(RowFault::NotARow),
        }
    }
}

/// The bytes before the first `+`, and those behind it.
fn cut(values: &[u8]) -> (&[u8], Option<&[u8]>)
    ensures pieces { slice_split (λ b. b == 43) values.now ≡ result.0.now ∷ pieces result.1 }
    ensures shorter { bytes_left result.1 ≤ length values.now }
{
    let place = place_of(b'+', values);
    if place == values.len() {
        (values, None)
    } else {
        (&values[..place], Some(&values[place + 1..]))
    }
}

/// The entries of a table, each behind a `+` but the first.
pub fn entries_in(value: &[u8]) -> Result<Entries, RowFault>
    ensures { result ≡ entries_in value.now }
{
    let mut entries = FirstEntries::new();
    let mut rest = Some(value);
    while let Some(values) = rest {
        let (entry, others) = cut(values);
        entries.push(number_in(GREATEST_ENTRY as u64, entry)? as u32)?;
        rest = others;
    }
    entries.judged()
}
