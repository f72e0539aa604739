//! The entries of a capacity table.

ghost use Rattle.std.specs.Prelude.{◌≡◌, ◌≤◌, ◌↔◌, IsOk, nat_lt};
ghost use Rattle.std.specs.List.{list_any};
ghost use Rattle.trust_types.specs.Tables.{AreEntries, rises, judged_entries, standard_entries};
ghost use Rattle.trust_types.specs.Capacity.{entry_at};

use crate::limits::{GREATEST_ENTRY, MOST_ENTRIES};
use crate::tables::CapsFault;
use std::marker::Model;

/// The entries of a capacity table: 1 to [`MOST_ENTRIES`], each 1 to [`GREATEST_ENTRY`], none greater than the one before,
/// and the last 1. Contracts see their list.
#[derive(Clone, Copy, Debug, PartialEq, Eq)]
pub struct Entries {
    entries: [u32; MOST_ENTRIES],
    len: usize,
}

impl Model for Entries {
    ghost use Rattle.std.specs.Prelude.{ℕ, List, length, take};
    ghost use Rattle.std.proofs.Common.{sym};

    ghost Value = { List ℕ };

    ghost use Rattle.trust_types.specs.inner.Padded.{IsPadded, padded};
    ghost use Rattle.trust_types.specs.Tables.{AreEntries};
    ghost use Rattle.trust_types.specs.declared.limits.TheConstants.{MOST_ENTRIES};

    ghost view = { λ a. take a.len a.entries };

    ghost invariant = { λ a. AreEntries (take a.len a.entries) × IsPadded MOST_ENTRIES a.entries a.len };

    ghost inverse = { λ list. record { entries = padded MOST_ENTRIES list; len = length list } };

    ghost inverse_ok = { λ a h i. record { entries = sym h.1.rest i; len = h.1.long i } };
}

/// Whether an entry is above the greatest that a table may have.
fn exceeds(entries: &[u32]) -> bool
    ensures { result ≡ list_any (λ entry. nat_lt GREATEST_ENTRY entry) entries.now }
{
    entries.iter().any(|entry| GREATEST_ENTRY < *entry)
}

/// Whether an entry is above the one before.
fn rises(entries: &[u32]) -> bool
    ensures { result ≡ rises entries.now }
{
    entries
        .iter()
        .zip(entries.iter().skip(1))
        .any(|(before, after)| before < after)
}

impl Entries {
    /// The entries of a list that is one of a table's.
    ///
    /// # Errors
    /// The first fault that they have, in the order of [`CapsFault`].
    #[tactic(auto, using(crate::proofs::TableTests::table_tests))]
    pub fn read(entries: &[u32]) -> Result<Entries, CapsFault>
        ensures judged { result ≡ judged_entries entries.now }
        ensures accepted { IsOk result ↔ AreEntries entries.now }
    {
        let Some(last) = entries.last() else {
            return Err(CapsFault::Empty);
        };
        if entries.len() > MOST_ENTRIES {
            return Err(CapsFault::Long);
        }
        if entries.contains(&0) {
            return Err(CapsFault::Zero);
        }
        if exceeds(entries) {
            return Err(CapsFault::Large);
        }
        if rises(entries) {
            return Err(CapsFault::Rises);
        }
        if *last != 1 {
            return Err(CapsFault::EndNotOne);
        }
        Ok(Entries::keep(entries))
    }

    fn keep(kept: &[u32]) -> Entries
        requires { AreEntries kept.now }
        ensures { result ≡ kept.now }
    {
        let mut entries = [0; MOST_ENTRIES];
        entries[..kept.len()].copy_from_slice(kept);
        Entries {
            entries,
            len: kept.len(),
        }
    }

    /// Those that a site has unless it is told others: 800, 200, 50, 12, 4, 2 and 1.
    pub fn standard() -> Entries
        ensures { result ≡ standard_entries }
    {
        Entries::keep(&[800, 200, 50, 12, 4, 2, 1])
    }

    /// The entry at a distance, or the last one past the end.
    pub fn at(&self, distance: u32) -> u32
        ensures entry { result ≡ entry_at self.now distance }
        ensures least { 1 ≤ result }
        ensures most { result ≤ GREATEST_ENTRY }
        ensures entries { AreEntries self.now }
    {
        let place = (self.len - 1).min(distance as usize);
        self.entries[place]
    }

    /// The entries in order.
    pub fn as_slice(&self) -> &[u32]
        ensures all { result.now ≡ self.now }
        ensures entries { AreEntries self.now }
    {
        &self.entries[..self.len]
    }
}
