//! The entries of a table while they are read.

ghost use Rattle.std.specs.Prelude.{◌≡◌, ◌++◌, ◌∷◌, [], ℕ, List, take, MatchOption, Ok, Err};
ghost use Rattle.text_lines.specs.declared.faults.TextKind.TheVariants.{BadNumber};
ghost use Rattle.site_lines.specs.Site.{numbers, judged};

use std::marker::Model;
use text_lines::{TextKind, Words, number};
use trust_types::Entries;

/// One more than a table has: further entries make no difference.
const ROOM: usize = 17;

/// The first 17 entries of a table. Contracts see their list.
#[derive(Drop)]
pub struct FirstEntries {
    kept: [u32; ROOM],
    len: usize,
}

impl Model for FirstEntries {
    ghost use Rattle.std.specs.Prelude.{ℕ, List, take, ◌≤◌};

    ghost Value = { List ℕ };

    ghost view = { λ entries. take entries.len entries.kept };

    ghost invariant = { λ entries. entries.len ≤ 17 };
}

impl FirstEntries {
    fn new() -> FirstEntries
        ensures { result ≡ [] }
    {
        FirstEntries {
            kept: [0; ROOM],
            len: 0,
        }
    }

    /// Adds an entry, if there is room.
    fn add(&mut self, entry: u32)
        ensures { self.new ≡ take 17 (self.old ++ entry ∷ []) }
    {
        if self.len < ROOM {
            self.kept[self.len] = entry;
            self.len += 1;
        }
    }

    /// The entries that the words write; `None` where one of them is no number.
    pub fn read(first: &[u8], others: &mut Words) -> Option<FirstEntries>
        ensures { MatchOption result (numbers (first.now ∷ others.old) ≡ Err BadNumber) (λ entries. (all : List ℕ) × (numbers (first.now ∷ others.old) ≡ Ok all) × (entries ≡ take 17 all)) }
    {
        let mut entries = FirstEntries::new();
        let Some(entry) = number(first) else {
            return None;
        };
        entries.add(entry);
        while let Some(word) = others.next_word() {
            let Some(entry) = number(word) else {
                return None;
            };
            entries.add(entry);
        }
        Some(entries)
    }

    /// Those of a table that they are, or their fault.
    pub fn judged(&self) -> Result<Entries, TextKind>
        ensures { result ≡ judged self.now }
    {
        match Entries::read(&self.kept[..self.len]) {
            Ok(entries) => Ok(entries),
            Err(fault) => Err(TextKind::of_table(fault)),
        }
    }
}
