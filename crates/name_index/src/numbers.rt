//! The number of each name of a list that is kept elsewhere.

ghost use Rattle.std.specs.Prelude.{◌≡◌, ◌<◌, ◌++◌, ◌∷◌, [], ℕ, List, None, OnOk, IfOk, length};
ghost use Rattle.std.specs.List.Sorted.{IsPermutation};
ghost use Rattle.trust_types.specs.NameLists.{number_of};
ghost use Rattle.name_index.specs.Numbers.{AreNumbersOf};

use crate::index::spread_key;
use crate::key_list::KeyList;
use crate::key_table::{Entry, KeyTable};
use std::alloc::{AllocError, Global};
use std::marker::Model;
use trust_types::{Name, NoMemory};

/// The number of each name of a list that is kept elsewhere: its place there. Contracts tie it to that list by `AreNumbersOf`, and see how many
/// more names fit before memory is taken.
#[derive(Drop)]
pub struct NameNumbers {
    /// The numbers of the names that were there when the table was made.
    table: KeyTable,
    /// The numbers of the others.
    recent: KeyList,
}

impl Model for NameNumbers {
    ghost use Rattle.std.specs.Prelude.{◌++◌};
    ghost use Rattle.name_index.specs.Numbers.{Numbers};

    ghost Value = { Numbers };

    ghost view = { λ numbers. record { entries = numbers.table ++ numbers.recent.entries; room = numbers.recent.room } };
}

impl NameNumbers {
    /// The numbers of no names. It takes no memory.
    pub fn new(alloc: Global) -> NameNumbers
        ensures { AreNumbersOf [] result.entries }
    {
        NameNumbers {
            table: KeyTable::new(alloc),
            recent: KeyList::new(alloc),
        }
    }

    /// The number of the name; `None` where the list hasn't it. It looks at one or two of the table's entries, whatever the names are at no
    /// more than the logarithm of their number, and at as many of the others as the logarithm of theirs.
    pub fn find(&self, name: &Name) -> Option<u32>
        ensures { (names : List (List ℕ)) → AreNumbersOf names self.now.entries → result ≡ number_of names name.now }
    {
        let key = spread_key(name);
        match self.table.find(key) {
            Some(number) => Some(number),
            None => self.recent.find(key),
        }
    }

    /// Makes room for one more name. The numbers are of the same names, whatever it answers. Where some eight times the square root of the
    /// table's length were pushed since it was made, it is made anew: that sorts all of them, and takes memory for as many.
    ///
    /// # Errors
    /// [`NoMemory`] where there isn't enough.
    pub fn reserve(&mut self) -> Result<(), NoMemory>
        ensures room { OnOk result (0 < self.new.room) }
        ensures same { (names : List (List ℕ)) → AreNumbersOf names self.old.entries → AreNumbersOf names self.new.entries }
    {
        self.settle()?;
        Ok(self.recent.reserve()?)
    }

    /// Adds a name that comes next in the list, under the next number. It takes no memory and cannot fail.
    pub fn push(&mut self, name: &Name, number: u32)
        requires room { 0 < self.old.room }
        ensures { (names : List (List ℕ)) → AreNumbersOf names self.old.entries → number_of names name.now ≡ None → number ≡ length names →
            AreNumbersOf (names ++ name.now ∷ []) self.new.entries }
    {
        self.recent.insert(Entry {
            key: spread_key(name),
            number,
        });
    }

    /// Whether so many names are in the list that it pays to make the table anew: more than some eight times the square root of the table's length.
    fn is_due(&self) -> bool {
        let recent = self.recent.entries().len() as u128;
        recent * recent > 64 * (self.table.len() as u128 + 1)
    }

    /// Makes the table anew of all names, if it is due and they are fewer than 2^32.
    fn settle(&mut self) -> Result<(), AllocError>
        ensures { (names : List (List ℕ)) → AreNumbersOf names self.old.entries → AreNumbersOf names self.new.entries }
    {
        if self.is_due() {
            let alloc = self.table.allocator();
            let entries = self.entries(alloc)?;
            if entries.len() <= u32::MAX as usize {
                self.table = KeyTable::of(alloc, entries)?;
                self.recent.clear();
            }
        }
        Ok(())
    }

    /// All entries.
    fn entries(&self, alloc: Global) -> Result<Vec<Entry>, AllocError>
        ensures { IfOk result (λ entries. entries.items ≡ self.now.entries) }
    {
        let mut entries = self.table.entries(alloc)?;
        entries.extend_from_slice(self.recent.entries())?;
        Ok(entries)
    }
}
