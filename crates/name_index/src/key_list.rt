//! Numbers by key that come one at a time, in a sorted list.

ghost use Rattle.std.specs.Prelude.{◌≡◌, ◌<◌, ◌≤◌, ◌∷◌, [], Contains, OnOk, MatchOption, length, slice_get};
ghost use Rattle.std.specs.List.Sorted.{IsNonDecreasingBy, IsPermutation, IsPartitionPoint};
ghost use Rattle.name_index.specs.inner.KeyTables.{LacksKey};

use crate::key_table::Entry;
use std::alloc::{AllocError, Global};
use std::marker::Model;

/// Entries sorted by key, of which one more may come at a time. Contracts see the list of them, and how many more fit before memory is taken.
#[derive(Drop)]
pub struct KeyList {
    entries: Vec<Entry>,
}

impl Model for KeyList {
    ghost use Rattle.std.specs.Prelude.{◌-◌, vec_len, vec_capacity};
    ghost use Rattle.std.specs.List.Sorted.{IsNonDecreasingBy};
    ghost use Rattle.name_index.specs.Numbers.{Numbers};

    ghost Value = { Numbers };

    ghost view = { λ list. record { entries = list.entries.items; room = vec_capacity list.entries - vec_len list.entries } };

    ghost invariant = { λ list. IsNonDecreasingBy (λ entry. entry.key) list.entries.items };
}

impl KeyList {
    /// No entry yet. It takes no memory.
    pub fn new(alloc: Global) -> KeyList
        ensures { result.entries ≡ [] }
    {
        KeyList {
            entries: Vec::new(alloc),
        }
    }

    /// The entries, in order of key.
    pub fn entries(&self) -> &[Entry]
        ensures { result.now ≡ self.now.entries }
    {
        &self.entries
    }

    /// The number of an entry with that key; `None` where no entry has it. It looks at as many as the logarithm of their number.
    pub fn find(&self, key: u128) -> Option<u32>
        ensures { MatchOption result (LacksKey self.now.entries key) (λ number. Contains self.now.entries (record { key = key; number = number })) }
    {
        let entry = entry_at(&self.entries, place_of(&self.entries, key))?;
        if entry.key == key {
            Some(entry.number)
        } else {
            None
        }
    }

    /// Makes room for one more entry.
    pub fn reserve(&mut self) -> Result<(), AllocError>
        ensures room { OnOk result (0 < self.new.room) }
        ensures same { self.new.entries ≡ self.old.entries }
    {
        self.entries.reserve(1)
    }

    /// Puts one more entry in its place. It moves those behind it.
    pub fn insert(&mut self, entry: Entry)
        requires room { 0 < self.old.room }
        ensures { IsPermutation (entry ∷ self.old.entries) self.new.entries }
    {
        let place = place_of(&self.entries, entry.key);
        let _inserted = self.entries.insert(place, entry);
    }

    /// Takes all entries out, and keeps the room.
    pub fn clear(&mut self)
        ensures { self.new.entries ≡ [] }
    {
        self.entries.clear();
    }
}

/// The entry at a place; `None` past the end.
fn entry_at(entries: &[Entry], place: usize) -> Option<Entry>
    ensures { result ≡ slice_get entries.now place }
{
    entries.get(place).copied()
}

/// Where an entry with this key belongs: those before it have lesser keys, and no other has.
fn place_of(entries: &[Entry], key: u128) -> usize
    requires { IsNonDecreasingBy (λ entry. entry.key) entries.now }
    ensures within { result ≤ length entries.now }
    ensures place { IsPartitionPoint (λ entry. entry.key < key) (λ entry. key ≤ entry.key) entries.now result }
{
    entries.partition_point(|entry| entry.key < key)
}
