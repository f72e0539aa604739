ghost use Rattle.std.specs.Prelude.{◌≡◌, ◌+◌, [], Some, None, IfOk, OnOk, OnErr, is_some, length, if◌then◌else◌};
ghost use Rattle.pair_map.specs.Pairs.{value_at, IsSet, Rises};

use std::alloc::Global;
use std::collections::BTreeMap;
use std::collections::btree_map::IntoIter;
use std::marker::Model;
use trust_types::NoMemory;

/// Values by pairs of numbers. Contracts see the list of its entries, in rising order of pair. Each look-up and each
/// change takes time as the logarithm of their number.
#[derive(Drop)]
pub struct PairMap<V> {
    entries: BTreeMap<(u32, u32), V>,
}

impl<V> Model for PairMap<V> {
    ghost use Rattle.pair_map.specs.Pairs.{Pairs};

    ghost Value = { Pairs V };

    ghost view = { λ map. map.entries.entries };
}

impl<V: Copy + Drop> PairMap<V> {
    /// A map without entries. It takes no memory.
    pub fn new(alloc: Global) -> PairMap<V>
        ensures { result ≡ [] }
    {
        PairMap {
            entries: BTreeMap::new(alloc),
        }
    }

    /// How many entries there are.
    pub fn len(&self) -> usize
        ensures { result ≡ length self.now }
    {
        self.entries.len()
    }

    /// The value at the pair; `None` where it has none.
    pub fn get(&self, a: u32, b: u32) -> Option<V>
        ensures { result ≡ value_at self.now a b }
    {
        self.entries.get(&(a, b)).copied()
    }

    /// Whether the pair has a value.
    pub fn contains(&self, a: u32, b: u32) -> bool
        ensures { result ≡ is_some (value_at self.now a b) }
    {
        self.entries.contains_key(&(a, b))
    }

    /// Puts a value at the pair, in place of the one before, and gives that back.
    ///
    /// # Errors
    /// [`NoMemory`] where there isn't enough for one more entry: then the map is as it was.
    pub fn insert(&mut self, a: u32, b: u32, value: V) -> Result<Option<V>, NoMemory>
        ensures before { IfOk result (λ before. before ≡ value_at self.old a b) }
        ensures set { OnOk result (IsSet self.old self.new a b (Some value)) }
        ensures count { IfOk result (λ before. length self.new ≡ length self.old + (if is_some before then 0 else 1)) }
        ensures same { OnErr result (self.new ≡ self.old) }
    {
        Ok(self.entries.insert((a, b), value)?)
    }

    /// Takes the value away from the pair, and gives it back.
    pub fn remove(&mut self, a: u32, b: u32) -> Option<V>
        ensures before { result ≡ value_at self.old a b }
        ensures set { IsSet self.old self.new a b None }
        ensures count { length self.new + (if is_some result then 1 else 0) ≡ length self.old }
    {
        self.entries.remove(&(a, b))
    }

    /// The entries in rising order of pair.
    pub fn into_pairs(self) -> IntoIter<(u32, u32), V, Global>
        ensures all { result ≡ self }
        ensures rises { Rises self }
    {
        self.entries.into_iter()
    }
}
