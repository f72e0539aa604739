//! Numbers by key, in a sorted table that is cut into buckets.

ghost use Rattle.std.specs.Prelude.{◌≡◌, ◌<◌, ◌≤◌, ◌^◌, length, map, vec_len, Contains, IfOk, MatchOption, []};
ghost use Rattle.std.specs.List.{AllWithin, zip};
ghost use Rattle.std.specs.List.Sorted.{IsNonDecreasing, IsPermutation};
ghost use Rattle.name_index.specs.inner.KeyTables.{bucket_of, entries_of, IsStart, AreBucketStarts, LacksKey};

use std::alloc::{AllocError, Global};
use std::marker::Model;

/// A number, and the key under which it is found.
#[derive(Clone, Copy)]
pub struct Entry {
    pub key: u128,
    pub number: u32,
}

/// Entries for look-ups by key. Contracts see the list of them.
///
/// They are sorted by key, and cut into as many buckets as there are entries: the upper half of a key tells its bucket.
/// So a bucket has one or two entries where keys are spread evenly over all numbers.
#[derive(Drop)]
pub struct KeyTable {
    keys: Vec<u128>,
    /// The number of each key. Apart from them, so that more keys fit the cache.
    numbers: Vec<u32>,
    /// Where each bucket begins among the keys, and where the last ends. It may be empty where no key is.
    starts: Vec<u32>,
}

impl Model for KeyTable {
    ghost use Rattle.std.specs.Prelude.{List};
    ghost use Rattle.name_index.specs.declared.key_table.Entry.{Entry};
    ghost use Rattle.name_index.specs.inner.KeyTables.{entries_of, IsBucketed};

    ghost Value = { List Entry };

    ghost view = { λ table. entries_of table.keys.items table.numbers.items };

    ghost invariant = { λ table. IsBucketed table.keys.items table.numbers.items table.starts.items };
}

impl KeyTable {
    /// No entry yet. It takes no memory.
    pub fn new(alloc: Global) -> KeyTable
        ensures { result ≡ [] }
    {
        KeyTable {
            keys: Vec::new(alloc),
            numbers: Vec::new(alloc),
            starts: Vec::new(alloc),
        }
    }

    /// The table of such entries, of which there are fewer than 2^32. It sorts them.
    pub fn of(alloc: Global, mut entries: Vec<Entry>) -> Result<KeyTable, AllocError>
        requires { vec_len entries < 2 ^ 32 }
        ensures { IfOk result (λ table. IsPermutation entries.items table) }
    {
        entries.sort_unstable_by_key(|entry| entry.key);
        let keys = keys_of(alloc, &entries)?;
        let numbers = numbers_of(alloc, &entries)?;
        let starts = starts_of(alloc, &keys)?;
        Ok(KeyTable {
            keys,
            numbers,
            starts,
        })
    }

    /// How many entries there are.
    pub fn len(&self) -> usize
        ensures { result ≡ length self.now }
    {
        self.keys.len()
    }

    /// Its allocator.
    pub fn allocator(&self) -> Global {
        *self.keys.allocator()
    }

    /// The entries once more, in order of key.
    pub fn entries(&self, alloc: Global) -> Result<Vec<Entry>, AllocError>
        ensures { IfOk result (λ entries. entries.items ≡ self.now) }
    {
        entries_in(alloc, &self.keys, &self.numbers)
    }

    /// The number of an entry with that key; `None` where no entry has it. It looks at the entries of one bucket, and of
    /// many there at no more than their logarithm.
    pub fn find(&self, key: u128) -> Option<u32>
        ensures { MatchOption result (LacksKey self.now key) (λ number. Contains self.now (record { key = key; number = number })) }
    {
        if self.keys.is_empty() {
            return None;
        }
        let bucket = bucket_of(key, self.keys.len());
        let start = self.starts[bucket] as usize;
        let end = self.starts[bucket + 1] as usize;
        match self.keys[start..end].binary_search(&key) {
            Ok(place) => Some(self.numbers[start + place]),
            Err(_) => None,
        }
    }
}

fn entries_in(alloc: Global, keys: &[u128], numbers: &[u32]) -> Result<Vec<Entry>, AllocError>
    ensures { IfOk result (λ entries. entries.items ≡ map (λ pair. record { key = pair.0; number = pair.1 }) (zip keys.now numbers.now)) }
{
    keys.iter()
        .zip(numbers)
        .map(|(key, number)| Entry {
            key: *key,
            number: *number,
        })
        .collect(alloc)
}

fn keys_of(alloc: Global, entries: &[Entry]) -> Result<Vec<u128>, AllocError>
    ensures { IfOk result (λ keys. keys.items ≡ map (λ entry. entry.key) entries.now) }
{
    entries.iter().map(|entry| entry.key).collect(alloc)
}

fn numbers_of(alloc: Global, entries: &[Entry]) -> Result<Vec<u32>, AllocError>
    ensures { IfOk result (λ numbers. numbers.items ≡ map (λ entry. entry.number) entries.now) }
{
    entries.iter().map(|entry| entry.number).collect(alloc)
}

/// The bucket of a key, of so many.
fn bucket_of(key: u128, buckets: usize) -> usize
    requires { 0 < buckets }
    ensures is { result ≡ bucket_of buckets key }
    ensures below { result < buckets }
{
    ((key >> 64) * buckets as u128 >> 64) as usize
}

/// Where each bucket of sorted keys begins, and where the last ends.
fn starts_of(alloc: Global, keys: &[u128]) -> Result<Vec<u32>, AllocError>
    requires rising { IsNonDecreasing keys.now }
    requires room { length keys.now < 2 ^ 32 }
    ensures all { IfOk result (λ starts. AreBucketStarts keys.now starts.items) }
    ensures long { IfOk result (λ starts. length keys.now < vec_len starts) }
{
    let mut starts = Vec::with_capacity(alloc, keys.len() + 1)?;
    let mut start = 0;
    for bucket in 0..keys.len() + 1 {
        start = start_of(keys, bucket, start);
        starts.push_reserved(start as u32);
    }
    Ok(starts)
}

/// Where a bucket begins, at that place or later.
fn start_of(keys: &[u128], bucket: usize, from: usize) -> usize
    requires rising { IsNonDecreasing keys.now }
    requires inside { from ≤ length keys.now }
    requires before { AllWithin (λ key. bucket_of (length keys.now) key < bucket) keys.now 0 from }
    ensures { IsStart keys.now bucket result }
{
    let mut start = from;
    while start < keys.len() && bucket_of(keys[start], keys.len()) < bucket {
        start += 1;
    }
    start
}
