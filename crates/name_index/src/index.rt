//! The names of the accounts, and the number of each.

ghost use Rattle.std.specs.Prelude.{◌≡◌, ◌<◌, ◌≤◌, ◌^◌, ◌↔◌, ◌++◌, ◌∷◌, [], ℕ, List, length, vec_len, slice_get, OnOk, IfOk, OnErr, Some, None};
ghost use Rattle.trust_types.specs.Names.{IsName};
ghost use Rattle.trust_types.specs.NameLists.{number_of, AreApart};
ghost use Rattle.name_index.specs.inner.Indexes.{spread_key, IsTableOf};

use crate::key_table::{Entry, KeyTable};
use std::alloc::{AllocError, Global};
use std::collections::BTreeMap;
use std::marker::Model;
use trust_types::{AccountNo, Name, NoMemory};

/// A key times this number is spread evenly over the numbers of 128 bits, also where names are much alike. It is odd, so
/// that the products of different keys differ.
const SPREAD: u128 = 0x2360_ED05_1FC6_5DA4_4385_DF64_9FCC_F645;

/// Names that differ, in order of account number, with the number of each. Contracts see the list of the names.
#[derive(Drop)]
pub struct NameIndex {
    names: Vec<Name>,
    /// The numbers of the first names, by spread key.
    table: KeyTable,
    /// The numbers of the other names, which were pushed since the table was made, by spread key.
    recent: BTreeMap<u128, u32>,
}

impl Model for NameIndex {
    ghost use Rattle.std.specs.Prelude.{ℕ, List};
    ghost use Rattle.name_index.specs.inner.Indexes.{IsIndexed};

    ghost Value = { List (List ℕ) };

    ghost view = { λ index. index.names.items };

    ghost invariant = { λ index. IsIndexed index.names.items index.table index.recent };
}

impl NameIndex {
    /// No name yet. It takes no memory.
    pub fn new(alloc: Global) -> NameIndex
        ensures { result ≡ [] }
    {
        NameIndex {
            names: Vec::new(alloc),
            table: KeyTable::new(alloc),
            recent: BTreeMap::new(alloc),
        }
    }

    /// The names of a list that has none twice and fewer than 2^32, sorted for look-ups.
    pub fn of(alloc: Global, names: Vec<Name>) -> Result<NameIndex, NoMemory>
        requires apart { AreApart names.items }
        requires room { vec_len names < 2 ^ 32 }
        ensures { IfOk result (λ index. index ≡ names.items) }
    {
        let table = table_of(alloc, &names)?;
        Ok(NameIndex {
            names,
            table,
            recent: BTreeMap::new(alloc),
        })
    }

    /// How many names there are.
    pub fn count(&self) -> usize
        ensures value { result ≡ length self.now }
        ensures apart { AreApart self.now }
    {
        self.names.len()
    }

    /// The name of an account.
    pub fn name(&self, account: AccountNo) -> Name
        requires { account < length self.now }
        ensures { slice_get self.now account ≡ Some result }
    {
        self.names[account.index()]
    }

    /// The number of the account of that name; `None` where none has it. Among the names that were there when they were
    /// last sorted, by `of` or `settle`, it looks at one or two, and whatever they are at no more than the logarithm of
    /// their number; where it isn't one of those, it looks at as many of the others as the logarithm of theirs.
    pub fn find(&self, name: &Name) -> Option<AccountNo>
        ensures { result ≡ number_of self.now name.now }
    {
        let key = spread_key(name);
        match self.table.find(key) {
            Some(number) => Some(AccountNo(number)),
            None => match self.recent.get(&key) {
                Some(number) => Some(AccountNo(*number)),
                None => None,
            },
        }
    }

    /// Adds a new name, under the next number. Where memory runs out the names stay as they were.
    pub fn push(&mut self, name: Name) -> Result<(), NoMemory>
        requires new { number_of self.old name ≡ None }
        requires room { length self.old < 2 ^ 32 }
        ensures added { OnOk result (self.new ≡ self.old ++ name ∷ []) }
        ensures same { OnErr result (self.new ≡ self.old) }
    {
        self.names.reserve(1)?;
        self.recent
            .insert(spread_key(&name), self.names.len() as u32)?;
        self.names.push_reserved(name);
        Ok(())
    }

    /// Makes look-ups faster: call it before many of them. The names stay as they are, whatever it answers. It sorts
    /// them all where more than about a ninth of them were pushed since they were last sorted, if they are fewer than
    /// 2^32, and else does nothing, so calls between the pushes of many names take no more, all together, than a
    /// logarithm's steps a name.
    pub fn settle(&mut self) -> Result<(), NoMemory>
        ensures { self.new ≡ self.old }
    {
        let is_due = self.recent.len() > self.table.len() / 8;
        if is_due && self.names.len() <= u32::MAX as usize {
            self.table = table_of(*self.names.allocator(), &self.names)?;
            self.recent.clear();
        }
        Ok(())
    }

    /// The names in order, which are given up with their numbers.
    pub fn into_names(self) -> Vec<Name>
        ensures names { result.items ≡ self }
        ensures apart { AreApart self }
    {
        self.names
    }
}

/// The number by which the index looks a name up: its key, spread.
pub(crate) fn spread_key(name: &Name) -> u128
    ensures value { result ≡ spread_key name.now }
    ensures name { IsName name.now }
    ensures apart { (other : List ℕ) → IsName other → (spread_key other ≡ result) ↔ (other ≡ name.now) }
{
    name.key().wrapping_mul(SPREAD)
}

/// The table of all names.
fn table_of(alloc: Global, names: &[Name]) -> Result<KeyTable, AllocError>
    requires apart { AreApart names.now }
    requires room { length names.now < 2 ^ 32 }
    ensures { IfOk result (λ table. IsTableOf names.now table) }
{
    KeyTable::of(alloc, entries_of(alloc, names)?)
}

/// An entry for each name, in order of account number.
fn entries_of(alloc: Global, names: &[Name]) -> Result<Vec<Entry>, AllocError>
    requires apart { AreApart names.now }
    requires room { length names.now < 2 ^ 32 }
    ensures whole { IfOk result (λ entries. IsTableOf names.now entries.items) }
    ensures long { IfOk result (λ entries. vec_len entries ≡ length names.now) }
{
    let mut entries = Vec::with_capacity(alloc, names.len())?;
    for (number, name) in names.iter().enumerate() {
        entries.push_reserved(Entry {
            key: spread_key(name),
            number: number as u32,
        });
    }
    Ok(entries)
}
