//! Blocks of accounts with neighbouring numbers.

ghost use Rattle.std.specs.Prelude.{ℕ, ◌≡◌, ◌<◌, ◌≤◌, ◌+◌, ◌-◌, length, slice_get, slice_index, slice_index_or, slice_set, IfOk, OnOk, OnErr, MatchResult, Some, true, false};
ghost use Rattle.trust_types.specs.Levels.{IsGrade};
ghost use Rattle.trust_types.specs.declared.levels.Level.TheVariants.{Observer};
ghost use Rattle.trust_types.specs.Layout.{accounts as accounts_in, AreRows};
ghost use Rattle.frozen.specs.Parts.{no_part, count, marks_seed, degree_in, giver_in, taker_in, level_in, given_in, standing_in, IsPart};
ghost use Rattle.frozen.specs.Writes.{with_account, with_seed, row_of, IsPut, IsWritten};
ghost use Rattle.frozen.specs.inner.Rows.{IsFound, IsPlace};
ghost use Rattle.frozen.specs.inner.Copies.{IsCopy};

use crate::rows::{insert_reserved, lower, lowered, numbers_from, raise};
use std::alloc::Global;
use std::marker::Model;
use std::sync::ledger::Ledger;
use trust_types::{AccountNo, Cert, CertList, Level, Name, NoMemory, Steps};

/// The names, seed marks and given certificates of up to 64 accounts with neighbouring numbers. Each account has a row of
/// certificates, in rising order of taker, and the rows follow one another in two arrays. A block that others share never changes.
#[derive(Drop)]
pub struct Block {
    names: Vec<Name>,
    seeds: Vec<bool>,
    /// Who gives a row's certificates. Of an empty row it says nothing.
    givers: Vec<u32>,
    /// Where each row begins, and where the last one ends.
    starts: Vec<u32>,
    takers: Vec<AccountNo>,
    levels: Vec<Level>,
    /// Whether there is room for one account and one certificate more.
    has_room: bool,
}

impl Model for Block {
    ghost use Rattle.std.specs.Prelude.{◌≡◌, ◌<◌, ◌+◌, ◌^◌, true, vec_len, vec_capacity};
    ghost use Rattle.frozen.specs.Parts.{PartWithRoom, Part, IsPart};

    ghost Value = { PartWithRoom };

    ghost view = { λ b. record {
      part = record { names = b.names.items; seeds = b.seeds.items; givers = b.givers.items; starts = b.starts.items; takers = b.takers.items; levels = b.levels.items };
      has_room = b.has_room;
    } };

    ghost invariant = { λ b. IsPart (record { names = b.names.items; seeds = b.seeds.items; givers = b.givers.items; starts = b.starts.items; takers = b.takers.items; levels = b.levels.items })
        × (b.has_room ≡ true → (vec_len b.names < vec_capacity b.names) × (vec_len b.seeds < vec_capacity b.seeds) × (vec_len b.givers < vec_capacity b.givers)
        × (vec_len b.starts < vec_capacity b.starts) × (vec_len b.takers < vec_capacity b.takers) × (vec_len b.levels < vec_capacity b.levels) × (vec_len b.takers + 1 < 2 ^ 32)) };
}

impl Block {
    /// A block without accounts, and without room. One step.
    ///
    /// # Errors
    /// [`NoMemory`] where there isn't enough for it, and for no other cause.
    pub fn start<L: Ledger>(alloc: Global, steps: &mut Steps<L>) -> Result<Block, NoMemory>
        ensures empty { IfOk result (λ b. b.part ≡ no_part) }
        ensures room { IfOk result (λ b. b.has_room ≡ false) }
        ensures steps { steps.new ≡ steps.old + 1 }
    {
        steps.tick();
        Ok(Block {
            names: Vec::new(alloc),
            seeds: Vec::new(alloc),
            givers: Vec::new(alloc),
            starts: vec![in alloc; 0]?,
            takers: Vec::new(alloc),
            levels: Vec::new(alloc),
            has_room: false,
        })
    }

    /// The same accounts and certificates once more, in memory of their own and without room. One step, and one more an account and a
    /// certificate, whatever it answers.
    ///
    /// # Errors
    /// [`NoMemory`] where there isn't enough for the copy, and for no other cause.
    pub fn copy<L: Ledger>(&self, steps: &mut Steps<L>) -> Result<Block, NoMemory>
        ensures copied { IfOk result (λ b. b.part ≡ self.now.part) }
        ensures room { IfOk result (λ b. b.has_room ≡ false) }
        ensures steps { steps.new ≡ steps.old + (1 + count self.now.part + length self.now.part.takers) }
    {
        steps.tick();
        count_each(self.names.len(), steps);
        count_each(self.takers.len(), steps);
        let alloc = self.allocator();
        Ok(Block {
            names: Vec::from_slice(alloc, &self.names)?,
            seeds: Vec::from_slice(alloc, &self.seeds)?,
            givers: Vec::from_slice(alloc, &self.givers)?,
            starts: Vec::from_slice(alloc, &self.starts)?,
            takers: Vec::from_slice(alloc, &self.takers)?,
            levels: Vec::from_slice(alloc, &self.levels)?,
            has_room: false,
        })
    }

    /// A block of a plain graph's accounts from one on and before another, with these names and without room. One step, and one more an
    /// account and a certificate, whatever it answers.
    ///
    /// # Errors
    /// [`NoMemory`] where there isn't enough for it, and for no other cause.
    pub(crate) fn of_rows<L: Ledger>(
        alloc: Global,
        graph: &CertList,
        names: &[Name],
        first: u32,
        end: u32,
        steps: &mut Steps<L>,
    ) -> Result<Block, NoMemory>
        requires rows { AreRows graph.now }
        requires names { length names.now ≡ accounts_in graph.now }
        requires ordered { first ≤ end }
        requires few { end ≤ first + 64 }
        requires within { end ≤ accounts_in graph.now }
        ensures copied { IfOk result (λ b. IsCopy graph.now names.now first end b.part) }
        ensures steps { steps.new ≡ steps.old + (1 + (end - first) + (slice_index graph.now.starts end - slice_index graph.now.starts first)) }
    {
        let (begin, stop) = certs_between(graph, first, end);
        steps.tick();
        count_each((end - first) as usize, steps);
        count_each((stop - begin) as usize, steps);
        Ok(Block {
            names: Vec::from_slice(alloc, &names[first as usize..end as usize])?,
            seeds: Vec::from_slice(alloc, &graph.seeds()[first as usize..end as usize])?,
            givers: numbers_from(alloc, first, end)?,
            starts: lowered(
                alloc,
                &graph.starts()[first as usize..end as usize + 1],
                begin,
            )?,
            takers: Vec::from_slice(alloc, &graph.takers()[begin as usize..stop as usize])?,
            levels: Vec::from_slice(alloc, &graph.levels()[begin as usize..stop as usize])?,
            has_room: false,
        })
    }

    /// Where its memory comes from.
    pub(crate) fn allocator(&self) -> Global {
        *self.names.allocator()
    }

    /// How many accounts it has, up to 64.
    pub fn accounts(&self) -> u32
        ensures value { result ≡ count self.now.part }
        ensures part { IsPart self.now.part }
    {
        self.names.len() as u32
    }

    /// How many certificates its accounts give.
    pub fn certs(&self) -> u32
        ensures { result ≡ length self.now.part.takers }
    {
        self.takers.len() as u32
    }

    /// The name of the account in a row.
    pub fn name(&self, row: u32) -> Name
        requires { row < count self.now.part }
        ensures { slice_get self.now.part.names row ≡ Some result }
    {
        self.names[row as usize]
    }

    /// Whether the account in a row is a seed.
    pub fn is_seed(&self, row: u32) -> bool
        requires { row < count self.now.part }
        ensures { result ≡ marks_seed self.now.part row }
    {
        self.seeds[row as usize]
    }

    /// How many certificates the account in a row gives.
    pub fn degree(&self, row: u32) -> u32
        requires { row < count self.now.part }
        ensures { result ≡ degree_in self.now.part row }
    {
        self.starts[row as usize + 1] - self.starts[row as usize]
    }

    /// The i-th certificate that the account in a row gives, counted from 0, in rising order of taker.
    pub fn given(&self, row: u32, i: u32) -> Cert
        requires row { row < count self.now.part }
        requires within { i < degree_in self.now.part row }
        ensures { result ≡ given_in self.now.part row i }
    {
        let at = self.starts[row as usize] as usize + i as usize;
        Cert {
            from: AccountNo(self.givers[row as usize]),
            to: self.takers[at],
            level: self.levels[at],
        }
    }

    /// Whom the account in a row certifies, in rising order.
    pub fn takers(&self, row: u32) -> &[AccountNo]
        requires { row < count self.now.part }
        ensures count { length result.now ≡ degree_in self.now.part row }
        ensures each { (i : ℕ) → i < degree_in self.now.part row → slice_index result.now i ≡ taker_in self.now.part row i }
    {
        &self.takers[self.starts[row as usize] as usize..self.starts[row as usize + 1] as usize]
    }

    /// At which levels the account in a row certifies, in rising order of taker.
    pub fn levels(&self, row: u32) -> &[Level]
        requires { row < count self.now.part }
        ensures count { length result.now ≡ degree_in self.now.part row }
        ensures each { (i : ℕ) → i < degree_in self.now.part row → slice_index_or result.now i Observer ≡ level_in self.now.part row i }
    {
        &self.levels[self.starts[row as usize] as usize..self.starts[row as usize + 1] as usize]
    }

    /// The level at which the account in a row certifies another; Observer where it doesn't. It looks at no more than the
    /// logarithm of the row's certificates.
    pub fn standing(&self, row: u32, to: AccountNo) -> Level
        requires { row < count self.now.part }
        ensures { result ≡ standing_in self.now.part row to }
    {
        match self.search(row as usize, to) {
            Ok(i) => self.levels[self.starts[row as usize] as usize + i],
            Err(_) => Level::Observer,
        }
    }

    /// Where a taker stands in a row, or else where it would.
    fn search(&self, row: usize, to: AccountNo) -> Result<usize, usize>
        requires { row < count self.now.part }
        ensures { MatchResult result (IsFound self.now.part row to) (IsPlace self.now.part row to) }
    {
        let start = self.starts[row] as usize;
        let end = self.starts[row + 1] as usize;
        self.takers[start..end].binary_search(&to)
    }

    /// Makes room for one account and one certificate more. Any row can use it.
    ///
    /// # Errors
    /// [`NoMemory`] where there isn't enough, or where the certificates would be 2^32. The block is as it was.
    pub fn reserve(&mut self, row: u32) -> Result<(), NoMemory>
        requires { row < 64 }
        ensures room { OnOk result (self.new.has_room ≡ true) }
        ensures kept { OnErr result (self.new.has_room ≡ self.old.has_room) }
        ensures same { self.new.part ≡ self.old.part }
    {
        if self.takers.len() >= u32::MAX as usize {
            return Err(NoMemory);
        }
        self.names.reserve(1)?;
        self.seeds.reserve(1)?;
        self.givers.reserve(1)?;
        self.starts.reserve(1)?;
        self.takers.reserve(1)?;
        self.levels.reserve(1)?;
        self.has_room = true;
        Ok(())
    }

    /// Adds an account, which is no seed and gives nothing yet. It takes no memory and uses up the room. One step.
    pub fn add_account<L: Ledger>(&mut self, name: Name, steps: &mut Steps<L>)
        requires room { self.old.has_room ≡ true }
        requires few { count self.old.part < 64 }
        ensures added { self.new.part ≡ with_account self.old.part name }
        ensures ended { self.new.has_room ≡ false }
        ensures steps { steps.new ≡ steps.old + 1 }
    {
        steps.tick();
        self.names.push_reserved(name);
        self.seeds.push_reserved(false);
        self.givers.push_reserved(0);
        self.starts.push_reserved(self.takers.len() as u32);
        self.has_room = false;
    }

    /// Sets the seed mark of the account in a row. The room stays.
    pub fn set_seed(&mut self, row: u32, seed: bool)
        requires { row < count self.old.part }
        ensures set { self.new.part ≡ with_seed self.old.part row seed }
        ensures room { self.new.has_room ≡ self.old.has_room }
    {
        self.seeds[row as usize] = seed;
    }

    /// Writes a certificate into its giver's row, that of the giver's number modulo 64, in place of the one for the same taker; at
    /// Observer none stands for it then. It takes no memory and ends the room. It looks at no more than the logarithm of the row's
    /// certificates, and where their number changes it moves those behind in the block by one place. One step.
    pub fn put<L: Ledger>(&mut self, cert: Cert, steps: &mut Steps<L>)
        requires room { self.old.has_room ≡ true }
        requires row { row_of cert.from < count self.old.part }
        requires own { 0 < degree_in self.old.part (row_of cert.from) → giver_in self.old.part (row_of cert.from) ≡ cert.from }
        ensures put { IsPut self.old.part self.new.part cert }
        ensures part { IsPart self.new.part }
        ensures ended { self.new.has_room ≡ false }
        ensures steps { steps.new ≡ steps.old + 1 }
    {
        steps.tick();
        let row = cert.from.0 % 64;
        self.set_giver(row, cert.from.0);
        match self.search(row as usize, cert.to) {
            Ok(place) => {
                if cert.level.is_grade() {
                    self.replace(row as usize, place, cert.to, cert.level)
                } else {
                    self.remove(row as usize, place, cert.to, cert.level)
                }
            }
            Err(place) => {
                if cert.level.is_grade() {
                    self.insert(row as usize, place, cert.to, cert.level)
                } else {
                    self.leave(row as usize, place, cert.to, cert.level)
                }
            }
        }
    }

    /// Marks a row as a giver's.
    fn set_giver(&mut self, row: u32, giver: u32)
        requires { row < count self.old.part }
        ensures part { self.new.part ≡ record self.old.part { givers = slice_set self.old.part.givers row giver } }
        ensures room { self.new.has_room ≡ self.old.has_room }
    {
        self.givers[row as usize] = giver;
    }

    /// One certificate more.
    fn insert(&mut self, row: usize, place: usize, to: AccountNo, level: Level)
        requires room { self.old.has_room ≡ true }
        requires row { row < count self.old.part }
        requires place { IsPlace self.old.part row to place }
        requires grade { IsGrade level }
        ensures written { IsWritten self.old.part self.new.part row to level }
        ensures part { IsPart self.new.part }
        ensures ended { self.new.has_room ≡ false }
    {
        let at = self.starts[row] as usize + place;
        insert_reserved(&mut self.takers, at, to);
        insert_reserved(&mut self.levels, at, level);
        raise(&mut self.starts, row + 1);
        self.has_room = false;
    }

    /// One certificate less.
    fn remove(&mut self, row: usize, place: usize, to: AccountNo, level: Level)
        requires row { row < count self.old.part }
        requires found { IsFound self.old.part row to place }
        requires none { level ≡ Observer }
        ensures written { IsWritten self.old.part self.new.part row to level }
        ensures part { IsPart self.new.part }
        ensures ended { self.new.has_room ≡ false }
    {
        let at = self.starts[row] as usize + place;
        self.takers.remove(at);
        self.levels.remove(at);
        lower(&mut self.starts, row + 1);
        self.has_room = false;
    }

    /// The certificate at another level.
    fn replace(&mut self, row: usize, place: usize, to: AccountNo, level: Level)
        requires row { row < count self.old.part }
        requires found { IsFound self.old.part row to place }
        requires grade { IsGrade level }
        ensures written { IsWritten self.old.part self.new.part row to level }
        ensures part { IsPart self.new.part }
        ensures ended { self.new.has_room ≡ false }
    {
        let at = self.starts[row] as usize + place;
        self.levels[at] = level;
        self.has_room = false;
    }

    /// Nothing stood for the taker, and nothing is to stand.
    fn leave(&mut self, row: usize, place: usize, to: AccountNo, level: Level)
        requires row { row < count self.old.part }
        requires place { IsPlace self.old.part row to place }
        requires none { level ≡ Observer }
        ensures written { IsWritten self.old.part self.new.part row to level }
        ensures part { IsPart self.new.part }
        ensures ended { self.new.has_room ≡ false }
    {
        self.has_room = false;
    }
}

/// Where the certificates of a graph's accounts from one on and before another begin among all, and where they end.
fn certs_between(graph: &CertList, first: u32, end: u32) -> (u32, u32)
    requires rows { AreRows graph.now }
    requires ordered { first ≤ end }
    requires within { end ≤ accounts_in graph.now }
    ensures begin { result.0 ≡ slice_index graph.now.starts first }
    ensures end { result.1 ≡ slice_index graph.now.starts end }
    ensures ordered { result.0 ≤ result.1 }
    ensures within { result.1 ≤ length graph.now.takers }
{
    let starts = graph.starts();
    (starts[first as usize], starts[end as usize])
}

/// Counts a step for each of so many items that are copied at once.
fn count_each<L: Ledger>(items: usize, steps: &mut Steps<L>)
    ensures { steps.new ≡ steps.old + items }
{
    for _item in 0..items {
        steps.tick();
    }
}
