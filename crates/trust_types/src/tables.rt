//! Capacity tables.

ghost use Rattle.std.specs.Prelude.{◌≡◌, ◌≤◌, ◌↔◌, IsOk};
ghost use Rattle.trust_types.specs.Tables.{AreEntries, IsTable, IsLevelCount, judged_table, standard_table, table_with, has_level};
ghost use Rattle.trust_types.specs.Capacity.{entry};

use crate::entries::Entries;
use crate::levels::Level;
use crate::limits::{FEWEST_LEVELS, GREATEST_ENTRY, MOST_ENTRIES, MOST_LEVELS};
use std::marker::Model;
use thiserror::Error;

/// Why a number of levels and a list of entries are no capacity table. Of several faults the first of this list counts.
#[derive(Clone, Copy, Debug, Drop, PartialEq, Eq, Error)]
pub enum CapsFault {
    /// The number of levels isn't 2 to 7.
    #[error("there aren't {FEWEST_LEVELS} to {MOST_LEVELS} levels")]
    Levels,
    /// There is no entry.
    #[error("the table has no entry")]
    Empty,
    /// There are more than 16 entries.
    #[error("the table has more than {MOST_ENTRIES} entries")]
    Long,
    /// An entry is 0.
    #[error("an entry is 0")]
    Zero,
    /// An entry is above 2,000.
    #[error("an entry is above {GREATEST_ENTRY}")]
    Large,
    /// An entry is above the one before.
    #[error("an entry is above the one before")]
    Rises,
    /// The last entry is not 1.
    #[error("the last entry is not 1")]
    EndNotOne,
}

/// A capacity table: how many levels a site has, [`FEWEST_LEVELS`] to [`MOST_LEVELS`], and the capacity of a node by its distance from
/// the root. Contracts see the number and the list of entries.
#[derive(Clone, Copy, Debug, PartialEq, Eq)]
pub struct Caps {
    levels: u32,
    entries: Entries,
}

impl Model for Caps {
    ghost use Rattle.trust_types.specs.Tables.{Table, IsLevelCount};

    ghost Value = { Table };

    ghost view = { λ caps. record { levels = caps.levels; entries = caps.entries } };

    ghost invariant = { λ caps. IsLevelCount caps.levels };

    ghost inverse = { λ table. record { levels = table.levels; entries = table.entries } };
}

impl Caps {
    /// The table of four levels that the entries are.
    ///
    /// # Errors
    /// The first fault that they have, in the order of [`CapsFault`].
    pub fn read(entries: &[u32]) -> Result<Caps, CapsFault>
        ensures judged { result ≡ judged_table 4 entries.now }
        ensures accepted { IsOk result ↔ AreEntries entries.now }
    {
        Caps::with_levels(4, entries)
    }

    /// The table of so many levels that the entries are.
    ///
    /// # Errors
    /// The first fault that there is, in the order of [`CapsFault`]: [`CapsFault::Levels`] exactly where there aren't
    /// [`FEWEST_LEVELS`] to [`MOST_LEVELS`] levels, and then those of the entries.
    pub fn with_levels(levels: u32, entries: &[u32]) -> Result<Caps, CapsFault>
        ensures judged { result ≡ judged_table levels entries.now }
        ensures accepted { IsOk result ↔ (IsLevelCount levels × AreEntries entries.now) }
    {
        if levels < FEWEST_LEVELS || MOST_LEVELS < levels {
            return Err(CapsFault::Levels);
        }
        match Entries::read(entries) {
            Ok(entries) => Ok(Caps::of(levels, entries)),
            Err(fault) => Err(fault),
        }
    }

    /// The table of so many levels with these entries.
    pub fn of(levels: u32, entries: Entries) -> Caps
        requires { IsLevelCount levels }
        ensures { result ≡ table_with levels entries }
    {
        Caps { levels, entries }
    }

    /// The table that a site has unless it is told another: four levels, and 800, 200, 50, 12, 4, 2 and 1.
    pub fn standard() -> Caps
        ensures { result ≡ standard_table }
    {
        Caps {
            levels: 4,
            entries: Entries::standard(),
        }
    }

    /// How many levels there are.
    pub fn levels(&self) -> u32
        ensures value { result ≡ self.now.levels }
        ensures within { IsLevelCount result }
    {
        self.levels
    }

    /// Whether the level is one of the table's: those are the first ones of the order.
    pub fn has(&self, level: Level) -> bool
        ensures { result ≡ has_level self.now level }
    {
        level.rank() < self.levels
    }

    /// The capacity of a node at a distance from the root: the entry there, or the last one past the end.
    pub fn at(&self, distance: u32) -> u32
        ensures entry { result ≡ entry self.now distance }
        ensures least { 1 ≤ result }
        ensures most { result ≤ GREATEST_ENTRY }
        ensures table { IsTable self.now }
    {
        self.entries.at(distance)
    }

    /// Its entries, of which the first is the root's.
    pub fn entries(&self) -> &[u32]
        ensures all { result.now ≡ self.now.entries }
        ensures table { IsTable self.now }
    {
        self.entries.as_slice()
    }
}
