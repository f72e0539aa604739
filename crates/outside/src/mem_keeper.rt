ghost use Rattle.std.specs.Prelude.{◌≡◌, ◌↔◌, Some, map, slice_get, option_copied, IfOk, OnOk, OnErr, IsErrOf};
ghost use Rattle.outside.specs.Calls.{IsToFail, with_served};
ghost use Rattle.outside.specs.Causes.{HasCause};
ghost use Rattle.outside.specs.KeptRows.{AppendsRow, Finds, GivesNone, is_failed};
ghost use Rattle.outside.specs.Memory.{new_archive, after_append, after_failed_keeping, after_fetch};

use crate::calls::Calls;
use crate::keeper::{Fetched, KeepFault, Keeper};
use std::alloc::{AllocError, Global};
use std::marker::Model;

/// A keeper of rows in memory, some of whose calls fail. Contracts see an `Archive`.
#[derive(Drop)]
pub struct MemKeeper {
    rows: Vec<Vec<u8>>,
    calls: Calls,
    alloc: Global,
}

impl Model for MemKeeper {
    ghost use Rattle.std.specs.Prelude.{map};
    ghost use Rattle.outside.specs.Memory.{Archive};

    ghost Value = { Archive };

    ghost view = { λ s. record { rows = map (λ row. row.items) s.rows.items; calls = s.calls } };
}

impl MemKeeper {
    /// A keeper of these rows. Its calls are numbered from 0, and those with a number in `fails` fail. It takes no memory here.
    pub fn new(alloc: Global, rows: Vec<Vec<u8>>, fails: Vec<u64>) -> MemKeeper
        ensures { result ≡ new_archive (map (λ row. row.items) rows.items) fails.items }
    {
        MemKeeper {
            rows,
            calls: Calls::new(fails),
            alloc,
        }
    }

    /// The rows that it holds.
    pub fn rows(&self) -> &[Vec<u8>]
        ensures { map (λ row. row.items) result.now ≡ self.now.rows }
    {
        &self.rows
    }
}

impl Keeper for MemKeeper {
    ghost faults = { λ s. s.calls.faults };

    ghost rows = { λ s. Some s.rows };

    /// Adds one row at the end, of which it keeps a copy.
    fn append(&mut self, row: &[u8]) -> Result<(), KeepFault>
        // What each keeper does.
        ensures rows { AppendsRow (Some self.old.rows) (Some self.new.rows) result row.now }
        ensures cause { HasCause self.old.calls.faults self.new.calls.faults (is_failed result) }

        // What this one does.
        ensures fails { IsErrOf result KeepFault.Failed ↔ IsToFail self.old.calls }
        ensures ok { OnOk result (self.new ≡ after_append self.old row.now) }
        ensures failed { IsErrOf result KeepFault.Failed → self.new ≡ after_failed_keeping self.old }
        ensures no_memory { IsErrOf result KeepFault.NoMemory → self.new ≡ after_fetch self.old }
    {
        self.calls.count(true)?;
        let mut kept = Vec::new(self.alloc);
        kept.extend_from_slice(row)?;
        self.rows.reserve(1)?;
        self.rows.push_reserved(kept);
        Ok(())
    }

    /// Puts row `n` into `out`: one copy of its bytes.
    fn fetch(&mut self, n: u64, out: &mut Vec<u8>) -> Result<Fetched, KeepFault>
        // What each keeper does.
        ensures found { IfOk result (λ found. Finds (Some self.old.rows) n found out.new.items) }
        ensures rows { Some self.new.rows ≡ Some self.old.rows }
        ensures out { GivesNone result → out.new.items ≡ out.old.items }
        ensures cause { HasCause self.old.calls.faults self.new.calls.faults (is_failed result) }

        // What this one does.
        ensures fails { IsErrOf result KeepFault.Failed ↔ IsToFail self.old.calls }
        ensures failed { IsErrOf result KeepFault.Failed → self.new ≡ after_failed_keeping self.old }
        ensures served { ¬ (IsErrOf result KeepFault.Failed) → self.new ≡ after_fetch self.old }
    {
        self.calls.count(true)?;
        match row_at(&self.rows, n) {
            Some(row) => {
                put(row, out)?;
                Ok(Fetched::Row)
            }
            None => Ok(Fetched::End),
        }
    }
}

/// The row of a number, counted from 0.
fn row_at(rows: &[Vec<u8>], n: u64) -> Option<&[u8]>
    ensures { option_copied result ≡ slice_get (map (λ row. row.items) rows.now) n }
{
    match rows.get(n as usize) {
        Some(row) => Some(row),
        None => None,
    }
}

/// Puts a row in place of what `out` held. Where memory runs out, `out` is as it was.
fn put(row: &[u8], out: &mut Vec<u8>) -> Result<(), AllocError>
    ensures ok { OnOk result (out.new.items ≡ row.now) }
    ensures err { OnErr result (out.new.items ≡ out.old.items) }
{
    let missing = row.len().saturating_sub(out.len());
    out.reserve(missing)?;
    out.clear();
    // The room was reserved, so this takes no memory.
    out.extend_from_slice(row)
}
