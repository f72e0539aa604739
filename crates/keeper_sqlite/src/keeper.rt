ghost use Rattle.std.specs.Prelude.{◌≡◌, None, OnErr, Err};
ghost use Rattle.outside.specs.Causes.{HasCause};
ghost use Rattle.outside.specs.KeptRows.{AppendsRow, GivesNone, is_failed};
ghost use Rattle.keeper_sqlite.specs.declared.keeper.Either.TheVariants.{Unopened};

use crate::ahead::{Ahead, body_behind};
use crate::database::{fault_of, hold, insert, kept_of, make_table, select_behind};
use outside::{Fetched, KeepFault, Keeper};
use sqlite::{Connection, File, FileStore, MemStore};
use std::alloc::{AllocError, Global};
use std::rt::HostRuntime;
use trust_types::Text;

/// One of two databases, or why there is none.
#[derive(Drop)]
pub enum Either<A: Drop, B: Drop> {
    InMemory(A),
    InFile(B),
    Unopened(KeepFault),
}

/// A keeper of rows over something, with its count of faults.
#[derive(Drop)]
pub struct KeeperOver<T: Drop> {
    database: T,
    ahead: Ahead,
    faults: u64,
}

/// A keeper whose rows lie in the table `kept (seq INTEGER PRIMARY KEY, body BLOB NOT NULL)` of an SQLite database: row `n`, counted from 0, under
/// the number `n + 1`. Each call is one statement. It doesn't tell its rows to contracts: what lies in a file is the file's to say. A row that was
/// answered Ok is in the file, whatever becomes of the process after that. A file that couldn't be opened, or is no database, is a keeper whose
/// calls all fail.
pub type SqliteKeeper = KeeperOver<Either<Connection<MemStore>, Connection<FileStore<File>>>>;

fn open_in_memory(alloc: Global) -> Result<Connection<MemStore>, KeepFault> {
    let mut database = Connection::open_in_memory(alloc)?;
    make_table(&mut database)?;
    Ok(database)
}

fn open_in_file(rt: &HostRuntime, path: &str) -> Result<Connection<FileStore<File>>, KeepFault> {
    let mut database = Connection::open(rt, path).map_err(fault_of)?;
    make_table(&mut database)?;
    Ok(database)
}

/// Puts a row in place of what `out` held. Where memory runs out, `out` is as it was.
fn put(row: &[u8], out: &mut Vec<u8>) -> Result<(), AllocError>
    ensures { OnErr result (out.new.items ≡ out.old.items) }
{
    let missing = row.len().saturating_sub(out.len());
    out.reserve(missing)?;
    out.clear();
    // The room was reserved, so this takes no memory.
    out.extend_from_slice(row)
}

impl SqliteKeeper {
    /// A keeper of no rows, in memory. It has no fault yet.
    pub fn in_memory(alloc: Global) -> SqliteKeeper
        ensures { result.faults ≡ 0 }
    {
        let database = match open_in_memory(alloc) {
            Ok(database) => Either::InMemory(database),
            Err(fault) => Either::Unopened(fault),
        };
        KeeperOver {
            database,
            ahead: Ahead::new(alloc),
            faults: 0,
        }
    }

    /// A keeper of the rows in that file, which is made where there is none. It has no fault yet: a file that can't be opened, or is no database,
    /// shows at its calls.
    pub fn open_file(rt: &HostRuntime, path: &Text) -> SqliteKeeper
        ensures { result.faults ≡ 0 }
    {
        let database = match open_in_file(rt, path.as_str()) {
            Ok(database) => Either::InFile(database),
            Err(fault) => Either::Unopened(fault),
        };
        KeeperOver {
            database,
            ahead: Ahead::new(rt.alloc()),
            faults: 0,
        }
    }

    /// Counts the fault of an answer, if it is one.
    fn noted<T: Drop>(&mut self, answer: Result<T, KeepFault>) -> Result<T, KeepFault>
        ensures same { result ≡ answer }
        ensures cause { HasCause self.old.faults self.new.faults (is_failed answer) }
    {
        if let Err(KeepFault::Failed) = &answer {
            self.faults = self.faults.saturating_add(1);
        }
        answer
    }

    fn insert(&mut self, row: &[u8]) -> Result<(), KeepFault>
        ensures same { self.new.faults ≡ self.old.faults }
        ensures unopened { (fault : KeepFault) → self.old.database ≡ Unopened fault → result ≡ Err fault }
    {
        match &mut self.database {
            Either::InMemory(database) => kept_of(insert(database, row)),
            Either::InFile(database) => kept_of(insert(database, row)),
            Either::Unopened(fault) => Err(*fault),
        }
    }

    /// Reads ahead from row `n` on, which should be behind number `last`, unless row `n` was read ahead.
    fn read_ahead(&mut self, n: u64, last: i64) -> Result<(), KeepFault>
        ensures same { self.new.faults ≡ self.old.faults }
        ensures unopened { (fault : KeepFault) → self.old.database ≡ Unopened fault → result ≡ Err fault }
    {
        let answer = match &mut self.database {
            Either::Unopened(fault) => return Err(*fault),
            _ if self.ahead.row(n).is_some() => return Ok(()),
            Either::InMemory(database) => select_behind(database, last),
            Either::InFile(database) => select_behind(database, last),
        };
        hold(&mut self.ahead, n, answer)
    }

    fn find(&mut self, n: u64, out: &mut Vec<u8>) -> Result<Fetched, KeepFault>
        ensures same { self.new.faults ≡ self.old.faults }
        ensures out { GivesNone result → out.new.items ≡ out.old.items }
        ensures unopened { (fault : KeepFault) → self.old.database ≡ Unopened fault → result ≡ Err fault }
    {
        let last = i64::try_from(n).unwrap_or(i64::MAX);
        self.read_ahead(n, last)?;
        let Some(row) = self.ahead.row(n) else {
            return Ok(Fetched::End);
        };
        put(body_behind(row, last)?, out)?;
        Ok(Fetched::Row)
    }
}

impl Keeper for SqliteKeeper {
    ghost faults = { λ s. s.faults };

    ghost rows = { λ _. None };

    /// Adds one row at the end, by one statement: once it answers Ok the row is kept.
    fn append(&mut self, row: &[u8]) -> Result<(), KeepFault>
        // What each keeper does.
        ensures rows { AppendsRow None None result row.now }
        ensures cause { HasCause self.old.faults self.new.faults (is_failed result) }

        // What this one does.
        ensures unopened { (fault : KeepFault) → self.old.database ≡ Unopened fault → result ≡ Err fault }
    {
        let answer = self.insert(row);
        self.noted(answer)
    }

    /// Puts row `n` into `out`. Rows that are fetched in order are read once, 128 by a statement.
    fn fetch(&mut self, n: u64, out: &mut Vec<u8>) -> Result<Fetched, KeepFault>
        // What each keeper does.
        ensures out { GivesNone result → out.new.items ≡ out.old.items }
        ensures cause { HasCause self.old.faults self.new.faults (is_failed result) }

        // What this one does.
        ensures unopened { (fault : KeepFault) → self.old.database ≡ Unopened fault → result ≡ Err fault }
    {
        let answer = self.find(n, out);
        self.noted(answer)
    }
}

/// A keeper may be handed to another thread.
fn sendable<T: Send + 'static>(_value: &T) {}

/// Shows that a keeper may be handed to another thread.
pub fn is_sendable(keeper: &SqliteKeeper) {
    sendable(keeper);
}
