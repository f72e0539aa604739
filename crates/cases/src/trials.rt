ghost use Rattle.std.specs.Prelude.{◌≤◌};

use crate::asked::Asked;
use commands::Status;
use outside::{MemKeeper, MemSink, MemSource};
use site_runs::{Kept, Ran, run};
use std::alloc::Global;
use trust_types::NoMemory;

/// The size of the pieces in which each run is tried first, and the others.
const PIECE: usize = 65_536;

const OTHERS: [usize; 2] = [7, 1];

/// What a run wrote, how it ended, the rows that its keeper had then, and whether it did otherwise in pieces of another size.
#[derive(Drop)]
pub struct Told {
    pub status: Status,
    pub written: Vec<u8>,
    pub rows: Vec<Vec<u8>>,
    pub differs: bool,
}

/// A copy of rows.
pub fn copy_of(alloc: Global, rows: &[Vec<u8>]) -> Result<Vec<Vec<u8>>, NoMemory> {
    let mut copy = Vec::new(alloc);
    for row in rows {
        copy.push(row.to_vec(alloc)?)?;
    }
    Ok(copy)
}

/// How a run ended, and a copy of the rows that its keeper has.
fn ended(alloc: Global, ran: Ran<MemKeeper>) -> Result<(Status, Vec<Vec<u8>>), NoMemory> {
    let status = ran.status;
    let rows = match ran.kept {
        Kept::Keeper(keeper) => copy_of(alloc, keeper.rows()),
        Kept::Book(book) => copy_of(alloc, book.keeper().rows()),
    };
    Ok((status, rows?))
}

impl Asked<'_> {
    /// Runs it over these bytes, and a keeper of these rows.
    pub fn try_out(&self, alloc: Global, bytes: &[u8], rows: &[Vec<u8>]) -> Result<Told, NoMemory> {
        if let Some(piece) = self.piece {
            return self.run_in(alloc, bytes, rows, piece.max(1));
        }
        let mut told = self.run_in(alloc, bytes, rows, PIECE)?;
        for piece in OTHERS {
            let other = self.run_in(alloc, bytes, rows, piece.max(1))?;
            if other.status != told.status
                || other.written != told.written
                || other.rows != told.rows
            {
                told.differs = true;
            }
        }
        Ok(told)
    }

    /// Runs it in pieces of this size, and `check` over what it wrote where that is asked for.
    fn run_in(
        &self,
        alloc: Global,
        bytes: &[u8],
        rows: &[Vec<u8>],
        piece: usize,
    ) -> Result<Told, NoMemory>
        requires { 1 ≤ piece }
    {
        let mut input = bytes.to_vec(alloc)?;
        if input.len() < self.length {
            input.resize(self.length, b'.')?;
        }
        let told = self.run_over(alloc, &self.words, input, rows, piece)?;
        if self.is_checked {
            return self.run_over(alloc, &["check"], told.written, rows, piece);
        }
        Ok(told)
    }

    fn run_over(
        &self,
        alloc: Global,
        words: &[&str],
        input: Vec<u8>,
        rows: &[Vec<u8>],
        piece: usize,
    ) -> Result<Told, NoMemory>
        requires { 1 ≤ piece }
    {
        let mut source = MemSource::new(input, piece, self.reads.to_vec(alloc)?);
        let mut sink = MemSink::new(alloc, self.room, piece, self.writes.to_vec(alloc)?)?;
        let keeper = MemKeeper::new(alloc, copy_of(alloc, rows)?, self.keeps.to_vec(alloc)?);
        let (status, rows) = ended(alloc, run(alloc, words, &mut source, &mut sink, keeper))?;
        Ok(Told {
            status,
            written: sink.bytes().to_vec(alloc)?,
            rows,
            differs: false,
        })
    }
}
