//! The log of a link.

ghost use Rattle.std.specs.Prelude.{◌≡◌, ◌<◌, ◌++◌, ◌∷◌, [], length, slice_get, Some, IfOk};

use std::alloc::Global;
use std::marker::Model;
use trust_types::NoMemory;

/// The most requests that are answered on one link.
pub const MOST_EXCHANGES: u32 = 10_000;

/// By what a request was answered.
#[derive(Clone, Copy, Debug, PartialEq, Eq)]
pub enum Kind {
    /// By the reply to its act, which has its entry at this place of the site's history.
    Entry(u64),
    /// By what so many first places of the history show, or that they leave no room for its act.
    Prefix(u64),
    /// By the publication of this number, which was the last one; 0 where there was none.
    Shown(u32),
    /// By a page in which nothing of the site is shown.
    Fixed,
}

/// A request that was answered: how many bytes it had, and by what it was answered.
#[derive(Clone, Copy, Debug, PartialEq, Eq)]
pub struct Exchange {
    pub used: u64,
    pub kind: Kind,
}

/// The exchanges of a link, in order. Contracts see the list.
#[derive(Drop)]
pub struct LinkLog {
    rows: Vec<Exchange>,
}

impl Model for LinkLog {
    ghost use Rattle.std.specs.Prelude.{List};
    ghost use Rattle.exchanges.specs.declared.logs.Exchange.{Exchange};

    ghost Value = { List Exchange };

    ghost view = { λ log. log.rows.items };
}

impl LinkLog {
    /// No exchange. It takes no memory.
    pub fn new(alloc: Global) -> LinkLog
        ensures { result ≡ [] }
    {
        LinkLog {
            rows: Vec::new(alloc),
        }
    }

    /// How many exchanges there are.
    pub fn count(&self) -> u64
        ensures { result ≡ length self.now }
    {
        self.rows.len() as u64
    }

    /// The exchange at place `n`, counted from 0.
    pub fn at(&self, n: u64) -> &Exchange
        requires { n < length self.now }
        ensures { slice_get self.now n ≡ Some result.now }
    {
        &self.rows[n as usize]
    }
}

/// A log with room for all exchanges that a link may have. Contracts see those that it has.
#[derive(Drop)]
pub struct Room {
    rows: Vec<Exchange>,
}

impl Model for Room {
    ghost use Rattle.std.specs.Prelude.{List, ◌≤◌, vec_capacity};
    ghost use Rattle.exchanges.specs.declared.logs.Exchange.{Exchange};

    ghost Value = { List Exchange };

    ghost view = { λ log. log.rows.items };

    ghost invariant = { λ log. 10000 ≤ vec_capacity log.rows };
}

impl Room {
    /// Room for [`MOST_EXCHANGES`], the only memory that a log takes.
    ///
    /// # Errors
    /// [`NoMemory`] where there isn't enough.
    pub fn reserve(alloc: Global) -> Result<Room, NoMemory>
        ensures { IfOk result (λ log. log ≡ []) }
    {
        Ok(Room {
            rows: Vec::with_capacity(alloc, MOST_EXCHANGES as usize)?,
        })
    }

    /// Logs one more.
    pub fn push(&mut self, exchange: Exchange)
        requires { length self.old < MOST_EXCHANGES }
        ensures { self.new ≡ self.old ++ exchange ∷ [] }
    {
        self.rows.push_reserved(exchange);
    }

    /// The log.
    pub fn close(self) -> LinkLog
        ensures { result ≡ self }
    {
        LinkLog { rows: self.rows }
    }
}
