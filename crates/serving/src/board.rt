//! The tally that the jobs share.

ghost use Rattle.std.specs.Prelude.{◌≡◌};

use conversation::{Served, Tally};
use outside_serving::Link;
use std::mem;
use std::sync::{Condvar, Mutex, Wait};

/// A tally under a lock.
#[derive(Drop)]
pub struct Board<L: Link> {
    tally: Mutex<Tally<L>>,
    counted: Condvar,
}

impl<L: Link> Board<L> {
    /// No link was served yet.
    pub fn new() -> Board<L> {
        Board {
            tally: Mutex::new(Tally::new()),
            counted: Condvar::new(),
        }
    }

    /// Counts a link that was served.
    pub fn count<R: Wait>(&self, rt: &R, served: Served<L>) {
        let mut tally = self.tally.lock(rt);
        tally.count(served);
        self.counted.notify_all();
    }

    /// Waits until so many links were counted, and takes the tally out of the lock.
    pub fn take<R: Wait>(&self, rt: &R, number: u64) -> Tally<L>
        ensures { result ≡ number }
    {
        let mut tally = self
            .counted
            .wait_while(rt, self.tally.lock(rt), |tally| tally.number() != number);
        mem::replace(&mut *tally, Tally::new())
    }
}
