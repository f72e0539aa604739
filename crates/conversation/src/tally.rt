//! How many links were served.

ghost use Rattle.std.specs.Prelude.{◌≡◌};
ghost use Rattle.outside.specs.Causes.{one_more};

use crate::served::Served;
use outside_serving::{Count, Link};
use std::marker::{Model, PhantomData};

/// How many links were served. It counts each once, since no [`Served`] can be made or copied. Contracts see the number. No call takes memory.
#[derive(Drop)]
pub struct Tally<L: Link> {
    number: Count,
    of: PhantomData<L>,
}

impl<L: Link> Model for Tally<L> {
    ghost use Rattle.std.specs.Prelude.{ℕ};

    ghost Value = { ℕ };

    ghost view = { λ tally. tally.number };
}

impl<L: Link> Tally<L> {
    /// No link yet.
    pub fn new() -> Tally<L>
        ensures { result ≡ 0 }
    {
        Tally {
            number: Count::zero(),
            of: PhantomData,
        }
    }

    /// Counts a link that was served, and drops it. The number stands still at the last value of a `u64`.
    pub fn count(&mut self, _served: Served<L>)
        ensures { self.new ≡ one_more self.old }
    {
        self.number.rise();
    }

    /// How many links were served.
    pub fn number(&self) -> u64
        ensures { result ≡ self.now }
    {
        self.number.value()
    }
}
