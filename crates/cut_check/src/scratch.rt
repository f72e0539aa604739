ghost use Rattle.std.specs.Prelude.{◌≡◌, IfOk};

use distances::Queue;
use std::alloc::Global;
use std::marker::Model;
use trust_types::{NoMemory, Side};

/// The room that a check works in: five numbers an account. Contracts see for how many accounts it was reserved.
#[derive(Drop)]
pub struct Scratch {
    pub(crate) into: Vec<u64>,
    pub(crate) out: Vec<u64>,
    pub(crate) sides: Vec<Side>,
    pub(crate) capacities: Vec<u32>,
    pub(crate) queue: Queue,
}

impl Model for Scratch {
    ghost use Rattle.std.specs.Prelude.{ℕ, vec_len};
    ghost use Rattle.cut_check.specs.inner.Places.{HavePlaces};

    ghost Value = { ℕ };

    ghost view = { λ s. s.queue };

    ghost invariant = { λ s. HavePlaces s.queue (vec_len s.into) (vec_len s.out) (vec_len s.sides) (vec_len s.capacities) };
}

impl Scratch {
    /// Room for proofs of at most so many accounts. It takes all its memory here.
    ///
    /// # Errors
    /// [`NoMemory`] where there isn't enough.
    pub fn reserve(alloc: Global, accounts: u32) -> Result<Scratch, NoMemory>
        ensures { IfOk result (λ s. s ≡ accounts) }
    {
        let count = accounts as usize;
        Ok(Scratch {
            into: vec![in alloc; 0; count]?,
            out: vec![in alloc; 0; count]?,
            sides: vec![in alloc; Side::Outside; count]?,
            capacities: vec![in alloc; 0; count]?,
            queue: Queue::reserve(alloc, accounts)?,
        })
    }
}
