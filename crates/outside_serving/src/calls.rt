//! The calls of an object in memory.
ghost use Rattle.std.specs.Prelude.{◌≡◌, ◌↔◌, ◌⊎◌, true, false, is_err, IsErr, OnOk, OnErr};
ghost use Rattle.outside.specs.Calls.{IsToFail, no_calls, with_served, with_failed};
ghost use Rattle.outside.specs.Causes.{HasCause};

use crate::counts::Count;
use outside::Failed;
use std::marker::Model;

/// The calls of one object in memory, numbered together from 0, some of which are to fail.
#[derive(Drop)]
pub struct Calls {
    fails: Vec<u64>,
    made: Count,
    faults: Count,
}

impl Model for Calls {
    ghost use Rattle.outside.specs.Calls.{Calls};

    ghost Value = { Calls };

    ghost view = { λ s. record { fails = s.fails.items; made = s.made; faults = s.faults } };
}

impl Calls {
    /// No call yet. Those with a number in `fails` are to fail.
    pub fn new(fails: Vec<u64>) -> Calls
        ensures { result ≡ no_calls fails.items }
    {
        Calls {
            fails,
            made: Count::zero(),
            faults: Count::zero(),
        }
    }

    /// Counts the next call. `Failed` comes exactly where it is to fail or can't be served.
    pub fn count(&mut self, can_serve: bool) -> Result<(), Failed>
        ensures fails { IsErr result ↔ (IsToFail self.old ⊎ (can_serve ≡ false)) }
        ensures can { OnOk result (can_serve ≡ true) }
        ensures served { OnOk result (self.new ≡ with_served self.old) }
        ensures failed { OnErr result (self.new ≡ with_failed self.old) }
        ensures cause { HasCause self.old.faults self.new.faults (is_err result) }
    {
        let is_to_fail = self.fails.contains(&self.made.value());
        self.made.rise();
        if is_to_fail || !can_serve {
            self.faults.rise();
            return Err(Failed);
        }
        Ok(())
    }
}
