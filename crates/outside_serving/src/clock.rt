ghost use Rattle.std.specs.Prelude.{◌≡◌, ◌↔◌, [], Some, is_err, IsErr, IfOk, OnOk, OnErr};
ghost use Rattle.outside.specs.Calls.{IsToFail, no_calls};
ghost use Rattle.outside.specs.Causes.{HasCause};
ghost use Rattle.outside_serving.specs.Clocks.{IsShown};
ghost use Rattle.outside_serving.specs.Memory.{after_look, after_failed_look};
ghost use Rattle.trust_types.specs.Kept.{IsMoment};

use crate::calls::Calls;
use outside::Failed;
use std::alloc::Global;
use std::marker::Model;

/// What tells the moment, in seconds after 1970.
pub trait Clock: Drop {
    ghost use Rattle.outside_serving.specs.Clocks.{Dial};

    /// The moment that the clock shows, where it tells that, and how many calls failed. The count stands still at the last value of a `u64`.
    ghost dial: { Self → Dial };

    /// The moment, at most [`trust_types::LAST_MOMENT`]. Where the clock tells what it shows, it is that, and no call changes it.
    ///
    /// # Errors
    /// [`Failed`] where the clock had a fault, which is counted.
    fn now(&mut self) -> Result<u64, Failed>
        ensures within { IfOk result (λ moment. IsMoment moment) }
        ensures shown { IfOk result (λ moment. IsShown (dial self.old).shows moment) }
        ensures same { (dial self.new).shows ≡ (dial self.old).shows }
        ensures cause { HasCause (dial self.old).faults (dial self.new).faults (is_err result) };

    /// Another clock that shows the same, with a count of its own from 0.
    fn another(&self) -> Self
        ensures same { (dial result).shows ≡ (dial self.now).shows }
        ensures faults { (dial result).faults ≡ 0 };
}

/// A clock in memory that stands still, some of whose calls fail. Contracts see a `Still`.
#[derive(Drop)]
pub struct StillClock {
    moment: u64,
    calls: Calls,
    alloc: Global,
}

impl Model for StillClock {
    ghost use Rattle.outside_serving.specs.Memory.{Still};
    ghost use Rattle.trust_types.specs.Kept.{IsMoment};

    ghost Value = { Still };

    ghost view = { λ s. record { moment = s.moment; calls = s.calls } };

    ghost invariant = { λ s. IsMoment s.moment };
}

impl StillClock {
    /// A clock that shows this moment. Its calls are numbered from 0, and those with a number in `fails` fail. It takes no memory.
    pub fn new(alloc: Global, moment: u64, fails: Vec<u64>) -> StillClock
        requires { IsMoment moment }
        ensures { result ≡ record { moment = moment; calls = no_calls fails.items } }
    {
        StillClock {
            moment,
            calls: Calls::new(fails),
            alloc,
        }
    }
}

impl Clock for StillClock {
    ghost use Rattle.std.specs.Prelude.{Some};

    ghost dial = { λ s. record { shows = Some s.moment; faults = s.calls.faults } };

    fn now(&mut self) -> Result<u64, Failed>
        // What each clock does.
        ensures within { IfOk result (λ moment. IsMoment moment) }
        ensures shown { IfOk result (λ moment. IsShown (Some self.old.moment) moment) }
        ensures same { Some self.new.moment ≡ Some self.old.moment }
        ensures cause { HasCause self.old.calls.faults self.new.calls.faults (is_err result) }

        // What this one does.
        ensures fails { IsErr result ↔ IsToFail self.old.calls }
        ensures ok { OnOk result (self.new ≡ after_look self.old) }
        ensures err { OnErr result (self.new ≡ after_failed_look self.old) }
    {
        self.calls.count(true)?;
        Ok(self.moment)
    }

    /// A clock that shows the same, none of whose calls is to fail. It takes no memory.
    fn another(&self) -> StillClock
        // What each clock does.
        ensures same { Some result.moment ≡ Some self.now.moment }
        ensures faults { result.calls.faults ≡ 0 }

        // What this one does.
        ensures none_fails { result.calls ≡ no_calls [] }
    {
        StillClock::new(self.alloc, self.moment, Vec::new(self.alloc))
    }
}
