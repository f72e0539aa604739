ghost use Rattle.std.specs.Prelude.{◌≡◌, IfOk};
ghost use Rattle.trust_types.specs.Kept.{IsMoment};

use outside::Failed;
use outside_serving::{Clock, Count};
use std::io::ErrorKind;
use std::marker::Model;
use std::{io, time};
use trust_types::LAST_MOMENT;

/// A clock over one of std's.
#[derive(Drop)]
pub struct ClockOver<T: Drop> {
    clock: T,
    faults: Count,
}

/// The machine's clock. It fails where the system tells no time, or one before 1970 or past [`LAST_MOMENT`]. What it shows is not told.
pub type SystemClock = ClockOver<HostRuntime>;

impl<T: Drop> Model for ClockOver<T> {
    ghost use Rattle.std.specs.Prelude.{None};
    ghost use Rattle.outside_serving.specs.Clocks.{Dial};

    ghost Value = { Dial };

    ghost view = { λ s. record { shows = None; faults = s.faults } };
}

impl<T: time::Clock + Drop> ClockOver<T> {
    /// A clock over this one, at which nobody looked yet.
    pub fn new(clock: T) -> ClockOver<T>
        ensures { result.faults ≡ 0 }
    {
        ClockOver {
            clock,
            faults: Count::zero(),
        }
    }
}

/// The moment that a clock of std tells, in seconds after 1970. An error where it is past the last moment of a record.
fn moment_of<T: time::Clock>(clock: &T) -> io::Result<u64>
    ensures { IfOk result (λ moment. IsMoment moment) }
{
    let moment = clock.since_1970()?.as_secs();
    if moment > LAST_MOMENT {
        return Err(ErrorKind::InvalidData.into());
    }
    Ok(moment)
}

impl<T: time::Clock + Copy + Drop> Clock for ClockOver<T> {
    ghost dial = { λ s. s };

    fn now(&mut self) -> Result<u64, Failed> {
        let moment = moment_of(&self.clock);
        if moment.is_err() {
            self.faults.rise();
        }
        Ok(moment?)
    }

    fn another(&self) -> ClockOver<T> {
        ClockOver::new(self.clock)
    }
}
