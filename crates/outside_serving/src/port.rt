ghost use Rattle.std.specs.Prelude.{ℕ, is_err};
ghost use Rattle.outside.specs.Causes.{HasCause};
ghost use Rattle.outside_serving.specs.Ports.{CountsGiven};

use crate::link::Link;
use outside::Failed;
use std::sync::Wait;

/// Where links come from.
pub trait Port: Drop {
    /// What it gives.
    type Joined: Link;

    /// How many accepts failed. The count stands still at the last value of a `u64`.
    ghost faults: { Self → ℕ };

    /// How many links were given. The count stands still at the last value of a `u64`.
    ghost given: { Self → ℕ };

    /// Waits for the next peer, and gives the link to it.
    ///
    /// # Errors
    /// [`Failed`] where the port had a fault, which is counted; no link is given then.
    fn accept<R: Wait>(&mut self, rt: &R) -> Result<Self::Joined, Failed>
        ensures given { CountsGiven (given self.old) (given self.new) result }
        ensures cause { HasCause (faults self.old) (faults self.new) (is_err result) };
}
