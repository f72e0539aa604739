ghost use Rattle.std.specs.Prelude.{◌≡◌, ◌<◌, ◌≤◌, ℕ, List, Option, length, is_err, IfOk};
ghost use Rattle.std.specs.Io.KnownBytes.{IsAtEnd};
ghost use Rattle.outside.specs.Bytes.{TakesBytes, CountsEnds};
ghost use Rattle.outside.specs.Causes.{HasCause};

use crate::failed::Failed;

/// Where bytes come from.
pub trait Source: Drop {
    /// How many reads failed. The count stands still at the last value of a `u64`.
    ghost faults: { Self → ℕ };

    /// How many reads answered `Ok(0)`. The count stands still at the last value of a `u64`.
    ghost ends: { Self → ℕ };

    /// The bytes that are left to read, where the source tells them.
    ghost left: { Self → Option (List ℕ) };

    /// Takes the next bytes that are left, at most as many as `into` has places, and puts them into
    /// the first places. It answers how many, and `Ok(0)` only at the end of input. `Failed` comes
    /// where the source had a fault, and takes no byte.
    fn read(&mut self, into: &mut [u8]) -> Result<usize, Failed>
        requires { 0 < length into.old }
        ensures bound { IfOk result (λ n. n ≤ length into.new) }
        ensures bytes { TakesBytes (left self.old) (left self.new) result into.new }
        ensures end { IfOk result (λ n. n ≡ 0 → IsAtEnd (left self.new)) }
        ensures ends { CountsEnds (ends self.old) (ends self.new) result }
        ensures cause { HasCause (faults self.old) (faults self.new) (is_err result) };
}
