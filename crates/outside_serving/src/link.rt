ghost use Rattle.std.specs.Prelude.{◌<◌, ◌≤◌, length, take, MatchResult, IfOk};
ghost use Rattle.outside_serving.specs.Links.{Took, Put, Broke};

use outside::Failed;
use std::sync::Wait;

/// A peer that is read from and written to. Each call may wait, for which it takes the runtime.
pub trait Link: Drop {
    ghost use Rattle.outside_serving.specs.Links.{Line};

    /// The bytes left to read and those written, where the link tells them, and how many calls failed and how many reads answered `Ok(0)`.
    /// Both counts stand still at the last value of a `u64`.
    ghost line: { Self → Line };

    /// Takes the next bytes that are left, at most as many as `into` has places, and puts them into the first places. It answers how many, and
    /// `Ok(0)` only at the end of input. What was written stays as it was, whatever it answers.
    ///
    /// # Errors
    /// [`Failed`] where the link had a fault, which is counted; no byte is taken then.
    fn read<R: Wait>(&mut self, rt: &R, into: &mut [u8]) -> Result<usize, Failed>
        requires { 0 < length into.old }
        ensures bound { IfOk result (λ n. n ≤ length into.new) }
        ensures took { MatchResult result (λ n. Took (line self.old) (line self.new) n into.new) (λ _. Broke (line self.old) (line self.new)) };

    /// Appends the first bytes of `piece`, at least one, and answers how many. What is left to read stays as it was, whatever it answers.
    ///
    /// # Errors
    /// [`Failed`] where the link had a fault, also where it took nothing, which is counted; no byte is appended then.
    fn write<R: Wait>(&mut self, rt: &R, piece: &[u8]) -> Result<usize, Failed>
        requires { 0 < length piece.now }
        ensures bound { IfOk result (λ n. (0 < n) × (n ≤ length piece.now)) }
        ensures put { MatchResult result (λ n. Put (line self.old) (line self.new) (take n piece.now)) (λ _. Broke (line self.old) (line self.new)) };
}
