//! Reading a whole input.
ghost use Rattle.std.specs.Prelude.{◌≡◌, ◌≤◌, ◌+◌, take, drop, vec_len, IfOk, OnOk, OnErr, IsErrOf};
ghost use Rattle.std.specs.Io.KnownBytes.{IsAtEnd};
ghost use Rattle.outside.specs.Bytes.{TakesBytes, CountsEnds, TakesAll, TakesCount, TakesAtMost};
ghost use Rattle.outside.specs.Causes.{HasCause, one_more};
ghost use Rattle.outside.specs.Reading.{is_failed};

use crate::failed::Failed;
use crate::source::Source;
use std::alloc::{AllocError, Global};
use thiserror::Error;

/// Why an input could not be read to its end.
#[derive(Clone, Copy, Debug, Drop, PartialEq, Eq, Error)]
pub enum InputFault {
    /// It has more bytes than the limit.
    #[error("the input is too long")]
    TooLong,
    /// A read failed.
    #[error("a read failed")]
    Failed,
    /// Memory ran out.
    #[error("out of memory")]
    NoMemory,
}

impl From<Failed> for InputFault {
    ghost use Rattle.std.specs.Prelude.{◌≡◌};
    ghost use Rattle.outside.specs.declared.reading.InputFault.TheVariants.{Failed as Fails};

    ghost from_gives = { λ _ e. e ≡ Fails };

    fn from(_fault: Failed) -> InputFault {
        InputFault::Failed
    }
}

impl From<AllocError> for InputFault {
    ghost use Rattle.std.specs.Prelude.{◌≡◌};
    ghost use Rattle.outside.specs.declared.reading.InputFault.TheVariants.{NoMemory};

    ghost from_gives = { λ _ e. e ≡ NoMemory };

    fn from(_refusal: AllocError) -> InputFault {
        InputFault::NoMemory
    }
}

/// The most bytes that one read is asked for.
const CHUNK: usize = 65_536;

/// All the bytes that the source has left, of which there may be at most `limit`. It reads up to
/// 65,536 bytes at a time, straight into the vector that it gives back, whose room doubles as it
/// grows.
///
/// `TooLong` comes once `limit + 1` bytes were taken; nothing more is read then. `Failed` comes where
/// a read failed, and `NoMemory` where memory ran out, each after at most `limit` bytes. What was
/// taken before one of the three is lost.
pub fn read_to_end<S: Source>(
    alloc: Global,
    source: &mut S,
    limit: usize,
) -> Result<Vec<u8>, InputFault>
    // The whole input, up to an end that a read of this call met.
    ensures all { IfOk result (λ v. TakesAll (S.left source.old) (S.left source.new) v.items) }
    ensures within { IfOk result (λ v. vec_len v ≤ limit) }
    ensures ended { OnOk result (S.ends source.new ≡ one_more (S.ends source.old)) }

    // What each fault leaves.
    ensures too_long { IsErrOf result InputFault.TooLong
        → TakesCount (S.left source.old) (S.left source.new) (limit + 1) }
    ensures failed { IsErrOf result InputFault.Failed
        → TakesAtMost (S.left source.old) (S.left source.new) limit }
    ensures no_memory { IsErrOf result InputFault.NoMemory
        → TakesAtMost (S.left source.old) (S.left source.new) limit }
    ensures not_ended { OnErr result (S.ends source.new ≡ S.ends source.old) }

    ensures cause { HasCause (S.faults source.old) (S.faults source.new) (is_failed result) }
{
    let mut bytes = Vec::new(alloc);
    let mut taken = 0;
    while taken <= limit {
        let n = read_more(source, &mut bytes, taken, limit)?;
        if n == 0 {
            bytes.truncate(taken);
            return Ok(bytes);
        }
        taken += n;
    }
    Err(InputFault::TooLong)
}

/// One read into `bytes` behind the `taken` first. It asks for at most one byte past the limit.
fn read_more<S: Source>(
    source: &mut S,
    bytes: &mut Vec<u8>,
    taken: usize,
    limit: usize,
) -> Result<usize, InputFault>
    requires holds { taken ≤ vec_len bytes.old }
    requires within { taken ≤ limit }
    ensures front { take taken bytes.new.items ≡ take taken bytes.old.items }
    ensures holds { IfOk result (λ n. taken + n ≤ vec_len bytes.new) }
    ensures within { IfOk result (λ n. taken + n ≤ limit + 1) }
    ensures bytes { TakesBytes (S.left source.old) (S.left source.new) result
        (drop taken bytes.new.items) }
    ensures end { IfOk result (λ n. n ≡ 0 → IsAtEnd (S.left source.new)) }
    ensures ends { CountsEnds (S.ends source.old) (S.ends source.new) result }
    ensures not_too_long { ¬ (IsErrOf result InputFault.TooLong) }
    ensures cause { HasCause (S.faults source.old) (S.faults source.new) (is_failed result) }
{
    let room = CHUNK.min((limit - taken).saturating_add(1));
    bytes.resize(taken + room, 0)?;
    Ok(source.read(&mut bytes[taken..])?)
}
