//! One read and one write over any stream of std, within what is left of the peer's time.
ghost use Rattle.std.specs.Prelude.{◌≡◌, ◌≢◌, ◌<◌, ◌≤◌, ◌==◌, ℕ, length, take, is_err, IfOk, IfErr, OnErr, OnOk};
ghost use Rattle.std.specs.IoError.{error_kind};
ghost use Rattle.std.specs.Io.KnownBytes.{ReadConsumes, WriteAppends};
ghost use Rattle.outside.specs.Bytes.{CountsEnds};
ghost use Rattle.outside.specs.Causes.{HasCause};
ghost use Rattle.outside_real.specs.Limits.{read_wait, write_wait, with_read, with_write};

use crate::pace::Stage;
use outside_serving::Count;
use std::io;
use std::io::{ErrorKind, Read, Write};
use std::net::OpenStream;
use std::time::{Clock, Duration};

/// What a link waits for, and how long its stream lets a read and a write wait, in milliseconds: 0 where no limit was set yet.
#[derive(Clone, Copy, Debug, PartialEq, Eq)]
pub struct Pace {
    pub stage: Stage,
    pub read_limit: u64,
    pub write_limit: u64,
}

impl Pace {
    /// Nothing came yet, and no limit was set.
    pub fn new() -> Pace
        ensures { result.stage ≡ Stage.Idle }
    {
        Pace {
            stage: Stage::Idle,
            read_limit: 0,
            write_limit: 0,
        }
    }

    /// Lets the next read of a stream wait for what is left of the peer's time. An error where nothing is left.
    fn limit_read<S: OpenStream>(&mut self, stream: &S, now: u64) -> io::Result<()>
        ensures limit { OnOk result ((self.new.read_limit ≡ read_wait self.old.stage now) × (0 < self.new.read_limit)) }
        ensures stage { self.new.stage ≡ self.old.stage }
    {
        let wait = self.stage.read_wait(now);
        if wait == 0 {
            return Err(ErrorKind::TimedOut.into());
        }
        if wait != self.read_limit {
            stream.set_read_timeout(Some(Duration::from_millis(wait)))?;
            self.read_limit = wait;
        }
        Ok(())
    }

    /// Lets the next write to a stream wait for what is left of the peer's time. An error where nothing is left.
    fn limit_write<S: OpenStream>(&mut self, stream: &S, now: u64) -> io::Result<()>
        ensures limit { OnOk result ((self.new.write_limit ≡ write_wait self.old.stage now) × (0 < self.new.write_limit)) }
        ensures stage { self.new.stage ≡ self.old.stage }
    {
        let wait = self.stage.write_wait(now);
        if wait == 0 {
            return Err(ErrorKind::TimedOut.into());
        }
        if wait != self.write_limit {
            stream.set_write_timeout(Some(Duration::from_millis(wait)))?;
            self.write_limit = wait;
        }
        Ok(())
    }
}

/// The moment that a clock of the machine shows, in milliseconds after a moment of its own.
fn millis<T: Clock>(clock: &T) -> io::Result<u64> {
    Ok(u64::try_from(clock.monotonic()?.as_millis()).unwrap_or(u64::MAX))
}

/// One read within what is left of the peer's time, tried again where a signal interrupts it. An error counts as a fault, and a read that gives no
/// byte as an end. A read that would wait longer is such an error.
pub fn read_in_time<S: Read + OpenStream, T: Clock>(
    stream: &mut S,
    clock: &T,
    pace: &mut Pace,
    into: &mut [u8],
    faults: &mut Count,
    ends: &mut Count,
) -> io::Result<usize>
    ensures bound { IfOk result (λ n. n ≤ length into.new) }
    ensures bytes { ReadConsumes (S.remaining stream.old) (S.remaining stream.new) result into.new }
    ensures came { IfOk result (λ n. 0 < n → (came : ℕ) × (pace.new.stage ≡ with_read pace.old.stage came)) }
    ensures none { IfOk result (λ n. n ≡ 0 → pace.new.stage ≡ pace.old.stage) }
    ensures failed { OnErr result (pace.new.stage ≡ pace.old.stage) }
    ensures ends { CountsEnds ends.old ends.new result }
    ensures cause { HasCause faults.old faults.new (is_err result) }
{
    let answer = read_paced(stream, clock, pace, into);
    match &answer {
        Ok(0) => ends.rise(),
        Ok(_) => {}
        Err(_) => faults.rise(),
    }
    answer
}

/// One write within what is left of the peer's time, tried again where a signal interrupts it. An error counts as a fault. A write that takes nothing
/// is such an error, and so is one that would wait longer.
pub fn write_in_time<S: Write + OpenStream, T: Clock>(
    stream: &mut S,
    clock: &T,
    pace: &mut Pace,
    piece: &[u8],
    faults: &mut Count,
) -> io::Result<usize>
    ensures bound { IfOk result (λ n. (0 < n) × (n ≤ length piece.now)) }
    ensures bytes { WriteAppends (S.contents stream.old) (S.contents stream.new) result piece.now }
    ensures taken { IfOk result (λ n. (began : ℕ) × (pace.new.stage ≡ with_write pace.old.stage (n == length piece.now) began)) }
    ensures failed { OnErr result (pace.new.stage ≡ pace.old.stage) }
    ensures cause { HasCause faults.old faults.new (is_err result) }
{
    let answer = write_paced(stream, clock, pace, piece);
    if answer.is_err() {
        faults.rise();
    }
    answer
}

/// One read within what is left of the peer's time.
fn read_paced<S: Read + OpenStream, T: Clock>(
    stream: &mut S,
    clock: &T,
    pace: &mut Pace,
    into: &mut [u8],
) -> io::Result<usize>
    ensures bound { IfOk result (λ n. n ≤ length into.new) }
    ensures bytes { ReadConsumes (S.remaining stream.old) (S.remaining stream.new) result into.new }
    ensures came { IfOk result (λ n. 0 < n → (came : ℕ) × (pace.new.stage ≡ with_read pace.old.stage came)) }
    ensures none { IfOk result (λ n. n ≡ 0 → pace.new.stage ≡ pace.old.stage) }
    ensures failed { OnErr result (pace.new.stage ≡ pace.old.stage) }
{
    let began = millis(clock)?;
    pace.limit_read(stream, began)?;
    let n = read_uninterrupted(stream, into)?;
    if n > 0 {
        let came = millis(clock).unwrap_or(began);
        pace.stage = pace.stage.with_read(came);
    }
    Ok(n)
}

/// One write within what is left of the peer's time, of at least one byte.
fn write_paced<S: Write + OpenStream, T: Clock>(
    stream: &mut S,
    clock: &T,
    pace: &mut Pace,
    piece: &[u8],
) -> io::Result<usize>
    ensures bound { IfOk result (λ n. (0 < n) × (n ≤ length piece.now)) }
    ensures bytes { WriteAppends (S.contents stream.old) (S.contents stream.new) result piece.now }
    ensures taken { IfOk result (λ n. (began : ℕ) × (pace.new.stage ≡ with_write pace.old.stage (n == length piece.now) began)) }
    ensures failed { OnErr result (pace.new.stage ≡ pace.old.stage) }
{
    let began = millis(clock)?;
    pace.limit_write(stream, began)?;
    let n = write_uninterrupted(stream, piece)?;
    if n == 0 {
        return Err(ErrorKind::WriteZero.into());
    }
    pace.stage = pace.stage.with_write(n == piece.len(), began);
    Ok(n)
}

/// One read, tried again where a signal interrupts it.
fn read_uninterrupted<S: Read>(stream: &mut S, into: &mut [u8]) -> io::Result<usize>
    ensures bound { IfOk result (λ n. n ≤ length into.new) }
    ensures bytes { ReadConsumes (S.remaining stream.old) (S.remaining stream.new) result into.new }
    ensures tried_again { IfErr result (λ e. error_kind e ≢ ErrorKind.Interrupted) }
{
    for _ in 0..u64::MAX {
        match stream.read(into) {
            Ok(n) => return Ok(n),
            Err(error) => {
                if error.kind() != ErrorKind::Interrupted {
                    return Err(error);
                }
            }
        }
    }
    Err(ErrorKind::Other.into())
}

/// One write, tried again where a signal interrupts it.
fn write_uninterrupted<S: Write>(stream: &mut S, piece: &[u8]) -> io::Result<usize>
    ensures bound { IfOk result (λ n. n ≤ length piece.now) }
    ensures bytes { WriteAppends (S.contents stream.old) (S.contents stream.new) result piece.now }
    ensures tried_again { IfErr result (λ e. error_kind e ≢ ErrorKind.Interrupted) }
{
    for _ in 0..u64::MAX {
        match stream.write(piece) {
            Ok(n) => return Ok(n),
            Err(error) => {
                if error.kind() != ErrorKind::Interrupted {
                    return Err(error);
                }
            }
        }
    }
    Err(ErrorKind::Other.into())
}
