//! One read and one write over any reader and writer of std, with their ends and faults counted.
ghost use Rattle.std.specs.Prelude.{◌≡◌, ◌≢◌, ◌<◌, ◌≤◌, length, take, is_err, IfOk, IfErr, OnErr};
ghost use Rattle.std.specs.IoError.{error_kind};
ghost use Rattle.std.specs.Io.KnownBytes.{Appends, Keeps, ReadConsumes, WriteAppends};
ghost use Rattle.outside.specs.Bytes.{AppendsSome, CountsEnds};
ghost use Rattle.outside.specs.Causes.{HasCause};

use crate::counts::Count;
use std::io;
use std::io::{ErrorKind, Read, Write};

/// One read, tried again where a signal interrupts it. An error counts as a fault, and a read that gives no byte as an end.
pub fn read_counted<R: Read>(
    reader: &mut R,
    into: &mut [u8],
    faults: &mut Count,
    ends: &mut Count,
) -> io::Result<usize>
    ensures bound { IfOk result (λ n. n ≤ length into.new) }
    ensures bytes { ReadConsumes (R.remaining reader.old) (R.remaining reader.new) result into.new }
    ensures ends { CountsEnds ends.old ends.new result }
    ensures cause { HasCause faults.old faults.new (is_err result) }
    ensures tried_again { IfErr result (λ e. error_kind e ≢ ErrorKind.Interrupted) }
{
    let answer = read_uninterrupted(reader, into);
    match &answer {
        Ok(0) => ends.rise(),
        Ok(_) => {}
        Err(_) => faults.rise(),
    }
    answer
}

/// One write and a flush, each tried again where a signal interrupts it. An error counts as a fault; it may come from the flush, after some
/// bytes were taken. A write that takes nothing is such an error.
pub fn write_counted<W: Write>(
    writer: &mut W,
    piece: &[u8],
    faults: &mut Count,
) -> io::Result<usize>
    ensures bound { IfOk result (λ n. (0 < n) × (n ≤ length piece.now)) }
    ensures bytes { IfOk result (λ n. Appends (W.contents writer.old) (W.contents writer.new) (take n piece.now)) }
    ensures part { OnErr result (AppendsSome (W.contents writer.old) (W.contents writer.new) piece.now) }
    ensures cause { HasCause faults.old faults.new (is_err result) }
    ensures tried_again { IfErr result (λ e. error_kind e ≢ ErrorKind.Interrupted) }
{
    let answer = write_and_flush(writer, piece);
    if answer.is_err() {
        faults.rise();
    }
    answer
}

/// One read, tried again where a signal interrupts it.
fn read_uninterrupted<R: Read>(reader: &mut R, into: &mut [u8]) -> io::Result<usize>
    ensures bound { IfOk result (λ n. n ≤ length into.new) }
    ensures bytes { ReadConsumes (R.remaining reader.old) (R.remaining reader.new) result into.new }
    ensures tried_again { IfErr result (λ e. error_kind e ≢ ErrorKind.Interrupted) }
{
    for _ in 0..u64::MAX {
        match reader.read(into) {
            Ok(n) => return Ok(n),
            Err(error) => {
                if error.kind() != ErrorKind::Interrupted {
                    return Err(error);
                }
            }
        }
    }
    Err(ErrorKind::Other.into())
}

/// One write that takes at least one byte, and a flush.
fn write_and_flush<W: Write>(writer: &mut W, piece: &[u8]) -> io::Result<usize>
    ensures bound { IfOk result (λ n. (0 < n) × (n ≤ length piece.now)) }
    ensures bytes { IfOk result (λ n. Appends (W.contents writer.old) (W.contents writer.new) (take n piece.now)) }
    ensures part { OnErr result (AppendsSome (W.contents writer.old) (W.contents writer.new) piece.now) }
    ensures tried_again { IfErr result (λ e. error_kind e ≢ ErrorKind.Interrupted) }
{
    let n = write_uninterrupted(writer, piece)?;
    if n == 0 {
        return Err(ErrorKind::WriteZero.into());
    }
    flush_uninterrupted(writer)?;
    Ok(n)
}

/// One write, tried again where a signal interrupts it.
fn write_uninterrupted<W: Write>(writer: &mut W, piece: &[u8]) -> io::Result<usize>
    ensures bound { IfOk result (λ n. n ≤ length piece.now) }
    ensures bytes { WriteAppends (W.contents writer.old) (W.contents writer.new) result piece.now }
    ensures tried_again { IfErr result (λ e. error_kind e ≢ ErrorKind.Interrupted) }
{
    for _ in 0..u64::MAX {
        match writer.write(piece) {
            Ok(n) => return Ok(n),
            Err(error) => {
                if error.kind() != ErrorKind::Interrupted {
                    return Err(error);
                }
            }
        }
    }
    Err(ErrorKind::Other.into())
}

/// One flush, tried again where a signal interrupts it.
fn flush_uninterrupted<W: Write>(writer: &mut W) -> io::Result<()>
    ensures bytes { Keeps (W.contents writer.old) (W.contents writer.new) }
    ensures tried_again { IfErr result (λ e. error_kind e ≢ ErrorKind.Interrupted) }
{
    for _ in 0..u64::MAX {
        match writer.flush() {
            Ok(()) => return Ok(()),
            Err(error) => {
                if error.kind() != ErrorKind::Interrupted {
                    return Err(error);
                }
            }
        }
    }
    Err(ErrorKind::Other.into())
}
