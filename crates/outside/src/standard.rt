//! The standard input and output. What they give and take is not told; what one read and one write do is said of any
//! reader and writer.
ghost use Rattle.std.specs.Prelude.{◌≡◌, None};
ghost use Rattle.outside.specs.Standard.{no_reads};

use crate::counted::{read_counted, write_counted};
use crate::counts::Count;
use crate::failed::Failed;
use crate::sink::Sink;
use crate::source::Source;
use std::io::{Stdin, Stdout};
use std::marker::Model;

/// The standard input. A read that a signal interrupts is tried again. Any other error is a fault.
/// Contracts see the counts.
#[derive(Drop)]
pub struct StdSource {
    stdin: Stdin,
    faults: Count,
    ends: Count,
}

impl Model for StdSource {
    ghost use Rattle.outside.specs.Standard.{Reads};

    ghost Value = { Reads };

    ghost view = { λ s. record { faults = s.faults; ends = s.ends } };
}

impl StdSource {
    /// The standard input, of which nothing was read yet.
    pub fn new(rt: &HostRuntime) -> StdSource
        ensures { result ≡ no_reads }
    {
        StdSource {
            stdin: rt.stdin(),
            faults: Count::zero(),
            ends: Count::zero(),
        }
    }
}

impl Source for StdSource {
    ghost faults = { λ s. s.faults };

    ghost ends = { λ s. s.ends };

    ghost left = { λ _. None };

    fn read(&mut self, into: &mut [u8]) -> Result<usize, Failed> {
        Ok(read_counted(&mut self.stdin, into, &mut self.faults, &mut self.ends)?)
    }
}

/// The standard output. A write that a signal interrupts is tried again. Any other error is a fault,
/// and so are an error of the flush after a write and a write that takes nothing. Contracts see the
/// count of faults.
#[derive(Drop)]
pub struct StdSink {
    stdout: Stdout,
    faults: Count,
}

impl Model for StdSink {
    ghost use Rattle.std.specs.Prelude.{ℕ};

    ghost Value = { ℕ };

    ghost view = { λ s. s.faults };
}

impl StdSink {
    /// The standard output, to which nothing was written yet.
    pub fn new(rt: &HostRuntime) -> StdSink
        ensures { result ≡ 0 }
    {
        StdSink {
            stdout: rt.stdout(),
            faults: Count::zero(),
        }
    }
}

impl Sink for StdSink {
    ghost faults = { λ faults. faults };

    ghost held = { λ _. None };

    /// It flushes after each write. Where a flush fails, the bytes may have gone out all the same.
    fn write(&mut self, piece: &[u8]) -> Result<usize, Failed> {
        Ok(write_counted(&mut self.stdout, piece, &mut self.faults)?)
    }
}
