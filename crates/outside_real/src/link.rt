ghost use Rattle.std.specs.Prelude.{◌≡◌, None};

use crate::streams::{Pace, read_in_time, write_in_time};
use outside::Failed;
use outside_serving::{Count, Link};
use std::io;
use std::io::{ErrorKind, Read, Write};
use std::marker::Model;
use std::net::{OpenStream, TcpStream};
use std::sync::Wait;
use std::time::Clock;

/// A link over a stream and a clock.
#[derive(Drop)]
pub struct LinkOver<S: Drop, T: Drop> {
    /// None where the stream couldn't be set up.
    stream: Option<S>,
    clock: T,
    pace: Pace,
    faults: Count,
    ends: Count,
}

/// A link over TCP. It sends at once what is written, and waits for its peer as long as this:
///
/// - 5 seconds for the first byte of a request, which is the first since the link was made or since the peer took a response;
/// - 10 seconds for each further byte of a request, and no longer than 30 seconds after its first bytes had come;
/// - 30 seconds until the peer has taken a response, from when its first write began.
///
/// A call that would wait longer has failed, and so has one that the stream answers with an error, but for a signal that interrupts it, after which it
/// is tried again. A piece that is written counts as a response until all of it is taken. What a peer sends and gets is not told.
pub type TcpLink = LinkOver<TcpStream, HostRuntime>;

impl<S: Drop, T: Drop> Model for LinkOver<S, T> {
    ghost use Rattle.std.specs.Prelude.{None};
    ghost use Rattle.outside_serving.specs.Links.{Line};

    ghost Value = { Line };

    ghost view = { λ s. record { left = None; written = None; faults = s.faults; ends = s.ends } };
}

impl<S: OpenStream + Drop, T: Clock + Drop> LinkOver<S, T> {
    /// A link over a stream, which is told to send at once what is written. Where it can't be told, each call fails.
    pub fn new(stream: S, clock: T) -> LinkOver<S, T>
        ensures { result ≡ record { left = None; written = None; faults = 0; ends = 0 } }
    {
        let stream = match stream.set_nodelay(true) {
            Ok(()) => Some(stream),
            Err(_) => None,
        };
        LinkOver {
            stream,
            clock,
            pace: Pace::new(),
            faults: Count::zero(),
            ends: Count::zero(),
        }
    }
}

impl<S: Read + Write + OpenStream + Drop, T: Clock + Drop> Link for LinkOver<S, T> {
    ghost line = { λ s. s };

    fn read<R: Wait>(&mut self, _rt: &R, into: &mut [u8]) -> Result<usize, Failed> {
        let Some(stream) = &mut self.stream else {
            self.faults.rise();
            return Err(Failed);
        };
        Ok(read_in_time(
            stream,
            &self.clock,
            &mut self.pace,
            into,
            &mut self.faults,
            &mut self.ends,
        )?)
    }

    fn write<R: Wait>(&mut self, _rt: &R, piece: &[u8]) -> Result<usize, Failed> {
        let Some(stream) = &mut self.stream else {
            self.faults.rise();
            return Err(Failed);
        };
        Ok(write_in_time(stream, &self.clock, &mut self.pace, piece, &mut self.faults)?)
    }
}
