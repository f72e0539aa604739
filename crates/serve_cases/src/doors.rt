//! Where clients come from, and where the server's lines go to.

ghost use Rattle.std.specs.Prelude.{None, ◌≡◌};

use crate::clients::{Client, Seen};
use outside::{Failed, MemSink, Sink};
use outside_serving::{Count, Port};
use std::alloc::Global;
use std::collections::VecDeque;
use std::sync::atomic::Ordering;
use std::sync::{Arc, Wait};

/// How many bytes the first line of a server has.
const FIRST_LINE: u64 = 10;

/// A port that gives clients, in order and each once it comes, after the first line is written. It fails before, and where none is left.
#[derive(Drop)]
pub(crate) struct Door {
    pub clients: VecDeque<Client>,
    pub seen: Arc<Seen, Global>,
    pub faults: Count,
    pub given: Count,
}

impl Door {
    fn next(&mut self) -> Option<Client>
        ensures { (self.new.given ≡ self.old.given) × (self.new.faults ≡ self.old.faults) }
    {
        if self.seen.written.load(Ordering::SeqCst) < FIRST_LINE {
            return None;
        }
        self.clients.front()?.comes();
        self.clients.pop_front()
    }
}

impl Port for Door {
    type Joined = Client;

    ghost faults = { λ s. s.faults };

    ghost given = { λ s. s.given };

    fn accept<R: Wait>(&mut self, _rt: &R) -> Result<Client, Failed> {
        match self.next() {
            Some(client) => {
                self.given.rise();
                Ok(client)
            }
            None => {
                self.faults.rise();
                Err(Failed)
            }
        }
    }
}

/// A sink that tells the port how many bytes it took.
#[derive(Drop)]
pub(crate) struct Lines {
    pub lines: MemSink,
    pub seen: Arc<Seen, Global>,
}

impl Sink for Lines {
    ghost faults = { λ s. s.lines.calls.faults };

    ghost held = { λ _. None };

    fn write(&mut self, piece: &[u8]) -> Result<usize, Failed> {
        let n = self.lines.write(piece)?;
        self.seen.written.fetch_add(n as u64, Ordering::SeqCst);
        Ok(n)
    }
}
