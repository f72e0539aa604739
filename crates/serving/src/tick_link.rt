//! Links whose writes wake the workers.

ghost use Rattle.std.specs.Prelude.{◌≡◌};

use crate::tick::Tick;
use outside::Failed;
use outside_serving::Link;
use std::alloc::Global;
use std::sync::{Arc, Wait};

/// A link of a server, which the server alone makes: each write that succeeds wakes the workers. It passes each call on, tells what the link within it
/// tells, and doesn't give that link away.
#[derive(Drop)]
pub struct TickLink<L: Link> {
    link: L,
    tick: Arc<Tick, Global>,
}

impl<L: Link> TickLink<L> {
    pub(crate) fn of(link: L, tick: Arc<Tick, Global>) -> TickLink<L>
        ensures { result.link ≡ link }
    {
        TickLink { link, tick }
    }
}

impl<L: Link> Link for TickLink<L> {
    ghost line = { λ s. L.line s.link };

    fn read<R: Wait>(&mut self, rt: &R, into: &mut [u8]) -> Result<usize, Failed> {
        self.link.read(rt, into)
    }

    fn write<R: Wait>(&mut self, rt: &R, piece: &[u8]) -> Result<usize, Failed> {
        let n = self.link.write(rt, piece)?;
        self.tick.raise(rt);
        Ok(n)
    }
}
