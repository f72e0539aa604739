//! What a client sent and was not yet answered.

ghost use Rattle.std.specs.Prelude.{◌≡◌, ◌<◌, ◌≤◌, ◌↔◌, [], length, drop, IsTrue, IfOk, MatchResult};
ghost use Rattle.http_requests.specs.Requests.{IsAnswer};
ghost use Rattle.outside_serving.specs.Links.{Line, Broke};
ghost use Rattle.conversation.specs.inner.Hearing.{Got};

use crate::buffer::Buffer;
use http_requests::{Next, Progress};
use outside::Failed;
use outside_serving::Link;
use std::alloc::Global;
use std::marker::Model;
use std::sync::Wait;
use trust_types::NoMemory;

/// The bytes that came and were not yet answered, and what is known of the request that they begin with, so that none is looked at again while more of it
/// come. Contracts see the bytes.
#[derive(Drop)]
pub(crate) struct Inbox {
    buffer: Buffer,
    progress: Progress,
}

impl Model for Inbox {
    ghost use Rattle.std.specs.Prelude.{List, ℕ};
    ghost use Rattle.http_requests.specs.Progress.{IsProgress};

    ghost Value = { List ℕ };

    ghost view = { λ inbox. inbox.buffer };

    ghost invariant = { λ inbox. IsProgress inbox.progress inbox.buffer };
}

impl Inbox {
    /// No bytes.
    pub(crate) fn new(alloc: Global) -> Result<Inbox, NoMemory>
        ensures { IfOk result (λ inbox. inbox ≡ []) }
    {
        let buffer = Buffer::new(alloc)?;
        Ok(Inbox {
            buffer,
            progress: Progress::new(),
        })
    }

    pub(crate) fn is_empty(&self) -> bool
        ensures { IsTrue result ↔ (self.now ≡ []) }
    {
        self.buffer.bytes().is_empty()
    }

    /// What the bytes ask for.
    pub(crate) fn next(&mut self, alloc: Global) -> Next
        ensures same { self.new ≡ self.old }
        ensures answer { IsAnswer self.old result }
        ensures few { result ≡ Next.NeedMore → length self.old < 81920 }
    {
        self.progress.next(alloc, self.buffer.bytes())
    }

    /// Goes on behind a request of `n` bytes.
    pub(crate) fn skip(&mut self, n: usize)
        requires { n ≤ length self.old }
        ensures { self.new ≡ drop n self.old }
    {
        self.buffer.skip(n);
        self.progress.restart();
    }

    /// Reads on.
    pub(crate) fn read_from<L: Link, R: Wait>(
        &mut self,
        rt: &R,
        link: &mut L,
    ) -> Result<usize, Failed>
        requires { length self.old < 81920 }
        ensures { MatchResult result (λ n. Got (L.line link.old) (L.line link.new) self.old self.new n) (λ _. Broke (L.line link.old) (L.line link.new) × (self.new ≡ self.old)) }
    {
        self.buffer.read_from(rt, link)
    }
}
