//! What is written to a link, and what is read from it.

ghost use Rattle.std.specs.Prelude.{◌≡◌, ◌≤◌, length, Some, MatchResult, OnOk};
ghost use Rattle.outside_serving.specs.Links.{Line, Put};
ghost use Rattle.conversation.specs.inner.Hearing.{Reads, HearsAs, Stuck};

use crate::inbox::Inbox;
use http_requests::{Next, Request};
use outside::Failed;
use outside_serving::Link;
use std::alloc::Global;
use std::sync::Wait;

/// What came over a link.
#[derive(Drop)]
pub(crate) enum Heard {
    /// A request, and how many bytes it has.
    Request(Request, usize),
    /// No request that is taken: the status to answer with.
    Bad(u16),
    End,
    Fault,
    NoMemory,
}

/// Reads until the bytes say what is asked, or there are no more.
pub(crate) fn hear<L: Link, R: Wait>(
    rt: &R,
    alloc: Global,
    link: &mut L,
    inbox: &mut Inbox,
) -> Heard
    ensures reads { Reads (L.line link.old) (L.line link.new) inbox.old inbox.new }
    ensures hears { HearsAs (L.line link.old) (L.line link.new) inbox.new result }
{
    'reads: loop {
        match inbox.next(alloc) {
            Next::Whole(request, used) => return Heard::Request(request, used),
            Next::Bad(status) => return Heard::Bad(status),
            Next::NoMemory => return Heard::NoMemory,
            Next::NeedMore => {}
        }
        match inbox.read_from(rt, link) {
            Err(_) => return Heard::Fault,
            Ok(n) => {
                if n == 0 {
                    return Heard::End;
                }
            }
        }
    }
}

/// Writes all of these bytes.
pub(crate) fn say<L: Link, R: Wait>(rt: &R, link: &mut L, piece: &[u8]) -> Result<(), Failed>
    ensures { MatchResult result (λ _. Put (L.line link.old) (L.line link.new) piece.now) (λ _. Stuck (L.line link.old) (L.line link.new) piece.now) }
{
    let mut at = 0;
    while at < piece.len() {
        match link.write(rt, &piece[at..]) {
            Ok(n) => at += n,
            Err(fault) => return Err(fault),
        }
    }
    Ok(())
}
