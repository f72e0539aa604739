//! Bytes that were read and not yet answered.

ghost use Rattle.std.specs.Prelude.{◌≡◌, ◌<◌, ◌≤◌, ◌-◌, [], length, take, drop, vec_len, IfOk, MatchResult};
ghost use Rattle.outside_serving.specs.Links.{Line, Broke};
ghost use Rattle.conversation.specs.inner.Hearing.{Got};

use outside::Failed;
use outside_serving::Link;
use std::alloc::Global;
use std::marker::Model;
use std::sync::Wait;
use trust_types::NoMemory;

/// No request is longer.
pub(crate) const LONGEST: usize = 81_920;

/// Bytes that were read and not yet used, at most [`LONGEST`]. Contracts see them.
#[derive(Drop)]
pub(crate) struct Buffer {
    bytes: Vec<u8>,
    start: usize,
    end: usize,
}

impl Model for Buffer {
    ghost use Rattle.std.specs.Prelude.{◌≡◌, ◌≤◌, ◌<◌, ◌+◌, List, ℕ, take, drop, vec_len};

    ghost Value = { List ℕ };

    ghost view = { λ b. drop b.start (take b.end b.bytes.items) };

    ghost invariant = { λ b. (b.start ≤ b.end) × (b.end ≤ b.start + 81920) × (b.start < 81920) × (vec_len b.bytes ≡ 163840) };
}

/// Moves the bytes from `start` to `end` to the front.
fn move_front(bytes: &mut Vec<u8>, start: usize, end: usize)
    requires { (start ≤ end) × (end ≤ vec_len bytes.old) }
    ensures moved { take (end - start) bytes.new.items ≡ drop start (take end bytes.old.items) }
    ensures long { vec_len bytes.new ≡ vec_len bytes.old }
{
    bytes.copy_within(start..end, 0);
}

impl Buffer {
    /// No bytes. It takes all its memory here.
    pub(crate) fn new(alloc: Global) -> Result<Buffer, NoMemory>
        ensures { IfOk result (λ buffer. buffer ≡ []) }
    {
        let bytes = vec![in alloc; 0u8; 163_840]?;
        Ok(Buffer {
            bytes,
            start: 0,
            end: 0,
        })
    }

    pub(crate) fn bytes(&self) -> &[u8]
        ensures { result.now ≡ self.now }
    {
        &self.bytes[self.start..self.end]
    }

    /// Leaves out the first `n` bytes. What is left is moved to the front once as many bytes as the longest request has were used.
    pub(crate) fn skip(&mut self, n: usize)
        requires { n ≤ length self.old }
        ensures { self.new ≡ drop n self.old }
    {
        self.start += n;
        if self.start >= LONGEST {
            move_front(&mut self.bytes, self.start, self.end);
            self.end -= self.start;
            self.start = 0;
        }
    }

    /// Reads on, as much as there is room for.
    pub(crate) fn read_from<L: Link, R: Wait>(
        &mut self,
        rt: &R,
        link: &mut L,
    ) -> Result<usize, Failed>
        requires { length self.old < 81920 }
        ensures { MatchResult result (λ n. Got (L.line link.old) (L.line link.new) self.old self.new n) (λ _. Broke (L.line link.old) (L.line link.new) × (self.new ≡ self.old)) }
    {
        match link.read(rt, &mut self.bytes[self.end..self.start + LONGEST]) {
            Ok(n) => {
                self.end += n;
                Ok(n)
            }
            Err(fault) => Err(fault),
        }
    }
}
