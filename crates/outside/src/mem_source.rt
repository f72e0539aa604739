ghost use Rattle.std.specs.Prelude.{◌≡◌, ◌↔◌, ◌<◌, ◌≤◌, Some, length, take, is_err, IsErr, IfOk, OnErr};
ghost use Rattle.std.specs.Io.KnownBytes.{IsAtEnd};
ghost use Rattle.outside.specs.Bytes.{TakesBytes, CountsEnds};
ghost use Rattle.outside.specs.Calls.{IsToFail};
ghost use Rattle.outside.specs.Causes.{HasCause};
ghost use Rattle.outside.specs.Memory.{new_feed, given_count, after_read, after_failed_read};

use crate::calls::Calls;
use crate::counts::Count;
use crate::failed::Failed;
use crate::source::Source;
use std::marker::Model;

/// A source of bytes in memory, some of whose reads fail. Contracts see a `Feed`.
#[derive(Drop)]
pub struct MemSource {
    bytes: Vec<u8>,
    at: usize,
    piece: usize,
    calls: Calls,
    ends: Count,
}

impl Model for MemSource {
    ghost use Rattle.std.specs.Prelude.{◌≤◌, drop, vec_len};
    ghost use Rattle.outside.specs.Memory.{Feed};

    ghost Value = { Feed };

    ghost view = { λ s. record {
      left = drop s.at s.bytes.items;
      piece = s.piece;
      calls = s.calls;
      ends = s.ends;
    } };

    ghost invariant = { λ s. (s.at ≤ vec_len s.bytes) × (1 ≤ s.piece) };
}

impl MemSource {
    /// A source of these bytes, which gives at most `piece` of them at a read. Its reads are
    /// numbered from 0, and those with a number in `fails` fail. It takes no memory.
    pub fn new(bytes: Vec<u8>, piece: usize, fails: Vec<u64>) -> MemSource
        requires { 1 ≤ piece }
        ensures { result ≡ new_feed bytes.items piece fails.items }
    {
        MemSource {
            bytes,
            at: 0,
            piece,
            calls: Calls::new(fails),
            ends: Count::zero(),
        }
    }
}

impl Source for MemSource {
    ghost faults = { λ s. s.calls.faults };

    ghost ends = { λ s. s.ends };

    ghost left = { λ s. Some s.left };

    /// Gives as many bytes as a piece has, as are left and as `into` has places, whichever is least.
    fn read(&mut self, into: &mut [u8]) -> Result<usize, Failed>
        requires { 0 < length into.old }

        // What each source does.
        ensures bound { IfOk result (λ n. n ≤ length into.new) }
        ensures bytes { TakesBytes (Some self.old.left) (Some self.new.left) result into.new }
        ensures end { IfOk result (λ n. n ≡ 0 → IsAtEnd (Some self.new.left)) }
        ensures ends { CountsEnds self.old.ends self.new.ends result }
        ensures cause { HasCause self.old.calls.faults self.new.calls.faults (is_err result) }

        // What this one does.
        ensures fails { IsErr result ↔ IsToFail self.old.calls }
        ensures given { IfOk result (λ n. n ≡ given_count self.old (length into.old)) }
        ensures front { IfOk result (λ n. take n into.new ≡ take n self.old.left) }
        ensures ok { IfOk result (λ n. self.new ≡ after_read self.old n) }
        ensures err { OnErr result (self.new ≡ after_failed_read self.old) }
    {
        self.calls.count(true)?;
        let rest = &self.bytes[self.at..];
        let n = self.piece.min(into.len().min(rest.len()));
        into[..n].copy_from_slice(&rest[..n]);
        self.at += n;
        if n == 0 {
            self.ends.rise();
        }
        Ok(n)
    }
}
