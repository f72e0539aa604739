ghost use Rattle.std.specs.Prelude.{◌≡◌, ◌↔◌, ◌⊎◌, ◌<◌, ◌≤◌, length, take, IsErr, IfOk, OnErr, MatchResult};
ghost use Rattle.outside.specs.Calls.{IsToFail};
ghost use Rattle.outside_serving.specs.Links.{Took, Put, Broke};
ghost use Rattle.outside_serving.specs.Memory.{new_peer, told, given_count, taken_count, after_read, after_write, after_failure};

use crate::calls::Calls;
use crate::counts::Count;
use crate::link::Link;
use outside::Failed;
use std::alloc::Global;
use std::marker::Model;
use std::sync::Wait;
use trust_types::NoMemory;

/// A peer in memory, some of whose calls fail: the bytes that it sends, and a fixed room for those that it gets. Contracts see a `Peer`.
#[derive(Drop)]
pub struct MemLink {
    bytes: Vec<u8>,
    at: usize,
    written: Vec<u8>,
    room: usize,
    piece: usize,
    calls: Calls,
    ends: Count,
}

impl Model for MemLink {
    ghost use Rattle.std.specs.Prelude.{◌+◌, ◌≤◌, drop, vec_len, vec_capacity};
    ghost use Rattle.outside_serving.specs.Memory.{Peer};

    ghost Value = { Peer };

    ghost view = { λ s. record {
      left = drop s.at s.bytes.items;
      written = s.written.items;
      room = s.room;
      piece = s.piece;
      calls = s.calls;
      ends = s.ends;
    } };

    ghost invariant = { λ s. (s.at ≤ vec_len s.bytes) × (vec_len s.written + s.room ≤ vec_capacity s.written) × (1 ≤ s.piece) };
}

impl MemLink {
    /// A peer that sends these bytes and gets at most `room`, at most `piece` of them a call. Its calls, reads and writes together, are numbered
    /// from 0, and those with a number in `fails` fail. It takes memory here alone, `room` bytes.
    ///
    /// # Errors
    /// [`NoMemory`] where there is no room.
    pub fn new(
        alloc: Global,
        bytes: Vec<u8>,
        room: usize,
        piece: usize,
        fails: Vec<u64>,
    ) -> Result<MemLink, NoMemory>
        requires { 1 ≤ piece }
        ensures { IfOk result (λ link. link ≡ new_peer bytes.items room piece fails.items) }
    {
        Ok(MemLink {
            bytes,
            at: 0,
            written: Vec::with_capacity(alloc, room)?,
            room,
            piece,
            calls: Calls::new(fails),
            ends: Count::zero(),
        })
    }

    /// The bytes that were written to it.
    pub fn written(&self) -> &[u8]
        ensures { result.now ≡ self.now.written }
    {
        &self.written
    }
}

impl Link for MemLink {
    ghost use Rattle.outside_serving.specs.Memory.{told};

    ghost line = { told };

    /// Gives as many bytes as a piece has, as are left and as `into` has places, whichever is least.
    fn read<R: Wait>(&mut self, _rt: &R, into: &mut [u8]) -> Result<usize, Failed>
        requires { 0 < length into.old }

        // What each link does.
        ensures bound { IfOk result (λ n. n ≤ length into.new) }
        ensures took { MatchResult result (λ n. Took (told self.old) (told self.new) n into.new) (λ _. Broke (told self.old) (told self.new)) }

        // What this one does.
        ensures fails { IsErr result ↔ IsToFail self.old.calls }
        ensures given { IfOk result (λ n. n ≡ given_count self.old (length into.old)) }
        ensures ok { IfOk result (λ n. self.new ≡ after_read self.old n) }
        ensures err { OnErr result (self.new ≡ after_failure self.old) }
    {
        self.calls.count(true)?;
        let rest = &self.bytes[self.at..];
        let n = self.piece.min(into.len().min(rest.len()));
        into[..n].copy_from_slice(&rest[..n]);
        self.at += n;
        if n == 0 {
            self.ends.rise();
        }
        Ok(n)
    }

    /// Takes as many bytes as a piece has, as there is room for and as are offered, whichever is least. [`Failed`] comes also where no room is left.
    fn write<R: Wait>(&mut self, _rt: &R, piece: &[u8]) -> Result<usize, Failed>
        requires { 0 < length piece.now }

        // What each link does.
        ensures bound { IfOk result (λ n. (0 < n) × (n ≤ length piece.now)) }
        ensures put { MatchResult result (λ n. Put (told self.old) (told self.new) (take n piece.now)) (λ _. Broke (told self.old) (told self.new)) }

        // What this one does.
        ensures fails { IsErr result ↔ (IsToFail self.old.calls ⊎ (self.old.room ≡ 0)) }
        ensures taken { IfOk result (λ n. n ≡ taken_count self.old (length piece.now)) }
        ensures ok { IfOk result (λ n. self.new ≡ after_write self.old (take n piece.now)) }
        ensures err { OnErr result (self.new ≡ after_failure self.old) }
    {
        self.calls.count(self.room > 0)?;
        let n = self.piece.min(piece.len().min(self.room));
        // The room was reserved, so this takes no memory.
        let _reserved = self.written.extend_from_slice(&piece[..n]);
        self.room -= n;
        Ok(n)
    }
}
