ghost use Rattle.std.specs.Prelude.{◌≡◌, ◌+◌, ◌<◌, ◌^◌, [], ◌∷◌, length, MatchOption, OnSome, IfNone};
ghost use Rattle.text_lines.specs.Words.{lines};

use crate::ends::line_end;
use std::marker::Model;

/// What is left of a text, of which one line after another is read. It copies nothing. Contracts see how many lines
/// were read, and the bytes that are left.
#[derive(Drop)]
pub struct Lines<'a> {
    read: u64,
    rest: &'a [u8],
}

impl<'a> Model for Lines<'a> {
    ghost use Rattle.std.specs.Prelude.{◌<◌, ◌+◌, ◌^◌, length};
    ghost use Rattle.text_lines.specs.Unread.{Unread};

    ghost Value = { Unread };

    ghost view = { λ text. record { number = text.read; bytes = text.rest.now } };

    // Each line takes a byte or more, so the count can't wrap.
    ghost invariant = { λ text. text.read + length text.rest.now < 2 ^ 63 };
}

impl<'a> Lines<'a> {
    /// The whole text.
    pub fn of(bytes: &'a [u8]) -> Lines<'a>
        ensures { result ≡ record { number = 0; bytes = bytes.now } }
    {
        Lines {
            read: 0,
            rest: bytes,
        }
    }

    /// The next line, without its LF; `None` where no byte is left. It searches the line's bytes once, many at a time.
    pub fn next_line(&mut self) -> Option<&'a [u8]>
        ensures line { MatchOption result (lines self.old.bytes ≡ []) (λ line. lines self.old.bytes ≡ line.now ∷ lines self.new.bytes) }
        ensures number { OnSome result (self.new.number ≡ self.old.number + 1) }
        ensures shorter { OnSome result (length self.new.bytes < length self.old.bytes) }
        ensures end { IfNone result (self.new ≡ self.old) }
    {
        if self.rest.is_empty() {
            return None;
        }
        let rest = self.rest;
        self.read += 1;
        let Some(end) = line_end(rest) else {
            self.rest = &[];
            return Some(rest);
        };
        let (line, after) = rest.split_at(end);
        self.rest = &after[1..];
        Some(line)
    }

    /// A reader of what is left, of its own: what it reads isn't read by this one. It copies no byte.
    pub fn fork(&self) -> Lines<'a>
        ensures { result ≡ self.now }
    {
        Lines {
            read: self.read,
            rest: self.rest,
        }
    }

    /// How many lines were read, which is the number of the last one, counted from 1.
    pub fn number(&self) -> u64
        ensures value { result ≡ self.now.number }
        ensures room { result < 2 ^ 63 }
    {
        self.read
    }
}

/// How many lines a text has. It searches the bytes once, many at a time.
pub fn line_count(bytes: &[u8]) -> u64
    ensures count { result ≡ length (lines bytes.now) }
    ensures room { result < 2 ^ 63 }
{
    let mut text = Lines::of(bytes);
    while text.next_line().is_some() {}
    text.number()
}
