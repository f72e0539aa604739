//! A seat at a site.

ghost use Rattle.std.specs.Prelude.{◌≡◌, ◌<◌, ◌≤◌};
ghost use Rattle.site_history.specs.Histories.{places};
ghost use Rattle.site_history.specs.Legal.{IsLegal};

use crate::rule::Knowledge;
use outside::Keeper;
use site_core::Book;
use std::marker::Model;

pub(crate) type Token<K> = atomic_table::Seat<Option<Book<K>>, Knowledge>;

/// A seat at one site, through which one caller after another may call it. Contracts see the history that the seat has seen and its numbers, of which it
/// bears the least as a caller.
#[derive(Drop)]
pub struct Seat<K: Keeper> {
    pub(crate) low: u64,
    pub(crate) high: u64,
    pub(crate) entries: u64,
    pub(crate) token: Token<K>,
}

impl<K: Keeper> Model for Seat<K> {
    ghost use Rattle.std.specs.Prelude.{◌≡◌, []};
    ghost use Rattle.site_history.specs.Histories.{places};
    ghost use Rattle.turn_book.specs.inner.Known.{IsIdle};
    ghost use Rattle.turn_book.specs.Seats.{Seated};

    ghost Value = { Seated };

    ghost view = { λ s. record { site = s.token.table_id; id = s.token.id; seen = s.token.me.0.seen; base = s.token.me.0.base; low = s.low; high = s.high } };

    ghost invariant = { λ s. (s.low ≡ s.token.me.0.low) × (s.high ≡ s.token.me.0.high) × (s.token.me.1 ≡ []) × IsIdle s.token.me.0 × (s.entries ≡ places s.token.me.0.seen) };
}

impl<K: Keeper> Seat<K> {
    /// The number that it bears as a caller.
    pub fn number(&self) -> u64
        ensures number { result ≡ self.now.low }
        ensures numbers { self.now.low < self.now.high }
        ensures legal { IsLegal self.now.seen }
        ensures grown { self.now.base ≤ places self.now.seen }
    {
        self.low
    }

    /// How many places the history has that the seat has seen: opened records and entries. The seat remembers it, and looks at nothing.
    pub fn length(&self) -> u64
        ensures { result ≡ places self.now.seen }
    {
        self.entries
    }
}
