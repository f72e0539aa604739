//! The rule of the table under a site, and its kinds of step.

ghost use Rattle.turn_book.specs.inner.Turns.{Keeps, newcomer, took, stored, released, looked};
ghost use Rattle.turn_book.specs.inner.Known.{lower, upper};

use atomic_table::{Play, Split, TableRule};
use outside::Keeper;
use site_core::Book;
use std::marker::Model;
use std::snapshot::Snapshot;

/// What a seat knows. No value of it is made.
pub struct Knowledge;

impl Model for Knowledge {
    ghost use Rattle.turn_book.specs.inner.Known.{Known, nothing};

    ghost Value = { Known };

    ghost view = { λ _. nothing };
}

/// One seat at a time has the turn, and the book with it.
pub struct OneTurn;

impl<K: Keeper> TableRule<Option<Book<K>>, Knowledge, Snapshot<Book<K>>> for OneTurn {
    ghost holds = { λ key. Keeps K.rows K.faults key.value };

    ghost first = { λ key. newcomer key.value.history };
}

/// Takes the turn, and the book out.
pub struct Take;

impl<K: Keeper> Play<Option<Book<K>>, Knowledge> for Take {
    ghost then = { took K.rows K.faults };
}

/// Stores the front of a book that has one entry more.
pub struct Store;

impl<K: Keeper> Play<Option<Book<K>>, Knowledge> for Store {
    ghost then = { stored K.rows K.faults };
}

/// Ends the turn.
pub struct Release;

impl<K: Keeper> Play<Option<Book<K>>, Knowledge> for Release {
    ghost then = { released K.rows K.faults };
}

/// Loads the front.
pub struct Look;

impl<K: Keeper> Play<Option<Book<K>>, Knowledge> for Look {
    ghost then = { looked K.rows K.faults };
}

/// Splits a seat.
pub struct Halve;

impl Split<Knowledge> for Halve {
    ghost left = { lower };

    ghost right = { upper };
}
