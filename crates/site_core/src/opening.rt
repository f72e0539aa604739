//! How a site is opened over the rows of its keeper.

ghost use Rattle.std.specs.Prelude.{◌≡◌, ◌<◌, ◌+◌, [], IfOk, IfErr, IfSome, OnOk};
ghost use Rattle.outside.specs.Causes.{HasCause};
ghost use Rattle.outside.specs.KeptRows.{Finds};
ghost use Rattle.site_history.specs.Histories.{just_opened, places};
ghost use Rattle.site_core.specs.Books.{IsSound};
ghost use Rattle.site_core.specs.Opening.{Opens, RefusesRows, is_keeper_fault, is_keepers};
ghost use Rattle.site_core.specs.inner.Opening.{RefusesRow, OpensRow, IsOutside, HasRead, ReadsNext};

use crate::book::Book;
use outside::{Fetched, KeepFault, Keeper};
use site_records::{RowFault, read_row};
use site_state::{RecordFault, State};
use std::alloc::Global;
use std::marker::Brand;
use std::snapshot::Snapshot;
use std::sync::ledger::{Blank, Ledger};
use thiserror::Error;
use trust_types::{Caps, Steps};

/// Why a site isn't opened. Rows are numbered from 1.
#[derive(Clone, Copy, Debug, Drop, PartialEq, Eq, Error)]
pub enum OpenFault {
    /// A call on the keeper failed.
    #[error("a call on a keeper of rows failed")]
    Keeper,
    /// The row of this number is none, or its record doesn't continue those before it.
    #[error("row {0} doesn't continue those before it")]
    BadRow(u64),
    /// The row of this number is one too many, or its record passes a limit.
    #[error("row {0} passes a limit")]
    Full(u64),
    /// Memory ran out.
    #[error("out of memory")]
    NoMemory,
}

/// A keeper over whose rows no site was opened, and why. Its rows are as they were.
#[derive(Drop)]
pub struct Unopened<K: Keeper> {
    pub fault: OpenFault,
    pub keeper: K,
}

impl<K: Keeper> Book<K> {
    /// The book of a site that began with this table, over the rows that the keeper has: its history has their records, and nothing else happened yet.
    /// Nobody is logged in, and nothing is published. Rows of either version are read, and stay as they are.
    ///
    /// It fetches one row after another, up to the first that it refuses. Whether a post's author might post it isn't asked: that was, when it was kept.
    ///
    /// # Errors
    /// At the first row that it refuses: [`OpenFault::Full`] of the 4,000,001st row, whatever it is; [`OpenFault::BadRow`] exactly where it is no row of a
    /// record that continues those before; [`OpenFault::Full`] exactly where that record passes a limit on accounts, certificates, one text or all
    /// texts. [`OpenFault::Keeper`] exactly where the keeper had a fault, and [`OpenFault::NoMemory`] where memory ran out. The keeper is handed back.
    pub fn open(alloc: Global, keeper: K, caps: Caps) -> Result<Book<K>, Unopened<K>>
        // The history is that of the records of the rows, where the keeper tells them.
        ensures history { IfOk result (λ b. b.history ≡ just_opened caps b.history.opened) }
        ensures opens { IfOk result (λ b. IfSome (K.rows keeper) (λ rows. Opens caps rows b.history.opened)) }
        ensures found { IfOk result (λ b. b.found ≡ keeper) }
        ensures sound { IfOk result (IsSound K.rows K.faults) }

        // A refusal has its cause, and leaves the rows.
        ensures refused { IfErr result (λ u. IfSome (K.rows keeper) (λ rows. RefusesRows caps rows u.fault)) }
        ensures back { IfErr result (λ u. K.rows u.keeper ≡ K.rows keeper) }

        // A fault of the keeper has its cause in its count.
        ensures counted { IfOk result (λ b. K.faults b.keeper ≡ K.faults keeper) }
        ensures cause { IfErr result (λ u. HasCause (K.faults keeper) (K.faults u.keeper) (is_keeper_fault u.fault)) }
    {
        let found = Snapshot::of(&keeper);
        let mut keeper = keeper;
        match read_rows::<K, Brand>(alloc, &mut keeper, caps, Blank::new(1)) {
            Ok(state) => {
                let _ = state.places();
                Ok(Book {
                    state,
                    found,
                    keeper,
                    alloc,
                })
            }
            Err(fault) => Err(Unopened { fault, keeper }),
        }
    }
}

/// The state of a site over the rows of a keeper.
fn read_rows<K: Keeper, L: Ledger>(
    alloc: Global,
    keeper: &mut K,
    caps: Caps,
    blank: Blank,
) -> Result<State, OpenFault>
    requires name { blank.name ≡ L.name }
    requires parts { blank.parts ≡ L.parts }
    requires some { 0 < blank.parts }
    ensures history { IfOk result (λ state. state.history ≡ just_opened caps state.history.opened) }
    ensures opens { IfOk result (λ state. IfSome (K.rows keeper.old) (λ rows. Opens caps rows state.history.opened)) }
    ensures refused { IfErr result (λ fault. IfSome (K.rows keeper.old) (λ rows. RefusesRows caps rows fault)) }
    ensures rows { K.rows keeper.new ≡ K.rows keeper.old }
    ensures cause { HasCause (K.faults keeper.old) (K.faults keeper.new) (is_keepers result) }
{
    let mut steps = Steps::<L>::new(blank);
    let mut state = State::begin(alloc, caps);
    open_rows(alloc, keeper, &mut state, &mut steps)?;
    Ok(state)
}

/// Opens a site with the records of all rows of a keeper.
fn open_rows<K: Keeper, L: Ledger>(
    alloc: Global,
    keeper: &mut K,
    state: &mut State,
    steps: &mut Steps<L>,
) -> Result<(), OpenFault>
    requires { HasRead (K.rows keeper.old) 0 state.old.history }
    ensures history { OnOk result (state.new.history ≡ just_opened state.old.history.opening state.new.history.opened) }
    ensures opens { OnOk result (IfSome (K.rows keeper.old) (λ rows. Opens state.old.history.opening rows state.new.history.opened)) }
    ensures refused { IfErr result (λ fault. IfSome (K.rows keeper.old) (λ rows. RefusesRows state.old.history.opening rows fault)) }
    ensures rows { K.rows keeper.new ≡ K.rows keeper.old }
    ensures cause { HasCause (K.faults keeper.old) (K.faults keeper.new) (is_keepers result) }
{
    let mut row = Vec::new(alloc);
    for n in 0..4_000_000 {
        match next_row(alloc, keeper, state, n, &mut row, steps)? {
            Fetched::End => return Ok(()),
            Fetched::Row => {}
        }
    }
    end_of_rows(keeper, state, &mut row)
}

/// Opens a site with the record of the next row, where the keeper has one.
fn next_row<K: Keeper, L: Ledger>(
    alloc: Global,
    keeper: &mut K,
    state: &mut State,
    n: u64,
    row: &mut Vec<u8>,
    steps: &mut Steps<L>,
) -> Result<Fetched, OpenFault>
    requires read { HasRead (K.rows keeper.old) n state.old.history }
    requires few { n < 4_000_000 }
    ensures read { IfOk result (ReadsNext (K.rows keeper.old) n state.old.history state.new.history) }
    ensures refused { IfErr result (λ fault. IfSome (K.rows keeper.old) (λ rows. RefusesRows state.old.history.opening rows fault)) }
    ensures rows { K.rows keeper.new ≡ K.rows keeper.old }
    ensures cause { HasCause (K.faults keeper.old) (K.faults keeper.new) (is_keepers result) }
{
    let _ = state.places();
    match fetch(keeper, n, row)? {
        Fetched::End => Ok(Fetched::End),
        Fetched::Row => {
            open_row(alloc, state, row, steps)?;
            Ok(Fetched::Row)
        }
    }
}

/// Refuses a row beyond as many as a site may be opened with.
fn end_of_rows<K: Keeper>(keeper: &mut K, state: &State, row: &mut Vec<u8>) -> Result<(), OpenFault>
    requires { HasRead (K.rows keeper.old) 4_000_000 state.now.history }
    ensures opens { OnOk result (IfSome (K.rows keeper.old) (λ rows. Opens state.now.history.opening rows state.now.history.opened)) }
    ensures refused { IfErr result (λ fault. IfSome (K.rows keeper.old) (λ rows. RefusesRows state.now.history.opening rows fault)) }
    ensures rows { K.rows keeper.new ≡ K.rows keeper.old }
    ensures cause { HasCause (K.faults keeper.old) (K.faults keeper.new) (is_keepers result) }
{
    let _ = state.places();
    match fetch(keeper, 4_000_000, row)? {
        Fetched::End => Ok(()),
        Fetched::Row => Err(OpenFault::Full(4_000_001)),
    }
}

/// What the keeper has under a number.
fn fetch<K: Keeper>(keeper: &mut K, n: u64, row: &mut Vec<u8>) -> Result<Fetched, OpenFault>
    ensures found { IfOk result (λ found. Finds (K.rows keeper.old) n found row.new.items) }
    ensures fault { IfErr result IsOutside }
    ensures rows { K.rows keeper.new ≡ K.rows keeper.old }
    ensures cause { HasCause (K.faults keeper.old) (K.faults keeper.new) (is_keepers result) }
{
    match keeper.fetch(n, row) {
        Ok(found) => Ok(found),
        Err(KeepFault::Failed) => Err(OpenFault::Keeper),
        Err(KeepFault::NoMemory) => Err(OpenFault::NoMemory),
    }
}

/// Opens a site with the record of one row more.
fn open_row<L: Ledger>(
    alloc: Global,
    state: &mut State,
    row: &[u8],
    steps: &mut Steps<L>,
) -> Result<(), OpenFault>
    requires begun { state.old.history.entries ≡ [] }
    requires places { places state.old.history < 4_000_000 }
    ensures ok { OnOk result (OpensRow state.old.history state.new.history row.now) }
    ensures refused { IfErr result (RefusesRow state.old.history.opening state.old.history.opened row.now) }
{
    let number = state.places() + 1;
    let entry = match read_row(alloc, row) {
        Ok(entry) => entry,
        Err(RowFault::NotARow) => return Err(OpenFault::BadRow(number)),
        Err(RowFault::NoMemory) => return Err(OpenFault::NoMemory),
    };
    match state.open_with(entry, steps) {
        Ok(()) => Ok(()),
        Err(RecordFault::Bad) => Err(OpenFault::BadRow(number)),
        Err(RecordFault::Full) => Err(OpenFault::Full(number)),
        Err(RecordFault::NoMemory) => Err(OpenFault::NoMemory),
    }
}
