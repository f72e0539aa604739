//! A reader's copy of the last publication, which one load of a word keeps current.
#![tactic(auto)]

mod cells;

pub use cells::{Cache, Moved, latest, refresh};
