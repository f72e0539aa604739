//! A site's book: one legal history, whatever order acts, freezes and publications come in, over a keeper of its rows.
#![tactic(auto)]

mod book;
mod laws;
mod opening;
mod sizes;
mod viewing;

pub use book::Book;
pub use laws::{kept_rows_open, open_rows_pass, rows_open_once};
pub use opening::{OpenFault, Unopened};
