//! The rows of a site in an SQLite database, in a file or in memory.
#![tactic(auto)]

mod ahead;
mod database;
mod keeper;

pub use keeper::{Either, KeeperOver, SqliteKeeper};
