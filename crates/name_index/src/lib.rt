//! The accounts' names by number, and the number of each name.
#![tactic(auto)]

mod index;
mod key_list;
mod key_table;
mod numbers;

pub use index::NameIndex;
pub use numbers::NameNumbers;
