//! The rows in which a site's records are kept: one row is written for each record, and each row of version 1 or 2 is read back.
#![tactic(auto)]

mod faults;
mod fields;
mod laws;
mod parts;
mod reading;
mod tables;
mod texts;
mod versions;
mod writing;

pub use faults::RowFault;
pub use laws::no_row_of_two_records;
pub use reading::read_row;
pub use writing::row_of;
