//! Lines, words and numbers of the texts that the program reads, and how a text is read line by line.
#![tactic(auto)]

mod ends;
mod faults;
mod lines;
mod numbers;
mod places;
mod steps;
mod words;

pub use faults::{LineFault, TextFault, TextKind};
pub use lines::{Lines, line_count};
pub use numbers::number;
pub use places::{grade_in, is_same, level_in, name_in};
pub use steps::{at_line, fault_if, fault_unless};
pub use words::{Words, is_line};
