//! The canonical text of a proof: what it is, how it is written, and that it reads back.
#![tactic(auto)]

mod writing;

pub use writing::proof_text;
