//! Texts of sites and of proofs: what they stand for, and how they are read.
#![tactic(auto)]

mod faults;
mod reading;

pub use faults::SiteFault;
pub use reading::{read_head, read_proof, read_site};
pub use text_lines::{TextFault, TextKind};
