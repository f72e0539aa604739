//! The check of a proof: that a flow is feasible and greatest, by a cut of equal value.
#![tactic(auto)]

mod checks;
mod edges;
mod laws;
mod lines;
mod proofs;
mod scratch;
mod sides;
mod sums;
mod verdicts;

pub use checks::check;
pub use laws::proven_is_passed;
pub use lines::print_verdict;
pub use proofs::Proof;
pub use scratch::Scratch;
pub use sides::{cut_value, lay_out};
pub use verdicts::Verdict;
