//! Workers of a site: whoever takes rounds of freezing it, solving the graph and publishing the rosters.
#![tactic(auto)]

mod gate;
mod rounds;

pub use gate::{Gate, Go, OpenGate, RoundStep};
pub use rounds::{Round, work_round};
