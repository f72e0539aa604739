//! Flows through Levien's split graph, apart from how it is held.
#![tactic(auto)]

mod laws;

pub use laws::{missing_at_most_leaving, moved_is_feasible, saturated_is_solved};
