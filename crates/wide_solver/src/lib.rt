//! The rosters of a site, all grades at once, in as many threads as there are grades.
#![tactic(auto)]

mod halving;

pub use halving::solve_wide;
