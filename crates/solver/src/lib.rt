//! The rosters of a site, found by the engine.
#![tactic(auto)]

mod reading;
mod solving;

pub use solving::{solve_alone, solve_level, solve_one};
