//! The words of `serve`: what a server is asked to do.
#![tactic(auto)]

mod command;
mod numbers;
mod parsing;
mod plan;
mod plans;
mod tables;
mod values;

pub use plan::{MOST_LINKS, MOST_WORKERS, ServePlan};
