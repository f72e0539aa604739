//! What a site answers to a request, and how a link's exchanges are logged.
#![tactic(auto)]

mod answering;
mod asked;
mod commands;
mod logs;
mod responding;
mod wanted;

pub use answering::{Decision, Page, answer};
pub use logs::{Exchange, Kind, LinkLog, MOST_EXCHANGES, Room};
pub use responding::respond;
