//! Requests: what the bytes that a client sent ask for.
#![tactic(auto)]

mod actions;
mod forms;
mod laws;
mod next;
mod pages;
mod progress;
mod requests;
mod routes;

pub use laws::{asks_once, is_stable, needs_few, progress_stays, refuses_by_status, uses_some};
pub use next::{Next, next_request};
pub use progress::Progress;
pub use requests::Request;
pub use routes::Route;
