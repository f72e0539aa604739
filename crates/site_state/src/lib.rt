//! The state of a site: what it is looked up in, over the history that made it.
#![tactic(auto)]

mod judged;
mod opening;
mod parts;
mod state;
mod viewing;
mod weighing;

pub use judged::Judged;
pub use opening::RecordFault;
pub use state::State;
