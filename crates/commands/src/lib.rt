//! The commands of the site engine: what the words of a command line ask for, and a run that does it over any source and sink.
#![tactic(auto)]

mod answers;
mod command;
mod outcome;
mod rosters;
mod running;
mod status;

pub use command::{Asked, Command, MOST_PROOF_BYTES, MOST_SITE_BYTES};
pub use outcome::{Answer, Outcome};
pub use running::run;
pub use status::Status;
