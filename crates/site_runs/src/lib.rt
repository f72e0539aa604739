//! Runs of the program on a site: what its words ask for, a script that is played over the keeper of the site's rows, and the drill. It says too
//! what its words ask of a server, and tells why no site was opened over its rows.
#![tactic(auto)]

mod answers;
mod drills;
mod ran;
mod running;
mod words;

pub use answers::unopened;
pub use ran::{Kept, Ran};
pub use running::{run, tell};
pub use words::Wants;
