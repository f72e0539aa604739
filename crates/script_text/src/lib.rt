//! Scripts: a community told line by line. What their lines ask for, and how they are read.
#![tactic(auto)]

mod actors;
mod faults;
mod forms;
mod keywords;
mod lines;
mod places;
mod reading;
mod words;

pub use faults::ScriptFault;
pub use lines::{ActorNo, MOST_ACTORS, Moment, ScriptLine, SiteScript};
pub use reading::read_script;
