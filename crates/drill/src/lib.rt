//! The drill: a site that is made from a number, to try the engine on.
#![tactic(auto)]

mod draws;
mod sites;

pub use sites::drill_site;
