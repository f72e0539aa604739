//! A script played over the book of a site: a community told line by line, each line one event, and what it comes to.
#![tactic(auto)]

mod actors;
mod answers;
mod events;
mod looks;
mod outputs;
mod playing;

pub use playing::play;
