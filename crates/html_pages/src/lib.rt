//! Pages of HTML: what stands in them, and how they are put down.
#![tactic(auto)]

mod bodies;
mod dates;
mod lines;
mod lists;
mod pens;
mod shown;

pub use bodies::{Body, put_body};
pub use pens::Pen;
pub use shown::{CleanPost, Headline, Roster};
