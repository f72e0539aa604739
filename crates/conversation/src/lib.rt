//! A link's conversation: what a client asks over a link, one request after another, is answered through a seat at a site.
#![tactic(auto)]

mod buffer;
mod conversing;
mod inbox;
mod laws;
mod linking;
mod saying;
mod served;
mod tally;

pub use laws::answers_whole;
pub use linking::{LinkEnd, Why, serve_link};
pub use served::Served;
pub use tally::Tally;
