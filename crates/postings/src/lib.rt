//! What members post: diaries, articles, replies and projects, by number and by name.
#![tactic(auto)]

mod judging;
mod places;
mod postings;
mod shelves;

pub use judging::PostFault;
pub use places::Room;
pub use postings::Postings;
