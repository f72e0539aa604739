//! A lock with seats over the book of a site. Whoever works on the site holds a seat; each call through a seat is one call of the book, at one point of
//! one legal history that begins with what the seat has seen.
#![tactic(auto)]

mod laws;
mod rule;
mod seat;
mod site;

pub use laws::splits_leave_enough;
pub use seat::Seat;
pub use site::{Away, Front, Site, SplitFault};
