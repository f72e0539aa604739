//! A site's memory of its certificates: accounts, seeds, who stands certified by whom, and the table in force. Frozen graphs share its blocks.
#![tactic(auto)]

mod blocks;
mod book;
mod judging;
mod laws;
mod rooms;
mod slots;
mod takings;

pub use book::CertBook;
pub use judging::CertFault;
pub use laws::{follows_where_continues, has_place_where_fits};
pub use rooms::Room;
