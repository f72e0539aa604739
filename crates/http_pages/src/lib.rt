//! Pages: what a site's clients are sent.
#![tactic(auto)]

mod answers;
mod fixed;
mod laws;
mod leads;
mod responses;
mod rosters;
mod views;

pub use answers::answer_page;
pub use fixed::fixed_page;
pub use laws::{fixed_are_safe, refusals_are_safe, rosters_are_safe, views_are_safe};
pub use rosters::roster_page;
pub use views::view_page;
