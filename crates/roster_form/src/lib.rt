//! The form of a site's rosters: one for each grade, a candidate with all of them, and what is published.
#![tactic(auto)]

mod candidates;
mod level_rosters;
mod publications;

pub use candidates::Candidate;
pub use level_rosters::LevelRoster;
pub use publications::Publication;
