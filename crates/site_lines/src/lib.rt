//! The lines of a site: what each means after those before, and a site under construction.
#![tactic(auto)]

mod accounts;
mod drafts;
mod entries;
mod parts;
mod seeds;
mod tables;

pub use drafts::SiteDraft;
pub use parts::SiteParts;
pub use tables::{is_levels_line, read_entries, read_levels};
