//! The lines of a proof text behind the site's own: a level, a flow and a cut.
#![tactic(auto)]

mod drafts;
mod flows;
mod level_lines;
mod nodes;

pub use drafts::{ClaimDraft, ClaimParts};
pub use level_lines::{is_level_line, read_level};
