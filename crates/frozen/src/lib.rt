//! Frozen revisions of a site's certificates, in blocks of accounts that revisions share.
#![tactic(auto)]

mod blocks;
mod frozen_graph;
mod making;
mod rows;

pub use blocks::Block;
pub use frozen_graph::Frozen;
