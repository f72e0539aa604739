//! The split graph of a site at a level, and what may still be moved along its arcs.
#![tactic(auto)]

mod arc_table;
mod capacities;
mod residual_graph;
mod split_arcs;
mod split_nodes;

pub use residual_graph::{ArcView, Residual};
pub use split_nodes::{SOURCE, entered_account, in_half, out_half};
