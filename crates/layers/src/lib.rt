//! Distances through what rests of a split graph, and how many phases of shortest ways there can be.
#![tactic(auto)]

mod laws;

pub use laws::{
    distance_rises, few_are_missing, layer_cut, phases_are_few, steps_are_few, ways_are_longer,
    wide_star_is_bounded,
};
