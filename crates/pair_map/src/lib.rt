//! Maps from pairs of numbers.
#![tactic(auto)]

mod pair_maps;

pub use pair_maps::PairMap;
