//! Certificates in the order in which they were given: a later one of a pair takes the earlier's place, and one at
//! Observer takes it away.
#![tactic(auto)]

mod laws;
mod levels;
mod logs;
mod sorted;

pub use laws::standing_can_stand;
pub use logs::CertLog;
