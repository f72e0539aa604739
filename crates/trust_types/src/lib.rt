//! The words of the trust metric, and its definitions.
#![tactic(auto)]

mod accounts;
mod cert_lists;
mod entries;
mod flows;
mod graphs;
mod laws;
mod levels;
mod limits;
mod memory;
mod names;
mod records;
mod steps;
mod tables;
mod texts;

pub use accounts::{AccountNo, Node};
pub use cert_lists::CertList;
pub use entries::Entries;
pub use flows::{FlowLine, Side};
pub use graphs::{Cert, CertGraph};
pub use laws::{
    proven_is_greatest, proven_is_roster, served_at_most_bound, served_at_most_entering,
    total_at_most_cut, total_is_root_units,
};
pub use levels::Level;
pub use limits::{
    FEWEST_LEVELS, GREATEST_ENTRY, LAST_MOMENT, LONGEST_TEXT, MOST_ACCOUNTS, MOST_CERTS,
    MOST_ENTRIES, MOST_LEVELS, limits_are_these,
};
pub use memory::NoMemory;
pub use names::Name;
pub use records::{Record, Secret};
pub use steps::Steps;
pub use tables::{Caps, CapsFault};
pub use texts::Text;
