//! The server of a site: it accepts the links of a port, serves them beside each other over one site, and publishes rosters meanwhile.
#![tactic(auto)]

mod accepting;
mod board;
mod desks;
mod ending;
mod hall;
mod laws;
mod queue;
mod serving;
mod starting;
mod tick;
mod tick_link;

pub use ending::ServeEnd;
pub use laws::{ends_well_without_faults, port_fault_gave_fewer};
pub use serving::serve;
pub use tick_link::TickLink;
