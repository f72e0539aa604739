//! How a server ends.

use crate::tick_link::TickLink;
use commands::Status;
use conversation::Tally;
use outside::Keeper;
use outside_serving::Link;

/// How a server ended.
#[derive(Drop)]
pub struct ServeEnd<K: Keeper, L: Link> {
    pub status: Status,
    /// The keeper, where no site was opened over it; else it went with the site.
    pub keeper: Option<K>,
    /// The tally of the links that were served.
    pub tally: Tally<TickLink<L>>,
}

/// Why a server that has its site accepts no more links.
#[derive(Clone, Copy)]
pub enum End {
    /// As many links as were asked for were accepted.
    Done,
    /// The port had a fault.
    PortFault,
    /// The first line couldn't be written. No link was accepted.
    Unheard,
    /// Memory ran out before the first line. No link was accepted.
    Unready,
    /// Memory ran out after the first line.
    NoMemory,
}
