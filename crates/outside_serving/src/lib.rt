//! What a server asks of the outside: links and the ports that give them, clocks, words that no one can guess, and what starts its jobs; with their
//! forms in memory.
#![tactic(auto)]

mod calls;
mod clock;
mod counts;
mod entropy;
mod link;
mod mem_link;
mod mem_port;
mod port;
mod spawner;

pub use clock::{Clock, StillClock};
pub use counts::Count;
pub use entropy::{Entropy, ListEntropy};
pub use link::Link;
pub use mem_link::MemLink;
pub use mem_port::MemPort;
pub use port::Port;
pub use spawner::{HereSpawner, Job, Spawner, start};
