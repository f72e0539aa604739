//! The machine as a server meets it: links and ports over TCP, its clock, its random bytes, its threads. What they give is not told; what each does
//! with an answer of the machine is said over any stream, clock and source of std's traits.
#![tactic(auto)]

mod clock;
mod entropy;
mod link;
mod pace;
mod port;
mod streams;
mod threads;

pub use clock::{ClockOver, SystemClock};
pub use entropy::{EntropyOver, SystemEntropy};
pub use link::{LinkOver, TcpLink};
pub use port::{PortOver, TcpPort};
pub use threads::ThreadSpawner;
