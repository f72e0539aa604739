//! The outside world: traits whose failures have a cause, their forms in memory, and the machine's.
#![tactic(auto)]

mod calls;
mod counted;
mod counts;
mod failed;
mod keeper;
mod mem_keeper;
mod mem_sink;
mod mem_source;
mod reading;
mod sink;
mod source;
mod standard;
mod writing;

pub use failed::Failed;
pub use keeper::{Fetched, KeepFault, Keeper};
pub use mem_keeper::MemKeeper;
pub use mem_sink::MemSink;
pub use mem_source::MemSource;
pub use reading::{InputFault, read_to_end};
pub use sink::Sink;
pub use source::Source;
pub use standard::{StdSink, StdSource};
pub use writing::write_all;
