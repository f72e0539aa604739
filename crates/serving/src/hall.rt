//! What the jobs of a server share.

ghost use Rattle.std.specs.Prelude.{◌≡◌, IfOk};

use crate::board::Board;
use crate::queue::Queue;
use crate::tick::Tick;
use crate::tick_link::TickLink;
use outside::Keeper;
use outside_serving::Link;
use std::alloc::Global;
use std::sync::Arc;
use trust_types::NoMemory;
use turn_book::Site;

/// A site, the links that wait, the tally of those that were served, and the tick.
#[derive(Drop)]
pub struct Hall<K: Keeper, L: Link> {
    pub(crate) site: Site<K>,
    pub(crate) queue: Queue<TickLink<L>>,
    pub(crate) board: Board<TickLink<L>>,
    pub(crate) tick: Arc<Tick, Global>,
}

impl<K: Keeper, L: Link> Hall<K, L> {
    /// A hall over this site, in which nobody waits and nothing was served.
    ///
    /// # Errors
    /// [`NoMemory`] where there isn't enough; the site is then dropped.
    pub fn open(alloc: Global, site: Site<K>) -> Result<Hall<K, L>, NoMemory>
        ensures { IfOk result (λ hall. hall.site ≡ site) }
    {
        Ok(Hall {
            site,
            queue: Queue::reserve(alloc)?,
            board: Board::new(),
            tick: Arc::new(alloc, Tick::new())?,
        })
    }
}
