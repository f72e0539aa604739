//! The jobs of a server: desks that serve links, and benches that work on rosters.

ghost use Rattle.std.specs.Prelude.{◌≡◌};
ghost use Rattle.std.specs.Arc.{arc_value};
ghost use Rattle.roster_cell.specs.Caches.{IsCached};

use crate::hall::Hall;
use crate::tick_link::TickLink;
use conversation::{LinkEnd, serve_link};
use outside::Keeper;
use outside_serving::{Clock, Entropy, Job, Link};
use roster_cell::Cache;
use std::alloc::Global;
use std::sync::{Arc, Wait};
use std::thread::Threads;
use turn_book::Seat;
use workers::{OpenGate, Round, work_round};

/// Serves a link, and counts it.
pub fn serve_one<K: Keeper, L: Link, C: Clock, E: Entropy, R: Wait>(
    rt: &R,
    alloc: Global,
    hall: &Hall<K, L>,
    seat: &mut Seat<K>,
    cache: &mut Cache,
    clock: &mut C,
    entropy: &mut E,
    link: TickLink<L>,
)
    requires site { seat.old.site ≡ hall.now.site.table.shared.table_id }
    requires cached { IsCached seat.old.seen cache.old }
    ensures site { seat.new.site ≡ seat.old.site }
    ensures cached { IsCached seat.new.seen cache.new }
{
    let LinkEnd { served, .. } = serve_link(
        rt, alloc, &hall.site, seat, cache, link, clock, entropy,
    );
    hall.board.count(rt, served);
}

/// Serves link after link of the queue, with a cache of its own, until the queue is closed and empty.
fn serve_queue<K: Keeper, L: Link, C: Clock, E: Entropy, R: Wait>(
    rt: &R,
    alloc: Global,
    hall: &Hall<K, L>,
    mut seat: Seat<K>,
    mut clock: C,
    mut entropy: E,
)
    requires { seat.site ≡ hall.now.site.table.shared.table_id }
{
    let mut cache = Cache::new();
    for _ in rt.forever() {
        let Some(link) = hall.queue.pop(rt) else {
            return;
        };
        serve_one(
            rt,
            alloc,
            hall,
            &mut seat,
            &mut cache,
            &mut clock,
            &mut entropy,
            link,
        );
    }
}

/// Takes round after round of work, until the tick is closed, or until nothing more can be published. After a round that found nothing to do it waits for
/// a write to a link.
fn work<K: Keeper, L: Link, R: Wait + Threads + Sync>(
    rt: &R,
    alloc: Global,
    hall: &Hall<K, L>,
    mut seat: Seat<K>,
)
    requires { seat.site ≡ hall.now.site.table.shared.table_id }
{
    let mut gate = OpenGate::new();
    for _ in rt.forever() {
        let seen = hall.tick.number(rt);
        match work_round(rt, alloc, &hall.site, &mut seat, &mut gate) {
            Round::Published(_) | Round::Stale(_) => {}
            Round::Same(_) | Round::NoMemory => {
                if !hall.tick.wait_past(rt, seen) {
                    return;
                }
            }
            Round::HistoryFull | Round::PublicationsFull | Round::Stopped => return,
        }
    }
}

/// A seat at a hall, with what serves links there.
#[derive(Drop)]
pub struct Desk<K: Keeper, L: Link, C: Clock, E: Entropy> {
    pub(crate) alloc: Global,
    pub(crate) hall: Arc<Hall<K, L>, Global>,
    pub(crate) seat: Seat<K>,
    pub(crate) clock: C,
    pub(crate) entropy: E,
    pub ghost same: { seat.site ≡ (arc_value hall).site.table.shared.table_id },
}

impl<K: Keeper, L: Link, C: Clock, E: Entropy> Job for Desk<K, L, C, E> {
    fn run<R: Wait + Threads + Sync>(self, rt: &R) {
        let Desk {
            alloc,
            hall,
            seat,
            clock,
            entropy,
        } = self;
        serve_queue(rt, alloc, &*hall, seat, clock, entropy);
    }
}

/// A seat at a hall, for a worker.
#[derive(Drop)]
pub struct Bench<K: Keeper, L: Link> {
    pub(crate) alloc: Global,
    pub(crate) hall: Arc<Hall<K, L>, Global>,
    pub(crate) seat: Seat<K>,
    pub ghost same: { seat.site ≡ (arc_value hall).site.table.shared.table_id },
}

impl<K: Keeper, L: Link> Job for Bench<K, L> {
    fn run<R: Wait + Threads + Sync>(self, rt: &R) {
        let Bench { alloc, hall, seat } = self;
        work(rt, alloc, &*hall, seat);
    }
}
