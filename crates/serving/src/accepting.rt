//! The acceptor.

ghost use Rattle.std.specs.Prelude.{◌≡◌};
ghost use Rattle.roster_cell.specs.Caches.{IsCached};
ghost use Rattle.serving.specs.Ports.{RoseBy};
ghost use Rattle.serving.specs.inner.Stopping.{Accepts};

use crate::desks::serve_one;
use crate::ending::End;
use crate::hall::Hall;
use crate::starting::Started;
use crate::tick_link::TickLink;
use outside::Keeper;
use outside_serving::{Clock, Count, Entropy, Link, Port};
use roster_cell::Cache;
use std::alloc::Global;
use std::sync::{Arc, Wait};
use std::thread::Threads;
use turn_book::Seat;
use workers::{OpenGate, work_round};

/// Why no more links are accepted, and how many were.
#[derive(Clone, Copy)]
pub struct Accepted {
    pub end: End,
    pub links: u64,
}

/// Accepts `accept` links, or links without end where that is 0, and hands each over. It ends also at the first accept that fails, and where memory runs
/// out.
#[tactic(auto, using(crate::proofs::Rising::rose_none, crate::proofs::Rising::rose_one))]
pub fn accept_all<K: Keeper, P: Port, C: Clock, E: Entropy, R: Wait + Threads + Sync>(
    rt: &R,
    alloc: Global,
    accept: u32,
    port: &mut P,
    hall: &Hall<K, P::Joined>,
    seat: &mut Seat<K>,
    clock: &mut C,
    entropy: &mut E,
    started: Started,
) -> Accepted
    requires site { seat.old.site ≡ hall.now.site.table.shared.table_id }
    ensures given { RoseBy (P.given port.old) (P.given port.new) result.links }
    ensures end { Accepts accept (P.faults port.old) (P.faults port.new) result.links result.end }
{
    let mut cache = Cache::new();
    let mut links = Count::zero();
    for _ in rt.forever() {
        if accept != 0 && links.value() == u64::from(accept) {
            return Accepted {
                end: End::Done,
                links: links.value(),
            };
        }
        // What may be refused is asked for first, so that no link is accepted that can't be served.
        let Ok(tick) = Arc::try_clone(&hall.tick) else {
            return Accepted {
                end: End::NoMemory,
                links: links.value(),
            };
        };
        let Ok(link) = port.accept(rt) else {
            return Accepted {
                end: End::PortFault,
                links: links.value(),
            };
        };
        links.rise();
        let link = TickLink::of(link, tick);
        hand_over(
            rt, alloc, hall, seat, &mut cache, clock, entropy, started, link,
        );
    }
    unreachable!()
}

/// Hands a link over. Where no worker was started, one round of work is done here.
fn hand_over<K: Keeper, L: Link, C: Clock, E: Entropy, R: Wait + Threads + Sync>(
    rt: &R,
    alloc: Global,
    hall: &Hall<K, L>,
    seat: &mut Seat<K>,
    cache: &mut Cache,
    clock: &mut C,
    entropy: &mut E,
    started: Started,
    link: TickLink<L>,
)
    requires site { seat.old.site ≡ hall.now.site.table.shared.table_id }
    requires cached { IsCached seat.old.seen cache.old }
    ensures site { seat.new.site ≡ seat.old.site }
    ensures cached { IsCached seat.new.seen cache.new }
{
    queue_or_serve(rt, alloc, hall, seat, cache, clock, entropy, started, link);
    if !started.workers {
        // Its contract says that what the seat has seen is legal.
        let _number = seat.number();
        work_round(rt, alloc, &hall.site, seat, &mut OpenGate::new());
    }
}

/// Hands a link to the jobs, or serves it here where none was started.
fn queue_or_serve<K: Keeper, L: Link, C: Clock, E: Entropy, R: Wait>(
    rt: &R,
    alloc: Global,
    hall: &Hall<K, L>,
    seat: &mut Seat<K>,
    cache: &mut Cache,
    clock: &mut C,
    entropy: &mut E,
    started: Started,
    link: TickLink<L>,
)
    requires site { seat.old.site ≡ hall.now.site.table.shared.table_id }
    requires cached { IsCached seat.old.seen cache.old }
    ensures site { seat.new.site ≡ seat.old.site }
    ensures cached { IsCached seat.new.seen cache.new }
{
    if started.links {
        hall.queue.push(rt, link);
    } else {
        serve_one(rt, alloc, hall, seat, cache, clock, entropy, link);
    }
}
