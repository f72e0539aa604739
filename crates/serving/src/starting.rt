//! The start of a server's jobs.

ghost use Rattle.std.specs.Prelude.{◌≡◌};
ghost use Rattle.std.specs.Arc.{arc_value};

use crate::desks::{Bench, Desk};
use crate::hall::Hall;
use outside::Keeper;
use outside_serving::{Clock, Entropy, Link, Spawner, start};
use serve_words::ServePlan;
use std::alloc::Global;
use std::sync::{Arc, Wait};
use std::thread::Threads;
use trust_types::NoMemory;
use turn_book::Seat;

/// Whether any worker, and any job for links, was started.
#[derive(Clone, Copy)]
pub struct Started {
    pub workers: bool,
    pub links: bool,
}

/// Starts the jobs of a server, each with a seat of its own. One whose start is refused isn't replaced.
///
/// # Errors
/// [`NoMemory`] where a job couldn't be made.
pub fn start_all<
    K: Keeper + Send + 'static,
    L: Link + Send + 'static,
    C: Clock + Send + 'static,
    E: Entropy + Send + 'static,
    T: Spawner,
    R: Wait + Threads + Copy + Send + Sync + 'static,
>(
    rt: &R,
    alloc: Global,
    plan: &ServePlan,
    hall: &Arc<Hall<K, L>, Global>,
    seat: &mut Seat<K>,
    clock: &C,
    entropy: &E,
    spawner: &mut T,
) -> Result<Started, NoMemory>
    requires { seat.old.site ≡ (arc_value hall.now).site.table.shared.table_id }
    ensures { seat.new.site ≡ seat.old.site }
{
    let Ok(workers) = start_benches(rt, alloc, plan.workers, hall, seat, spawner) else {
        return Err(NoMemory);
    };
    let Ok(links) = start_desks(rt, alloc, plan.links, hall, seat, clock, entropy, spawner) else {
        return Err(NoMemory);
    };
    Ok(Started { workers, links })
}

/// Starts so many workers, and says whether one was started.
fn start_benches<
    K: Keeper + Send + 'static,
    L: Link + Send + 'static,
    T: Spawner,
    R: Wait + Threads + Copy + Send + Sync + 'static,
>(
    rt: &R,
    alloc: Global,
    count: u32,
    hall: &Arc<Hall<K, L>, Global>,
    seat: &mut Seat<K>,
    spawner: &mut T,
) -> Result<bool, NoMemory>
    requires { seat.old.site ≡ (arc_value hall.now).site.table.shared.table_id }
    ensures { seat.new.site ≡ seat.old.site }
{
    let mut any = false;
    for _ in 0..count {
        let Ok(bench) = another_bench(alloc, hall, seat) else {
            return Err(NoMemory);
        };
        if start(spawner, rt, bench).is_ok() {
            any = true;
        }
    }
    Ok(any)
}

/// Starts so many jobs for links, and says whether one was started.
fn start_desks<
    K: Keeper + Send + 'static,
    L: Link + Send + 'static,
    C: Clock + Send + 'static,
    E: Entropy + Send + 'static,
    T: Spawner,
    R: Wait + Threads + Copy + Send + Sync + 'static,
>(
    rt: &R,
    alloc: Global,
    count: u32,
    hall: &Arc<Hall<K, L>, Global>,
    seat: &mut Seat<K>,
    clock: &C,
    entropy: &E,
    spawner: &mut T,
) -> Result<bool, NoMemory>
    requires { seat.old.site ≡ (arc_value hall.now).site.table.shared.table_id }
    ensures { seat.new.site ≡ seat.old.site }
{
    let mut any = false;
    for _ in 0..count {
        let Ok(desk) = another_desk(alloc, hall, seat, clock, entropy) else {
            return Err(NoMemory);
        };
        if start(spawner, rt, desk).is_ok() {
            any = true;
        }
    }
    Ok(any)
}

/// A bench at the hall, whose seat is split from this one.
fn another_bench<K: Keeper, L: Link>(
    alloc: Global,
    hall: &Arc<Hall<K, L>, Global>,
    seat: &mut Seat<K>,
) -> Result<Bench<K, L>, NoMemory>
    requires { seat.old.site ≡ (arc_value hall.now).site.table.shared.table_id }
    ensures { seat.new.site ≡ seat.old.site }
{
    let Ok(theirs) = Arc::try_clone(hall) else {
        return Err(NoMemory);
    };
    match hall.site.split(seat) {
        Ok(other) => Ok(Bench {
            alloc,
            hall: theirs,
            seat: other,
        }),
        // The first 63 splits of a site aren't refused, and a server makes at most 56.
        Err(_) => Err(NoMemory),
    }
}

/// A desk at the hall, whose seat is split from this one.
fn another_desk<K: Keeper, L: Link, C: Clock, E: Entropy>(
    alloc: Global,
    hall: &Arc<Hall<K, L>, Global>,
    seat: &mut Seat<K>,
    clock: &C,
    entropy: &E,
) -> Result<Desk<K, L, C, E>, NoMemory>
    requires { seat.old.site ≡ (arc_value hall.now).site.table.shared.table_id }
    ensures { seat.new.site ≡ seat.old.site }
{
    let Ok(theirs) = Arc::try_clone(hall) else {
        return Err(NoMemory);
    };
    match hall.site.split(seat) {
        Ok(other) => Ok(Desk {
            alloc,
            hall: theirs,
            seat: other,
            clock: clock.another(),
            entropy: entropy.another(),
        }),
        // The first 63 splits of a site aren't refused, and a server makes at most 56.
        Err(_) => Err(NoMemory),
    }
}
