//! The server.

ghost use Rattle.std.specs.Prelude.{◌≡◌, IfOk, Some, List};
ghost use Rattle.std.specs.Arc.{arc_value};
ghost use Rattle.outside.specs.Causes.{HasCause};
ghost use Rattle.commands.specs.Runs.{Output};
ghost use Rattle.serving.specs.Ports.{RoseBy};
ghost use Rattle.serving.specs.Serving.{around, Serves, Hosts, is_write_fault};
ghost use Rattle.serving.specs.inner.Stopping.{Stops, TellsEnd, is_unheard};

use crate::accepting::{Accepted, accept_all};
use crate::ending::{End, ServeEnd};
use crate::hall::Hall;
use crate::starting::start_all;
use crate::tick_link::TickLink;
use commands::Status;
use conversation::Tally;
use outside::{Keeper, Sink, write_all};
use outside_serving::{Clock, Entropy, Link, Port, Spawner};
use serve_words::ServePlan;
use site_core::{Book, Unopened};
use site_runs::{tell, unopened};
use std::alloc::Global;
use std::sync::{Arc, Wait};
use std::thread::Threads;
use trust_types::NoMemory;
use turn_book::{Seat, Site};

/// Serves the links of a port over the site of a keeper, and answers how it ended, with the tally of the links that it served. It may wait, and need not
/// return.
///
/// Over the rows of the keeper it opens a site. It starts the plan's workers and jobs for links, writes `listening`, accepts as many links as the plan
/// says, and hands them to the jobs through a queue with room for 64. Then it waits until all of them were served and each job has ended. A job that isn't
/// started isn't replaced: where none for links is, the acceptor serves each link itself before the next accept, and where no worker is, it takes a round of
/// work after each link. A worker that has nothing to do waits until a write to a link succeeds.
///
/// As many links were served as the port gave, whatever the status:
///
/// - `Done`: as many as the plan's `accept`, which isn't 0.
/// - `PortFault`: an accept failed, and `port fault` was written; fewer were served.
/// - `WriteFault`: a write failed.
/// - `KeeperFault`, `BadRow`, `RowsFull`: no site was opened, for the cause that [`Book::open`] tells and that was written, and the keeper is handed back.
/// - `NoMemory`: memory ran out, before or after a site was opened.
#[tactic(auto, using(crate::proofs::Rising::rose_none))]
pub fn serve<
    K: Keeper + Send + 'static,
    P: Port,
    C: Clock + Send + 'static,
    E: Entropy + Send + 'static,
    W: Sink,
    T: Spawner,
    R: Wait + Threads + Copy + Send + Sync + 'static,
>(
    rt: &R,
    alloc: Global,
    plan: &ServePlan,
    keeper: K,
    port: &mut P,
    clock: &C,
    entropy: &E,
    sink: &mut W,
    spawner: &mut T,
) -> ServeEnd<K, P::Joined>
where
    P::Joined: Send + 'static,
    // As many links were served as the port gave.
    ensures tally { RoseBy (P.given port.old) (P.given port.new) result.tally }
    // Each job that was started has ended.
    ensures joined { T.running spawner.old ≡ 0 → T.running spawner.new ≡ 0 }
    ensures written { HasCause (W.faults sink.old) (W.faults sink.new) (is_write_fault result.status) }
    ensures ended { Serves K.rows K.faults plan.now.caps plan.now.accept keeper (around (P.faults port.old) (W.held sink.old) (W.faults sink.old)) (around (P.faults port.new) (W.held sink.new) (W.faults sink.new)) result.tally result.keeper result.status }
{
    match Book::open(alloc, keeper, plan.caps) {
        Ok(book) => {
            let (status, tally) = host(rt, alloc, plan, book, port, clock, entropy, sink, spawner);
            ServeEnd {
                status,
                keeper: None,
                tally,
            }
        }
        Err(Unopened { fault, keeper }) => ServeEnd {
            status: tell(sink, &unopened(alloc, fault)),
            keeper: Some(keeper),
            tally: Tally::new(),
        },
    }
}

/// Serves the links of a port over the site of a book.
#[tactic(auto, using(crate::proofs::Rising::rose_none))]
fn host<
    K: Keeper + Send + 'static,
    P: Port,
    C: Clock + Send + 'static,
    E: Entropy + Send + 'static,
    W: Sink,
    T: Spawner,
    R: Wait + Threads + Copy + Send + Sync + 'static,
>(
    rt: &R,
    alloc: Global,
    plan: &ServePlan,
    book: Book<K>,
    port: &mut P,
    clock: &C,
    entropy: &E,
    sink: &mut W,
    spawner: &mut T,
) -> (Status, Tally<TickLink<P::Joined>>)
where
    P::Joined: Send + 'static,
    ensures tally { RoseBy (P.given port.old) (P.given port.new) result.1 }
    ensures joined { T.running spawner.old ≡ 0 → T.running spawner.new ≡ 0 }
    ensures written { HasCause (W.faults sink.old) (W.faults sink.new) (is_write_fault result.0) }
    ensures hosts { Hosts plan.now.accept (around (P.faults port.old) (W.held sink.old) (W.faults sink.old)) (around (P.faults port.new) (W.held sink.new) (W.faults sink.new)) result.1 result.0 }
{
    let Ok((hall, seat)) = open_hall(alloc, book) else {
        return (Status::NoMemory, Tally::new());
    };
    let accepted = attend(
        rt, alloc, plan, &hall, seat, port, clock, entropy, sink, spawner,
    );
    hall.queue.close(rt);
    hall.tick.close(rt);
    spawner.join(rt);
    let tally = hall.board.take(rt, accepted.links);
    (tell_end(sink, accepted.end), tally)
}

/// A hall over the site of the book, with its first seat.
fn open_hall<K: Keeper, L: Link>(
    alloc: Global,
    book: Book<K>,
) -> Result<(Arc<Hall<K, L>, Global>, Seat<K>), NoMemory>
    ensures { IfOk result (λ r. r.1.site ≡ (arc_value r.0).site.table.shared.table_id) }
{
    let Ok((site, seat)) = Site::open(alloc, book) else {
        return Err(NoMemory);
    };
    let Ok(hall) = Hall::open(alloc, site) else {
        return Err(NoMemory);
    };
    match Arc::new(alloc, hall) {
        Ok(hall) => Ok((hall, seat)),
        Err(_) => Err(NoMemory),
    }
}

/// Starts the jobs, says that it listens, and accepts.
#[tactic(auto, using(crate::proofs::Rising::rose_none))]
fn attend<
    K: Keeper + Send + 'static,
    P: Port,
    C: Clock + Send + 'static,
    E: Entropy + Send + 'static,
    W: Sink,
    T: Spawner,
    R: Wait + Threads + Copy + Send + Sync + 'static,
>(
    rt: &R,
    alloc: Global,
    plan: &ServePlan,
    hall: &Arc<Hall<K, P::Joined>, Global>,
    mut seat: Seat<K>,
    port: &mut P,
    clock: &C,
    entropy: &E,
    sink: &mut W,
    spawner: &mut T,
) -> Accepted
where
    P::Joined: Send + 'static,
    requires { seat.site ≡ (arc_value hall.now).site.table.shared.table_id }
    ensures given { RoseBy (P.given port.old) (P.given port.new) result.links }
    ensures written { HasCause (W.faults sink.old) (W.faults sink.new) (is_unheard result.end) }
    ensures stops { Stops plan.now.accept (around (P.faults port.old) (W.held sink.old) (W.faults sink.old)) (around (P.faults port.new) (W.held sink.new) (W.faults sink.new)) result.links result.end }
{
    let Ok(started) = start_all(rt, alloc, plan, hall, &mut seat, clock, entropy, spawner) else {
        return Accepted {
            end: End::Unready,
            links: 0,
        };
    };
    if write_all(sink, b"listening\n").is_err() {
        return Accepted {
            end: End::Unheard,
            links: 0,
        };
    }
    accept_all(
        rt,
        alloc,
        plan.accept,
        port,
        &**hall,
        &mut seat,
        &mut clock.another(),
        &mut entropy.another(),
        started,
    )
}

/// Writes what is to be written last, and gives the status.
fn tell_end<W: Sink>(sink: &mut W, end: End) -> Status
    ensures { let held : Output = record { held = W.held sink.old; faults = W.faults sink.old } in
        let holds : Output = record { held = W.held sink.new; faults = W.faults sink.new } in
        TellsEnd end held holds result }
{
    match end {
        End::Done => Status::Done,
        End::Unheard => Status::WriteFault,
        End::Unready | End::NoMemory => Status::NoMemory,
        End::PortFault => match write_all(sink, b"port fault\n") {
            Ok(()) => Status::PortFault,
            Err(_) => Status::WriteFault,
        },
    }
}
