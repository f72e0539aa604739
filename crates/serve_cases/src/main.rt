//! Shows that a server's jobs run beside each other, which no contract can say. Most runs have a site of four rows, two jobs for links and one worker. Each prints how it
//! ended, how many links were served, what its clients saw, and what the server wrote.
#![tactic(auto)]

mod clients;
mod doors;
mod runs;

use anyhow::Result;
use clients::Way;
use outside_real::ThreadSpawner;
use outside_serving::HereSpawner;
use runs::{run, run_over_silent_links};
use std::alloc::Global;
use std::sync::Wait;
use std::thread::Threads;

/// Two clients that wait for each other. A server that serves one link after the other lets one wait in vain.
fn pair<R: Wait + Threads + Copy + Send + Sync + 'static>(rt: &R, alloc: Global) -> Result<String> {
    let ways = [(Way::First, 1), (Way::Second, 1)];
    let pair = run(rt, alloc, &ways, 2, &mut ThreadSpawner::new(alloc))?;
    Ok(format!(in alloc;
        "{}; {} answered with 200, {} waited in vain\n{}",
        pair.ended, pair.answered, pair.in_vain, pair.written
    )?)
}

/// A client that waits for a worker. A server that starts no worker shows it no publication.
fn asks<R: Wait + Threads + Copy + Send + Sync + 'static>(rt: &R, alloc: Global) -> Result<String> {
    let asks = run(
        rt,
        alloc,
        &[(Way::Asks(9000), 1)],
        1,
        &mut ThreadSpawner::new(alloc),
    )?;
    Ok(format!(in alloc;
        "{}; publication 1 revision 4 shown: {}\n{}",
        asks.ended, asks.shown, asks.written
    )?)
}

/// A client that joins and then waits for a worker, and one that comes after. A server that wakes no worker shows no publication with the first one's account.
fn joins<R: Wait + Threads + Copy + Send + Sync + 'static>(
    rt: &R,
    alloc: Global,
) -> Result<String> {
    let ways = [(Way::Joins(9000), 1), (Way::Late, 1)];
    let joins = run(rt, alloc, &ways, 2, &mut ThreadSpawner::new(alloc))?;
    Ok(format!(in alloc;
        "{}; publication 2 revision 5 shown: {}\n{}",
        joins.ended, joins.shown_later, joins.written
    )?)
}

fn many<R: Wait + Threads + Copy + Send + Sync + 'static>(rt: &R, alloc: Global) -> Result<String> {
    let many = run(
        rt,
        alloc,
        &[(Way::Asks(0), 200)],
        200,
        &mut ThreadSpawner::new(alloc),
    )?;
    Ok(format!(in alloc; "{}\n{}", many.ended, many.written)?)
}

/// A server that starts no job, so that its acceptor serves and works.
fn here<R: Wait + Threads + Copy + Send + Sync + 'static>(rt: &R, alloc: Global) -> Result<String> {
    let here = run(rt, alloc, &[(Way::Asks(1), 2)], 3, &mut HereSpawner::new())?;
    Ok(format!(in alloc;
        "{}; publication 1 revision 4 shown: {}\n{}",
        here.ended, here.shown, here.written
    )?)
}

fn main(rt: HostRuntime) -> Result<()> {
    let alloc = rt.alloc();
    print!(rt;
        "each of two clients waits until the other was answered\n{}\n",
        pair(&rt, alloc)?
    )?;
    print!(rt;
        "a client asks until a worker has published\n{}\n",
        asks(&rt, alloc)?
    )?;
    print!(rt;
        "a client joins behind a publication, and asks until a worker has published again\n{}\n",
        joins(&rt, alloc)?
    )?;
    print!(rt;
        "more clients than wait at once, and a port that fails until the first line is written\n{}\n",
        many(&rt, alloc)?
    )?;
    print!(rt;
        "no job is started, and the third accept fails\n{}\n",
        here(&rt, alloc)?
    )?;
    print!(rt;
        "no job is started, and one of two links comes, without bytes\n{}\n",
        run_over_silent_links(&rt, alloc, 1)?
    )?;
    print!(rt;
        "no job is started, and both links come, without bytes\n{}\n",
        run_over_silent_links(&rt, alloc, 2)?
    )?;
    Ok(())
}
