//! Runs of a server.

use crate::clients::{Client, Seen, Way};
use crate::doors::{Door, Lines};
use anyhow::Result;
use outside::{MemKeeper, MemSink, Sink};
use outside_serving::{
    Count, HereSpawner, ListEntropy, MemLink, MemPort, Port, Spawner, StillClock,
};
use serve_words::ServePlan;
use serving::serve;
use std::alloc::Global;
use std::collections::VecDeque;
use std::str;
use std::sync::atomic::Ordering;
use std::sync::{Arc, Wait};
use std::thread::Threads;
use trust_types::{Caps, Text};

/// A table of three entries, two jobs for links, one worker, and so many accepts.
fn plan(alloc: Global, accept: u32) -> Result<ServePlan> {
    Ok(ServePlan {
        listen: Text::from_string(String::new(alloc)),
        db: None,
        caps: Caps::read(&[3, 2, 1])?,
        links: 2,
        workers: 1,
        accept,
    })
}

/// So many clients of each way.
fn clients(
    alloc: Global,
    ways: &[(Way, u32)],
    seen: &Arc<Seen, Global>,
) -> Result<VecDeque<Client>> {
    let mut clients = VecDeque::new(alloc);
    for (way, count) in ways {
        for _ in 0..*count {
            clients.push_back(Client::new(*way, Arc::try_clone(seen)?))?;
        }
    }
    Ok(clients)
}

/// The rows of a site in which raph, who is a seed, certifies alan.
const ROWS: [&str; 4] = [
    "v=2&k=join&m=0&n=raph&s=",
    "v=2&k=seed&m=0&a=0",
    "v=2&k=join&m=0&n=alan&s=",
    "v=2&k=cert&m=0&a=0&b=1&l=Master",
];

/// A keeper of these rows.
fn keeper(alloc: Global, rows: &[&str]) -> Result<MemKeeper> {
    let mut kept = Vec::new(alloc);
    for row in rows {
        kept.push(row.as_bytes().to_vec(alloc)?)?;
    }
    Ok(MemKeeper::new(alloc, kept, Vec::new(alloc)))
}

/// A server over these rows, a port and a sink, in words: how it ended, and how many links it served.
fn serve_so<P: Port, W: Sink, T: Spawner, R: Wait + Threads + Copy + Send + Sync + 'static>(
    rt: &R,
    alloc: Global,
    rows: &[&str],
    port: &mut P,
    lines: &mut W,
    accept: u32,
    spawner: &mut T,
) -> Result<String>
where
    P::Joined: Send + 'static,
{
    let end = serve(
        rt,
        alloc,
        &plan(alloc, accept)?,
        keeper(alloc, rows)?,
        port,
        &StillClock::new(alloc, 0, Vec::new(alloc)),
        &ListEntropy::new(alloc, Vec::new(alloc), Vec::new(alloc)),
        lines,
        spawner,
    );
    let (status, number) = (end.status, end.tally.number());
    Ok(format!(in alloc; "{status:?}; {number} served")?)
}

/// A sink for a server's lines.
fn sink(alloc: Global) -> Result<MemSink> {
    Ok(MemSink::new(alloc, 100, 100, Vec::new(alloc))?)
}

/// What a sink holds, as text.
fn held(lines: &MemSink) -> &str {
    str::from_utf8(lines.bytes()).unwrap_or("")
}

/// What came of a run.
#[derive(Drop)]
pub(crate) struct Outcome {
    /// How the server ended, and how many links it served.
    pub ended: String,
    /// How many clients had a response of status 200, and how many waited for another in vain.
    pub answered: u64,
    pub in_vain: u64,
    /// Whether the publication of the site's rows was shown, and whether the one with the client that joined.
    pub shown: bool,
    pub shown_later: bool,
    /// What the server wrote.
    pub written: String,
}

/// What comes of a server over the rows with these clients and so many accepts.
pub(crate) fn run<T: Spawner, R: Wait + Threads + Copy + Send + Sync + 'static>(
    rt: &R,
    alloc: Global,
    ways: &[(Way, u32)],
    accept: u32,
    spawner: &mut T,
) -> Result<Outcome> {
    let seen = Arc::new(alloc, Seen::new())?;
    let clients = clients(alloc, ways, &seen)?;
    let mut door = Door {
        clients,
        seen: Arc::try_clone(&seen)?,
        faults: Count::zero(),
        given: Count::zero(),
    };
    let mut lines = Lines {
        lines: sink(alloc)?,
        seen: Arc::try_clone(&seen)?,
    };
    let ended = serve_so(rt, alloc, &ROWS, &mut door, &mut lines, accept, spawner)?;
    Ok(Outcome {
        ended,
        answered: seen.answered.load(Ordering::SeqCst),
        in_vain: seen.in_vain.load(Ordering::SeqCst),
        shown: seen.shown.load(Ordering::SeqCst) > 0,
        shown_later: seen.shown_later.load(Ordering::SeqCst) > 0,
        written: String::from_str(alloc, held(&lines.lines))?,
    })
}

/// What comes of a server without rows that starts no job and accepts 2, over a port of so many links on which nothing comes.
pub(crate) fn run_over_silent_links<R: Wait + Threads + Copy + Send + Sync + 'static>(
    rt: &R,
    alloc: Global,
    count: u32,
) -> Result<String> {
    let mut links = Vec::new(alloc);
    for _link in 0..count {
        links.push(MemLink::new(alloc, Vec::new(alloc), 0, 1, Vec::new(alloc))?)?;
    }
    let mut lines = sink(alloc)?;
    let ended = serve_so(
        rt,
        alloc,
        &[],
        &mut MemPort::new(links),
        &mut lines,
        2,
        &mut HereSpawner::new(),
    )?;
    Ok(format!(in alloc; "{ended}\n{}", held(&lines))?)
}
