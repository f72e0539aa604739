//! Shows what seats at one site see of one another. The input has scenes, a step a line, each scene ended by an empty line. Its first line says what it is
//! about, and under each step comes the answer. A scene has a site of its own, with the table `3 2 1`, and two seats: `1`, which the site was opened with, and
//! `2`, which was split off it. Seat 2 goes to another thread for each of its steps, and comes back with the answer. A step is one of these:
//!
//! - `N: NAME joins`, `N: NAME is a seed`, `N: NAME certifies NAME LEVEL`, `N: NAME writes TEXT`, `N: the usual table`, which that seat submits;
//! - `N: publish`: that seat freezes the site, solves the graph and publishes the rosters;
//! - `N: publish, while NAME certifies NAME LEVEL`: the same, with a certificate submitted before it solves;
//! - `N: news`, `N: diary of NAME`;
//! - `N: split K`: that seat is split so often;
//! - `reader, while NAME ..`: seat 2 keeps the last publication, when seat 1 submits this and publishes again;
//! - `worker, while NAME ..`: a worker's round through seat 1 in another thread, which is held before it solves until seat 2 was answered;
//! - `levels`: the site's graph is solved at all grades at once;
//! - `load COUNT beside READERS: ACT`: the same act so often through seat 1, while so many readers, each in a thread of its own, look at the news;
//! - `large grow ACCOUNTS CERTIFICATES`: so many accounts join, `n0`, `n1` and so on, and so many certificates are given at random among them;
//! - `large look COUNT`: seat 1 keeps the last publication, and looks so often whether it still is the last;
//! - `large solve COUNT`, `large solve-at-once COUNT`: the site is frozen and its graph solved so often, grade by grade or all grades at once;
//! - `rounds beside ACCOUNTS CERTIFICATES`: rounds of a worker follow each other in another thread, while so many certificates are given among so many of
//!   these accounts. The answer has times in nanoseconds, so that only what measures asks for it;
//! - `close`, the last step, with seat 1.
#![tactic(auto)]

mod acts;
mod large;
mod loads;
mod meetings;
mod rounds;
mod scenes;
mod steps;

use anyhow::Result;
use scenes::played;
use std::io::{self, BufRead, BufReader, BufWriter, Write};

fn main(rt: HostRuntime) -> Result<()> {
    let alloc = rt.alloc();
    let mut out = BufWriter::new(alloc, io::writer(&rt))?;
    let mut scene = String::new(alloc);
    for line in BufReader::new(alloc, rt.reader())?.lines(alloc) {
        let line = line?;
        if line.is_empty() {
            let shown = played(&rt, alloc, scene.as_str())?;
            out.write_all(shown.as_bytes())?;
            out.write_all(b"\n")?;
            scene.clear();
        } else {
            scene.push_str(line.as_str())?;
            scene.push('\n')?;
        }
    }
    out.flush()?;
    Ok(())
}
