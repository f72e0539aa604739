//! Shows how links are served. The input has blocks, each ended by an empty line. Its first line says what a block shows; behind it come the lines of
//! a script, which makes the site, and then what a client sends, each line of it behind `> `, or behind `N> ` where it is sent N times. There `\r`
//! and `\n` stand for CR and LF. The output has the same lines, and under them how the link ended, of each exchange how many bytes the request had and
//! by what it was answered, and what was written, where `\r` stands for CR. Of much only the number is told.
//!
//! Each link has a site, a seat and a cache of its own. The clock stands at the moment 0. The first tokens that are drawn are
//! `00112233445566778899aabbccddeeff` and `ffeeddccbbaa99887766554433221100`.
//!
//! - In a block that begins with `cuts: `, bytes come and are taken in pieces of each size, from one byte on, and the output says whether all that comes to the same.
//! - In one that begins with `faults: `, they do so in pieces of 128 bytes, and the output has what comes of it where the first call of the link fails, where
//!   the second one fails, and so on for each call that is made where none fails; then the same for the calls of the clock and those for a token.
//! - In one that begins with `pieces N: `, they do so in pieces of N bytes; with `room N: `, the client takes N bytes and no more.
//! - In one that begins with `copies N: `, what was written is copied N times, as something to measure a link by.
#![tactic(auto)]

mod links;
mod shown;
mod talks;

use anyhow::Result;
use shown::shown;
use std::io::{self, BufRead, BufReader, BufWriter, Write};

fn main(rt: HostRuntime) -> Result<()> {
    let alloc = rt.alloc();
    let mut out = BufWriter::new(alloc, io::writer(&rt))?;
    let mut block = String::new(alloc);
    for line in BufReader::new(alloc, rt.reader())?.lines(alloc) {
        let line = line?;
        if line.is_empty() {
            let shown = shown(&rt, alloc, block.as_str())?;
            out.write_all(block.as_bytes())?;
            out.write_all(shown.as_bytes())?;
            out.write_all(b"\n")?;
            block.clear();
        } else {
            block.push_str(line.as_str())?;
            block.push('\n')?;
        }
    }
    out.flush()?;
    Ok(())
}
