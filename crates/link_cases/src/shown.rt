//! What is shown of links.

ghost use Rattle.std.specs.Prelude.{◌≤◌};

use crate::links::{Client, Fault, Part, serve};
use crate::talks::{Kind, Talk};
use anyhow::Result;
use conversation::LinkEnd;
use outside_serving::MemLink;
use std::alloc::Global;
use std::str;
use std::sync::Wait;

/// The most exchanges of a link that are shown one by one.
const FEW: u64 = 16;

/// The most bytes that are shown.
const SHORT: usize = 8_192;

/// How many bytes a client takes, where a block doesn't say.
const ROOM: usize = 4_194_304;

/// The client of whom nothing is cut.
const WHOLE: Client = Client {
    piece: 65_536,
    room: ROOM,
};

/// The client where calls fail.
const CUT: Client = Client {
    piece: 128,
    room: ROOM,
};

/// The most calls that are looked at.
const CALLS: u64 = 1_000;

/// How a link ended, and its exchanges.
fn summary(alloc: Global, end: &LinkEnd<MemLink>) -> Result<String> {
    let count = end.exchanges.count();
    if count > FEW {
        return Ok(format!(in alloc; "{:?} after {count} exchanges", end.why)?);
    }
    let mut summary = format!(in alloc; "{:?}", end.why)?;
    for n in 0..count {
        let exchange = end.exchanges.at(n);
        let (used, kind) = (exchange.used, exchange.kind);
        summary.push_str(format!(in alloc; "; {used} bytes: {kind:?}")?.as_str())?;
    }
    Ok(summary)
}

/// How a link ended, its exchanges, and what was written.
fn whole(alloc: Global, end: &LinkEnd<MemLink>) -> Result<String> {
    let mut whole = summary(alloc, end)?;
    whole.push('\n')?;
    let written = end.served.link().written();
    match str::from_utf8(written) {
        Ok(text) if text.len() <= SHORT => {
            whole.push_str(text.replace(alloc, "\r", "\\r")?.as_str())?;
        }
        _ => whole.push_str(format!(in alloc; "{} bytes\n", written.len())?.as_str())?,
    }
    Ok(whole)
}

/// Whether the same comes of pieces of every size, in words.
fn cuts<R: Wait>(rt: &R, alloc: Global, talk: &Talk, uncut: &str) -> Result<String> {
    for piece in 1..=talk.sent.len() {
        let end = serve(rt, alloc, talk, Client { piece, room: ROOM }, None)?;
        if whole(alloc, &end)?.as_str() != uncut {
            return Ok(format!(in alloc; "not alike in pieces of {piece}\n")?);
        }
    }
    Ok(String::from_str(alloc, "all cuts alike\n")?)
}

/// What was written, beside what is written where nothing fails, in words.
fn front(alloc: Global, written: &[u8], all: &[u8]) -> Result<String> {
    let (bytes, long) = (written.len(), all.len());
    if all.starts_with(written) {
        Ok(format!(in alloc; "the first {bytes} of {long} bytes")?)
    } else {
        Ok(format!(in alloc; "{bytes} bytes that {long} bytes don't begin with")?)
    }
}

/// Adds what comes of each call of a part that fails, up to the first that isn't made.
fn add_faults<R: Wait>(
    rt: &R,
    alloc: Global,
    talk: &Talk,
    part: Part,
    out: &mut String,
) -> Result<()> {
    let unhurt = serve(rt, alloc, talk, CUT, None)?;
    let unhurt_shown = whole(alloc, &unhurt)?;
    for call in 0..CALLS {
        let end = serve(rt, alloc, talk, CUT, Some(Fault { part, call }))?;
        if whole(alloc, &end)?.as_str() == unhurt_shown.as_str() {
            return Ok(());
        }
        let summary = summary(alloc, &end)?;
        let front = front(
            alloc,
            end.served.link().written(),
            unhurt.served.link().written(),
        )?;
        out.push_str(format!(in alloc; "{part:?} {call}: {summary}; {front}\n")?.as_str())?;
    }
    Ok(())
}

/// So many copies of what was written, one behind another, in words.
fn copies(alloc: Global, written: &[u8], times: usize) -> Result<String> {
    let mut copied = Vec::with_capacity(alloc, written.len().saturating_mul(times))?;
    for _copy in 0..times {
        copied.extend_from_slice(written)?;
    }
    let bytes = copied.len();
    Ok(format!(in alloc; "copied {times} times: {bytes} bytes\n")?)
}

/// The client of a block.
fn client_of(kind: Kind) -> Client
    ensures { 1 ≤ result.piece }
{
    match kind {
        Kind::Pieces(piece) if piece > 0 => Client { piece, room: ROOM },
        Kind::Room(room) => Client {
            piece: WHOLE.piece,
            room,
        },
        _ => WHOLE,
    }
}

/// What a block shows.
pub(crate) fn shown<R: Wait>(rt: &R, alloc: Global, block: &str) -> Result<String> {
    let (heading, lines) = block.split_once('\n').unwrap_or((block, ""));
    let talk = Talk::of(alloc, lines)?;
    let kind = Kind::of(heading);
    let end = serve(rt, alloc, &talk, client_of(kind), None)?;
    let mut shown = whole(alloc, &end)?;
    match kind {
        Kind::Cuts => {
            let alike = cuts(rt, alloc, &talk, shown.as_str())?;
            shown.push_str(alike.as_str())?;
        }
        Kind::Faults => {
            add_faults(rt, alloc, &talk, Part::Link, &mut shown)?;
            add_faults(rt, alloc, &talk, Part::Clock, &mut shown)?;
            add_faults(rt, alloc, &talk, Part::Entropy, &mut shown)?;
        }
        Kind::Copies(times) => {
            let copied = copies(alloc, end.served.link().written(), times)?;
            shown.push_str(copied.as_str())?;
        }
        _ => {}
    }
    Ok(shown)
}
