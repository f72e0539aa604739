//! Shows what bytes ask for. The input has blocks, each ended by an empty line: the first line says what the block shows, and each further
//! one is what a client sent. In it `\r`, `\n`, `\f` and `\\` stand for CR, LF, the byte FF and a backslash. With a number behind the backslash,
//! as `\64n`, the byte stands there so many times, as any other does: `\64x`. The output has the same lines, and under each what the bytes ask
//! for. In a block that begins with `byte by byte: ` they come one after another until they are refused or a request, and the output says how
//! many came; in one that begins with `reads: ` it says how often they were a request when they were read a thousand times.
#![tactic(auto)]

use anyhow::{Result, bail};
use http_requests::{Next, Progress, Request, Route, next_request};
use std::alloc::Global;
use std::io::{self, BufRead, BufReader, BufWriter, Write};

const TIMES: u32 = 1_000;

/// What a block shows of the bytes of its lines.
#[derive(Clone, Copy)]
enum Shown {
    AtOnce,
    ByteByByte,
    Often,
}

/// What a block of that first line shows.
fn shown_of(heading: &str) -> Shown {
    if heading.starts_with("byte by byte: ") {
        return Shown::ByteByByte;
    }
    if heading.starts_with("reads: ") {
        return Shown::Often;
    }
    Shown::AtOnce
}

/// What stands before a byte of a line.
#[derive(Clone, Copy)]
enum Before {
    Plain,
    /// A backslash, and a number behind it.
    Backslash(u32),
}

/// What a byte behind a backslash stands for.
fn meant(byte: u8) -> u8 {
    match byte {
        b'r' => b'\r',
        b'n' => b'\n',
        b'f' => 0xff,
        _ => byte,
    }
}

/// Adds what a byte stands for, and gives what it is to the next one.
fn push_byte(bytes: &mut Vec<u8>, before: Before, byte: u8) -> Result<Before> {
    match before {
        Before::Plain if byte == b'\\' => return Ok(Before::Backslash(0)),
        Before::Plain => bytes.push(byte)?,
        Before::Backslash(times) if byte.is_ascii_digit() => {
            let more = times
                .saturating_mul(10)
                .saturating_add((byte - b'0') as u32);
            return Ok(Before::Backslash(more));
        }
        Before::Backslash(times) => {
            for _ in 0..times.max(1) {
                bytes.push(meant(byte))?;
            }
        }
    }
    Ok(Before::Plain)
}

/// The bytes that a line stands for.
fn bytes_of(alloc: Global, line: &str) -> Result<Vec<u8>> {
    let mut bytes = Vec::new(alloc);
    let mut before = Before::Plain;
    for byte in line.as_bytes() {
        before = push_byte(&mut bytes, before, *byte)?;
    }
    Ok(bytes)
}

/// What is asked for, in words.
fn route_text(alloc: Global, route: &Route) -> Result<String> {
    match route {
        Route::Table { caps } => {
            let levels = caps.levels();
            let entries = caps.entries();
            Ok(format!(in alloc; "Table of {levels} levels, {entries:?}")?)
        }
        _ => Ok(format!(in alloc; "{route:?}")?),
    }
}

/// Writes a request in words.
fn write_request(
    alloc: Global,
    request: &Request,
    used: usize,
    out: &mut impl Write,
) -> Result<()> {
    out.write_all(format!(in alloc; "    {used} bytes: ")?.as_bytes())?;
    out.write_all(route_text(alloc, &request.route)?.as_bytes())?;
    if let Some((name, token)) = &request.session {
        let name = name.as_str();
        let token = token.0;
        out.write_all(format!(in alloc; ", by {name} with {token:?}")?.as_bytes())?;
    }
    if let Some(status) = request.refusal() {
        out.write_all(format!(in alloc; ", refused with {status}")?.as_bytes())?;
    }
    if request.bare {
        out.write_all(b", without the body of the answer")?;
    }
    if request.close {
        out.write_all(b", then close")?;
    }
    out.write_all(b"\n")?;
    Ok(())
}

/// Writes what is asked for.
fn write_next(alloc: Global, next: Next, out: &mut impl Write) -> Result<()> {
    match next {
        Next::Whole(request, used) => write_request(alloc, &request, used, out),
        Next::NeedMore => Ok(out.write_all(b"    more bytes are needed\n")?),
        Next::Bad(status) => {
            Ok(out.write_all(format!(in alloc; "    refused with {status}\n")?.as_bytes())?)
        }
        Next::NoMemory => bail!("out of memory"),
    }
}

/// What bytes ask for that come one after another, and how many of them came until they did.
fn next_of_each(alloc: Global, bytes: &[u8]) -> Result<(usize, Next)> {
    let mut progress = Progress::new();
    let mut came = Vec::new(alloc);
    for byte in bytes {
        came.push(*byte)?;
        let next = progress.next(alloc, &came);
        if !matches!(next, Next::NeedMore) {
            return Ok((came.len(), next));
        }
    }
    Ok((came.len(), Next::NeedMore))
}

/// Writes what the bytes of a line ask for, as the block has it.
fn show(alloc: Global, shown: Shown, line: &str, out: &mut impl Write) -> Result<()> {
    let bytes = bytes_of(alloc, line)?;
    match shown {
        Shown::AtOnce => write_next(alloc, next_request(alloc, &bytes), out),
        Shown::ByteByByte => {
            let (many, next) = next_of_each(alloc, &bytes)?;
            out.write_all(format!(in alloc; "    at byte {many}\n")?.as_bytes())?;
            write_next(alloc, next, out)
        }
        Shown::Often => {
            let requests = times_whole(alloc, &bytes);
            Ok(out.write_all(format!(in alloc; "    {requests}\n")?.as_bytes())?)
        }
    }
}

/// How often the bytes are a request when they are read a thousand times.
fn times_whole(alloc: Global, bytes: &[u8]) -> u64 {
    let mut requests: u64 = 0;
    let mut progress = Progress::new();
    for _ in 0..TIMES {
        let is_whole = matches!(progress.next(alloc, bytes), Next::Whole(_, _));
        progress.restart();
        requests = requests.saturating_add(is_whole as u64);
    }
    requests
}

fn main(rt: HostRuntime) -> Result<()> {
    let alloc = rt.alloc();
    let mut out = BufWriter::new(alloc, io::writer(&rt))?;
    let mut is_heading = true;
    let mut shown = Shown::AtOnce;
    for line in BufReader::new(alloc, rt.reader())?.lines(alloc) {
        let line = line?;
        out.write_all(line.as_bytes())?;
        out.write_all(b"\n")?;
        if is_heading {
            shown = shown_of(line.as_str());
        } else if !line.is_empty() {
            show(alloc, shown, line.as_str(), &mut out)?;
        }
        is_heading = line.is_empty();
    }
    out.flush()?;
    Ok(())
}
