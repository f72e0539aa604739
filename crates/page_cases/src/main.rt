//! Shows what is sent. The input has blocks of steps, a step a line, each block ended by an empty line. Its first line says what is sent, and
//! each step is made of parts with a `|` between them, of which the first is the moment:
//!
//! - `fixed: ..`: a status, and `close` or `bare` where the link is to be closed or the body isn't sent;
//! - `answers: ..`: a request's first line, its cookie, its form, what the site answers in words, and the token of a login (see `answers`);
//! - `views: ..`: a request's first line, and a view of a site (see `views`);
//! - `rosters: ..`: a request's first line, and a site's text with `;` for each LF, of which the rosters are the first publication; without
//!   a text there is none;
//! - `often: ..`: the same, sent a thousand times, and the output has how many bytes these are.
//!
//! The output has the same lines, and under each step the response, where `\r` stands for CR.
#![tactic(auto)]

ghost use Rattle.std.specs.Prelude.{◌<◌};

mod answers;
mod requests;
mod rosters;
mod views;

use anyhow::{Result, bail};
use http_pages::fixed_page;
use std::alloc::Global;
use std::io::{self, BufRead, BufReader, BufWriter, Write};

/// The first moment that has no date.
const NO_DATE: u64 = 253_402_300_800;

/// The part of a step at that place; nothing where it has fewer.
fn part<'a>(parts: &[&'a str], place: usize) -> &'a str {
    match parts.get(place) {
        Some(part) => part,
        None => "",
    }
}

/// The response of a status, sent at a moment that has a date.
fn fixed(alloc: Global, parts: &[&str], moment: u64) -> Result<Vec<u8>>
    requires { moment < 253_402_300_800 }
{
    let close = part(parts, 2) == "close";
    let bare = part(parts, 2) == "bare";
    match part(parts, 1) {
        "200" => Ok(fixed_page(alloc, 200, close, bare, moment)?),
        "400" => Ok(fixed_page(alloc, 400, close, bare, moment)?),
        "403" => Ok(fixed_page(alloc, 403, close, bare, moment)?),
        "404" => Ok(fixed_page(alloc, 404, close, bare, moment)?),
        "413" => Ok(fixed_page(alloc, 413, close, bare, moment)?),
        "431" => Ok(fixed_page(alloc, 431, close, bare, moment)?),
        "501" => Ok(fixed_page(alloc, 501, close, bare, moment)?),
        _ => bail!("no status of a fixed page"),
    }
}

/// Writes bytes, with `\r` for each CR.
fn write_visibly(bytes: &[u8], out: &mut impl Write) -> Result<()> {
    for byte in bytes {
        if *byte == b'\r' {
            out.write_all(b"\\r")?;
        } else {
            out.write_all(&[*byte])?;
        }
    }
    Ok(())
}

/// The response of a step of a block of that heading, sent at a moment that has a date.
fn response(alloc: Global, heading: &str, parts: &[&str], moment: u64) -> Result<Vec<u8>>
    requires { moment < 253_402_300_800 }
{
    if heading.starts_with("fixed: ") {
        return fixed(alloc, parts, moment);
    }
    if heading.starts_with("answers: ") {
        return answers::response(alloc, parts, moment);
    }
    if heading.starts_with("views: ") {
        return views::response(alloc, parts, moment);
    }
    if heading.starts_with("rosters: ") {
        return rosters::response(alloc, parts, moment);
    }
    bail!("a block begins with `fixed: `, `answers: `, `views: `, `rosters: ` or `often: `")
}

/// Writes what a step of a block of that heading sends.
fn show(alloc: Global, heading: &str, parts: &[&str], out: &mut impl Write) -> Result<()> {
    let moment: u64 = part(parts, 0).parse()?;
    if moment >= NO_DATE {
        bail!("a moment without a date");
    }
    if heading.starts_with("often: ") {
        let bytes = rosters::often(alloc, parts, moment)?;
        return Ok(out.write_all(format!(in alloc; "{bytes} bytes\n")?.as_bytes())?);
    }
    let response = response(alloc, heading, parts, moment)?;
    write_visibly(&response, out)?;
    out.write_all(b"\n")?;
    Ok(())
}

/// Writes a step, and what it sends.
fn take(alloc: Global, heading: &str, step: &str, out: &mut impl Write) -> Result<()> {
    out.write_all(step.as_bytes())?;
    out.write_all(b"\n")?;
    let parts: Vec<&str> = step.split('|').collect(alloc)?;
    show(alloc, heading, &parts, out)
}

fn main(rt: HostRuntime) -> Result<()> {
    let alloc = rt.alloc();
    let mut out = BufWriter::new(alloc, io::writer(&rt))?;
    let mut heading = String::new(alloc);
    for line in BufReader::new(alloc, rt.reader())?.lines(alloc) {
        let line = line?;
        if line.is_empty() {
            out.write_all(b"\n")?;
            heading.clear();
        } else if heading.is_empty() {
            out.write_all(line.as_bytes())?;
            out.write_all(b"\n")?;
            heading = line;
        } else {
            take(alloc, heading.as_str(), line.as_str(), &mut out)?;
        }
    }
    out.flush()?;
    Ok(())
}
