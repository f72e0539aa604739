//! Shows what becomes of texts. The input has blocks, each ended by an empty line: `clean: ..` or `escape: ..` says what the block
//! shows, and the lines behind it are the text. The output has the same blocks, with what the text becomes.
#![tactic(auto)]

use anyhow::{Result, bail};
use markup::{SafeHtml, clean, escape};
use std::alloc::Global;
use std::io::{self, BufRead, BufReader, BufWriter, Write};

/// What the text of a block becomes.
fn shown(alloc: Global, heading: &str, text: &str) -> Result<SafeHtml> {
    if heading.starts_with("clean: ") {
        return Ok(clean(alloc, text)?);
    }
    if heading.starts_with("escape: ") {
        return Ok(escape(alloc, text)?);
    }
    bail!("a block begins with `clean: ` or `escape: `")
}

/// Writes a block, and empties both for the next one.
fn show(
    alloc: Global,
    heading: &mut String,
    text: &mut String,
    out: &mut impl Write,
) -> Result<()> {
    let html = shown(alloc, heading.as_str(), text.as_str())?;
    out.write_all(heading.as_bytes())?;
    out.write_all(b"\n")?;
    out.write_all(html.bytes())?;
    out.write_all(b"\n\n")?;
    heading.clear();
    text.clear();
    Ok(())
}

fn main(rt: HostRuntime) -> Result<()> {
    let alloc = rt.alloc();
    let mut out = BufWriter::new(alloc, io::writer(&rt))?;
    let mut heading = String::new(alloc);
    let mut text = String::new(alloc);
    for line in BufReader::new(alloc, rt.reader())?.lines(alloc) {
        let line = line?;
        if line.is_empty() {
            show(alloc, &mut heading, &mut text, &mut out)?;
        } else if heading.is_empty() {
            heading = line;
        } else {
            if !text.is_empty() {
                text.push('\n')?;
            }
            text.push_str(line.as_str())?;
        }
    }
    out.flush()?;
    Ok(())
}
