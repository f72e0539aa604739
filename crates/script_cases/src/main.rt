//! Shows whether texts are scripts. The input has blocks, each ended by an empty line: a first line that tells what it shows, and behind it the
//! lines of a script. The output has the first line, and then how many lines were read behind the script's head, or the script's first fault.
#![tactic(auto)]

use anyhow::{Result, bail};
use script_text::{ScriptFault, read_script};
use std::alloc::Global;
use std::io::{self, BufRead, BufReader, BufWriter, Write};

/// Shows how many lines were read, or the first fault.
fn show(alloc: Global, text: &str, out: &mut impl Write) -> Result<()> {
    match read_script(alloc, text.as_bytes()) {
        Ok(script) => {
            let shown = format!(in alloc; "{} lines\n", script.lines.len())?;
            Ok(out.write_all(shown.as_bytes())?)
        }
        Err(ScriptFault::Text(fault)) => Ok(out.write_all(&fault.print(alloc)?)?),
        Err(ScriptFault::NoMemory) => bail!("out of memory"),
    }
}

/// Shows a block.
fn show_block(alloc: Global, heading: &str, text: &str, out: &mut impl Write) -> Result<()> {
    out.write_all(heading.as_bytes())?;
    out.write_all(b"\n")?;
    show(alloc, text, out)?;
    Ok(out.write_all(b"\n")?)
}

fn main(rt: HostRuntime) -> Result<()> {
    let alloc = rt.alloc();
    let mut out = BufWriter::new(alloc, io::writer(&rt))?;
    let mut heading = String::new(alloc);
    let mut text = String::new(alloc);
    for line in BufReader::new(alloc, rt.reader())?.lines(alloc) {
        let line = line?;
        if line.is_empty() {
            show_block(alloc, heading.as_str(), text.as_str(), &mut out)?;
            heading.clear();
            text.clear();
        } else if heading.is_empty() {
            heading = line;
        } else {
            text.push_str(line.as_str())?;
            text.push('\n')?;
        }
    }
    out.flush()?;
    Ok(())
}
