//! Shows what the program needs for the words of a command line. Behind `$` and a space stand the words of one, with one space between them; each line is
//! printed again, and behind words what is needed for them.
#![tactic(auto)]

use anyhow::Result;
use serve_words::ServePlan;
use site_runs::Wants;
use std::alloc::Global;
use std::io::{self, BufRead, BufReader, BufWriter, Write};
use trust_types::Text;

/// A file that the words name, if they do.
fn file_of(file: &Option<Text>) -> &str {
    match file {
        Some(file) => file.as_str(),
        None => "no file",
    }
}

/// The plan of a server: its address, its file, the first two capacities of its table, and its numbers.
fn plan_text(alloc: Global, plan: &ServePlan) -> Result<String> {
    let listen = plan.listen.as_str();
    let file = file_of(&plan.db);
    let levels = plan.caps.levels();
    let first = plan.caps.at(0);
    let second = plan.caps.at(1);
    let (links, workers, accept) = (plan.links, plan.workers, plan.accept);
    Ok(format!(in alloc;
        "serve at {listen} over {file}: {levels} levels, capacities {first} and {second}, {links} links, {workers} workers, accept {accept}\n"
    )?)
}

/// What is needed for the words.
fn wants_text(alloc: Global, words: &str) -> Result<String> {
    let words: Vec<&str> = words.split(' ').collect(alloc)?;
    match Wants::of_words(alloc, &words)? {
        Wants::Run => Ok(format!(in alloc; "run\n")?),
        Wants::RunOn(file) => Ok(format!(in alloc; "run on {}\n", file.as_str())?),
        Wants::Serve(plan) => plan_text(alloc, &plan),
    }
}

/// Shows a line, and what is needed for its words.
fn show_line(alloc: Global, line: &str, out: &mut impl Write) -> Result<()> {
    out.write_all(line.as_bytes())?;
    out.write_all(b"\n")?;
    if let Some(words) = line.strip_prefix("$ ") {
        out.write_all(wants_text(alloc, words)?.as_bytes())?;
    }
    Ok(())
}

fn main(rt: HostRuntime) -> Result<()> {
    let alloc = rt.alloc();
    let mut out = BufWriter::new(alloc, io::writer(&rt))?;
    for line in BufReader::new(alloc, rt.reader())?.lines(alloc) {
        let line = line?;
        show_line(alloc, line.as_str(), &mut out)?;
    }
    out.flush()?;
    Ok(())
}
