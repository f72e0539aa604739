//! Shows what a site's book answers. The input has blocks by feature, a step a line, each block ended by an empty line. Under each step comes
//! the answer. A block's first line says what its steps are:
//!
//! - `needs: ..`: `diary`, `reply`, `project` or `article`: the level that such a post needs, and all that it admits;
//! - `posts: ..`: the row of a record, which is judged and added (see `posts`), or what is looked up among those that were added (see `lookups`);
//! - `sessions: ..`: logins and logouts, and what is asked of them (see `logins`).
//!
//! Each block begins with no post and no session. Of a step that is long its front is shown.
#![tactic(auto)]

mod logins;
mod lookups;
mod needed;
mod posts;

use anyhow::{Result, bail};
use postings::Postings;
use sessions::Sessions;
use site_records::{RowFault, read_row};
use std::alloc::{AllocError, Global};
use std::io::{self, BufRead, BufReader, BufWriter, Write};
use trust_types::NoMemory;

/// How many bytes of a step are shown.
const SHOWN: usize = 120;

/// Adds a step, and under it its answer.
fn add_answer(shown: &mut String, step: &str, answer: &str) -> Result<(), AllocError> {
    shown.push_str(step.get(..SHOWN).unwrap_or(step))?;
    shown.push_str("\n    ")?;
    shown.push_str(answer)?;
    shown.push('\n')
}

/// Takes steps that ask which level a post needs. Gives them with their answers.
fn take_needs(alloc: Global, steps: &str) -> Result<String, NoMemory> {
    let mut shown = String::new(alloc);
    for step in steps.lines() {
        let answer = needed::answer(alloc, step)?;
        add_answer(&mut shown, step, answer.as_str())?;
    }
    Ok(shown)
}

/// Takes a step on posts. Gives the answer.
fn take_post(alloc: Global, postings: &mut Postings, step: &str) -> Result<String, NoMemory> {
    match read_row(alloc, step.as_bytes()) {
        Ok(record) => posts::answer(alloc, postings, record),
        Err(RowFault::NotARow) => lookups::answer(alloc, postings, step),
        Err(RowFault::NoMemory) => Err(NoMemory),
    }
}

/// Takes steps on posts, where there are none yet. Gives them with their answers.
fn take_posts(alloc: Global, steps: &str) -> Result<String, NoMemory> {
    let mut postings = Postings::new(alloc);
    let mut shown = String::new(alloc);
    for step in steps.lines() {
        let answer = take_post(alloc, &mut postings, step)?;
        add_answer(&mut shown, step, answer.as_str())?;
    }
    Ok(shown)
}

/// Takes steps on sessions, where none is live yet. Gives them with their answers.
fn take_logins(alloc: Global, steps: &str) -> Result<String, NoMemory> {
    let mut sessions = Sessions::new(alloc);
    let mut shown = String::new(alloc);
    for step in steps.lines() {
        let answer = logins::answer(alloc, &mut sessions, step)?;
        add_answer(&mut shown, step, answer.as_str())?;
    }
    Ok(shown)
}

/// Takes the steps of a block. Gives them with their answers.
fn answered(alloc: Global, heading: &str, steps: &str) -> Result<String> {
    if heading.starts_with("needs: ") {
        return Ok(take_needs(alloc, steps)?);
    }
    if heading.starts_with("posts: ") {
        return Ok(take_posts(alloc, steps)?);
    }
    if heading.starts_with("sessions: ") {
        return Ok(take_logins(alloc, steps)?);
    }
    bail!("a block begins with `needs: `, `posts: ` or `sessions: `")
}

/// Writes a block with its answers, and empties both for the next one.
fn show(
    alloc: Global,
    heading: &mut String,
    steps: &mut String,
    out: &mut impl Write,
) -> Result<()> {
    let answered = answered(alloc, heading.as_str(), steps.as_str())?;
    out.write_all(heading.as_bytes())?;
    out.write_all(b"\n")?;
    out.write_all(answered.as_bytes())?;
    out.write_all(b"\n")?;
    heading.clear();
    steps.clear();
    Ok(())
}

fn main(rt: HostRuntime) -> Result<()> {
    let alloc = rt.alloc();
    let mut out = BufWriter::new(alloc, io::writer(&rt))?;
    let mut heading = String::new(alloc);
    let mut steps = String::new(alloc);
    for line in BufReader::new(alloc, rt.reader())?.lines(alloc) {
        let line = line?;
        if line.is_empty() {
            show(alloc, &mut heading, &mut steps, &mut out)?;
        } else if heading.is_empty() {
            heading = line;
        } else {
            steps.push_str(line.as_str())?;
            steps.push('\n')?;
        }
    }
    out.flush()?;
    Ok(())
}
