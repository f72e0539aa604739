//! Shows what a site's book of certificates answers. The input has blocks, a step a line, each block ended by an empty line. Its first line says
//! what it is about; each other is a step (see `steps`), under which comes the answer. Each block begins with a book without accounts, with the
//! standard table.
#![tactic(auto)]

mod answers;
mod changes;
mod loads;
mod looks;
mod site;
mod steps;

ghost use Rattle.std.specs.Prelude.{◌≡◌, ◌<◌};

use answers::take_step;
use anyhow::Result;
use site::Site;
use std::alloc::{AllocError, Global};
use std::io::{self, BufRead, BufReader, BufWriter, Write};
use std::marker::Brand;
use std::sync::ledger::{Blank, Ledger};
use trust_types::{NoMemory, Steps, Text};

/// Adds a step, and under it its answer.
fn add_answer(shown: &mut String, step: &str, answer: &str) -> Result<(), AllocError> {
    shown.push_str(step)?;
    shown.push_str("\n    ")?;
    shown.push_str(answer)?;
    shown.push('\n')
}

/// Takes steps on a book. Adds them, with their answers, to what is shown.
fn take_steps<L: Ledger>(
    alloc: Global,
    site: &mut Site,
    lines: &str,
    steps: &mut Steps<L>,
    shown: &mut String,
) -> Result<(), NoMemory> {
    for line in lines.lines() {
        let answer = take_step(alloc, site, line, steps)?;
        add_answer(shown, line, answer.as_str())?;
    }
    Ok(())
}

/// Takes the steps of a block on a book of its own. Gives them with their answers.
fn taken<L: Ledger>(alloc: Global, lines: &Text, blank: Blank) -> Result<String, NoMemory>
    requires name { blank.name ≡ L.name }
    requires parts { blank.parts ≡ L.parts }
    requires some { 0 < blank.parts }
{
    let mut steps = Steps::<L>::new(blank);
    let mut site = Site::new(alloc);
    let mut shown = String::new(alloc);
    take_steps(alloc, &mut site, lines.as_str(), &mut steps, &mut shown)?;
    Ok(shown)
}

/// The same, where nobody counts the steps that the book's methods take.
fn answered(alloc: Global, lines: &Text) -> Result<String, NoMemory> {
    taken::<Brand>(alloc, lines, Blank::new(1))
}

/// Writes a block with its answers, and empties both for the next one.
fn show(
    alloc: Global,
    heading: &mut String,
    steps: &mut String,
    out: &mut impl Write,
) -> Result<()> {
    let answered = answered(alloc, &Text::of(alloc, steps.as_str())?)?;
    out.write_all(heading.as_bytes())?;
    out.write_all(b"\n")?;
    out.write_all(answered.as_bytes())?;
    out.write_all(b"\n")?;
    heading.clear();
    steps.clear();
    Ok(())
}

fn main(rt: HostRuntime) -> Result<()> {
    let alloc = rt.alloc();
    let mut out = BufWriter::new(alloc, io::writer(&rt))?;
    let mut heading = String::new(alloc);
    let mut steps = String::new(alloc);
    for line in BufReader::new(alloc, rt.reader())?.lines(alloc) {
        let line = line?;
        if line.is_empty() {
            show(alloc, &mut heading, &mut steps, &mut out)?;
        } else if heading.is_empty() {
            heading = line;
        } else {
            steps.push_str(line.as_str())?;
            steps.push('\n')?;
        }
    }
    out.flush()?;
    Ok(())
}
