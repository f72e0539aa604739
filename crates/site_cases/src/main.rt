//! Shows what a site's book answers. The input has blocks by feature, a step a line, each block ended by an empty line. Its first line says what it is
//! about. Up to a step `open` the lines are of the keeper over whose rows the site is opened (see `keepers`); under `open` and under each step behind
//! it (see `steps`) comes the answer. Each site begins with the table `3 2 1`.
//!
//! At the end of a line, `*N` stands for N letters x.
#![tactic(auto)]

mod acts;
mod answers;
mod keepers;
mod loads;
mod site;
mod steps;
mod views;

ghost use Rattle.std.specs.Prelude.{◌≡◌, ◌<◌};

use answers::take_step;
use anyhow::Result;
use keepers::{keeper_of, opening, unopened};
use outside::MemKeeper;
use site::Site;
use site_core::Book;
use std::alloc::{AllocError, Global};
use std::io::{self, BufRead, BufReader, BufWriter, Write};
use std::marker::Brand;
use std::sync::ledger::{Blank, Ledger};
use trust_types::{NoMemory, Steps, Text};

/// Adds a step, and under it its answer, each line of it behind four blanks.
fn add_answer(shown: &mut String, step: &str, answer: &str) -> Result<(), AllocError> {
    shown.push_str(step)?;
    shown.push('\n')?;
    for line in answer.lines() {
        shown.push_str("    ")?;
        shown.push_str(line)?;
        shown.push('\n')?;
    }
    Ok(())
}

/// Takes steps on a site. Adds them, with their answers, to what is shown.
fn take_steps<L: Ledger>(
    alloc: Global,
    site: &mut Site,
    lines: &str,
    steps: &mut Steps<L>,
    shown: &mut String,
) -> Result<(), NoMemory> {
    for line in lines.lines() {
        let answer = take_step(alloc, site, line, steps)?;
        add_answer(shown, line, answer.as_str())?;
    }
    Ok(())
}

/// Takes steps on a site of that book.
fn take_on<L: Ledger>(
    alloc: Global,
    book: Book<MemKeeper>,
    lines: &str,
    steps: &mut Steps<L>,
    shown: &mut String,
) -> Result<(), NoMemory> {
    let mut site = Site::new(book);
    add_answer(shown, "open", site.counted(alloc)?.as_str())?;
    take_steps(alloc, &mut site, lines, steps, shown)
}

/// Opens a site over the keeper that the lines before `open` tell of, and takes the steps behind. Gives all with their answers.
fn taken<L: Ledger>(alloc: Global, lines: &Text, blank: Blank) -> Result<String, NoMemory>
    requires name { blank.name ≡ L.name }
    requires parts { blank.parts ≡ L.parts }
    requires some { 0 < blank.parts }
{
    let mut steps = Steps::<L>::new(blank);
    let (before, behind) = lines.as_str().split_once("open\n").unwrap_or(("", ""));
    let mut shown = String::from_str(alloc, before)?;
    match Book::open(alloc, keeper_of(alloc, before)?, opening()) {
        Ok(book) => take_on(alloc, book, behind, &mut steps, &mut shown)?,
        Err(refused) => add_answer(&mut shown, "open", unopened(alloc, &refused)?.as_str())?,
    }
    Ok(shown)
}

/// The same, where nobody counts the steps that the book's methods take.
fn answered(alloc: Global, lines: &Text) -> Result<String, NoMemory> {
    taken::<Brand>(alloc, lines, Blank::new(1))
}

/// Writes a block with its answers, and empties both for the next one.
fn show(
    alloc: Global,
    heading: &mut String,
    steps: &mut String,
    out: &mut impl Write,
) -> Result<()> {
    let answered = answered(alloc, &Text::of(alloc, steps.as_str())?)?;
    out.write_all(heading.as_bytes())?;
    out.write_all(b"\n")?;
    out.write_all(answered.as_bytes())?;
    out.write_all(b"\n")?;
    heading.clear();
    steps.clear();
    Ok(())
}

fn main(rt: HostRuntime) -> Result<()> {
    let alloc = rt.alloc();
    let mut out = BufWriter::new(alloc, io::writer(&rt))?;
    let mut heading = String::new(alloc);
    let mut steps = String::new(alloc);
    for line in BufReader::new(alloc, rt.reader())?.lines(alloc) {
        let line = line?;
        if line.is_empty() {
            show(alloc, &mut heading, &mut steps, &mut out)?;
        } else if heading.is_empty() {
            heading = line;
        } else {
            steps.push_str(line.as_str())?;
            steps.push('\n')?;
        }
    }
    out.flush()?;
    Ok(())
}
