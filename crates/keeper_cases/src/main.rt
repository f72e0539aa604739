//! Shows what a keeper over SQLite answers. The input has blocks, a step a line, each block ended by an empty line; its first line says what it is
//! about. Under each step comes the answer:
//!
//! - `memory`: a keeper in memory, in place of the one before; each block begins with one;
//! - `file NAME`: a keeper over the file of that name, in place of the one before, which is given up;
//! - `append TEXT`: the text is added as a row;
//! - `fetch N`: row N, counted from 0;
//! - `appends N`: rows `row 0`, `row 1` and so on, N of them;
//! - `count`: all rows are fetched in order, and counted with their bytes.
#![tactic(auto)]

use anyhow::{Result, bail};
use keeper_sqlite::SqliteKeeper;
use outside::{Fetched, KeepFault, Keeper};
use std::alloc::Global;
use std::io::{self, Read, Write};
use trust_types::Text;

fn fault_text(fault: KeepFault) -> &'static str {
    match fault {
        KeepFault::Failed => "failed",
        KeepFault::NoMemory => "out of memory",
    }
}

fn append(alloc: Global, keeper: &mut SqliteKeeper, row: &str) -> Result<String> {
    let answer = match keeper.append(row.as_bytes()) {
        Ok(()) => "kept",
        Err(fault) => fault_text(fault),
    };
    Ok(String::from_str(alloc, answer)?)
}

fn fetch(alloc: Global, keeper: &mut SqliteKeeper, n: u64) -> Result<String> {
    let mut row = Vec::new(alloc);
    match keeper.fetch(n, &mut row) {
        Ok(Fetched::Row) => Ok(format!(in alloc; "row {}", String::from_utf8(row)?)?),
        Ok(Fetched::End) => Ok(String::from_str(alloc, "end")?),
        Err(fault) => Ok(String::from_str(alloc, fault_text(fault))?),
    }
}

fn append_many(alloc: Global, keeper: &mut SqliteKeeper, count: u64) -> Result<String> {
    for i in 0..count {
        let row = format!(in alloc; "row {i}")?;
        keeper.append(row.as_bytes())?;
    }
    Ok(format!(in alloc; "{count} kept")?)
}

/// Fetches rows in order, up to `most` of them.
fn count_up_to(alloc: Global, keeper: &mut SqliteKeeper, most: u64) -> Result<String> {
    let mut row = Vec::new(alloc);
    let mut bytes: u64 = 0;
    for n in 0..most {
        if keeper.fetch(n, &mut row)? == Fetched::End {
            return Ok(format!(in alloc; "{n} rows of {bytes} bytes")?);
        }
        bytes = bytes.saturating_add(row.len() as u64);
    }
    bail!("more rows than are counted")
}

/// Takes a step that opens no keeper. Gives the answer.
fn answer(alloc: Global, keeper: &mut SqliteKeeper, step: &str) -> Result<String> {
    if step == "count" {
        return count_up_to(alloc, keeper, 4_000_000);
    }
    let Some((verb, word)) = step.split_once(' ') else {
        bail!("no such step")
    };
    if verb == "append" {
        return append(alloc, keeper, word);
    }
    if verb == "fetch" {
        return fetch(alloc, keeper, word.parse()?);
    }
    if verb == "appends" {
        return append_many(alloc, keeper, word.parse()?);
    }
    bail!("no such step")
}

/// Opens the keeper that a step names, if it names one. Whether it does.
fn opens(rt: &HostRuntime, keeper: &mut SqliteKeeper, step: &str) -> Result<bool> {
    if step == "memory" {
        *keeper = SqliteKeeper::in_memory(rt.alloc());
        return Ok(true);
    }
    let Some(name) = step.strip_prefix("file ") else {
        return Ok(false);
    };
    let name = Text::of(rt.alloc(), name)?;
    // A file that is open can't be opened once more, so the keeper before is given up first.
    *keeper = SqliteKeeper::in_memory(rt.alloc());
    *keeper = SqliteKeeper::open_file(rt, &name);
    Ok(true)
}

/// Takes one step. Gives the answer.
fn take_step(rt: &HostRuntime, keeper: &mut SqliteKeeper, step: &str) -> Result<String> {
    if opens(rt, keeper, step)? {
        return Ok(String::from_str(rt.alloc(), "opened")?);
    }
    answer(rt.alloc(), keeper, step)
}

/// Takes the steps of all blocks, and writes each with its answer.
fn show(rt: &HostRuntime, keeper: &mut SqliteKeeper, input: &str, out: &mut String) -> Result<()> {
    let mut heading = true;
    for line in input.lines() {
        out.push_str(line)?;
        out.push('\n')?;
        if !heading && !line.is_empty() {
            let answer = take_step(rt, keeper, line)?;
            out.push_str("    ")?;
            out.push_str(answer.as_str())?;
            out.push('\n')?;
        }
        heading = line.is_empty();
    }
    Ok(())
}

/// What is shown for all blocks.
fn shown(rt: &HostRuntime, input: &str) -> Result<String> {
    let mut out = String::new(rt.alloc());
    let mut keeper = SqliteKeeper::in_memory(rt.alloc());
    let shown = show(rt, &mut keeper, input, &mut out);
    drop(keeper);
    shown?;
    Ok(out)
}

fn main(rt: HostRuntime) -> Result<()> {
    let mut input = String::new(rt.alloc());
    rt.reader().read_to_string(&mut input)?;
    let out = shown(&rt, input.as_str())?;
    io::writer(&rt).write_all(out.as_bytes())?;
    Ok(())
}
