//! Keepers over whose rows sites are opened. A line is one of these:
//!
//! - `keeps ROW`: the keeper has this row, behind those before;
//! - `fails N`: its call of this number fails. Fetches and appends are counted together from 0; to open over so many rows it is called once for each,
//!   and once more.

use outside::MemKeeper;
use site_core::Unopened;
use std::alloc::Global;
use trust_types::{Caps, NoMemory};

/// How many bytes of a row are shown.
const SHOWN: usize = 120;

/// The table with which each site begins.
pub(crate) fn opening() -> Caps {
    Caps::read(&[3, 2, 1]).unwrap_or(Caps::standard())
}

/// The line, with as many letters as it stands for.
pub(crate) fn written_out(alloc: Global, line: &str) -> Result<String, NoMemory> {
    let Some((front, count)) = line.rsplit_once('*') else {
        return Ok(String::from_str(alloc, line)?);
    };
    let mut text = String::from_str(alloc, front)?;
    for _ in 0..count.parse().unwrap_or(0_u32) {
        text.push('x')?;
    }
    Ok(text)
}

/// The keeper that lines tell of.
pub(crate) fn keeper_of(alloc: Global, lines: &str) -> Result<MemKeeper, NoMemory> {
    let mut rows = Vec::new(alloc);
    let mut fails = Vec::new(alloc);
    for line in lines.lines() {
        if let Some(row) = line.strip_prefix("keeps ") {
            let row = written_out(alloc, row)?;
            rows.push(row.as_bytes().to_vec(alloc)?)?;
        } else if let Some(number) = line.strip_prefix("fails ") {
            fails.push(number.parse().unwrap_or(0))?;
        }
    }
    Ok(MemKeeper::new(alloc, rows, fails))
}

/// A keeper of copies of these rows, none of whose calls fails.
pub(crate) fn keeper_with(alloc: Global, kept: &[Vec<u8>]) -> Result<MemKeeper, NoMemory> {
    let mut rows = Vec::with_capacity(alloc, kept.len())?;
    for row in kept {
        rows.push(row.to_vec(alloc)?)?;
    }
    Ok(MemKeeper::new(alloc, rows, Vec::new(alloc)))
}

/// Rows, a line each; of a long one its front.
pub(crate) fn listed(alloc: Global, rows: &[Vec<u8>]) -> Result<String, NoMemory> {
    let mut text = String::new(alloc);
    for row in rows {
        let words = str::from_utf8(row).unwrap_or("no text");
        text.push_str(words.get(..SHOWN).unwrap_or(words))?;
        text.push('\n')?;
    }
    Ok(text)
}

/// Why a site wasn't opened, and the rows that are handed back.
pub(crate) fn unopened(alloc: Global, refused: &Unopened<MemKeeper>) -> Result<String, NoMemory> {
    let rows = listed(alloc, refused.keeper.rows())?;
    Ok(format!(in alloc; "{}; handed back:\n{}", refused.fault, rows.as_str())?)
}
