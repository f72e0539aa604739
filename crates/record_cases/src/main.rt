//! Shows what rows stand for. The input has blocks of rows, a row a line, each block ended by an empty line. Its first line says what is
//! done with them:
//!
//! - `rows: ..`: under each row comes the record that it is the row of, and the row that is written of it; or `no row`;
//! - `fronts: ..`: the same of each front of the row that is a row;
//! - `reads: ..`: each row is read a thousand times, and it shows how many were rows;
//! - `writes: ..`: each row is read and its record written a thousand times, and it shows how many bytes were written.
#![tactic(auto)]

use anyhow::{Result, bail};
use site_records::{RowFault, read_row, row_of};
use std::alloc::Global;
use std::io::{self, BufRead, BufReader, BufWriter, Write};

const TIMES: u64 = 1_000;

/// Writes the row, and under it what it stands for.
fn show_row(alloc: Global, row: &[u8], out: &mut impl Write) -> Result<()> {
    out.write_all(row)?;
    match read_row(alloc, row) {
        Ok(record) => {
            let written = row_of(alloc, &record)?;
            out.write_all(format!(in alloc; "\n    {record:?}\n    ")?.as_bytes())?;
            out.write_all(&written)?;
            out.write_all(b"\n")?;
            Ok(())
        }
        Err(RowFault::NotARow) => {
            out.write_all(b"\n    no row\n")?;
            Ok(())
        }
        Err(fault) => Err(fault.into()),
    }
}

/// The same of each front that is a row.
fn show_fronts(alloc: Global, row: &[u8], out: &mut impl Write) -> Result<()> {
    for end in 0..row.len() {
        let front = &row[..end];
        if read_row(alloc, front).is_ok() {
            show_row(alloc, front, out)?;
        }
    }
    Ok(())
}

/// Reads the row a thousand times. Gives how often it was one.
fn read_often(alloc: Global, row: &[u8]) -> u64 {
    let mut rows: u64 = 0;
    for _ in 0..TIMES {
        rows = rows.saturating_add(read_row(alloc, row).is_ok() as u64);
    }
    rows
}

/// How many bytes the row of the row's record has.
fn written(alloc: Global, row: &[u8]) -> Result<u64> {
    let record = read_row(alloc, row)?;
    Ok(row_of(alloc, &record)?.len() as u64)
}

/// Reads the row and writes its record a thousand times. Gives how many bytes were written.
fn write_often(alloc: Global, row: &[u8]) -> Result<u64> {
    let mut bytes: u64 = 0;
    for _ in 0..TIMES {
        bytes = bytes.saturating_add(written(alloc, row)?);
    }
    Ok(bytes)
}

/// Does with one row of a block what the block's heading says. Gives what is counted.
fn show(alloc: Global, heading: &str, row: &[u8], out: &mut impl Write) -> Result<u64> {
    if heading.starts_with("rows: ") {
        show_row(alloc, row, out)?;
        return Ok(0);
    }
    if heading.starts_with("fronts: ") {
        show_fronts(alloc, row, out)?;
        return Ok(0);
    }
    if heading.starts_with("reads: ") {
        return Ok(read_often(alloc, row));
    }
    if heading.starts_with("writes: ") {
        return write_often(alloc, row);
    }
    bail!("a block begins with `rows: `, `fronts: `, `reads: ` or `writes: `")
}

fn main(rt: HostRuntime) -> Result<()> {
    let alloc = rt.alloc();
    let mut out = BufWriter::new(alloc, io::writer(&rt))?;
    let mut heading = String::new(alloc);
    let mut counted: u64 = 0;
    for line in BufReader::new(alloc, rt.reader())?.lines(alloc) {
        let line = line?;
        if line.is_empty() {
            if counted > 0 {
                out.write_all(format!(in alloc; "{counted}\n")?.as_bytes())?;
            }
            out.write_all(b"\n")?;
            heading.clear();
            counted = 0;
        } else if heading.is_empty() {
            out.write_all(line.as_bytes())?;
            out.write_all(b"\n")?;
            heading = line;
        } else {
            counted = counted.saturating_add(show(
                alloc,
                heading.as_str(),
                line.as_bytes(),
                &mut out,
            )?);
        }
    }
    out.flush()?;
    Ok(())
}
