//! Runs of the program, told as a text, and what each of them answers.
//!
//! The input is told line by line, and each line is printed again. Behind a `|` and a space stands a line of the input of the runs that
//! follow, up to the next such line behind a run; `\` and two hexadecimal digits are a byte, and a `\` at the end leaves the LF out. A line
//! `=` puts the input so far in front of all later ones, in place of what stood there. Behind a `+` and a space stands a row that the keeper of the next run
//! has; a `+` alone stands for the rows that the last one's had at its end. Behind a `$` stand the words of a run, and behind commas what its source, its
//! sink and its keeper are like. What it writes is printed then, its status in brackets, and where that is asked for the rows that its keeper has then.
#![tactic(auto)]

mod asked;
mod trials;

use asked::Asked;
use outside::{StdSink, StdSource, read_to_end, write_all};
use std::alloc::Global;
use std::process::ExitCode;
use trials::{Told, copy_of};
use trust_types::NoMemory;

/// The most bytes of a text.
const LONGEST: usize = 1_048_576;

fn main(rt: HostRuntime) -> ExitCode {
    match start(&rt) {
        Some(()) => ExitCode::SUCCESS,
        None => ExitCode::FAILURE,
    }
}

fn start(rt: &HostRuntime) -> Option<()> {
    let alloc = rt.alloc();
    let bytes = read_to_end(alloc, &mut StdSource::new(rt), LONGEST).ok()?;
    let text = str::from_utf8(&bytes).ok()?;
    let mut script = Script::new(alloc);
    for line in text.lines() {
        script.follow(alloc, line).ok()?;
    }
    write_all(&mut StdSink::new(rt), &script.printed).ok()
}

/// What was printed so far, and the input of the next run.
#[derive(Drop)]
struct Script {
    printed: Vec<u8>,
    front: Vec<u8>,
    input: Vec<u8>,
    has_run: bool,
    rows: Vec<Vec<u8>>,
    left: Vec<Vec<u8>>,
}

impl Script {
    fn new(alloc: Global) -> Script {
        Script {
            printed: Vec::new(alloc),
            front: Vec::new(alloc),
            input: Vec::new(alloc),
            has_run: false,
            rows: Vec::new(alloc),
            left: Vec::new(alloc),
        }
    }

    /// Prints the next line, and does what it says.
    fn follow(&mut self, alloc: Global, line: &str) -> Result<(), NoMemory> {
        self.printed.extend_from_slice(line.as_bytes())?;
        self.printed.push(b'\n')?;
        if let Some(words) = line.strip_prefix("$") {
            return self.run(alloc, words);
        }
        if line == "=" {
            self.begin_input();
            self.front = self.input.to_vec(alloc)?;
            self.has_run = true;
        } else if let Some(rest) = line.strip_prefix("|") {
            self.begin_input();
            push_input(&mut self.input, rest.strip_prefix(" ").unwrap_or(rest))?;
        } else if let Some(row) = line.strip_prefix("+ ") {
            self.rows.push(row.as_bytes().to_vec(alloc)?)?;
        } else if line == "+" {
            self.rows = copy_of(alloc, &self.left)?;
        }
        Ok(())
    }

    /// Lets go of the input of a run that is done.
    fn begin_input(&mut self) {
        if self.has_run {
            self.input.clear();
        }
        self.has_run = false;
    }

    fn run(&mut self, alloc: Global, words: &str) -> Result<(), NoMemory> {
        self.has_run = true;
        let asked = Asked::of(alloc, words)?;
        let mut bytes = self.front.to_vec(alloc)?;
        bytes.extend_from_slice(&self.input)?;
        let told = asked.try_out(alloc, &bytes, &self.rows)?;
        self.print(alloc, &told)?;
        if asked.shows_rows {
            self.print_rows(&told.rows)?;
        }
        self.rows.clear();
        self.left = told.rows;
        Ok(())
    }

    fn print_rows(&mut self, rows: &[Vec<u8>]) -> Result<(), NoMemory> {
        for row in rows {
            self.printed.extend_from_slice(b"+ ")?;
            self.printed.extend_from_slice(row)?;
            self.printed.push(b'\n')?;
        }
        Ok(())
    }

    fn print(&mut self, alloc: Global, told: &Told) -> Result<(), NoMemory> {
        self.printed.extend_from_slice(&told.written)?;
        if told.written.last().is_some_and(|last| *last != b'\n') {
            self.printed.extend_from_slice(b"\\\n")?;
        }
        let status = format!(in alloc; "[{}]\n", told.status.code())?;
        self.printed.extend_from_slice(status.as_bytes())?;
        if told.differs {
            self.printed
                .extend_from_slice(b"! not so in other pieces\n")?;
        }
        Ok(())
    }
}

/// Adds a line to an input.
fn push_input(input: &mut Vec<u8>, line: &str) -> Result<(), NoMemory> {
    let mut parts = line.split('\\');
    if let Some(first) = parts.next() {
        input.extend_from_slice(first.as_bytes())?;
    }
    for part in parts {
        let Some((digits, rest)) = part.split_at_checked(2) else {
            return Ok(());
        };
        if let Ok(byte) = u8::from_str_radix(digits, 16) {
            input.push(byte)?;
        }
        input.extend_from_slice(rest.as_bytes())?;
    }
    input.push(b'\n')?;
    Ok(())
}
