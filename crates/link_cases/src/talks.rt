//! What a block tells.

use std::alloc::{AllocError, Global};

/// What is shown of a block besides what comes of it, or how much is sent and taken in it.
#[derive(Clone, Copy, Debug, PartialEq, Eq)]
pub(crate) enum Kind {
    Plain,
    /// The same in pieces of every size.
    Cuts,
    /// The same with each call failing in turn.
    Faults,
    /// Bytes come and are taken in pieces of that size.
    Pieces(usize),
    /// That many bytes are taken.
    Room(usize),
    /// What was written is copied that many times.
    Copies(usize),
}

impl Kind {
    /// The kind of a block with that heading.
    pub fn of(heading: &str) -> Kind {
        let name = heading.split_once(':').unwrap_or((heading, "")).0;
        let (word, number) = name.split_once(' ').unwrap_or((name, ""));
        let number = number.parse::<usize>();
        match (word, number) {
            ("cuts", Err(_)) => Kind::Cuts,
            ("faults", Err(_)) => Kind::Faults,
            ("pieces", Ok(size)) => Kind::Pieces(size.max(1)),
            ("room", Ok(size)) => Kind::Room(size),
            ("copies", Ok(times)) => Kind::Copies(times),
            _ => Kind::Plain,
        }
    }
}

/// The script of a site, and the bytes that a client sends.
#[derive(Drop)]
pub(crate) struct Talk {
    pub script: String,
    pub sent: String,
}

/// The bytes of a line of what is sent.
fn bytes_of(alloc: Global, line: &str) -> Result<String, AllocError> {
    line.replace(alloc, "\\r", "\r")?
        .replace(alloc, "\\n", "\n")
}

impl Talk {
    /// What the lines of a block tell.
    pub fn of(alloc: Global, lines: &str) -> Result<Talk, AllocError> {
        let mut script = String::new(alloc);
        let mut sent = String::new(alloc);
        for line in lines.lines() {
            if let Some((times, line)) = line.split_once("> ") {
                let bytes = bytes_of(alloc, line)?;
                for _ in 0..times.parse::<u32>().unwrap_or(1) {
                    sent.push_str(bytes.as_str())?;
                }
            } else {
                script.push_str(line)?;
                script.push('\n')?;
            }
        }
        Ok(Talk { script, sent })
    }
}
