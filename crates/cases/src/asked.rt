use std::alloc::Global;
use trust_types::NoMemory;

/// What a run is asked for, and what its source and sink are like.
#[derive(Drop)]
pub struct Asked<'a> {
    pub words: Vec<&'a str>,
    /// The size of the pieces in which it reads and writes, where only one is to be tried.
    pub piece: Option<usize>,
    /// The reads and the writes that fail.
    pub reads: Vec<u64>,
    pub writes: Vec<u64>,
    /// How many bytes the sink has room for.
    pub room: usize,
    /// How many bytes the input is filled up to.
    pub length: usize,
    /// Whether what it writes goes through `check`.
    pub is_checked: bool,
    /// The calls on the keeper of its site's rows that fail, fetches and appends.
    pub keeps: Vec<u64>,
    /// Whether the rows that the keeper has at its end are printed.
    pub shows_rows: bool,
}

impl<'a> Asked<'a> {
    /// What a line asks for behind its `$`.
    pub fn of(alloc: Global, line: &'a str) -> Result<Asked<'a>, NoMemory> {
        let mut parts = line.split(',');
        let words = parts.next().unwrap_or("");
        let mut asked = Asked {
            words: words.split_whitespace().collect(alloc)?,
            piece: None,
            reads: Vec::new(alloc),
            writes: Vec::new(alloc),
            room: 65_536,
            length: 0,
            is_checked: false,
            keeps: Vec::new(alloc),
            shows_rows: false,
        };
        for part in parts {
            asked.note(part.trim())?;
        }
        Ok(asked)
    }

    fn note(&mut self, part: &str) -> Result<(), NoMemory> {
        if let Some(size) = part.strip_prefix("pieces of ") {
            self.piece = size.parse().ok();
        } else if let Some(number) = part.strip_prefix("read fails at ") {
            self.reads.push(number.parse().unwrap_or(0))?;
        } else if let Some(number) = part.strip_prefix("write fails at ") {
            self.writes.push(number.parse().unwrap_or(0))?;
        } else if let Some(number) = part.strip_prefix("keeper fails at ") {
            self.keeps.push(number.parse().unwrap_or(0))?;
        } else if let Some(room) = part.strip_prefix("room for ") {
            self.room = room.parse().unwrap_or(0);
        } else if let Some(length) = part.strip_suffix(" bytes") {
            self.length = length.parse().unwrap_or(0);
            self.piece = Some(65_536);
        } else if part == "then rows" {
            self.shows_rows = true;
        } else {
            self.is_checked = part == "then check";
        }
        Ok(())
    }
}
