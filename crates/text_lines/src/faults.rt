//! Why a text is malformed.

ghost use Rattle.std.specs.Prelude.{◌≡◌, IfOk};
ghost use Rattle.text_lines.specs.declared.faults.LineFault.TheVariants.{Kind as KindOf, NoMemory as NoMemoryLeft};
ghost use Rattle.text_lines.specs.Faults.{kind_name, kind_of_table, fault_line};

use std::alloc::{AllocError, AllocFailed, Global};
use trust_types::{CapsFault, NoMemory};

/// The kinds of fault of a line, in the order in which they count: the first of this list that applies to a line is
/// its kind.
#[derive(Clone, Copy, Debug, PartialEq, Eq)]
pub enum TextKind {
    /// The line is none of the forms that may stand at its place.
    BadLine,
    /// A number's place holds another word.
    BadNumber,
    /// The number of levels isn't 2 to 7.
    BadCount,
    /// The table has no entry.
    Empty,
    /// The table has more than 16 entries.
    Long,
    /// An entry of the table is 0.
    Zero,
    /// An entry of the table is above 2,000.
    Large,
    /// An entry of the table is above the one before.
    Rises,
    /// The table's last entry is not 1.
    EndNotOne,
    /// A level's place holds another word, or a level that the text's table hasn't; or the text's table hasn't the grade that is asked for.
    BadLevel,
    /// A place for a name or a node holds another word.
    BadName,
    /// A place for a written text or for hexadecimal digits holds another word.
    BadText,
    /// No account of that name stands before.
    Unknown,
    /// An account certifies itself.
    SelfCert,
    /// An account, a seed, a flow line's pair or a node of the cut stands there before.
    Twice,
    /// One more than there may be.
    TooMany,
    /// The text ended without a level.
    MissingLevel,
    /// The text ended with the root on no side of the cut.
    MissingRoot,
}

impl TextKind {
    /// Its name, as it is printed.
    pub fn name(self) -> &'static str
        ensures { result.now ≡ kind_name self }
    {
        match self {
            TextKind::BadLine => "BadLine",
            TextKind::BadNumber => "BadNumber",
            TextKind::BadCount => "BadCount",
            TextKind::Empty => "Empty",
            TextKind::Long => "Long",
            TextKind::Zero => "Zero",
            TextKind::Large => "Large",
            TextKind::Rises => "Rises",
            TextKind::EndNotOne => "EndNotOne",
            TextKind::BadLevel => "BadLevel",
            TextKind::BadName => "BadName",
            TextKind::BadText => "BadText",
            TextKind::Unknown => "Unknown",
            TextKind::SelfCert => "SelfCert",
            TextKind::Twice => "Twice",
            TextKind::TooMany => "TooMany",
            TextKind::MissingLevel => "MissingLevel",
            TextKind::MissingRoot => "MissingRoot",
        }
    }

    /// The kind of a line that has that fault as a table: that of the same name, and `BadCount` for the number of levels.
    pub fn of_table(fault: CapsFault) -> TextKind
        ensures { result ≡ kind_of_table fault }
    {
        match fault {
            CapsFault::Levels => TextKind::BadCount,
            CapsFault::Empty => TextKind::Empty,
            CapsFault::Long => TextKind::Long,
            CapsFault::Zero => TextKind::Zero,
            CapsFault::Large => TextKind::Large,
            CapsFault::Rises => TextKind::Rises,
            CapsFault::EndNotOne => TextKind::EndNotOne,
        }
    }
}

/// The first line of a text that has a fault, counted from 1, and its kind. What is missing at the end of a text is a
/// fault of the line after the last, and so is a grade that is asked for and that the table hasn't.
#[derive(Clone, Copy, Debug, PartialEq, Eq)]
pub struct TextFault {
    pub line: u64,
    pub kind: TextKind,
}

impl TextFault {
    /// Writes the fault as its line, ended by LF.
    ///
    /// # Errors
    /// [`NoMemory`] where there isn't enough for the line.
    pub fn print(&self, alloc: Global) -> Result<Vec<u8>, NoMemory>
        ensures { IfOk result (λ line. line.items ≡ fault_line self.now) }
    {
        let TextFault { line, kind } = *self;
        let line = format!(in alloc; "fault line {line} {}\n", kind.name())?;
        Ok(line.into_bytes())
    }
}

/// What keeps one line from being read.
#[derive(Clone, Copy, Debug, Drop, PartialEq, Eq)]
pub enum LineFault {
    /// The line has a fault of that kind.
    Kind(TextKind),
    /// Memory ran out.
    NoMemory,
}

impl From<TextKind> for LineFault {
    ghost from_gives = { λ kind e. e ≡ KindOf kind };

    fn from(kind: TextKind) -> LineFault {
        LineFault::Kind(kind)
    }
}

impl From<AllocError> for LineFault {
    ghost from_gives = { λ _ e. e ≡ NoMemoryLeft };

    fn from(_refusal: AllocError) -> LineFault {
        LineFault::NoMemory
    }
}

impl<T: Drop> From<AllocFailed<T>> for LineFault {
    ghost from_gives = { λ _ e. e ≡ NoMemoryLeft };

    fn from(_refusal: AllocFailed<T>) -> LineFault {
        LineFault::NoMemory
    }
}

impl From<NoMemory> for LineFault {
    ghost from_gives = { λ _ e. e ≡ NoMemoryLeft };

    fn from(_refusal: NoMemory) -> LineFault {
        LineFault::NoMemory
    }
}
