ghost use Rattle.std.specs.Prelude.{◌≡◌};
ghost use Rattle.text_lines.specs.Reading.{fault_at};
ghost use Rattle.script_text.specs.Faults.{fault_of};
ghost use Rattle.script_text.specs.declared.faults.ScriptFault.TheVariants.{Text as TextOf};

use text_lines::{LineFault, TextFault};

/// Why a text gave no script.
#[derive(Clone, Copy, Debug, Drop, PartialEq, Eq)]
pub enum ScriptFault {
    /// It is malformed: its first bad line, and the kind of that line's fault.
    Text(TextFault),
    /// Memory ran out.
    NoMemory,
}

impl ScriptFault {
    /// The fault of a text whose line of that number has this one.
    pub(crate) fn at_line(line: u64, fault: LineFault) -> ScriptFault
        ensures { fault_of result ≡ fault_at line fault }
    {
        match fault {
            LineFault::Kind(kind) => ScriptFault::Text(TextFault { line, kind }),
            LineFault::NoMemory => ScriptFault::NoMemory,
        }
    }
}

impl From<TextFault> for ScriptFault {
    ghost from_gives = { λ fault e. e ≡ TextOf fault };

    fn from(fault: TextFault) -> ScriptFault {
        ScriptFault::Text(fault)
    }
}
