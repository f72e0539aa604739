//! Steps of a reading, of which the first that fails gives the fault: each is followed by `?`.

ghost use Rattle.std.specs.Prelude.{◌≡◌};
ghost use Rattle.text_lines.specs.Steps.{at_line, fault_if, fault_unless};

use crate::faults::{TextFault, TextKind};

/// The fault, where the test holds.
pub fn fault_if(test: bool, kind: TextKind) -> Result<(), TextKind>
    ensures { result ≡ fault_if test kind }
{
    if test { Err(kind) } else { Ok(()) }
}

/// The fault, unless the test holds.
pub fn fault_unless(test: bool, kind: TextKind) -> Result<(), TextKind>
    ensures { result ≡ fault_unless test kind }
{
    if test { Ok(()) } else { Err(kind) }
}

/// What was read of the line of that number, its fault as that of a text.
pub fn at_line<T>(line: u64, outcome: Result<T, TextKind>) -> Result<T, TextFault>
    ensures { result ≡ at_line line outcome }
{
    match outcome {
        Ok(value) => Ok(value),
        Err(kind) => Err(TextFault { line, kind }),
    }
}
