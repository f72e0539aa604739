ghost use Rattle.std.specs.Prelude.{◌≡◌};
ghost use Rattle.text_lines.specs.Reading.{fault_at};
ghost use Rattle.site_text.specs.Faults.{fault_of};
ghost use Rattle.site_text.specs.declared.faults.SiteFault.TheVariants.{NoMemory as NoMemoryLeft, Text as TextOf};

use text_lines::{LineFault, TextFault};
use thiserror::Error;
use trust_types::NoMemory;

/// Why a text gave no site or no proof.
#[derive(Clone, Copy, Debug, Drop, PartialEq, Eq, Error)]
pub enum SiteFault {
    /// It is malformed: its first bad line, and the kind of that line's fault.
    #[error("the text has a bad line")]
    Text(TextFault),
    /// Memory ran out.
    #[error("out of memory")]
    NoMemory,
}

impl SiteFault {
    /// The fault of a text whose line of that number has this one.
    pub(crate) fn at_line(line: u64, fault: LineFault) -> SiteFault
        ensures { fault_of result ≡ fault_at line fault }
    {
        match fault {
            LineFault::Kind(kind) => SiteFault::Text(TextFault { line, kind }),
            LineFault::NoMemory => SiteFault::NoMemory,
        }
    }
}

impl From<TextFault> for SiteFault {
    ghost from_gives = { λ fault e. e ≡ TextOf fault };

    fn from(fault: TextFault) -> SiteFault {
        SiteFault::Text(fault)
    }
}

impl From<NoMemory> for SiteFault {
    ghost from_gives = { λ _ e. e ≡ NoMemoryLeft };

    fn from(_refusal: NoMemory) -> SiteFault {
        SiteFault::NoMemory
    }
}
