ghost use Rattle.site_records.specs.declared.faults.RowFault.TheVariants.{NoMemory as NoMemoryLeft};

use thiserror::Error;
use trust_types::NoMemory;

/// Why bytes gave no record.
#[derive(Clone, Copy, Debug, Drop, PartialEq, Eq, Error)]
pub enum RowFault {
    /// No record has this row.
    #[error("the bytes are no row")]
    NotARow,
    /// Memory ran out.
    #[error("out of memory")]
    NoMemory,
}

impl From<NoMemory> for RowFault {
    ghost from_gives = { λ _ e. e ≡ NoMemoryLeft };

    ghost use Rattle.std.specs.Prelude.{◌≡◌};

    fn from(_refusal: NoMemory) -> RowFault {
        RowFault::NoMemory
    }
}
