ghost use Rattle.std.specs.Prelude.{◌≡◌, ℕ, List, Option, IfOk};
ghost use Rattle.outside.specs.Causes.{HasCause};
ghost use Rattle.outside.specs.KeptRows.{AppendsRow, Finds, GivesNone, is_failed};

use crate::failed::Failed;
use std::alloc::AllocError;
use thiserror::Error;
use trust_types::NoMemory;

/// Why a keeper didn't do what it was asked for. Its rows are as they were.
#[derive(Clone, Copy, Debug, Drop, PartialEq, Eq, Error)]
pub enum KeepFault {
    /// The keeper has counted a fault.
    #[error("a call on a keeper of rows failed")]
    Failed,
    /// Memory ran out.
    #[error("out of memory")]
    NoMemory,
}

impl From<Failed> for KeepFault {
    ghost use Rattle.std.specs.Prelude.{◌≡◌};
    ghost use Rattle.outside.specs.declared.keeper.KeepFault.TheVariants.{Failed as Fails};

    ghost from_gives = { λ _ e. e ≡ Fails };

    fn from(_fault: Failed) -> KeepFault {
        KeepFault::Failed
    }
}

impl From<AllocError> for KeepFault {
    ghost use Rattle.std.specs.Prelude.{◌≡◌};
    ghost use Rattle.outside.specs.declared.keeper.KeepFault.TheVariants.{NoMemory as OutOfMemory};

    ghost from_gives = { λ _ e. e ≡ OutOfMemory };

    fn from(_refusal: AllocError) -> KeepFault {
        KeepFault::NoMemory
    }
}

impl From<NoMemory> for KeepFault {
    ghost use Rattle.std.specs.Prelude.{◌≡◌};
    ghost use Rattle.outside.specs.declared.keeper.KeepFault.TheVariants.{NoMemory as OutOfMemory};

    ghost from_gives = { λ _ e. e ≡ OutOfMemory };

    fn from(_refusal: NoMemory) -> KeepFault {
        KeepFault::NoMemory
    }
}

/// What a keeper has under a number.
#[derive(Clone, Copy, Debug, PartialEq, Eq)]
pub enum Fetched {
    /// A row, which was put where it was asked for.
    Row,
    /// Nothing: the rows end before that number.
    End,
}

/// Where the rows of a site are kept, in the order in which they came.
pub trait Keeper: Drop {
    /// How many calls failed. The count stands still at the last value of a `u64`.
    ghost faults: { Self → ℕ };

    /// All the rows, where the keeper tells them.
    ghost rows: { Self → Option (List (List ℕ)) };

    /// Adds one row at the end.
    ///
    /// # Errors
    /// [`KeepFault::Failed`] where the keeper had a fault, [`KeepFault::NoMemory`] where memory ran out. The rows are then as they were.
    fn append(&mut self, row: &[u8]) -> Result<(), KeepFault>
        ensures rows { AppendsRow (rows self.old) (rows self.new) result row.now }
        ensures cause { HasCause (faults self.old) (faults self.new) (is_failed result) };

    /// Puts row `n`, counted from 0, into `out` in place of what it held, or answers `End` where there are at most `n` rows. Where it answers
    /// anything but `Row`, `out` is as it was. The rows are as they were, whatever it answers.
    ///
    /// # Errors
    /// [`KeepFault::Failed`] where the keeper had a fault, [`KeepFault::NoMemory`] where memory ran out.
    fn fetch(&mut self, n: u64, out: &mut Vec<u8>) -> Result<Fetched, KeepFault>
        ensures found { IfOk result (λ found. Finds (rows self.old) n found out.new.items) }
        ensures rows { rows self.new ≡ rows self.old }
        ensures out { GivesNone result → out.new.items ≡ out.old.items }
        ensures cause { HasCause (faults self.old) (faults self.new) (is_failed result) };
}
