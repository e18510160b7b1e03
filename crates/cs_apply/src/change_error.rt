//! The error of applying one change, and its conversion to an `ApplyError`.

ghost use Rattle.std.specs.Prelude.{◌≡◌};
ghost use Rattle.cs_apply.specs.declared.change_error.ChangeError.TheVariants.{Memory};

use crate::conflict::{ApplyError, Conflict, ConflictKind};
use std::alloc::{AllocError, AllocFailed};
use thiserror::Error;

/// Why one change isn't applied.
#[derive(Clone, Copy, Debug, PartialEq, Eq, Error)]
pub enum ChangeError {
    /// The change conflicts with the rows.
    #[error(transparent)]
    Conflict(ConflictKind),
    /// Out of memory.
    #[error("out of memory")]
    Memory,
}

impl From<AllocError> for ChangeError {
    ghost from_gives = { λ _ e. e ≡ Memory };

    fn from(_e: AllocError) -> ChangeError {
        ChangeError::Memory
    }
}

impl<T: Drop> From<AllocFailed<T>> for ChangeError {
    ghost from_gives = { λ _ e. e ≡ Memory };

    fn from(_e: AllocFailed<T>) -> ChangeError {
        ChangeError::Memory
    }
}

impl ChangeError {
    ghost use Rattle.cs_apply.specs.Errors.{conflict_at};

    /// The same error, for the change at this position.
    pub fn at(self, position: usize) -> ApplyError
        ensures { result ≡ conflict_at position self }
    {
        match self {
            ChangeError::Conflict(kind) => ApplyError::Conflict(Conflict { position, kind }),
            ChangeError::Memory => ApplyError::Memory,
        }
    }
}
