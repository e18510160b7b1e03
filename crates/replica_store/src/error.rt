//! The errors of a replica.

ghost use Rattle.std.specs.Prelude.{◌≡◌};
ghost use Rattle.replica_store.specs.Errors.{reported_result};
ghost use Rattle.replica_store.specs.declared.error.ReplicaError.TheVariants.{Memory};

use sqlite::ErrorCode;
use std::alloc::{AllocError, AllocFailed};
use thiserror::Error;

/// Why a replica can't be created, opened, read or changed.
#[derive(Clone, Copy, Debug, PartialEq, Eq, Error)]
pub enum ReplicaError {
    /// Any call: the database refused or failed. The clause `cause` of each call says why it may.
    /// After `commit` the rows and the cursor are those before the call or those after it, both
    /// together; open the replica again to find out which. The other calls did not change them.
    #[error("the database refused or failed")]
    Store,
    /// `open`, `cursor` and `load`: what is stored is not a replica of this schema.
    #[error("what is stored is not a replica of this schema")]
    Unusable,
    /// Any call: out of memory. Otherwise as `Store`.
    #[error("out of memory")]
    Memory,
}

impl From<AllocError> for ReplicaError {
    ghost from_gives = { λ _ e. e ≡ Memory };

    fn from(_: AllocError) -> ReplicaError {
        ReplicaError::Memory
    }
}

impl<T: Drop> From<AllocFailed<T>> for ReplicaError {
    ghost from_gives = { λ _ e. e ≡ Memory };

    fn from(_: AllocFailed<T>) -> ReplicaError {
        ReplicaError::Memory
    }
}

// What the database answered, with its error as a replica reports it.
pub(crate) fn reported<T>(answer: Result<T, sqlite::Error>) -> Result<T, ReplicaError>
    ensures { result ≡ reported_result answer }
{
    match answer {
        Ok(value) => Ok(value),
        Err(sqlite::Error::SqliteFailure(ErrorCode::OutOfMemory)) => Err(ReplicaError::Memory),
        Err(_) => Err(ReplicaError::Store),
    }
}
