//! Why a drive ends without a report.

ghost use Rattle.std.specs.Prelude.{◌≡◌};
ghost use Rattle.rb_drive.specs.declared.fault.DriveError.TheVariants.{Memory};

use std::alloc::{AllocError, AllocFailed};
use std::io;
use thiserror::Error;

/// Why a drive wrote no whole report, with the system's reason if there is one. After all but
/// `Write` nothing is written; after `Write` a prefix of the report may be.
#[derive(Debug, Drop, Error)]
pub enum DriveError {
    /// More subscribers were asked for than a broker has. Nothing was read.
    #[error("too many subscribers")]
    Subscribers,
    /// The reader failed. No thread was started.
    #[error("read fault")]
    Read(io::Error),
    /// The writer failed, or accepted no byte.
    #[error("write fault")]
    Write(io::Error),
    /// The line with this number, from 1, is the first bad one. No thread was started.
    #[error("line {0}")]
    Line(u64),
    /// The threads were stopped: one can't be made, or memory ran out in one.
    #[error("stopped")]
    Stopped,
    /// The durable store failed: it can't be opened, something is in it already, or it failed while
    /// its subscriber accepted or when it was closed.
    #[error("store fault")]
    Store,
    /// Memory ran out before or after the threads ran.
    #[error("out of memory")]
    Memory,
}

impl From<AllocError> for DriveError {
    ghost from_gives = { λ _ e. e ≡ Memory };

    fn from(_e: AllocError) -> DriveError {
        DriveError::Memory
    }
}

impl<T: Drop> From<AllocFailed<T>> for DriveError {
    ghost from_gives = { λ _ e. e ≡ Memory };

    fn from(_e: AllocFailed<T>) -> DriveError {
        DriveError::Memory
    }
}
