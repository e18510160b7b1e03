//! Why a script stops before its end.

ghost use Rattle.std.specs.Prelude.{◌≡◌};
ghost use Rattle.rb_script.specs.declared.fault.ScriptError.TheVariants.{Memory};

use crate::answering::RefusedLine;
use std::alloc::AllocError;
use std::io;
use thiserror::Error;

/// Why `run_script` stopped, with the system's reason if there is one. After `Read` and `Endless`,
/// the answers to all whole lines before are written. After `Write` and `Memory`, a prefix of the
/// answers is written, whose last one may be cut. After `Refused`, the answers up to that line's
/// own are written.
#[derive(Debug, Drop, Error)]
pub enum ScriptError {
    /// The reader failed.
    #[error("read fault")]
    Read(io::Error),
    /// The writer failed, or accepted no byte.
    #[error("write fault")]
    Write(io::Error),
    /// The script has more than 16,777,216 bytes.
    #[error("script too long")]
    Endless,
    /// Memory ran out.
    #[error("out of memory")]
    Memory,
    /// The answering is strict, and this is the first line that is refused or faulty.
    #[error("{0}")]
    Refused(RefusedLine),
}

impl From<AllocError> for ScriptError {
    ghost from_gives = { λ _ e. e ≡ Memory };

    fn from(_e: AllocError) -> ScriptError {
        ScriptError::Memory
    }
}
