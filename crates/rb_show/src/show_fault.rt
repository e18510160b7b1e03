//! Why `show` stops before its end.

ghost use Rattle.std.specs.Prelude.{◌≡◌};
ghost use Rattle.rb_show.specs.declared.show_fault.ShowError.TheVariants.{Memory};

use std::alloc::AllocError;
use std::io;
use thiserror::Error;

/// Why `show` stopped, with the system's reason if there is one. After `Read`, nothing is written.
/// After `Row`, all rows of the lines before it are written. After `Write` and `Memory`, a prefix
/// of the rows is written, whose last one may be cut.
#[derive(Debug, Drop, Error)]
pub enum ShowError {
    /// The reader failed.
    #[error("read fault")]
    Read(io::Error),
    /// The writer failed, or accepted no byte.
    #[error("write fault")]
    Write(io::Error),
    /// The line with this number, from 1, begins with `row` and has no row of a table.
    #[error("line {0}: not a row of a table before it (the script's table lines go first)")]
    Row(u64),
    /// Memory ran out.
    #[error("out of memory")]
    Memory,
}

impl From<AllocError> for ShowError {
    ghost from_gives = { λ _ e. e ≡ Memory };

    fn from(_e: AllocError) -> ShowError {
        ShowError::Memory
    }
}
