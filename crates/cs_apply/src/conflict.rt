//! The errors of applying a changeset: its first conflict, or out of memory.

ghost use Rattle.std.specs.Prelude.{◌≡◌};
ghost use Rattle.cs_apply.specs.Conflict.{code_of};

use thiserror::Error;

/// How a change conflicts with the rows.
#[derive(Clone, Copy, Debug, PartialEq, Eq, Error)]
pub enum ConflictKind {
    /// The row of an UPDATE or a DELETE has other values (`SQLITE_CHANGESET_DATA`).
    #[error("the row has other values")]
    Data,
    /// The row of an UPDATE or a DELETE doesn't exist (`SQLITE_CHANGESET_NOTFOUND`).
    #[error("there is no such row")]
    NotFound,
    /// The row of an INSERT already exists (`SQLITE_CHANGESET_CONFLICT`).
    #[error("the row is there already")]
    Conflict,
}

impl ConflictKind {
    /// The number that SQLite passes to a conflict handler: 1 DATA, 2 NOTFOUND, 3 CONFLICT.
    pub fn code(self) -> u8
        ensures { result ≡ code_of self }
    {
        match self {
            ConflictKind::Data => 1,
            ConflictKind::NotFound => 2,
            ConflictKind::Conflict => 3,
        }
    }
}

/// The first conflict of a changeset: the index of the change among all its changes, from 0, and
/// the kind.
#[derive(Clone, Copy, Debug, PartialEq, Eq, Error)]
#[error("change {position}: {kind}")]
pub struct Conflict {
    pub position: usize,
    pub kind: ConflictKind,
}

/// The error of `Tables::apply`. The call did not change the tables.
#[derive(Clone, Copy, Debug, PartialEq, Eq, Error)]
pub enum ApplyError {
    /// A change conflicts.
    #[error(transparent)]
    Conflict(Conflict),
    /// Out of memory.
    #[error("out of memory")]
    Memory,
}
