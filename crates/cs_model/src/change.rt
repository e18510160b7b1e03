//! A change of one row, and its operation, as values of their own.

ghost use Rattle.std.specs.Prelude.{◌≡◌};
ghost use Rattle.cs_model.specs.Text.{op_byte};

use crate::seq::Seq;
use crate::value::Field;

/// What a change does to its row: the operation that `sqlite3changeset_op` reports.
#[derive(Clone, Copy, Debug, PartialEq, Eq)]
pub enum Op {
    Insert,
    Update,
    Delete,
}

impl Op {
    /// The first byte of a change with this operation: `SQLITE_INSERT`, `SQLITE_UPDATE` or
    /// `SQLITE_DELETE`.
    pub fn byte(self) -> u8
        ensures { result ≡ op_byte self }
    {
        match self {
            Op::Insert => 18,
            Op::Update => 23,
            Op::Delete => 9,
        }
    }
}

/// A change of one row, as `sqlite3changeset_next` iterates over them.
#[derive(Debug, Drop, PartialEq, Eq)]
pub struct Change {
    /// The operation.
    pub op: Op,
    /// Whether a trigger or a foreign key action made the change, and not the application itself
    /// (`sqlite3session_indirect`).
    pub indirect: bool,
    /// The old record: one field per column in an UPDATE or a DELETE, empty in an INSERT.
    pub before: Seq<Field>,
    /// The new record: one field per column in an INSERT or an UPDATE, empty in a DELETE.
    pub after: Seq<Field>,
}
