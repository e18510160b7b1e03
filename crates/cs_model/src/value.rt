//! The values of columns, and the fields of a record, which have a value or none.

use crate::seq::Octets;

/// A value of a column, in one of SQLite's storage classes ("Datatypes In SQLite") except REAL.
/// TEXT is kept as bytes and not checked to be UTF-8. Two values are equal if their types and bytes
/// are.
#[derive(Debug, Drop, PartialEq, Eq)]
pub enum Value {
    /// A signed 64-bit number.
    Integer(i64),
    /// The bytes of a text.
    Text(Octets),
    /// The bytes of a blob.
    Blob(Octets),
    /// NULL.
    Null,
}

/// What a record says of a column, as `sqlite3changeset_old` and `sqlite3changeset_new` report it.
#[derive(Debug, Drop, PartialEq, Eq)]
pub enum Field {
    /// No value: an UPDATE does not change the column.
    Undefined,
    /// This value.
    Is(Value),
}
