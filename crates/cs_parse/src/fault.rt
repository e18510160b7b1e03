//! The errors of parsing: each fault that a text can have, and its place. The comments of SQLite's
//! `sqlite3session.c` describe the changeset format. This project defines which byte has the fault
//! (docs/proof/DEFINITIONS.md, Faults).

ghost use Rattle.std.specs.Prelude.{◌≡◌};
ghost use Rattle.cs_parse.specs.FaultNumber.{kind_number};
ghost use Rattle.cs_parse.specs.declared.fault.ParseError.TheVariants as error;

use std::alloc::AllocError;
use thiserror::Error;

/// What is wrong at the place of a fault.
#[derive(Clone, Copy, Debug, PartialEq, Eq, Error)]
pub enum FaultKind {
    /// The first byte doesn't begin a changeset.
    #[error("the first byte begins no changeset")]
    BadMarker,
    /// A patchset begins here. Patchsets aren't supported.
    #[error("a patchset begins here, which isn't read")]
    Patchset,
    /// A table has no columns, or more than 2,000.
    #[error("a table has no column, or more than 2,000")]
    Columns,
    /// A table has no key column.
    #[error("no column of a table is in its key")]
    NoKey,
    /// A table's name is empty.
    #[error("a table's name is empty")]
    EmptyName,
    /// A table's name is longer than 1,024 bytes.
    #[error("a table's name is longer than 1,024 bytes")]
    NameTooLong,
    /// Neither a change nor a header begins here.
    #[error("neither a change nor a header begins here")]
    BadOperation,
    /// The type byte of a field is unknown.
    #[error("no field has this type")]
    BadType,
    /// A REAL value. REAL values aren't supported.
    #[error("a REAL value, which isn't read")]
    Real,
    /// A field of an INSERT or a DELETE is undefined.
    #[error("a field of an INSERT or a DELETE has no value")]
    UndefinedField,
    /// A key column is undefined or NULL.
    #[error("a key column has no value, or is NULL")]
    KeyMissing,
    /// An UPDATE gives a key column a new value.
    #[error("an UPDATE gives a key column a new value")]
    KeyChanged,
    /// An UPDATE defines a column in only one of its records.
    #[error("a column of an UPDATE has a value in one of its records only")]
    OneSided,
    /// A value is longer than 16,777,216 bytes.
    #[error("a value is longer than 16,777,216 bytes")]
    ValueTooLong,
    /// The text is longer than 16,777,216 bytes.
    #[error("the text is longer than 16,777,216 bytes")]
    TooLong,
    /// The text ends inside a header or a change.
    #[error("the text ends inside a header or a change")]
    Truncated,
}

impl FaultKind {
    /// The number of the kind, 1 to 16, for C (include/changeset.h).
    pub fn number(self) -> u32
        ensures { result ≡ kind_number self }
    {
        match self {
            FaultKind::BadMarker => 1,
            FaultKind::Patchset => 2,
            FaultKind::Columns => 3,
            FaultKind::NoKey => 4,
            FaultKind::EmptyName => 5,
            FaultKind::NameTooLong => 6,
            FaultKind::BadOperation => 7,
            FaultKind::BadType => 8,
            FaultKind::Real => 9,
            FaultKind::UndefinedField => 10,
            FaultKind::KeyMissing => 11,
            FaultKind::KeyChanged => 12,
            FaultKind::OneSided => 13,
            FaultKind::ValueTooLong => 14,
            FaultKind::TooLong => 15,
            FaultKind::Truncated => 16,
        }
    }
}

/// The first fault of a text. `at` is the byte offset from the beginning of the text, `kind` is
/// what is wrong there.
#[derive(Clone, Copy, Debug, PartialEq, Eq, Error)]
#[error("{kind}, at byte {at}")]
pub struct ParseFault {
    pub at: usize,
    pub kind: FaultKind,
}

/// The error of `parse` and of `PieceParser::feed`. `parse` takes the text by reference and changes
/// nothing. `feed` changes nothing if it returns `Memory`.
#[derive(Clone, Copy, Debug, PartialEq, Eq, Error)]
pub enum ParseError {
    /// The text encodes no changeset.
    #[error(transparent)]
    Fault(ParseFault),
    /// Out of memory.
    #[error("out of memory")]
    Memory,
}

impl From<ParseFault> for ParseError {
    ghost from_gives = { λ fault e. e ≡ error.Fault fault };

    fn from(fault: ParseFault) -> ParseError {
        ParseError::Fault(fault)
    }
}

impl From<AllocError> for ParseError {
    ghost from_gives = { λ _ e. e ≡ error.Memory };

    fn from(_e: AllocError) -> ParseError {
        ParseError::Memory
    }
}
