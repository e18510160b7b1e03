//! Borrowed fields, to read a record without copying its texts and blobs.

ghost use Rattle.std.specs.Prelude.{◌≡◌};
ghost use Rattle.cs_model.specs.Rule.{is_defined};
ghost use Rattle.cs_model.specs.Seen.{field_seen};

use crate::value::{Field, Value};

/// A field of a record, borrowed.
#[derive(Clone, Copy, Debug, PartialEq, Eq)]
pub enum FieldRef<'a> {
    /// No value.
    Undefined,
    /// An INTEGER.
    Integer(i64),
    /// A TEXT's bytes.
    Text(&'a [u8]),
    /// A BLOB's bytes.
    Blob(&'a [u8]),
    /// NULL.
    Null,
}

impl FieldRef<'_> {
    /// Whether there is a value, NULL or not.
    pub fn has_value(self) -> bool
        ensures { result ≡ is_defined (field_seen self.entry) }
    {
        !matches!(self, FieldRef::Undefined)
    }
}

impl Field {
    /// Borrows the field.
    pub fn as_ref(&self) -> FieldRef<'_>
        ensures { field_seen result ≡ self.now }
    {
        match self {
            Field::Undefined => FieldRef::Undefined,
            Field::Is(Value::Integer(number)) => FieldRef::Integer(*number),
            Field::Is(Value::Text(bytes)) => FieldRef::Text(bytes),
            Field::Is(Value::Blob(bytes)) => FieldRef::Blob(bytes),
            Field::Is(Value::Null) => FieldRef::Null,
        }
    }
}
