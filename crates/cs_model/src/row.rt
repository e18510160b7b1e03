//! An owned row of a table, in canonical form in one buffer.

ghost use Rattle.std.specs.Prelude.{◌≡◌, ◌++◌, ◌∷◌, [], IfOk, OnOk, OnErr, ◌↔◌, IsTrue, true};
ghost use Rattle.std.specs.List.{AllByRecursion, list_all};
ghost use Rattle.std.specs.Cmp;
ghost use Rattle.std.specs.Cmp.{on_per, on_equiv};
ghost use Rattle.std.specs.Cmp.Lexicographic.{nat_list_eq_equiv};
ghost use Rattle.cs_model.specs.{
  Packed.{packed, Fits},
  Row.{row_fields, values_of},
  Rule.{is_defined},
  Schema.{same_bytes},
  Seen.{field_seen},
};

use crate::change_ref::RecordRef;
use crate::copy::CopyIn;
use crate::field::field_push;
use crate::field_ref::FieldRef;
use crate::fields::Fields;
use std::alloc::{AllocError, Global};
use std::marker::Model;

/// A row: one value per column. Contracts see the list of values.
#[derive(Debug, Drop)]
pub struct Row {
    bytes: Vec<u8>,
}

impl Model for Row {
    ghost use Rattle.cs_model.specs.Packed.{unpacked, Packs};
    ghost use Rattle.cs_model.specs.Row.{Values, row_fields, values_of};

    ghost Value = { Values };

    ghost view = { λ r. values_of (unpacked r.bytes.items) };

    ghost invariant = { λ r.
        Packs r.bytes.items (row_fields (values_of (unpacked r.bytes.items))) };
}

impl Row {
    /// A row without values, with room for `bytes` bytes.
    pub fn with_capacity(alloc: Global, bytes: usize) -> Result<Row, AllocError>
        ensures { IfOk result (λ row. row ≡ []) }
    {
        Ok(Row {
            bytes: Vec::with_capacity(alloc, bytes)?,
        })
    }

    /// Copies a record into a row, in one copy. Each of its fields has a value.
    pub fn copy_of(alloc: Global, from: &RecordRef) -> Result<Row, AllocError>
        requires { list_all is_defined from.now ≡ true }
        ensures { IfOk result (λ row. row ≡ values_of from.now) }
    {
        Ok(Row {
            bytes: Vec::from_slice(alloc, from.bytes())?,
        })
    }

    /// Appends the field's value, or nothing if it has none. An `Err` does not change the row.
    pub fn push(&mut self, field: FieldRef) -> Result<(), AllocError>
        ensures ok { OnOk result (self.new ≡ self.old ++ values_of (field_seen field.entry ∷ [])) }
        ensures err { OnErr result (self.new ≡ self.old) }
    {
        if !field.has_value() {
            return Ok(());
        }
        field_push(&mut self.bytes, field)?;
        Ok(())
    }

    /// Shrinks the buffer to the row's bytes.
    pub fn shrink_to_fit(&mut self)
        ensures { self.new ≡ self.old }
    {
        self.bytes.shrink_to_fit();
    }

    /// Returns its values, in column order.
    #[inline(always)]
    pub fn fields(&self) -> Fields<'_>
        ensures { result ≡ row_fields self.now }
    {
        Fields::of(&self.bytes)
    }

    /// Returns its canonical bytes, one value after another.
    #[inline(always)]
    pub fn bytes(&self) -> &[u8]
        ensures bytes { result.now ≡ packed (row_fields self.now) }
        ensures fit { AllByRecursion Fits (row_fields self.now) }
    {
        &self.bytes
    }
}

impl CopyIn for Row {
    fn copy_in(&self, alloc: Global) -> Result<Row, AllocError> {
        Ok(Row {
            bytes: Vec::from_slice(alloc, &self.bytes)?,
        })
    }
}

/// Two rows are equal if their bytes are. Then their values are equal, too.
impl PartialEq for Row {
    ghost eq = { λ a b. same_bytes (packed (row_fields a)) (packed (row_fields b)) };

    ghost laws = { on_per (λ row. packed (row_fields row))
        (Cmp.partial_equiv_from_equiv nat_list_eq_equiv) };

    fn eq(&self, other: &Self) -> bool {
        self.bytes == other.bytes
    }
}

impl Eq for Row {
    ghost laws = { on_equiv (λ row. packed (row_fields row)) nat_list_eq_equiv };
}

/// Whether two rows have the same values. Returns what `==` does; the contract speaks of the
/// values.
pub fn same_values(first: &Row, second: &Row) -> bool
    ensures { IsTrue result ↔ (first.now ≡ second.now) }
{
    first.bytes == second.bytes
}
