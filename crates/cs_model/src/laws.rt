//! Laws: public functions whose contracts state what holds of the definitions; a caller that needs
//! one calls it. Those without parameters do nothing.

ghost use Rattle.std.specs.Prelude.{◌≡◌, ℕ, ◌^◌, ◌<◌, ◌≤◌, List, length, ◌++◌};
ghost use Rattle.std.specs.List.{AllByRecursion};
ghost use Rattle.cs_model.specs.declared.value.Field.{Field};
ghost use Rattle.cs_model.specs.declared.change.Change.{Change};
ghost use Rattle.cs_model.specs.Bytes.{AreBytes};
ghost use Rattle.cs_model.specs.Key.{row_key_cmp};
ghost use Rattle.cs_model.specs.Packed.{Fits, packed, unpacked};
ghost use Rattle.cs_model.specs.PackedChanges.{Fit, changes_bytes, unpacked_changes};
ghost use Rattle.cs_model.specs.Changeset.{IsChange};
ghost use Rattle.cs_model.specs.declared.shape.Shape.{Shape};
ghost use Rattle.cs_model.specs.Text.{SpellsChange, SpellsEach};
ghost use Rattle.cs_model.specs.Varint.{IsVarint, varint};

use crate::row_key::RowKey;
use std::cmp::Ordering;

/// `varint_push` encodes its number.
pub fn varint_spelled()
    ensures { (n : ℕ) → n < 2 ^ 64 → IsVarint (varint n) n }
{}

/// No encoding of a number is shorter than the one that `varint_push` writes.
pub fn varint_shortest()
    ensures { (bytes : List ℕ) (n : ℕ) → AreBytes bytes → IsVarint bytes n
        → length (varint n) ≤ length bytes }
{}

/// Compares two keys as `cmp` does: by the table, then by the bytes, as unsigned.
pub fn order_of_keys(first: &RowKey, second: &RowKey) -> Ordering
    ensures { result ≡ row_key_cmp first.now second.now }
{
    first.cmp(second)
}

/// Decoding the bytes of fields that fit returns these fields.
pub fn fields_again()
    ensures { (fields : List Field) → AllByRecursion Fits fields
        → unpacked (packed fields) ≡ fields }
{}

/// Decoding bytes that begin with those of fields that fit returns these fields first.
pub fn fields_first()
    ensures { (fields : List Field) (rest : List ℕ) → AllByRecursion Fits fields
        → unpacked (packed fields ++ rest) ≡ fields ++ unpacked rest }
{}

/// Decoding the bytes of changes that fit returns these changes.
pub fn packed_again()
    ensures { (n : ℕ) (changes : List Change) → AllByRecursion (Fit n) changes
        → unpacked_changes n (changes_bytes changes) ≡ changes }
{}

/// Decoding a text returns the changes that it encodes, however it encodes their lengths.
pub fn spelled_is_said()
    ensures { (n : ℕ) (text : List ℕ) (changes : List Change) → SpellsEach SpellsChange text changes
        → AllByRecursion (Fit n) changes → unpacked_changes n text ≡ changes }
{}

/// A change that fits a table has one field per column, and canonical bytes.
pub fn changes_fit()
    ensures { (shape : Shape) (change : Change) → IsChange shape change
        → Fit (length shape.flags) change }
{}
