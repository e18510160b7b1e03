//! Encodes fields in canonical form, and reads a field in any encoding.

ghost use Rattle.std.specs.List.{AllByRecursion};
ghost use Rattle.std.specs.Option.{option_map};
ghost use Rattle.std.specs.Prelude.{◌≡◌, ◌≤◌, ◌++◌, ◌∷◌, ℕ, List, Some, IfSome, OnOk, OnErr};
ghost use Rattle.std.specs.Prelude.{length, take};
ghost use Rattle.cs_model.specs.Bytes.{AddsBytes};
ghost use Rattle.cs_model.specs.Changeset.{most_bytes, IsField};
ghost use Rattle.cs_model.specs.FieldBytes.{field_bytes};
ghost use Rattle.cs_model.specs.Packed.{packed, Fits, IsLength};
ghost use Rattle.cs_model.specs.Seen.{field_seen, fields_seen};
ghost use Rattle.cs_model.specs.Text.{SpellsBytes, SpellsField};
ghost use Rattle.cs_model.specs.Varint.{varint};
ghost use Rattle.cs_model.specs.declared.value.Field.{Field};

use crate::field_ref::FieldRef;
use crate::varint::{varint_push, varint_read};
use std::alloc::AllocError;

// the maximum length of a TEXT or a BLOB
const MOST_BYTES: u64 = 16_777_216;

/// Appends a field to `out` in canonical form: its type byte, then an INTEGER's eight bytes, or the
/// shortest length and the bytes. An `Err` does not change `out`.
pub fn field_push(out: &mut Vec<u8>, field: FieldRef) -> Result<(), AllocError>
    ensures ok { AddsBytes result out.old out.new (field_bytes (field_seen field.entry)) }
    ensures err { OnErr result (out.new.items ≡ out.old.items) }
    ensures fits { Fits (field_seen field.entry) }
{
    let start = out.len();
    let pushed = add_field(out, field);
    if pushed.is_err() {
        out.truncate(start);
    }
    pushed
}

// The same; an `Err` may have appended some.
fn add_field(out: &mut Vec<u8>, field: FieldRef) -> Result<(), AllocError>
    ensures ok { AddsBytes result out.old out.new (field_bytes (field_seen field.entry)) }
    ensures adds { take (length out.old.items) out.new.items ≡ out.old.items }
    ensures fits { Fits (field_seen field.entry) }
{
    match field {
        FieldRef::Undefined => out.push(0)?,
        FieldRef::Integer(number) => {
            out.push(1)?;
            out.extend_from_slice(&number.to_be_bytes())?;
        }
        FieldRef::Text(bytes) => {
            has_length(bytes);
            add_counted(out, 3, bytes)?;
        }
        FieldRef::Blob(bytes) => {
            has_length(bytes);
            add_counted(out, 4, bytes)?;
        }
        FieldRef::Null => out.push(5)?,
    }
    Ok(())
}

/// Appends fields in canonical form, one after another. An `Err` may have appended some.
pub(crate) fn add_fields(out: &mut Vec<u8>, fields: &[FieldRef]) -> Result<(), AllocError>
    ensures ok { AddsBytes result out.old out.new (packed (fields_seen fields.now)) }
    ensures adds { take (length out.old.items) out.new.items ≡ out.old.items }
    ensures fits { OnOk result (AllByRecursion Fits (fields_seen fields.now)) }
{
    for field in fields {
        field_push(out, *field)?;
    }
    Ok(())
}

// Appends a type byte, a length and the bytes. An `Err` may have appended some.
fn add_counted(out: &mut Vec<u8>, kind: u8, bytes: &[u8]) -> Result<(), AllocError>
    ensures ok { AddsBytes result out.old out.new
        (kind ∷ (varint (length bytes.now) ++ bytes.now)) }
    ensures adds { take (length out.old.items) out.new.items ≡ out.old.items }
{
    out.push(kind)?;
    varint_push(out, bytes.len() as u64)?;
    out.extend_from_slice(bytes)
}

// no slice is too long for a varint
#[tactic(auto, unfolding(crate::specs::Packed::IsLength))]
fn has_length(bytes: &[u8])
    ensures { IsLength (length bytes.now) }
{
    let _len = bytes.len();
}

/// Reads the field that `bytes` begins with. Returns it and its length in bytes. Accepts encodings
/// of a length that are longer than the shortest. Returns `None` if no field begins the bytes: they
/// end inside one, the first byte is no field's type, or a TEXT or BLOB has more than 16,777,216
/// bytes. A REAL is no field.
pub fn field_read(bytes: &[u8]) -> Option<(FieldRef, usize)>
    ensures found { IfSome result (λ found. (found.1 ≤ length bytes.now)
        × SpellsField (take found.1 bytes.now) (field_seen found.0)) }
    ensures valid { IfSome result (λ found. IsField (field_seen found.0)) }
    ensures only { (field : Field) (len : ℕ) → IsField field → len ≤ length bytes.now
        → SpellsField (take len bytes.now) field
        → option_map {U = Field × ℕ} (λ found. (field_seen found.0, found.1)) result
        ≡ Some (field, len) }
{
    let (&kind, rest) = bytes.split_first()?;
    match kind {
        0 => Some((FieldRef::Undefined, 1)),
        1 => {
            let number = rest.first_chunk::<8>()?;
            Some((FieldRef::Integer(i64::from_be_bytes(*number)), 9))
        }
        3 => {
            let (text, len) = counted_read(rest)?;
            Some((FieldRef::Text(text), 1 + len))
        }
        4 => {
            let (blob, len) = counted_read(rest)?;
            Some((FieldRef::Blob(blob), 1 + len))
        }
        5 => Some((FieldRef::Null, 1)),
        _ => None,
    }
}

// reads a length and that number of bytes; returns these bytes, and how many were read in all
fn counted_read(bytes: &[u8]) -> Option<(&[u8], usize)>
    ensures found { IfSome result (λ found. (found.1 ≤ length bytes.now)
        × SpellsBytes (take found.1 bytes.now) found.0.now) }
    ensures within { IfSome result (λ found. length found.0.now ≤ most_bytes) }
    ensures only { (text : List ℕ) (len : ℕ) → length text ≤ most_bytes → len ≤ length bytes.now
        → SpellsBytes (take len bytes.now) text
        → option_map {U = List ℕ × ℕ} (λ found. (found.0.now, found.1)) result ≡ Some (text, len) }
{
    let (count, read) = varint_read(bytes)?;
    if count > MOST_BYTES {
        return None;
    }
    let rest = &bytes[read..];
    if (rest.len() as u64) < count {
        return None;
    }
    Some((&rest[..count as usize], read + count as usize))
}
