//! Encodes changes in canonical form. A text may encode a length with leading zeros, and an
//! indirect change with any nonzero byte.

ghost use Rattle.std.specs.Prelude.{◌≡◌, IfOk, IsTrue, OnErr, length, take};
ghost use Rattle.cs_model.specs.Bytes.{AddsBytes};
ghost use Rattle.cs_model.specs.Packed.{packed};
ghost use Rattle.cs_model.specs.PackedChanges.{change_bytes, changes_bytes, some_in, records_by};
ghost use Rattle.cs_model.specs.PackedChanges.{AreCanonical, unpacked_changes};

use crate::change::Op;
use crate::change_ref::op_of;
use crate::field::field_push;
use crate::fields::typed_of;
use std::alloc::AllocError;

/// Appends the changes that `bytes` encodes to `out` in canonical form: in one copy if they are
/// `canonical` there. An `Err` does not change `out`.
pub fn text_push(
    out: &mut Vec<u8>,
    columns: usize,
    bytes: &[u8],
    canonical: bool,
) -> Result<(), AllocError>
    requires { IsTrue canonical → AreCanonical columns bytes.now }
    ensures ok { AddsBytes result out.old out.new
        (changes_bytes (unpacked_changes columns bytes.now)) }
    ensures err { OnErr result (out.new.items ≡ out.old.items) }
{
    if canonical {
        return out.extend_from_slice(bytes);
    }
    let start = out.len();
    let added = add_said(out, columns, bytes);
    if added.is_err() {
        out.truncate(start);
    }
    added
}

// The same; an `Err` may have appended some.
fn add_said(out: &mut Vec<u8>, columns: usize, bytes: &[u8]) -> Result<(), AllocError>
    ensures ok { AddsBytes result out.old out.new
        (changes_bytes (unpacked_changes columns bytes.now)) }
    ensures adds { take (length out.old.items) out.new.items ≡ out.old.items }
{
    out.reserve(bytes.len())?;
    let mut rest = bytes;
    // each turn takes at least two bytes
    for _ in 0..bytes.len() {
        let Some((&op, behind)) = rest.split_first() else {
            break;
        };
        let Some((&mark, fields)) = behind.split_first() else {
            break;
        };
        rest = add_change(out, columns, op_of(op), mark != 0, fields)?;
    }
    Ok(())
}

// Appends the change with this operation and these records in canonical form. Returns the bytes
// after it.
fn add_change<'a>(
    out: &mut Vec<u8>,
    columns: usize,
    op: Op,
    indirect: bool,
    bytes: &'a [u8],
) -> Result<&'a [u8], AllocError>
    ensures ok { AddsBytes result out.old out.new
        (change_bytes (records_by columns op indirect bytes.now).0) }
    ensures rest { IfOk result (λ rest. rest.now ≡ (records_by columns op indirect bytes.now).1) }
    ensures adds { take (length out.old.items) out.new.items ≡ out.old.items }
{
    out.push(op.byte())?;
    out.push(u8::from(indirect))?;
    let rest = add_fields(out, columns, bytes)?;
    match op {
        Op::Insert | Op::Delete => Ok(rest),
        Op::Update => add_fields(out, columns, rest),
    }
}

// Appends up to `columns` fields in canonical form, fewer if there are fewer. Returns the bytes
// after them.
fn add_fields<'a>(
    out: &mut Vec<u8>,
    columns: usize,
    bytes: &'a [u8],
) -> Result<&'a [u8], AllocError>
    ensures ok { AddsBytes result out.old out.new (packed (some_in columns bytes.now).0) }
    ensures rest { IfOk result (λ rest. rest.now ≡ (some_in columns bytes.now).1) }
    ensures adds { take (length out.old.items) out.new.items ≡ out.old.items }
{
    let mut rest = bytes;
    for _ in 0..columns {
        let Some((&kind, behind)) = rest.split_first() else {
            break;
        };
        let (field, after) = typed_of(kind, behind);
        field_push(out, field)?;
        rest = after;
    }
    Ok(rest)
}
