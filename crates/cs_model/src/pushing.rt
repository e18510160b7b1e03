//! Appends the bytes of changes to a buffer.

ghost use Rattle.std.specs.Prelude.{◌≡◌, OnOk, OnErr};
ghost use Rattle.std.specs.List.{AllByRecursion};
ghost use Rattle.cs_model.specs.Bytes.{AddsBytes};
ghost use Rattle.cs_model.specs.Packed.{Fits};
ghost use Rattle.cs_model.specs.PackedChanges.{change_bytes, change_of};
ghost use Rattle.cs_model.specs.Seen.{fields_seen};

use crate::change::Op;
use crate::field::add_fields;
use crate::field_ref::FieldRef;
use std::alloc::AllocError;

/// Appends the bytes of a change with these fields to `out`. An `Err` does not change `out`.
pub fn fields_push(
    out: &mut Vec<u8>,
    op: Op,
    indirect: bool,
    before: &[FieldRef],
    after: &[FieldRef],
) -> Result<(), AllocError>
    ensures ok { AddsBytes result out.old out.new
        (change_bytes (change_of op indirect (fields_seen before.now) (fields_seen after.now))) }
    ensures err { OnErr result (out.new.items ≡ out.old.items) }
    ensures before { OnOk result (AllByRecursion Fits (fields_seen before.now)) }
    ensures after { OnOk result (AllByRecursion Fits (fields_seen after.now)) }
{
    let start = out.len();
    out.extend_from_slice(&[op.byte(), u8::from(indirect)])?;
    let pushed = match add_fields(out, before) {
        Ok(()) => add_fields(out, after),
        Err(error) => Err(error),
    };
    if pushed.is_err() {
        out.truncate(start);
    }
    pushed
}
