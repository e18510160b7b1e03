//! The results of the exports, as numbers for C.

ghost use Rattle.std.specs.Prelude.{◌≡◌, ◌≤◌, ◌^◌, IfOk, OnErr, pos};

use std::alloc::AllocError;

/// A text spells no changeset.
pub const NONE: i64 = -1;
/// Memory ran out.
pub const NO_MEMORY: i64 = -2;
/// A section's table has the name of an earlier one's, and another shape.
pub const CLASH: i64 = -3;

/// A text's length. No memory holds a text whose length is above the greatest `i64`.
pub fn length_told(len: usize) -> Result<i64, AllocError>
    ensures told { IfOk result (λ n. n ≡ pos len) }
    ensures too_long { OnErr result (2 ^ 63 ≤ len) }
{
    i64::try_from(len).map_err(|_| AllocError)
}
