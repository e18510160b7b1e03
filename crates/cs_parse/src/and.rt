//! A conjunction for loops: each reader reports whether the bytes that it read are in canonical
//! form.

ghost use Rattle.std.specs.Prelude.{◌≡◌, ◌&&◌, IsTrue};

/// Returns `first && second`. A call has one path where `&&` has two, so a loop may call it in each
/// turn.
#[inline(always)]
pub fn both(first: bool, second: bool) -> bool
    ensures value { result ≡ (first && second) }
    ensures first { IsTrue result → IsTrue first }
    ensures second { IsTrue result → IsTrue second }
{
    first && second
}
