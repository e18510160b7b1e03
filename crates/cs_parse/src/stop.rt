//! Why a reader stops: the bytes are too few, or one of them is wrong.

use crate::fault::FaultKind;

/// Why the bytes don't begin with what a reader expects.
#[derive(Clone, Copy, Debug, PartialEq, Eq)]
pub enum ParseRefusal {
    /// The bytes end before the item is complete.
    Short,
    /// A byte is wrong. `left` is the number of bytes from it to the end. So no reader needs the
    /// offset of its bytes in the text.
    Bad { left: usize, kind: FaultKind },
}
