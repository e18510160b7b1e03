//! Lower bounds on the number of bytes missing from an incomplete field.

ghost use Rattle.std.specs.Prelude.{◌≡◌, ◌+◌, ◌<◌, length, IfSome};
ghost use Rattle.cs_parse.specs.Lack.{LacksValue, LacksIn};

use crate::number::length_of;

// the number of bytes missing from `len`, if any are
fn missing(len: usize, bytes: &[u8]) -> Option<usize>
    ensures { IfSome result (λ least. (0 < least) × (least + length bytes.now ≡ len)) }
{
    if bytes.len() < len {
        Some(len - bytes.len())
    } else {
        None
    }
}

// The number of bytes missing from a value after its type byte, if any are and its length is known.
fn value_lacks(byte: u8, bytes: &[u8]) -> Option<usize>
    ensures { IfSome result (λ least. (0 < least) × LacksValue byte bytes.now least) }
{
    match byte {
        1 => missing(8, bytes),
        3 | 4 => {
            let Ok((len, value, _)) = length_of(bytes) else {
                return None;
            };
            missing(len, value)
        }
        _ => None,
    }
}

/// Returns a lower bound on the bytes missing from an incomplete field that begins with `bytes`,
/// which may be empty. The bound is 1 if the field's length isn't known.
pub fn field_lacks(bytes: &[u8]) -> usize
    ensures some { 0 < result }
    ensures lacks { LacksIn bytes.now result }
{
    let Some((&byte, rest)) = bytes.split_first() else {
        return 1;
    };
    match value_lacks(byte, rest) {
        Some(least) => least,
        None => 1,
    }
}
