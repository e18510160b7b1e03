//! Reads numbers: varints within limits, and INTEGER values.

ghost use Rattle.std.specs.Prelude.{◌≡◌, ◌≤◌, ◌*◌, ◌++◌, length, nat_eq, IfOk, IsTrue};
ghost use Rattle.cs_model.specs.Varint.{varint};
ghost use Rattle.cs_parse.specs.Place.{factor};
ghost use Rattle.cs_parse.specs.Reading.{Reads, number_within, number_at, columns_at, length_at};
ghost use Rattle.cs_parse.specs.Reading.{integer_at};

use crate::fault::FaultKind;
use crate::stop::ParseRefusal;
use cs_model::laws::varint_spelled;
use cs_model::varint_strip;

// a number whose last byte precedes `rest`
fn limited(
    value: u64,
    rest: &[u8],
    least: u64,
    most: u64,
    kind: FaultKind,
) -> Result<(u64, &[u8]), ParseRefusal>
    ensures { Reads (λ x. (x.0, x.1.now)) result (number_within least most kind value rest.now) }
{
    if value < least || most < value {
        return Err(ParseRefusal::Bad {
            left: rest.len() + 1,
            kind,
        });
    }
    Ok((value, rest))
}

// Reads a varint from `least` to `most`. Refuses it at the first byte after which no number within
// the limits is possible. So a hostile number is never read to its end.
fn number_of(
    bytes: &[u8],
    least: u64,
    most: u64,
    kind: FaultKind,
) -> Result<(u64, &[u8]), ParseRefusal>
    requires { most ≤ 16777216 }
    ensures { Reads (λ x. (x.0, x.1.now)) result (number_at least most kind 8 0 bytes.now) }
{
    let mut high: u64 = 0;
    let mut rest = bytes;
    for read in 0..8_usize {
        let Some((&byte, after)) = rest.split_first() else {
            return Err(ParseRefusal::Short);
        };
        if byte < 128 {
            return limited(128 * high + u64::from(byte), after, least, most, kind);
        }
        high = 128 * high + u64::from(byte - 128);
        let shift: u64 = if read == 7 { 256 } else { 128 };
        if most < shift * high {
            return Err(ParseRefusal::Bad {
                left: rest.len(),
                kind,
            });
        }
        rest = after;
    }
    let Some((&byte, after)) = rest.split_first() else {
        return Err(ParseRefusal::Short);
    };
    // the ninth byte is the last, whatever its value
    limited(256 * high + u64::from(byte), after, least, most, kind)
}

/// Reads the number of columns of a table, 1 to 2,000.
#[tactic(auto, unfolding(crate::specs::Reading::columns_at))]
pub fn columns_of(bytes: &[u8]) -> Result<(usize, &[u8]), ParseRefusal>
    ensures { Reads (λ x. (x.0, x.1.now)) result (columns_at bytes.now) }
{
    let (count, rest) = number_of(bytes, 1, 2000, FaultKind::Columns)?;
    Ok((count as usize, rest))
}

/// Reads the length of a value in bytes, at most 16,777,216. The last result is whether its
/// encoding is the shortest.
#[inline(always)]
pub fn length_of(bytes: &[u8]) -> Result<(usize, &[u8], bool), ParseRefusal>
    ensures read { Reads (λ x. (x.0, x.1.now)) result (length_at bytes.now) }
    ensures canonical { IfOk result (λ x. IsTrue x.2 → bytes.now ≡ varint x.0 ++ x.1.now) }
{
    // nearly all lengths take one byte
    if let Some((&byte, rest)) = bytes.split_first() {
        if byte < 128 {
            return Ok((usize::from(byte), rest, true));
        }
    }
    long_length_of(bytes)
}

// The same for a length of more than one byte. Not inlined, so that the scan of fields stays small.
#[tactic(auto, unfolding(crate::specs::Reading::length_at))]
#[inline(never)]
fn long_length_of(bytes: &[u8]) -> Result<(usize, &[u8], bool), ParseRefusal>
    ensures read { Reads (λ x. (x.0, x.1.now)) result (length_at bytes.now) }
    ensures canonical { IfOk result (λ x. IsTrue x.2 → bytes.now ≡ varint x.0 ++ x.1.now) }
{
    let (len, rest) = number_of(bytes, 0, 16_777_216, FaultKind::ValueTooLong)?;
    varint_spelled();
    let shortest = varint_strip(bytes, len);
    Ok((len as usize, rest, shortest.is_some()))
}

/// Reads the eight bytes of an INTEGER.
#[tactic(auto, unfolding(crate::specs::Reading::integer_at))]
pub fn integer_of(bytes: &[u8]) -> Result<(i64, &[u8]), ParseRefusal>
    ensures { Reads (λ x. (x.0, x.1.now)) result (integer_at bytes.now) }
{
    if bytes.len() < 8 {
        return Err(ParseRefusal::Short);
    }
    let (front, rest) = bytes.split_at(8);
    let number = i64::from_be_bytes([
        front[0], front[1], front[2], front[3], front[4], front[5], front[6], front[7],
    ]);
    Ok((number, rest))
}
