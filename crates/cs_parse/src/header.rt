//! Reads table headers: the number of columns, the key flags and the name.

ghost use Rattle.std.specs.Prelude.{◌≡◌, ◌==◌, ◌<◌, length, nat_lt, position, IfSome};
ghost use Rattle.std.specs.List.{list_any};
ghost use Rattle.cs_parse.specs.Reading.{Reads, flags_at, letters_at, name_at, before_name_at};
ghost use Rattle.cs_parse.specs.Reading.{header_at};

use crate::fault::FaultKind;
use crate::number::columns_of;
use crate::stop::ParseRefusal;
use cs_model::ShapeRef;
use memchr::memchr;

fn any_nonzero(bytes: &[u8]) -> bool
    ensures { result ≡ list_any (λ byte. nat_lt 0 byte) bytes.now }
{
    bytes.iter().any(|byte| 0 < *byte)
}

// the key flags of a table with `count` columns
#[tactic(auto, unfolding(crate::specs::Reading::flags_at))]
fn flags_of(count: usize, bytes: &[u8]) -> Result<(&[u8], &[u8]), ParseRefusal>
    ensures { Reads (λ x. (x.0.now, x.1.now)) result (flags_at count bytes.now) }
{
    if bytes.len() < count {
        return Err(ParseRefusal::Short);
    }
    let (flags, rest) = bytes.split_at(count);
    if !any_nonzero(flags) {
        return Err(ParseRefusal::Bad {
            left: rest.len() + 1,
            kind: FaultKind::NoKey,
        });
    }
    Ok((flags, rest))
}

/// The index of the first zero byte.
pub fn first_zero(bytes: &[u8]) -> Option<usize>
    ensures place { result ≡ position (λ byte. byte == 0) bytes.now }
    ensures bound { IfSome result (λ end. end < length bytes.now) }
{
    memchr(0, bytes)
}

// The bytes before the first zero byte, and those after it. Scans at most 1,025 bytes, the longest
// name and its zero byte.
fn letters_of(bytes: &[u8]) -> Result<(&[u8], &[u8]), ParseRefusal>
    ensures { Reads (λ x. (x.0.now, x.1.now)) result (letters_at 1024 bytes.now) }
{
    let window = &bytes[..bytes.len().min(1025)];
    match first_zero(window) {
        Some(end) => Ok((&bytes[..end], &bytes[end + 1..])),
        None if bytes.len() > 1024 => Err(ParseRefusal::Bad {
            left: bytes.len() - 1024,
            kind: FaultKind::NameTooLong,
        }),
        None => Err(ParseRefusal::Short),
    }
}

// a table's name, and the bytes after its zero byte
#[tactic(auto, unfolding(crate::specs::Reading::name_at))]
fn name_of(bytes: &[u8]) -> Result<(&[u8], &[u8]), ParseRefusal>
    ensures { Reads (λ x. (x.0.now, x.1.now)) result (name_at bytes.now) }
{
    let (name, rest) = letters_of(bytes)?;
    if name.is_empty() {
        return Err(ParseRefusal::Bad {
            left: rest.len() + 1,
            kind: FaultKind::EmptyName,
        });
    }
    Ok((name, rest))
}

/// Reads a header from after its `T` up to its name. Returns the key flags, and the bytes from the
/// name on.
#[tactic(auto, unfolding(crate::specs::Reading::before_name_at))]
pub fn before_name(bytes: &[u8]) -> Result<(&[u8], &[u8]), ParseRefusal>
    ensures { Reads (λ x. (x.0.now, x.1.now)) result (before_name_at bytes.now) }
{
    let (count, rest) = columns_of(bytes)?;
    let (flags, rest) = flags_of(count, rest)?;
    Ok((flags, rest))
}

/// Reads a header after its `T`, in place.
#[tactic(auto, unfolding(crate::specs::Reading::header_at, crate::specs::Reading::before_name_at))]
pub fn header_of(bytes: &[u8]) -> Result<(ShapeRef, &[u8]), ParseRefusal>
    ensures { Reads (λ x. (x.0, x.1.now)) result (header_at bytes.now) }
{
    let (flags, rest) = before_name(bytes)?;
    let (name, rest) = name_of(rest)?;
    Ok((ShapeRef { name, flags }, rest))
}
