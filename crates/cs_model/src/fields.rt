//! An iterator over the fields that bytes encode. Its functions are inlined, because a call costs
//! more than most fields and each column of each change has one.

ghost use Rattle.std.specs.Prelude.{◌≡◌, ◌∷◌, [], take, drop, MatchOption};
ghost use Rattle.cs_model.specs.Packed.{counted_in, typed_in, unpacked};
ghost use Rattle.cs_model.specs.Seen.{field_seen};

use crate::field_ref::FieldRef;
use crate::varint::varint_first;
use std::iter::Iterator;
use std::marker::Model;

/// An iterator over a record's fields. Contracts see the list of remaining fields; any bytes decode
/// to some list.
#[derive(Drop)]
pub struct Fields<'a> {
    rest: &'a [u8],
}

impl<'a> Model for Fields<'a> {
    ghost use Rattle.std.specs.Prelude.{List};
    ghost use Rattle.cs_model.specs.declared.value.Field.{Field};
    ghost use Rattle.cs_model.specs.Packed.{unpacked};

    ghost Value = { List Field };

    ghost view = { λ f. unpacked f.rest.now };
}

impl<'a> Fields<'a> {
    /// The fields from the first byte on.
    #[inline(always)]
    pub fn of(bytes: &'a [u8]) -> Fields<'a>
        ensures { result ≡ unpacked bytes.now }
    {
        Fields { rest: bytes }
    }
}

impl<'a> Iterator for Fields<'a> {
    ghost use Rattle.std.specs.Iterator.{YieldsFirstBy, item_count};
    ghost use Rattle.cs_model.specs.Seen.{field_seen};

    type Item = FieldRef<'a>;

    ghost next_gives = { YieldsFirstBy field_seen (λ s. s) };

    ghost remaining = { item_count (λ s. s) };

    #[inline(always)]
    fn next(&mut self) -> Option<FieldRef<'a>> {
        let (field, after) = first_of(self.rest)?;
        self.rest = after;
        Some(field)
    }
}

// a length's number of bytes, and the bytes after them
#[inline(always)]
fn counted_of(bytes: &[u8]) -> (&[u8], &[u8])
    ensures bytes { result.0.now ≡ (counted_in bytes.now).0 }
    ensures rest { result.1.now ≡ (counted_in bytes.now).1 }
{
    // nearly all lengths take one byte
    if let Some((&len, behind)) = bytes.split_first() {
        if len < 128 {
            return so_many(u64::from(len), behind);
        }
    }
    long_counted_of(bytes)
}

// the same for a length of more than one byte
fn long_counted_of(bytes: &[u8]) -> (&[u8], &[u8])
    ensures bytes { result.0.now ≡ (counted_in bytes.now).0 }
    ensures rest { result.1.now ≡ (counted_in bytes.now).1 }
{
    // most of them take two, up to 16,383
    if let [high, low, behind @ ..] = bytes {
        if *high >= 128 && *low < 128 {
            return so_many(128 * u64::from(*high - 128) + u64::from(*low), behind);
        }
    }
    any_counted_of(bytes)
}

// the same for a length of any number of bytes
#[tactic(auto, unfolding(crate::specs::Packed::counted_in))]
fn any_counted_of(bytes: &[u8]) -> (&[u8], &[u8])
    ensures bytes { result.0.now ≡ (counted_in bytes.now).0 }
    ensures rest { result.1.now ≡ (counted_in bytes.now).1 }
{
    let Some((len, read)) = varint_first(bytes) else {
        return (bytes, &[]);
    };
    so_many(len, &bytes[read..])
}

// the first `len` bytes, or all if there are fewer, and the bytes after them
#[inline(always)]
fn so_many(len: u64, bytes: &[u8]) -> (&[u8], &[u8])
    ensures front { result.0.now ≡ take len bytes.now }
    ensures rest { result.1.now ≡ drop len bytes.now }
{
    if (bytes.len() as u64) < len {
        return (bytes, &[]);
    }
    bytes.split_at(len as usize)
}

// an eight-byte number, or NULL if there are fewer bytes, and the bytes after it
#[tactic(auto, unfolding(crate::specs::Packed::typed_in))]
#[inline(always)]
fn integer_of(rest: &[u8]) -> (FieldRef, &[u8])
    ensures field { field_seen result.0 ≡ (typed_in 1 rest.now).0 }
    ensures rest { result.1.now ≡ (typed_in 1 rest.now).1 }
{
    if rest.len() < 8 {
        return (FieldRef::Null, rest);
    }
    let (front, after) = rest.split_at(8);
    let number = i64::from_be_bytes([
        front[0], front[1], front[2], front[3], front[4], front[5], front[6], front[7],
    ]);
    (FieldRef::Integer(number), after)
}

/// The field after its type byte, and the bytes after it.
#[tactic(auto, unfolding(crate::specs::Packed::typed_in))]
#[inline(always)]
pub fn typed_of(byte: u8, rest: &[u8]) -> (FieldRef, &[u8])
    ensures field { field_seen result.0 ≡ (typed_in byte rest.now).0 }
    ensures rest { result.1.now ≡ (typed_in byte rest.now).1 }
{
    match byte {
        0 => (FieldRef::Undefined, rest),
        1 => integer_of(rest),
        3 => {
            let (bytes, after) = counted_of(rest);
            (FieldRef::Text(bytes), after)
        }
        4 => {
            let (bytes, after) = counted_of(rest);
            (FieldRef::Blob(bytes), after)
        }
        _ => (FieldRef::Null, rest),
    }
}

// the first field that `bytes` encodes, and the bytes after it
#[inline(always)]
fn first_of(bytes: &[u8]) -> Option<(FieldRef, &[u8])>
    ensures { MatchOption result (unpacked bytes.now ≡ [])
        (λ x. unpacked bytes.now ≡ field_seen x.0 ∷ unpacked x.1.now) }
{
    let Some((&byte, rest)) = bytes.split_first() else {
        return None;
    };
    Some(typed_of(byte, rest))
}
