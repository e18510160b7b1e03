//! Reads fields. The functions are inlined, because a call costs more than most fields and each
//! column of each change has one.

ghost use Rattle.std.specs.Prelude.{◌≡◌, ◌++◌, length, IfOk, IsTrue};
ghost use Rattle.cs_model.specs.FieldBytes.{field_bytes};
ghost use Rattle.cs_model.specs.Seen.{field_seen};
ghost use Rattle.cs_parse.specs.Canonical.{counted_bytes, HasShortest};
ghost use Rattle.cs_parse.specs.FieldRules.{rule_of};
ghost use Rattle.cs_parse.specs.Reading.{Reads, counted_at, typed_at, field_at};

use crate::and::both;
use crate::number::{integer_of, length_of};
use crate::rule::{FieldRule, type_fault};
use crate::stop::ParseRefusal;
use cs_model::FieldRef;

// Reads a length and that number of bytes. The last result is whether these and the bytes before
// them are canonical.
#[tactic(auto, unfolding(crate::specs::Reading::counted_at))]
#[inline(always)]
fn counted_of<'a>(
    bytes: &'a [u8],
    canonical: bool,
) -> Result<(&'a [u8], &'a [u8], bool), ParseRefusal>
    ensures read { Reads (λ x. (x.0.now, x.1.now)) result (counted_at bytes.now) }
    ensures canonical { IfOk result (λ x. IsTrue x.2
        → IsTrue canonical × (bytes.now ≡ counted_bytes x.0.now ++ x.1.now)) }
{
    let (len, rest, shortest) = length_of(bytes)?;
    if rest.len() < len {
        return Err(ParseRefusal::Short);
    }
    let (value, after) = rest.split_at(len);
    Ok((value, after, both(canonical, shortest)))
}

// Reads a field after its type byte, which is a valid one. Only a field with a length has more than
// one encoding.
#[tactic(auto, unfolding(crate::specs::Reading::typed_at))]
#[inline(always)]
fn typed_of<'a>(
    byte: u8,
    rest: &'a [u8],
    canonical: bool,
) -> Result<(FieldRef<'a>, &'a [u8], bool), ParseRefusal>
    ensures read { Reads (λ x. (field_seen x.0, x.1.now)) result (typed_at byte rest.now) }
    ensures canonical { IfOk result (λ x. IsTrue x.2
        → IsTrue canonical × HasShortest (field_seen x.0) rest.now x.1.now) }
{
    match byte {
        0 => Ok((FieldRef::Undefined, rest, canonical)),
        1 => {
            let (number, rest) = integer_of(rest)?;
            Ok((FieldRef::Integer(number), rest, canonical))
        }
        3 => {
            let (bytes, rest, canonical) = counted_of(rest, canonical)?;
            Ok((FieldRef::Text(bytes), rest, canonical))
        }
        4 => {
            let (bytes, rest, canonical) = counted_of(rest, canonical)?;
            Ok((FieldRef::Blob(bytes), rest, canonical))
        }
        _ => Ok((FieldRef::Null, rest, canonical)),
    }
}

/// Reads a field under `rule`, in place. The last result is whether its bytes and those before it
/// are canonical.
#[tactic(auto, unfolding(crate::specs::Reading::field_at))]
#[inline(always)]
pub fn field_in<'a>(
    rule: FieldRule,
    bytes: &'a [u8],
    canonical: bool,
) -> Result<(FieldRef<'a>, &'a [u8], bool), ParseRefusal>
    ensures read { Reads (λ x. (field_seen x.0, x.1.now)) result
        (field_at (rule_of rule) bytes.now) }
    ensures canonical { IfOk result (λ x. IsTrue x.2
        → IsTrue canonical × (bytes.now ≡ field_bytes (field_seen x.0) ++ x.1.now)) }
{
    let Some((&byte, rest)) = bytes.split_first() else {
        return Err(ParseRefusal::Short);
    };
    if let Some(kind) = type_fault(rule, byte) {
        return Err(ParseRefusal::Bad {
            left: bytes.len(),
            kind,
        });
    }
    typed_of(byte, rest, canonical)
}
