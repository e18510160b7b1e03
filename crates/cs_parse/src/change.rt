//! Reads the changes of a section: counts or checks them, up to the next header or the end.

ghost use Rattle.std.specs.Prelude.{◌≡◌, ◌==◌, ◌∷◌, ◌++◌, length, if◌then◌else◌, IfOk};
ghost use Rattle.std.specs.Prelude.{IsTrue};
ghost use Rattle.cs_model.specs.Text.{op_byte};
ghost use Rattle.cs_model.specs.PackedChanges.{change_bytes, changes_bytes};
ghost use Rattle.cs_parse.specs.declared.fault.FaultKind.TheVariants.{Patchset, BadOperation};
ghost use Rattle.cs_parse.specs.declared.stop.ParseRefusal.TheVariants.{Bad};
ghost use Rattle.cs_parse.specs.Canonical.{IsCanonical};
ghost use Rattle.cs_parse.specs.Count.{bytes_after, counted};
ghost use Rattle.cs_parse.specs.Front.{changes_front};
ghost use Rattle.cs_parse.specs.Reading.{Reads, op_of, marked_at, change_at, ends_section};
ghost use Rattle.cs_parse.specs.Reading.{changes_at};

use crate::and::both;
use crate::fault::FaultKind;
use crate::record::skip_records;
use crate::stop::ParseRefusal;
use cs_model::Op;

// the operation that a byte encodes
fn op_by_byte(byte: u8) -> Option<Op>
    ensures { result ≡ op_of byte }
{
    match byte {
        0x12 => Some(Op::Insert),
        0x17 => Some(Op::Update),
        0x09 => Some(Op::Delete),
        _ => None,
    }
}

// Returns the bytes after a change whose operation byte was read, and whether the change is in
// canonical form.
#[tactic(auto, unfolding(crate::specs::Reading::marked_at))]
#[inline(always)]
fn skip_marked<'a>(flags: &[u8], op: Op, bytes: &'a [u8]) -> Result<(&'a [u8], bool), ParseRefusal>
    ensures read { Reads (λ x. x.0.now) result (bytes_after (marked_at flags.now op bytes.now)) }
    ensures canonical { IfOk result (λ x. IsTrue x.1
        → IsCanonical change_bytes (op_byte op ∷ bytes.now) (marked_at flags.now op bytes.now)) }
{
    let Some((&mark, rest)) = bytes.split_first() else {
        return Err(ParseRefusal::Short);
    };
    let (rest, canonical) = skip_records(flags, op, rest)?;
    Ok((rest, both(mark <= 1, canonical)))
}

// why no change begins with this byte, the first of `left` bytes
fn no_change(byte: u8, left: usize) -> ParseRefusal
    ensures { result ≡ Bad left (if byte == 80 then Patchset else BadOperation) }
{
    let kind = if byte == 0x50 {
        FaultKind::Patchset
    } else {
        FaultKind::BadOperation
    };
    ParseRefusal::Bad { left, kind }
}

// Returns the bytes after a change, and whether the change is in canonical form.
#[tactic(auto, unfolding(crate::specs::Reading::change_at))]
#[inline(always)]
fn skip_change<'a>(flags: &[u8], bytes: &'a [u8]) -> Result<(&'a [u8], bool), ParseRefusal>
    ensures read { Reads (λ x. x.0.now) result (bytes_after (change_at flags.now bytes.now)) }
    ensures canonical { IfOk result (λ x. IsTrue x.1
        → IsCanonical change_bytes bytes.now (change_at flags.now bytes.now)) }
{
    let Some((&byte, rest)) = bytes.split_first() else {
        return Err(ParseRefusal::Short);
    };
    match op_by_byte(byte) {
        Some(op) => skip_marked(flags, op, rest),
        None => Err(no_change(byte, bytes.len())),
    }
}

/// Returns whether the section has no further change.
pub fn is_over(bytes: &[u8]) -> bool
    ensures { result ≡ ends_section bytes.now }
{
    match bytes {
        [] => true,
        [byte, ..] => *byte == 0x54,
    }
}

/// Scans the complete changes of a section. Returns their number, the bytes after them, whether
/// they are in canonical form, and why the next change isn't read. The last is `None` at the next
/// header and at the end.
pub fn whole_changes<'a>(
    flags: &[u8],
    bytes: &'a [u8],
) -> (usize, &'a [u8], bool, Option<ParseRefusal>)
    ensures count { result.0 ≡ length (changes_front flags.now bytes.now).items }
    ensures rest { result.1.now ≡ (changes_front flags.now bytes.now).rest }
    ensures canonical { IsTrue result.2
        → bytes.now ≡ changes_bytes (changes_front flags.now bytes.now).items
        ++ (changes_front flags.now bytes.now).rest }
    ensures why { result.3 ≡ (changes_front flags.now bytes.now).why }
{
    let mut count: usize = 0;
    let mut rest = bytes;
    let mut canonical = true;
    // each turn takes at least one byte
    for _ in 0..bytes.len() {
        if is_over(rest) {
            break;
        }
        let (after, one) = match skip_change(flags, rest) {
            Ok(skipped) => skipped,
            Err(why) => return (count, rest, canonical, Some(why)),
        };
        canonical = both(canonical, one);
        rest = after;
        count += 1;
    }
    (count, rest, canonical, None)
}

/// Returns the number of changes up to the next header or the end, and the bytes after them.
pub fn changes_counted<'a>(flags: &[u8], bytes: &'a [u8]) -> Result<(usize, &'a [u8]), ParseRefusal>
    ensures { Reads (λ x. (x.0, x.1.now)) result (counted length (changes_at flags.now bytes.now)) }
{
    let (count, rest, _, why) = whole_changes(flags, bytes);
    match why {
        None => Ok((count, rest)),
        Some(why) => Err(why),
    }
}
