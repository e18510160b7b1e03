//! Resumable scanning of an incomplete change: the next call continues where the last one stopped.
//! `header_spot` does the same for headers.

ghost use Rattle.std.specs.Prelude.{◌≡◌, ◌≤◌, ◌<◌, ◌++◌, ℕ, List, length, Ok, Err, map, IfSome};
ghost use Rattle.cs_model.specs.Bytes.{AreBytes};
ghost use Rattle.cs_model.specs.declared.change.Op.{Op};
ghost use Rattle.cs_model.specs.declared.value.Field.{Field};
ghost use Rattle.cs_model.specs.Rule.{old_rule};
ghost use Rattle.cs_parse.specs.FieldRules.{rule_of, column_rule};
ghost use Rattle.cs_parse.specs.Lack.{place_of, StaysAt};
ghost use Rattle.cs_parse.specs.Reading.{record_at, change_at};
ghost use Rattle.cs_parse.specs.Spot.{Halts, HaltsNew, IsBack, InFirst, PassedFirst, SpotInNew};
ghost use Rattle.cs_parse.specs.Spot.{IsSpot, StaysShort};
ghost use Rattle.cs_parse.specs.declared.spot.Spot.TheVariants.{Start, Row, Old};
ghost use Rattle.cs_parse.specs.declared.stop.ParseRefusal.TheVariants.{Short};

use crate::field::field_in;
use crate::lack::field_lacks;
use crate::rule::{FieldRule, rule_by_flag, rule_by_old};
use crate::stop::ParseRefusal;

/// The first incomplete field of a change: `fields` fields of its record precede it, and it begins
/// at `at`. In a header it is the name. Offsets count from the first byte of the change or header.
#[derive(Clone, Copy, Debug)]
pub enum Spot {
    /// Nothing was scanned.
    Start,
    /// In the one record of an INSERT or a DELETE.
    Row {
        fields: usize,
        at: usize,
    },
    /// In the old record of an UPDATE.
    Old {
        fields: usize,
        at: usize,
    },
    /// In the new record of an UPDATE. The old record's field of the same column begins at `old`.
    New {
        fields: usize,
        at: usize,
        old: usize,
    },
    /// In a header's name, which begins at `at`. Its first `letters` bytes are there, and none of
    /// them is zero.
    Name {
        at: usize,
        letters: usize,
    },
}

impl Spot {
    /// The spot at which nothing was scanned.
    pub fn start() -> Spot
        ensures { result ≡ Start }
    {
        Spot::Start
    }
}

// Scans the complete fields of a record. Returns their number and the bytes after them, or `None`
// if the next field has a wrong byte. `outside` is the rule of the columns outside the key.
fn pass_fields<'a>(outside: FieldRule, flags: &[u8], bytes: &'a [u8]) -> Option<(usize, &'a [u8])>
    ensures { IfSome result (λ x.
        Halts (column_rule (rule_of outside)) flags.now bytes.now x.0 x.1.now) }
{
    let mut rest = bytes;
    for (passed, &flag) in flags.iter().enumerate() {
        match field_in(rule_by_flag(flag, outside), rest, true) {
            Ok((_, after, _)) => rest = after,
            Err(ParseRefusal::Short) => return Some((passed, rest)),
            Err(ParseRefusal::Bad { .. }) => return None,
        }
    }
    Some((flags.len(), rest))
}

// The same for an UPDATE's new record; `None` also if all its fields are complete. The old record
// gives its rules and is read again from `old` on, field by field. The second result is the old
// record's bytes from the next column on.
fn pass_new<'a>(flags: &[u8], old: &'a [u8], bytes: &'a [u8]) -> Option<(usize, &'a [u8], &'a [u8])>
    ensures back { IfSome result (λ x. IsBack old.now x.1.now) }
    ensures halts { (before : List Field) (left : List ℕ)
        → record_at (map old_rule flags.now) old.now ≡ Ok (before, left)
        → IfSome result (λ x. HaltsNew flags.now before left bytes.now x.0 x.1.now x.2.now) }
{
    let mut old_rest = old;
    let mut rest = bytes;
    for (passed, &flag) in flags.iter().enumerate() {
        let rule = rule_by_flag(flag, FieldRule::Open);
        let Ok((field, old_after, _)) = field_in(rule, old_rest, true) else {
            return None;
        };
        match field_in(rule_by_old(flag, field.has_value()), rest, true) {
            Ok((_, after, _)) => rest = after,
            Err(ParseRefusal::Short) => return Some((passed, old_rest, rest)),
            Err(ParseRefusal::Bad { .. }) => return None,
        }
        old_rest = old_after;
    }
    None
}

// Continues in the first record of a change. Returns the number of its complete fields, and where
// the next one begins.
fn pass_first(
    outside: FieldRule,
    flags: &[u8],
    bytes: &[u8],
    fields: usize,
    at: usize,
) -> Option<(usize, usize)>
    requires columns { fields ≤ length flags.now }
    requires within { at ≤ length bytes.now }
    ensures { (op : Op) → InFirst op (column_rule (rule_of outside)) flags.now bytes.now fields at
        → IfSome result (λ x. PassedFirst op (column_rule (rule_of outside)) flags.now bytes.now x.0
        x.1) }
{
    let (_, columns) = flags.split_at(fields);
    let (_, front) = bytes.split_at(at);
    let (passed, rest) = pass_fields(outside, columns, front)?;
    Some((fields + passed, bytes.len() - rest.len()))
}

// continues in the one record of an INSERT or a DELETE
fn row_spot(flags: &[u8], bytes: &[u8], fields: usize, at: usize) -> Option<Spot>
    requires { IsSpot flags.now bytes.now (Row fields at) }
    ensures { StaysShort flags.now bytes.now result }
{
    let (fields, at) = pass_first(FieldRule::Given, flags, bytes, fields, at)?;
    if fields < flags.len() {
        Some(Spot::Row { fields, at })
    } else {
        None
    }
}

// continues in the new record of an UPDATE
fn new_spot(flags: &[u8], bytes: &[u8], fields: usize, at: usize, old: usize) -> Option<Spot>
    requires { SpotInNew flags.now bytes.now fields at old }
    ensures { StaysShort flags.now bytes.now result }
{
    let (_, columns) = flags.split_at(fields);
    let (_, old_rest) = bytes.split_at(old);
    let (_, rest) = bytes.split_at(at);
    let (passed, old_rest, rest) = pass_new(columns, old_rest, rest)?;
    Some(Spot::New {
        fields: fields + passed,
        at: bytes.len() - rest.len(),
        old: bytes.len() - old_rest.len(),
    })
}

// continues in the old record of an UPDATE, and then in the new one
fn old_spot(flags: &[u8], bytes: &[u8], fields: usize, at: usize) -> Option<Spot>
    requires { IsSpot flags.now bytes.now (Old fields at) }
    ensures { StaysShort flags.now bytes.now result }
{
    let (fields, at) = pass_first(FieldRule::Open, flags, bytes, fields, at)?;
    if fields < flags.len() {
        return Some(Spot::Old { fields, at });
    }
    new_spot(flags, bytes, 0, at, 2)
}

// scans a change from its first byte
fn first_spot(flags: &[u8], bytes: &[u8]) -> Option<Spot>
    ensures { StaysShort flags.now bytes.now result }
{
    let Some((&byte, rest)) = bytes.split_first() else {
        return Some(Spot::Start);
    };
    match byte {
        0x12 | 0x17 | 0x09 if rest.is_empty() => Some(Spot::Start),
        0x12 | 0x09 => row_spot(flags, bytes, 0, 2),
        0x17 => old_spot(flags, bytes, 0, 2),
        _ => None,
    }
}

// The spot reached from `spot`, if the change is still incomplete.
fn next_spot(flags: &[u8], bytes: &[u8], spot: Spot) -> Option<Spot>
    requires { IsSpot flags.now bytes.now spot }
    ensures { StaysShort flags.now bytes.now result }
{
    match spot {
        Spot::Start | Spot::Name { .. } => first_spot(flags, bytes),
        Spot::Row { fields, at } => row_spot(flags, bytes, fields, at),
        Spot::Old { fields, at } => old_spot(flags, bytes, fields, at),
        Spot::New { fields, at, old } => new_spot(flags, bytes, fields, at, old),
    }
}

// A lower bound on the bytes missing from the field at a spot. It is 1 if the spot is at no field.
fn spot_lacks(bytes: &[u8], spot: Spot) -> usize
    requires { place_of spot ≤ length bytes.now }
    ensures some { 0 < result }
    ensures lacks { (more : List ℕ) → length more < result → StaysAt bytes.now spot more }
{
    match spot {
        Spot::Row { at, .. } | Spot::Old { at, .. } | Spot::New { at, .. } => {
            let (_, field) = bytes.split_at(at);
            field_lacks(field)
        }
        Spot::Start | Spot::Name { .. } => 1,
    }
}

/// Returns a lower bound on the bytes missing from an incomplete change that begins with `bytes`,
/// which may be empty. Moves the spot to the first incomplete field; it stays valid when more bytes
/// follow. Takes time linear in the fields passed. A result of 0 means that the change is complete
/// or a byte is wrong; the spot is then unspecified.
pub fn still_short(flags: &[u8], bytes: &[u8], spot: &mut Spot) -> usize
    requires { IsSpot flags.now bytes.now spot.old }
    ensures short { (more : List ℕ) → length more < result
        → change_at flags.now (bytes.now ++ more) ≡ Err Short }
    ensures spot { 0 < result → (more : List ℕ) → AreBytes more
        → IsSpot flags.now (bytes.now ++ more) spot.new }
{
    match next_spot(flags, bytes, *spot) {
        Some(next) => {
            *spot = next;
            spot_lacks(bytes, next)
        }
        None => 0,
    }
}
