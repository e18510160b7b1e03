//! Borrowed changes and records, and an iterator over the changes of a table. Their bytes are
//! canonical, so a record is copied without reading its fields.

ghost use Rattle.std.specs.Prelude.{◌≡◌, ◌∷◌, [], IfSome, MatchOption, drop, take};
ghost use Rattle.std.specs.List.{AllByRecursion};
ghost use Rattle.std.specs.Iterator.{YieldsFirstBy};
ghost use Rattle.cs_model.specs.{
  Packed.{packed, unpacked, Fits, Packs},
  PackedOne.{IsAfterFirst},
  Seen.{change_seen},
  PackedChanges.{some_in, op_in, records_by, unpacked_changes},
  PackedChanges.{AreCanonical, BeginsFields, BeginsUnpacked},
};

use crate::change::Op;
use crate::fields::{Fields, typed_of};
use crate::packed_change::{PackedChange, packed_first};
use std::iter::Iterator;
use std::marker::Model;

/// A record, borrowed. Contracts see the list of its fields.
#[derive(Drop)]
pub struct RecordRef<'a> {
    bytes: &'a [u8],
}

impl<'a> Model for RecordRef<'a> {
    ghost use Rattle.std.specs.Prelude.{List};
    ghost use Rattle.cs_model.specs.{declared.value.Field.{Field}, Packed.{unpacked, Packs}};

    ghost Value = { List Field };

    ghost view = { λ r. unpacked r.bytes.now };

    ghost invariant = { λ r. Packs r.bytes.now (unpacked r.bytes.now) };
}

impl<'a> RecordRef<'a> {
    /// The record with these canonical bytes.
    #[inline(always)]
    pub(crate) fn of(bytes: &'a [u8]) -> RecordRef<'a>
        requires { Packs bytes.now (unpacked bytes.now) }
        ensures { result ≡ unpacked bytes.now }
    {
        RecordRef { bytes }
    }

    /// Returns its fields, in column order.
    #[inline(always)]
    pub fn fields(&self) -> Fields<'a>
        ensures { result ≡ self.now }
    {
        Fields::of(self.bytes)
    }

    /// Returns the canonical bytes of `count` fields after the first `first` ones, or of those that
    /// there are.
    pub fn part(&self, first: usize, count: usize) -> &'a [u8]
        ensures { result.now ≡ packed (take count (drop first self.now)) }
    {
        let rest = skip(first, self.bytes);
        let after = skip(count, rest);
        let (front, _) = rest.split_at(rest.len() - after.len());
        front
    }

    /// Cuts it after the first `count` fields, or after all if there are fewer.
    #[inline(always)]
    pub fn cut(&self, count: usize) -> (RecordRef<'a>, RecordRef<'a>)
        ensures front { result.0 ≡ take count self.now }
        ensures rest { result.1 ≡ drop count self.now }
    {
        let rest = skip(count, self.bytes);
        let (front, _) = self.bytes.split_at(self.bytes.len() - rest.len());
        (RecordRef { bytes: front }, RecordRef { bytes: rest })
    }

    /// Returns its canonical bytes.
    #[inline(always)]
    pub fn bytes(&self) -> &'a [u8]
        ensures bytes { result.now ≡ packed self.now }
        ensures fit { AllByRecursion Fits self.now }
    {
        self.bytes
    }
}

/// A change, borrowed.
#[derive(Drop)]
pub struct ChangeRef<'a> {
    /// The operation.
    pub op: Op,
    /// Whether a trigger or a foreign key action made the change, and not the application itself.
    pub indirect: bool,
    /// The old record; it has no fields in an INSERT.
    pub before: RecordRef<'a>,
    /// The new record; it has no fields in a DELETE.
    pub after: RecordRef<'a>,
}

/// An iterator over the changes of a table. Contracts see the list of remaining changes.
#[derive(Drop)]
pub struct ChangeRefs<'a> {
    columns: usize,
    rest: &'a [u8],
}

impl<'a> Model for ChangeRefs<'a> {
    ghost use Rattle.std.specs.Prelude.{List};
    ghost use Rattle.cs_model.specs.declared.change.Change.{Change};
    ghost use Rattle.cs_model.specs.PackedChanges.{unpacked_changes, AreCanonical};

    ghost Value = { List Change };

    ghost view = { λ c. unpacked_changes c.columns c.rest.now };

    ghost invariant = { λ c. AreCanonical c.columns c.rest.now };
}

impl<'a> ChangeRefs<'a> {
    /// The changes of a table with this number of columns, from the first byte on.
    #[inline(always)]
    pub(crate) fn of(columns: usize, bytes: &'a [u8]) -> ChangeRefs<'a>
        requires { AreCanonical columns bytes.now }
        ensures { result ≡ unpacked_changes columns bytes.now }
    {
        ChangeRefs {
            columns,
            rest: bytes,
        }
    }

    /// The next change as its bytes.
    #[inline(always)]
    pub(crate) fn next_packed(&mut self) -> Option<PackedChange<'a>>
        ensures { YieldsFirstBy (λ c. c) (λ s. s) self.old result self.new }
    {
        let (change, after) = packed_first(self.columns, self.rest)?;
        self.rest = after;
        Some(change)
    }
}

impl<'a> Iterator for ChangeRefs<'a> {
    ghost use Rattle.std.specs.Iterator.{YieldsFirstBy, item_count};
    ghost use Rattle.cs_model.specs.Seen.{change_seen};

    type Item = ChangeRef<'a>;

    ghost next_gives = { YieldsFirstBy change_seen (λ s. s) };

    ghost remaining = { item_count (λ s. s) };

    fn next(&mut self) -> Option<ChangeRef<'a>> {
        let (change, after) = first_of(self.columns, self.rest)?;
        self.rest = after;
        Some(change)
    }
}

/// The bytes after the first `columns` fields, or after all if there are fewer. It is inlined for
/// the fields of one length that come first, since a call costs as much as two of them.
#[inline(always)]
pub(crate) fn skip(columns: usize, bytes: &[u8]) -> &[u8]
    ensures { result.now ≡ (some_in columns bytes.now).1 }
{
    let mut rest = bytes;
    for i in 0..columns {
        let Some(after) = skip_fixed(rest) else {
            return skip_any(columns - i, rest);
        };
        rest = after;
    }
    rest
}

// the bytes after the first field if its type has one length
#[tactic(auto, unfolding(crate::specs::Packed::typed_in))]
#[inline(always)]
fn skip_fixed(bytes: &[u8]) -> Option<&[u8]>
    ensures { IfSome result (λ after. IsAfterFirst bytes.now after.now) }
{
    let (&byte, tail) = bytes.split_first()?;
    if byte == 1 && tail.len() >= 8 {
        let (_, after) = tail.split_at(8);
        return Some(after);
    }
    if byte == 0 {
        return Some(tail);
    }
    None
}

// the same as `skip`, field by field
fn skip_any(columns: usize, bytes: &[u8]) -> &[u8]
    ensures { result.now ≡ (some_in columns bytes.now).1 }
{
    let mut rest = bytes;
    for i in 0..columns {
        let Some((&byte, after)) = rest.split_first() else {
            return rest;
        };
        let (_, next) = typed_of(byte, after);
        rest = next;
    }
    rest
}

// a record of `columns` fields, and the bytes after it
#[inline(always)]
fn record_of(columns: usize, bytes: &[u8]) -> (RecordRef, &[u8])
    requires { BeginsFields columns bytes.now }
    ensures record { result.0 ≡ (some_in columns bytes.now).0 }
    ensures rest { result.1.now ≡ (some_in columns bytes.now).1 }
{
    let rest = skip(columns, bytes);
    let (front, _) = bytes.split_at(bytes.len() - rest.len());
    (RecordRef { bytes: front }, rest)
}

// a record without fields
#[inline(always)]
fn no_record<'a>() -> RecordRef<'a>
    ensures { result ≡ [] }
{
    RecordRef { bytes: &[] }
}

/// The operation that a byte encodes.
#[inline(always)]
pub(crate) fn op_of(byte: u8) -> Op
    ensures { result ≡ op_in byte }
{
    match byte {
        18 => Op::Insert,
        23 => Op::Update,
        _ => Op::Delete,
    }
}

// the change with this operation and these records, and the bytes after it
#[inline(always)]
fn records_of(columns: usize, op: Op, indirect: bool, bytes: &[u8]) -> (ChangeRef, &[u8])
    requires { BeginsUnpacked columns op bytes.now }
    ensures change { change_seen result.0 ≡ (records_by columns op indirect bytes.now).0 }
    ensures rest { result.1.now ≡ (records_by columns op indirect bytes.now).1 }
{
    let (before, after, rest) = match op {
        Op::Insert => {
            let (after, rest) = record_of(columns, bytes);
            (no_record(), after, rest)
        }
        Op::Update => {
            let (before, records) = record_of(columns, bytes);
            let (after, rest) = record_of(columns, records);
            (before, after, rest)
        }
        Op::Delete => {
            let (before, rest) = record_of(columns, bytes);
            (before, no_record(), rest)
        }
    };
    (
        ChangeRef {
            op,
            indirect,
            before,
            after,
        },
        rest,
    )
}

/// The first change that `bytes` encodes, and the bytes after it.
#[inline(always)]
pub(crate) fn first_of(columns: usize, bytes: &[u8]) -> Option<(ChangeRef, &[u8])>
    requires { AreCanonical columns bytes.now }
    ensures rest { IfSome result (λ x. AreCanonical columns x.1.now) }
    ensures first { MatchOption result (unpacked_changes columns bytes.now ≡ [])
        (λ x. unpacked_changes columns bytes.now
        ≡ change_seen x.0 ∷ unpacked_changes columns x.1.now) }
{
    let Some((&op, marked)) = bytes.split_first() else {
        return None;
    };
    let Some((&mark, rest)) = marked.split_first() else {
        return None;
    };
    Some(records_of(columns, op_of(op), mark != 0, rest))
}
