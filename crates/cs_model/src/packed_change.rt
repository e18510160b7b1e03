//! A change borrowed as its canonical bytes, and an iterator over the changes of a table.

ghost use Rattle.std.specs.Prelude.{◌≡◌, ◌∷◌, [], IfSome, MatchOption, get_or};
ghost use Rattle.std.specs.List.{AllByRecursion};
ghost use Rattle.cs_model.specs.declared.change.Change.{Change};
ghost use Rattle.cs_model.specs.Packed.{Fits};
ghost use Rattle.cs_model.specs.PackedChanges.{AreCanonical, change_bytes, unpacked_changes};
ghost use Rattle.cs_model.specs.Seen.{change_seen};

use crate::change::Op;
use crate::change_ref::{ChangeRef, ChangeRefs, RecordRef, first_of, op_of};
use std::iter::Iterator;
use std::marker::Model;

/// A change, borrowed as its canonical bytes. It takes less room than a `ChangeRef`. Contracts see
/// the change.
#[derive(Drop)]
pub struct PackedChange<'a> {
    bytes: &'a [u8],
    // where the new record begins
    middle: usize,
}

impl<'a> Model for PackedChange<'a> {
    ghost use Rattle.cs_model.specs.declared.change.Change.{Change};
    ghost use Rattle.cs_model.specs.PackedOne.{IsPacked, unpacked_change};

    ghost Value = { Change };

    ghost view = { λ c. unpacked_change c.middle c.bytes.now };

    ghost invariant = { λ c. IsPacked (unpacked_change c.middle c.bytes.now) c.middle c.bytes.now };
}

impl<'a> PackedChange<'a> {
    /// The operation.
    #[inline(always)]
    pub fn op(&self) -> Op
        ensures { result ≡ self.now.op }
    {
        op_of(first_byte(self.bytes))
    }

    /// The canonical bytes.
    #[inline(always)]
    pub fn bytes(&self) -> &'a [u8]
        ensures bytes { result.now ≡ change_bytes self.now }
        ensures before { AllByRecursion Fits self.now.before }
        ensures after { AllByRecursion Fits self.now.after }
    {
        self.bytes
    }

    /// The change as its two records. Reads no field.
    #[inline(always)]
    pub fn unpack(&self) -> ChangeRef<'a>
        ensures { change_seen result ≡ self.now }
    {
        let (front, after) = self.bytes.split_at(self.middle);
        let (marks, before) = front.split_at(2);
        ChangeRef {
            op: op_of(marks[0]),
            indirect: marks[1] != 0,
            before: RecordRef::of(before),
            after: RecordRef::of(after),
        }
    }
}

// the first byte, or 0 if there is none
#[inline(always)]
fn first_byte(bytes: &[u8]) -> u8
    ensures { result ≡ get_or bytes.now 0 0 }
{
    match bytes.first() {
        Some(byte) => *byte,
        None => 0,
    }
}

/// An iterator over the changes of a table, as their bytes. Contracts see the list of remaining
/// changes.
#[derive(Drop)]
pub struct PackedChanges<'a> {
    changes: ChangeRefs<'a>,
}

impl<'a> Model for PackedChanges<'a> {
    ghost use Rattle.std.specs.Prelude.{List};
    ghost use Rattle.cs_model.specs.declared.change.Change.{Change};

    ghost Value = { List Change };

    ghost view = { λ c. c.changes };
}

impl<'a> PackedChanges<'a> {
    /// The same changes, as their bytes.
    #[inline(always)]
    pub(crate) fn of(changes: ChangeRefs<'a>) -> PackedChanges<'a>
        ensures { result ≡ changes.entry }
    {
        PackedChanges { changes }
    }
}

impl<'a> Iterator for PackedChanges<'a> {
    ghost use Rattle.std.specs.Iterator.{YieldsFirstBy, item_count};

    type Item = PackedChange<'a>;

    ghost next_gives = { YieldsFirstBy (λ c. c) (λ s. s) };

    ghost remaining = { item_count (λ s. s) };

    #[inline(always)]
    fn next(&mut self) -> Option<PackedChange<'a>> {
        self.changes.next_packed()
    }
}

/// The first change that `bytes` encodes, and the bytes after it.
#[inline(always)]
pub(crate) fn packed_first(columns: usize, bytes: &[u8]) -> Option<(PackedChange, &[u8])>
    requires { AreCanonical columns bytes.now }
    ensures rest { IfSome result (λ x. AreCanonical columns x.1.now) }
    ensures first { MatchOption result (unpacked_changes columns bytes.now ≡ [])
        (λ x. unpacked_changes columns bytes.now ≡ x.0 ∷ unpacked_changes columns x.1.now) }
{
    let (change, after) = first_of(columns, bytes)?;
    let (front, _) = bytes.split_at(bytes.len() - after.len());
    let packed = PackedChange {
        bytes: front,
        middle: 2 + change.before.bytes().len(),
    };
    Some((packed, after))
}
