//! What the changes of one row come to, one change after another.

ghost use Rattle.std.specs.Prelude.{◌≡◌, if◌then◌else◌, Bool, IfOk, OnOk, Some, true};
ghost use Rattle.std.specs.List.{list_any};
ghost use Rattle.std.specs.Option.{option_map};
ghost use Rattle.cs_model.specs.declared.change.Change.{Change};
ghost use Rattle.cs_model.specs.declared.change.Op.TheVariants.{Update};
ghost use Rattle.cs_model.specs.PackedChanges.{change_of};
ghost use Rattle.cs_model.specs.Rule.{is_defined};
ghost use Rattle.cs_model.specs.Seen.{change_seen, field_seen, fields_seen};
ghost use Rattle.cs_group.specs.Merge.{field_or, new_if_changed, news_changed, old_if_changed};
ghost use Rattle.cs_group.specs.Merge.{olds_changed, only_change, record_or, two_changes};
ghost use Rattle.cs_group.specs.Merge.{update_between};
ghost use Rattle.cs_group.specs.Slots.{kept_if, merged_seen, slot_seen};
ghost use Rattle.cs_group.specs.Table.{put_at, slots_seen, there_at};

use crate::slot::{Merged, Slot, fields_of};
use cs_model::{ChangeRef, FieldRef, Fields, Op, PackedChange, RecordRef};
use std::alloc::{AllocError, Global};

// a field, or the other one if it is undefined
fn field_or<'a>(field: FieldRef<'a>, other: FieldRef<'a>) -> FieldRef<'a>
    ensures { field_seen result ≡ field_or (field_seen field.entry) (field_seen other.entry) }
{
    if field.has_value() { field } else { other }
}

// Puts another record's values in place of a record's fields: of all, or of the undefined ones.
fn put_values<'a>(fields: &mut Vec<FieldRef<'a>>, values: &RecordRef<'a>, all: bool)
    ensures { fields_seen fields.new.items
        ≡ (if all then record_or values.now (fields_seen fields.old.items)
        else record_or (fields_seen fields.old.items) values.now) }
{
    let mut values = values.fields();
    for i in 0..fields.len() {
        let Some(value) = values.next() else {
            fields.truncate(i);
            return;
        };
        let field = if all {
            field_or(value, fields[i])
        } else {
            field_or(fields[i], value)
        };
        fields[i] = field;
    }
}

// Leaves, of two records, the fields of the columns that an UPDATE between them changes. Returns
// whether there are any.
fn keep_changed<'a>(
    flags: &[u8],
    before: &mut Vec<FieldRef<'a>>,
    after: &mut Vec<FieldRef<'a>>,
) -> bool
    ensures olds { fields_seen before.new.items
        ≡ olds_changed flags.now (fields_seen before.old.items) (fields_seen after.old.items) }
    ensures news { fields_seen after.new.items
        ≡ news_changed flags.now (fields_seen before.old.items) (fields_seen after.old.items) }
    ensures left { result ≡ list_any is_defined
        (news_changed flags.now (fields_seen before.old.items) (fields_seen after.old.items)) }
{
    let columns = flags.len().min(before.len()).min(after.len());
    before.truncate(columns);
    after.truncate(columns);
    let mut any = false;
    for i in 0..columns {
        let (old, new) = changed(flags[i], before[i], after[i]);
        before[i] = old;
        after[i] = new;
        any = any || new.has_value();
    }
    any
}

// a column's old and new field, if an UPDATE changes the column
fn changed<'a>(flag: u8, old: FieldRef<'a>, new: FieldRef<'a>) -> (FieldRef<'a>, FieldRef<'a>)
    ensures old { field_seen result.0
        ≡ old_if_changed flag (field_seen old.entry) (field_seen new.entry) }
    ensures new { field_seen result.1
        ≡ new_if_changed flag (field_seen old.entry) (field_seen new.entry) }
{
    if flag > 0 {
        return (old, FieldRef::Undefined);
    }
    if old == new {
        return (FieldRef::Undefined, FieldRef::Undefined);
    }
    (old, new)
}

// whether an UPDATE has the fields of the columns that it changes, and no others
fn is_normal(flags: &[u8], before: Fields, after: Fields) -> bool
    ensures { result ≡ true → (indirect : Bool) → update_between flags.now indirect
        before.entry after.entry ≡ Some (change_of Update indirect before.entry after.entry) }
{
    let mut before = before;
    let mut after = after;
    let mut any = false;
    for flag in flags {
        let Some(old) = before.next() else {
            return false;
        };
        let Some(new) = after.next() else {
            return false;
        };
        if !is_kept(*flag, old, new) {
            return false;
        }
        any = any || new.has_value();
    }
    any && before.next().is_none() && after.next().is_none()
}

// whether a column's fields stay as they are
fn is_kept(flag: u8, old: FieldRef, new: FieldRef) -> bool
    ensures old { result ≡ true → old_if_changed flag (field_seen old.entry) (field_seen new.entry)
        ≡ field_seen old.entry }
    ensures new { result ≡ true → new_if_changed flag (field_seen old.entry) (field_seen new.entry)
        ≡ field_seen new.entry }
{
    if flag > 0 {
        return !new.has_value();
    }
    old != new || !old.has_value()
}

// Leaves the UPDATE between the two records of a change. Returns whether it changes a column.
fn make_update<'a>(flags: &[u8], merged: &mut Merged<'a>) -> bool
    ensures { kept_if result merged.new ≡ update_between flags.now merged.old.indirect
        (fields_seen merged.old.before.items) (fields_seen merged.old.after.items) }
{
    let Merged {
        op,
        before,
        after,
        ..
    } = merged;
    *op = Op::Update;
    keep_changed(flags, before, after)
}

/// What the first change of a row comes to.
pub(crate) fn only<'a>(
    alloc: Global,
    flags: &[u8],
    change: PackedChange<'a>,
) -> Result<Option<Slot<'a>>, AllocError>
    ensures { IfOk result (λ slot. option_map slot_seen slot
        ≡ only_change flags.now change.entry) }
{
    let parts = change.unpack();
    let slot = Slot::Alone(change);
    if parts.op != Op::Update || is_normal(flags, parts.before.fields(), parts.after.fields()) {
        return Ok(Some(slot));
    }
    let mut merged = slot.into_merged(alloc, flags.len())?;
    if !make_update(flags, &mut merged) {
        return Ok(None);
    }
    Ok(Some(Slot::Merged(merged)))
}

// What a row's change becomes by one more change of the row. Returns `false` if nothing is left.
fn merge<'a>(
    alloc: Global,
    flags: &[u8],
    there: &mut Merged<'a>,
    new: &ChangeRef<'a>,
) -> Result<bool, AllocError>
    ensures { IfOk result (λ left. kept_if left there.new
        ≡ two_changes flags.now (merged_seen there.old) (change_seen new.now)) }
{
    let indirect = there.indirect && new.indirect;
    match (there.op, new.op) {
        (Op::Insert, Op::Update) => {
            there.indirect = indirect;
            there.before.clear();
            put_values(&mut there.after, &new.after, true);
            Ok(true)
        }
        (Op::Insert, Op::Delete) => Ok(false),
        (Op::Update, Op::Update) => {
            there.indirect = indirect;
            put_values(&mut there.before, &new.before, false);
            put_values(&mut there.after, &new.after, true);
            Ok(make_update(flags, there))
        }
        (Op::Update, Op::Delete) => {
            there.op = Op::Delete;
            there.indirect = indirect;
            put_values(&mut there.before, &new.before, false);
            there.after.clear();
            Ok(true)
        }
        (Op::Delete, Op::Insert) => {
            there.indirect = indirect;
            there.after = fields_of(alloc, flags.len(), &new.after)?;
            Ok(make_update(flags, there))
        }
        // it can't come after the first one, so it is ignored
        _ => Ok(true),
    }
}

/// Adds one more change of a row to what is in its slot.
pub(crate) fn merge_at<'a>(
    alloc: Global,
    flags: &[u8],
    place: usize,
    slots: &mut Vec<Option<Slot<'a>>>,
    new: &ChangeRef<'a>,
) -> Result<(), AllocError>
    ensures { OnOk result ((there : Change)
        → there_at (slots_seen slots.old.items) place ≡ Some there
        → slots_seen slots.new.items
        ≡ put_at place (two_changes flags.now there (change_seen new.now))
        (slots_seen slots.old.items)) }
{
    let Some(slot) = slots.get_mut(place) else {
        return Ok(());
    };
    let Some(there) = slot.take() else {
        return Ok(());
    };
    let mut merged = there.into_merged(alloc, flags.len())?;
    if merge(alloc, flags, &mut merged, new)? {
        *slot = Some(Slot::Merged(merged));
    }
    Ok(())
}
