//! Compares a record with a row, and computes a row after a change. Iterates over both, and copies
//! only the new row.

ghost use Rattle.std.specs.Prelude.{◌≡◌, ℕ, List, IfOk, IfErr, Ok, true};
ghost use Rattle.std.specs.List.{list_all};
ghost use Rattle.std.specs.Option.{option_copied, option_map};
ghost use Rattle.cs_model.specs.Changeset.{IsChange};
ghost use Rattle.cs_model.specs.Rule.{is_defined};
ghost use Rattle.cs_model.specs.declared.change.Op.TheVariants.{Insert, Update, Delete};
ghost use Rattle.cs_model.specs.declared.value.Field.{Field};
ghost use Rattle.cs_model.specs.Seen.{change_seen, field_seen};
ghost use Rattle.cs_apply.specs.Effect.{all_agree, rest_agrees, updated};
ghost use Rattle.cs_apply.specs.Errors.{ReportsKind};
ghost use Rattle.cs_apply.specs.RowAfter.{row_after, row_after_op};
ghost use Rattle.cs_apply.specs.Steps.{chosen, field_agrees};

use crate::change_error::ChangeError;
use crate::conflict::ConflictKind;
use cs_model::laws::fields_first;
use cs_model::{ChangeRef, FieldRef, Op, RecordRef, Row, ShapeRef};
use std::alloc::{AllocError, Global};

/// Whether each field of a record, all of which have a value, equals the row's. Then the row's
/// bytes begin with the record's.
pub(crate) fn all_agree(from: &RecordRef, row: &Row) -> bool
    requires { list_all is_defined from.now ≡ true }
    ensures { result ≡ all_agree from.now row.now }
{
    fields_first();
    row.bytes().starts_with(from.bytes())
}

// whether a field is undefined or equals the value
fn agrees(field: FieldRef, value: FieldRef) -> bool
    ensures { result ≡ field_agrees (field_seen field.entry) (field_seen value.entry) }
{
    !field.has_value() || field == value
}

/// Whether each field outside the key is undefined or equals the row's value.
pub(crate) fn rest_agrees(flags: &[u8], from: &RecordRef, row: &Row) -> bool
    ensures { result ≡ rest_agrees flags.now from.now row.now }
{
    let mut fields = from.fields();
    let mut values = row.fields();
    for flag in flags {
        let Some(field) = fields.next() else {
            return true;
        };
        let Some(value) = values.next() else {
            return false;
        };
        if *flag == 0 && !agrees(field, value) {
            return false;
        }
    }
    true
}

// the record's field if it has a value, or the row's
fn chosen<'a>(field: Option<FieldRef<'a>>, value: FieldRef<'a>) -> FieldRef<'a>
    ensures { field_seen result
        ≡ chosen (option_map field_seen field.entry) (field_seen value.entry) }
{
    match field {
        Some(field) if field.has_value() => field,
        _ => value,
    }
}

/// The row with the record's values in place of its own. Returns `AllocError` if memory runs out.
pub(crate) fn updated(alloc: Global, from: &RecordRef, row: &Row) -> Result<Row, AllocError>
    ensures { IfOk result (λ new. new ≡ updated from.now row.now) }
{
    let mut new = Row::with_capacity(alloc, row.bytes().len())?;
    let mut fields = from.fields();
    for value in row.fields() {
        new.push(chosen(fields.next(), value))?;
    }
    new.shrink_to_fit();
    Ok(new)
}

/// The row of a change's key after the change, or none. `row` is the row before it, or none.
/// Returns the kind of the conflict, or `Memory` if memory runs out. So a change can be planned
/// without changing the tables. `shape` is that of the change's table.
pub fn row_after(
    alloc: Global,
    shape: &ShapeRef,
    change: &ChangeRef,
    row: Option<&Row>,
) -> Result<Option<Row>, ChangeError>
    requires { IsChange shape.now (change_seen change.now) }
    ensures ok { IfOk result (λ new. row_after shape.now.flags (change_seen change.now)
        (option_copied row.entry) ≡ Ok new) }
    ensures refused { IfErr result (λ e. ReportsKind e (row_after shape.now.flags
        (change_seen change.now) (option_copied row.entry))) }
{
    match change.op {
        Op::Insert => inserted_row(alloc, &change.after, row),
        Op::Update => updated_row(alloc, shape.flags, &change.before, &change.after, row),
        Op::Delete => deleted_row(&change.before, row),
    }
}

// INSERT: there must be no row.
fn inserted_row(
    alloc: Global,
    after: &RecordRef,
    row: Option<&Row>,
) -> Result<Option<Row>, ChangeError>
    requires { list_all is_defined after.now ≡ true }
    ensures ok { (flags : List ℕ) (before : List Field) → IfOk result (λ new.
        row_after_op Insert flags before after.now (option_copied row.entry) ≡ Ok new) }
    ensures refused { (flags : List ℕ) (before : List Field) → IfErr result (λ e. ReportsKind e
        (row_after_op Insert flags before after.now (option_copied row.entry))) }
{
    if row.is_some() {
        return Err(ChangeError::Conflict(ConflictKind::Conflict));
    }
    Ok(Some(Row::copy_of(alloc, after)?))
}

// UPDATE: the row must exist and agree with the old record outside the key.
fn updated_row(
    alloc: Global,
    flags: &[u8],
    before: &RecordRef,
    after: &RecordRef,
    row: Option<&Row>,
) -> Result<Option<Row>, ChangeError>
    ensures ok { IfOk result (λ new. row_after_op Update flags.now before.now after.now
        (option_copied row.entry) ≡ Ok new) }
    ensures refused { IfErr result (λ e. ReportsKind e (row_after_op Update flags.now before.now
        after.now (option_copied row.entry))) }
{
    let Some(row) = row else {
        return Err(ChangeError::Conflict(ConflictKind::NotFound));
    };
    if !rest_agrees(flags, before, row) {
        return Err(ChangeError::Conflict(ConflictKind::Data));
    }
    Ok(Some(updated(alloc, after, row)?))
}

// DELETE: the row must exist and equal the old record.
fn deleted_row(before: &RecordRef, row: Option<&Row>) -> Result<Option<Row>, ChangeError>
    requires { list_all is_defined before.now ≡ true }
    ensures ok { (flags : List ℕ) (after : List Field) → IfOk result (λ new.
        row_after_op Delete flags before.now after (option_copied row.entry) ≡ Ok new) }
    ensures refused { (flags : List ℕ) (after : List Field) → IfErr result (λ e. ReportsKind e
        (row_after_op Delete flags before.now after (option_copied row.entry))) }
{
    let Some(row) = row else {
        return Err(ChangeError::Conflict(ConflictKind::NotFound));
    };
    if !all_agree(before, row) {
        return Err(ChangeError::Conflict(ConflictKind::Data));
    }
    Ok(None)
}
