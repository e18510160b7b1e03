//! Applies one change, a section's changes, or all changes. `Places` logs what is done before a
//! conflict, and undoes it.

ghost use Rattle.std.specs.Prelude.{◌≡◌, ◌+◌, ◌<◌, ◌^◌, Ok, OnOk, IfErr, length, true};
ghost use Rattle.std.specs.List.{list_all};
ghost use Rattle.std.specs.FinMap as map;
ghost use Rattle.cs_model.specs.{Changeset.{IsChange, IsChangeset, IsSection}, Row.{values_of}};
ghost use Rattle.cs_model.specs.{Rule.{is_defined}, Seen.{change_seen}};
ghost use Rattle.cs_apply.specs.Effect.{inserted, deleted, changed, effect};
ghost use Rattle.cs_apply.specs.Errors.{ReportsConflict, ReportsKind};
ghost use Rattle.cs_apply.specs.{Single.{changes_of, single_from}, State.{compatible}};
ghost use Rattle.cs_apply.specs.Steps.{rows_in, section_from, Back};

use crate::change_error::ChangeError;
use crate::conflict::{ApplyError, ConflictKind};
use crate::places::Places;
use crate::row::{all_agree, rest_agrees, updated};
use cs_model::{ChangeRef, Changeset, Op, RecordRef, Row, RowKey, Schema, SectionRef, ShapeRef};
use std::alloc::Global;

// INSERT: the key must have no row, and gets the row in the new record. An `Err` of this and of the
// next two does not change the rows.
fn insert(
    places: &mut Places,
    alloc: Global,
    key: RowKey,
    after: &RecordRef,
) -> Result<(), ChangeError>
    requires { list_all is_defined after.now ≡ true }
    ensures ok { OnOk result (inserted (rows_in places.old) key (values_of after.now)
        (map.get (rows_in places.old) key) ≡ Ok (rows_in places.new)) }
    ensures back { Back places.old places.new }
    ensures refused { IfErr result (λ e. ReportsKind e
        (inserted (rows_in places.old) key (values_of after.now)
        (map.get (rows_in places.old) key))) }
{
    let row = Row::copy_of(alloc, after)?;
    places.insert(key, row)
}

// DELETE: the row must exist and equal the old record, and is removed.
fn delete(places: &mut Places, key: &RowKey, before: &RecordRef) -> Result<(), ChangeError>
    requires { list_all is_defined before.now ≡ true }
    ensures ok { OnOk result (deleted (rows_in places.old) key.now before.now
        (map.get (rows_in places.old) key.now) ≡ Ok (rows_in places.new)) }
    ensures back { Back places.old places.new }
    ensures refused { IfErr result (λ e. ReportsKind e
        (deleted (rows_in places.old) key.now before.now (map.get (rows_in places.old) key.now))) }
{
    let Some((place, row)) = places.find(key) else {
        return Err(ChangeError::Conflict(ConflictKind::NotFound));
    };
    if !all_agree(before, row) {
        return Err(ChangeError::Conflict(ConflictKind::Data));
    }
    Ok(places.set(place, None)?)
}

// UPDATE: the row must exist and agree with the old record outside the key. It gets the new
// record's values.
fn update(
    places: &mut Places,
    alloc: Global,
    key: &RowKey,
    flags: &[u8],
    before: &RecordRef,
    after: &RecordRef,
) -> Result<(), ChangeError>
    ensures ok { OnOk result (changed (rows_in places.old) key.now flags.now before.now after.now
        (map.get (rows_in places.old) key.now) ≡ Ok (rows_in places.new)) }
    ensures back { Back places.old places.new }
    ensures refused { IfErr result (λ e. ReportsKind e
        (changed (rows_in places.old) key.now flags.now before.now after.now
        (map.get (rows_in places.old) key.now))) }
{
    let Some((place, row)) = places.find(key) else {
        return Err(ChangeError::Conflict(ConflictKind::NotFound));
    };
    if !rest_agrees(flags, before, row) {
        return Err(ChangeError::Conflict(ConflictKind::Data));
    }
    let new = updated(alloc, after, row)?;
    Ok(places.set(place, Some(new))?)
}

// Applies one change of a kept table. An `Err` does not change the rows.
fn change_row(
    places: &mut Places,
    alloc: Global,
    table: usize,
    shape: &ShapeRef,
    change: &ChangeRef,
) -> Result<(), ChangeError>
    requires { IsChange shape.now (change_seen change.now) }
    ensures ok { OnOk result (effect table shape.now.flags (rows_in places.old)
        (change_seen change.now) ≡ Ok (rows_in places.new)) }
    ensures back { Back places.old places.new }
    ensures refused { IfErr result (λ e. ReportsKind e
        (effect table shape.now.flags (rows_in places.old) (change_seen change.now))) }
{
    let key = RowKey::of(alloc, table, shape, change)?;
    match change.op {
        Op::Insert => insert(places, alloc, key, &change.after),
        Op::Delete => delete(places, &key, &change.before),
        Op::Update => update(
            places,
            alloc,
            &key,
            shape.flags,
            &change.before,
            &change.after,
        ),
    }
}

// Applies the changes of one section of a kept table, the first of them at position `start`. An
// `Err` keeps what the changes before it did.
fn change_section(
    places: &mut Places,
    alloc: Global,
    table: usize,
    section: &SectionRef,
    start: usize,
) -> Result<(), ApplyError>
    requires counted { start + length section.now.changes < 2 ^ 64 }
    requires fits { IsSection section.now }
    ensures ok { OnOk result (section_from table section.now.shape.flags section.now.changes start
        (rows_in places.old) ≡ Ok (rows_in places.new)) }
    ensures back { Back places.old places.new }
    ensures refused { IfErr result (λ e. ReportsConflict e
        (section_from table section.now.shape.flags section.now.changes start
        (rows_in places.old))) }
{
    let shape = section.shape();
    let mut position = start;
    for change in section.changes() {
        if let Err(error) = change_row(places, alloc, table, &shape, &change) {
            return Err(error.at(position));
        }
        position += 1;
    }
    Ok(())
}

/// The index of the table with this name and these key flags, if it is kept.
pub(crate) fn kept_table(schema: &Schema, kept: &[bool], shape: &ShapeRef) -> Option<usize>
    ensures { result ≡ compatible schema.now kept.now shape.now }
{
    let table = schema.table(shape)?;
    if kept.get(table).copied().unwrap_or(false) {
        Some(table)
    } else {
        None
    }
}

/// Applies the changes of all sections, and skips those of tables that aren't kept. An `Err` keeps
/// what the changes before the first conflict did; `Places::take_back` undoes it.
pub(crate) fn change_all(
    places: &mut Places,
    alloc: Global,
    schema: &Schema,
    kept: &[bool],
    changeset: &Changeset,
) -> Result<(), ApplyError>
    ensures valid { IsChangeset changeset.now }
    ensures ok { OnOk result (single_from schema.now kept.now (changes_of changeset.now) 0
        (rows_in places.old) ≡ Ok (rows_in places.new)) }
    ensures back { Back places.old places.new }
    ensures refused { IfErr result (λ e. ReportsConflict e
        (single_from schema.now kept.now (changes_of changeset.now) 0 (rows_in places.old))) }
{
    let mut start: usize = 0;
    for section in changeset.iter() {
        // no memory holds more changes than a `usize` counts
        let Some(end) = start.checked_add(section.len()) else {
            return Err(ApplyError::Memory);
        };
        if let Some(table) = kept_table(schema, kept, &section.shape()) {
            change_section(places, alloc, table, &section, start)?;
        }
        start = end;
    }
    Ok(())
}
