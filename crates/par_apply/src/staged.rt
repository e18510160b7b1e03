//! `StagedPlan`: a plan whose keys all have places, so that it can be committed without allocation.

ghost use Rattle.std.specs.Prelude.{◌≡◌, ◌<◌, ◌++◌, ◌∷◌, [], Some, IfOk, IfErr, OnOk};
ghost use Rattle.std.specs.Prelude.{OnErr, if◌then◌else◌, slice_get, vec_len};
ghost use Rattle.std.specs.{List.{IsDistinct}, Map.{keys_of}, Vec.{vec_capacity}};
ghost use Rattle.cs_apply.specs.{Held.{CanHoldRow, KeyHasPlace, with_row}, SameKey.{same_key}};
ghost use Rattle.cs_model.specs.declared.row_key.RowKey.{RowKey as Key};
ghost use Rattle.par_apply.specs.Planned.{FitsAtKey, RowsFit, planned_changes};
ghost use Rattle.par_apply.specs.RowChanges.{RowChanges, overlaid};
ghost use Rattle.par_apply.specs.Staged.{CanHoldAll, changed_places, changes_staged, unstaged};
ghost use Rattle.par_apply.specs.Staged.{without_change, without_places};

use crate::distinct::{DistinctChanges, RowChange};
use crate::planned::RowPlan;
use cs_apply::HeldTables;
use cs_model::{CopyIn, Row, RowKey};
use std::alloc::{AllocError, Global};
use thiserror::Error;

/// A plan whose new keys have places. `commit` or `undo` takes it; nothing else lets it go.
#[derive(Debug)]
pub struct StagedPlan {
    changes: DistinctChanges,
    // the indices of the changes whose places staging made
    made: Vec<usize>,
}

/// Out of memory in `stage`, and the plan.
#[derive(Debug, Drop, Error)]
#[error("out of memory")]
pub struct RefusedStage {
    pub plan: RowPlan,
}

impl StagedPlan {
    /// The changes, in the plan's order.
    pub fn changes(&self) -> &[RowChange]
        ensures changes { result.now ≡ changes_staged self.now }
        ensures distinct { IsDistinct same_key (keys_of (changes_staged self.now)) }
    {
        &self.changes.list
    }

    /// Makes the changes: each key gets its row, or neither a row nor a place. Does not allocate.
    pub fn commit(self, tables: &mut HeldTables)
        requires ready { CanHoldAll tables.old (changes_staged self) }
        ensures state { tables.new.state ≡ record tables.old.state {
          rows = overlaid tables.old.state.rows (changes_staged self);
        } }
        ensures places { tables.new ≡ changed_places tables.old (changes_staged self) }
    {
        let StagedPlan { changes, made: _ } = self;
        change_all(tables, changes.list);
    }

    /// Takes away the places that `stage` made, and hands the plan back. Does not allocate.
    pub fn undo(self, tables: &mut HeldTables) -> RowPlan
        ensures tables { tables.new ≡ unstaged tables.old self }
        ensures plan { planned_changes result ≡ changes_staged self }
    {
        let StagedPlan { changes, made } = self;
        take_back(tables, &changes.list, made);
        RowPlan { changes }
    }
}

/// Makes a place for each key of the plan that gets a row and has no place. Then
/// `StagedPlan::commit` needs no memory, and `StagedPlan::undo` gives back the tables as they were.
///
/// If memory runs out, the tables are unchanged, and `RefusedStage` hands the plan back.
pub fn stage(
    alloc: Global,
    tables: &mut HeldTables,
    plan: RowPlan,
) -> Result<StagedPlan, RefusedStage>
    requires { RowsFit tables.old.state (planned_changes plan) }
    ensures changes { IfOk result (λ staged. changes_staged staged ≡ planned_changes plan) }
    ensures state { OnOk result (tables.new.state ≡ tables.old.state) }
    ensures ready { IfOk result (λ staged. CanHoldAll tables.new (changes_staged staged)) }
    ensures back { IfOk result (λ staged. unstaged tables.new staged ≡ tables.old) }
    ensures unchanged { OnErr result (tables.new ≡ tables.old) }
    ensures returned { IfErr result (λ e. planned_changes e.plan ≡ planned_changes plan) }
{
    let mut made = Vec::new(alloc);
    if hold_all(alloc, tables, &plan.changes.list, &mut made).is_err() {
        take_back(tables, &plan.changes.list, made);
        return Err(RefusedStage { plan });
    }
    let RowPlan { changes } = plan;
    Ok(StagedPlan { changes, made })
}

// Makes a place for each key that gets a row, and notes which it made. An `Err` keeps them.
fn hold_all(
    alloc: Global,
    tables: &mut HeldTables,
    changes: &[RowChange],
    made: &mut Vec<usize>,
) -> Result<(), AllocError>
    requires none { made.old.items ≡ [] }
    requires fit { RowsFit tables.old.state changes.now }
    ensures state { tables.new.state ≡ tables.old.state }
    ensures ready { OnOk result (CanHoldAll tables.new changes.now) }
    ensures back { without_places tables.new changes.now made.new.items ≡ tables.old }
{
    for index in 0..changes.len() {
        hold_change(alloc, tables, made, index, &changes[index])?;
    }
    Ok(())
}

// Makes a place for the key of a change, if it gets a row, and notes the index of the change if the
// key had none. An `Err` changes nothing.
fn hold_change(
    alloc: Global,
    tables: &mut HeldTables,
    made: &mut Vec<usize>,
    index: usize,
    change: &RowChange,
) -> Result<(), AllocError>
    requires { FitsAtKey tables.old.state change.now }
    ensures state { tables.new.state ≡ tables.old.state }
    ensures ready { OnOk result (CanHoldRow tables.new change.now) }
    ensures stays { (other : Key) → KeyHasPlace tables.old other → KeyHasPlace tables.new other }
    ensures back { (changes : RowChanges) → slice_get changes index ≡ Some change.now
        → without_places tables.new changes made.new.items
        ≡ without_places tables.old changes made.old.items }
{
    let (key, row) = change;
    if row.is_none() {
        return Ok(());
    }
    made.reserve(1)?;
    let own = key.copy_in(alloc)?;
    let is_new = tables.hold(own)?;
    note(made, index, is_new);
    Ok(())
}

// Notes the index of a change, if its place is new. Does not allocate.
fn note(made: &mut Vec<usize>, index: usize, is_new: bool)
    requires { vec_len made.old < vec_capacity made.old }
    ensures { made.new.items ≡ made.old.items ++ (if is_new then index ∷ [] else []) }
{
    if is_new {
        made.push_reserved(index);
    }
}

// Takes out the keys of the changes at these indices, from the last on. Does not allocate.
fn take_back(tables: &mut HeldTables, changes: &[RowChange], made: Vec<usize>)
    ensures { tables.new ≡ without_places tables.old changes.now made.items }
{
    let mut rest = made;
    while let Some(index) = rest.pop() {
        take_out(tables, changes, index);
    }
}

// Takes out the key of the change at an index, if there is one.
fn take_out(tables: &mut HeldTables, changes: &[RowChange], index: usize)
    ensures { tables.new ≡ without_change tables.old (slice_get changes.now index) }
{
    if let Some((key, _)) = changes.get(index) {
        tables.unset(key);
    }
}

// Gives each key its row, or takes it out, from the last change on. Does not allocate.
fn change_all(tables: &mut HeldTables, changes: Vec<RowChange>)
    requires ready { CanHoldAll tables.old changes.items }
    requires distinct { IsDistinct same_key (keys_of changes.items) }
    ensures { tables.new ≡ changed_places tables.old changes.items }
{
    let mut rest = changes;
    while let Some((key, row)) = rest.pop() {
        change_one(tables, &key, row);
    }
}

// Gives a key its row, or takes it out with its place. Does not allocate.
fn change_one(tables: &mut HeldTables, key: &RowKey, row: Option<Row>)
    requires { CanHoldRow tables.old (key.now, row) }
    ensures { tables.new ≡ with_row tables.old key.now row }
{
    match row {
        Some(row) => tables.set(key, row),
        None => tables.unset(key),
    }
}
