//! Workers: each plans the changes of its shard's keys.

ghost use Rattle.std.specs.Prelude.{◌≡◌, ◌<◌, ◌≤◌, ◌+◌, ◌^◌, ℕ, length, Some, Ok, OnOk, IfErr};
ghost use Rattle.std.specs.Prelude.{IfOk, Result, slice_index_or, vec_len};
ghost use Rattle.cs_apply.specs.declared.conflict.ApplyError.{ApplyError as Error};
ghost use Rattle.cs_apply.specs.Effect.{effect_by};
ghost use Rattle.cs_apply.specs.Errors.{ReportsConflict, ReportsKind};
ghost use Rattle.cs_apply.specs.Single.{changes_of};
ghost use Rattle.cs_model.specs.declared.row_key.RowKey.{RowKey as Key};
ghost use Rattle.cs_model.specs.Changeset.{IsChange, IsSection};
ghost use Rattle.cs_model.specs.Seen.{change_seen};
ghost use Rattle.par_apply.specs.declared.worker.ShardPlan.{ShardPlan as Part};
ghost use Rattle.par_apply.specs.Parts.{applied_part, effect_if_taken, part_from, section_part};
ghost use Rattle.par_apply.specs.RowChanges.{overlaid};
ghost use Rattle.par_apply.specs.Shards.{of_shard, shard_number};
ghost use Rattle.par_apply.specs.Splitting.{AreOfShard};
ghost use Rattle.par_apply.specs.Workers.{ReportsPart};

use crate::distinct::RowChange;
use crate::gate::Gate;
use crate::shard::Shard;
use crate::shard_rows::ShardRows;
use cs_apply::{ApplyError, ChangeError, Tables, row_after};
use cs_model::{ChangeRef, Changeset, RowKey, SectionRef, ShapeRef};
use std::alloc::{AllocError, Global};
use std::thread;
use std::thread::Threads;

/// The changes of one shard's rows.
#[derive(Debug, Drop)]
pub(crate) struct ShardPlan {
    pub(crate) changes: Vec<RowChange>,
}

// Changes the row of a key. An `Err` changes nothing.
fn change_row(
    rows: &mut ShardRows,
    alloc: Global,
    tables: &Tables,
    key: RowKey,
    shape: &ShapeRef,
    change: &ChangeRef,
) -> Result<(), ChangeError>
    requires { IsChange shape.now (change_seen change.now) }
    ensures ok { OnOk result (effect_by (change_seen change.now).op
        (overlaid tables.now.rows rows.old.rows.entries) key shape.now.flags
        (change_seen change.now).before (change_seen change.now).after
        ≡ Ok (overlaid tables.now.rows rows.new.rows.entries)) }
    ensures own { (shard : Key → ℕ) (i : ℕ) → shard key ≡ i
        → AreOfShard shard i rows.old.rows.entries → AreOfShard shard i rows.new.rows.entries }
    ensures refused { IfErr result (λ e. ReportsKind e (effect_by (change_seen change.now).op
        (overlaid tables.now.rows rows.old.rows.entries) key shape.now.flags
        (change_seen change.now).before (change_seen change.now).after)) }
{
    let row = row_after(alloc, shape, change, rows.row(tables, &key))?;
    rows.put(key, row)?;
    Ok(())
}

// Changes the row of a change's key, if the key is of the shard.
fn change_own(
    rows: &mut ShardRows,
    alloc: Global,
    tables: &Tables,
    table: usize,
    shape: &ShapeRef,
    change: &ChangeRef,
    shard: Shard,
) -> Result<(), ChangeError>
    requires fits { IsChange shape.now (change_seen change.now) }
    requires some { 0 < shard.n }
    requires few { shard.n ≤ 16 }
    ensures ok { OnOk result (effect_if_taken (Some table)
        (of_shard (shard_number shard.n) shard.number)
        (overlaid tables.now.rows rows.old.rows.entries) shape.now (change_seen change.now)
        ≡ Ok (overlaid tables.now.rows rows.new.rows.entries)) }
    ensures own { AreOfShard (shard_number shard.n) shard.number rows.old.rows.entries
        → AreOfShard (shard_number shard.n) shard.number rows.new.rows.entries }
    ensures refused { IfErr result (λ e. ReportsKind e (effect_if_taken (Some table)
        (of_shard (shard_number shard.n) shard.number)
        (overlaid tables.now.rows rows.old.rows.entries) shape.now (change_seen change.now))) }
{
    if !shard.takes(table, shape, change) {
        return Ok(());
    }
    let key = RowKey::of(alloc, table, shape, change)?;
    change_row(rows, alloc, tables, key, shape, change)
}

// The changes of one section of a kept table that are of the shard. The first change of all is at
// position `start`.
fn change_section(
    rows: &mut ShardRows,
    alloc: Global,
    tables: &Tables,
    table: usize,
    section: &SectionRef,
    start: usize,
    shard: Shard,
) -> Result<(), ApplyError>
    requires counted { start + length section.now.changes < 2 ^ 64 }
    requires fits { IsSection section.now }
    requires some { 0 < shard.n }
    requires few { shard.n ≤ 16 }
    ensures ok { OnOk result (section_part table section.now.shape
        (of_shard (shard_number shard.n) shard.number) section.now.changes start
        (overlaid tables.now.rows rows.old.rows.entries)
        ≡ Ok (overlaid tables.now.rows rows.new.rows.entries)) }
    ensures own { AreOfShard (shard_number shard.n) shard.number rows.old.rows.entries
        → AreOfShard (shard_number shard.n) shard.number rows.new.rows.entries }
    ensures refused { IfErr result (λ e. ReportsConflict e (section_part table section.now.shape
        (of_shard (shard_number shard.n) shard.number) section.now.changes start
        (overlaid tables.now.rows rows.old.rows.entries))) }
{
    let shape = section.shape();
    let mut position = start;
    for change in section.changes() {
        if let Err(error) = change_own(rows, alloc, tables, table, &shape, &change, shard) {
            return Err(error.at(position));
        }
        position += 1;
    }
    Ok(())
}

// The changes of all sections that are of the shard, without those of tables that aren't kept.
fn change_all(
    rows: &mut ShardRows,
    alloc: Global,
    tables: &Tables,
    changeset: &Changeset,
    shard: Shard,
) -> Result<(), ApplyError>
    requires some { 0 < shard.n }
    requires few { shard.n ≤ 16 }
    ensures ok { OnOk result (part_from tables.now.schema tables.now.kept
        (of_shard (shard_number shard.n) shard.number) (changes_of changeset.now) 0
        (overlaid tables.now.rows rows.old.rows.entries)
        ≡ Ok (overlaid tables.now.rows rows.new.rows.entries)) }
    ensures own { AreOfShard (shard_number shard.n) shard.number rows.old.rows.entries
        → AreOfShard (shard_number shard.n) shard.number rows.new.rows.entries }
    ensures refused { IfErr result (λ e. ReportsConflict e (part_from tables.now.schema
        tables.now.kept (of_shard (shard_number shard.n) shard.number) (changes_of changeset.now)
        0 (overlaid tables.now.rows rows.old.rows.entries))) }
{
    let mut start: usize = 0;
    for section in changeset.iter() {
        // no memory holds more changes than a `usize` counts
        let Some(end) = start.checked_add(section.len()) else {
            return Err(ApplyError::Memory);
        };
        if let Some(table) = tables.kept_table(&section.shape()) {
            change_section(rows, alloc, tables, table, &section, start, shard)?;
        }
        start = end;
    }
    Ok(())
}

// Plans one shard: the changes of its rows, or the first conflict of its changes.
fn plan_shard(
    alloc: Global,
    tables: &Tables,
    changeset: &Changeset,
    shard: Shard,
) -> Result<ShardPlan, ApplyError>
    requires some { 0 < shard.n }
    requires few { shard.n ≤ 16 }
    ensures { ReportsPart (shard_number shard.n) shard.number tables.now.rows result
        (applied_part tables.now (of_shard (shard_number shard.n) shard.number) changeset.now) }
{
    let mut rows = ShardRows::new(alloc);
    change_all(&mut rows, alloc, tables, changeset, shard)?;
    let Ok(changes) = rows.changes(alloc, tables) else {
        return Err(ApplyError::Memory);
    };
    Ok(ShardPlan { changes })
}

/// Plans all shards, each in a thread of its own: one of them in the caller's. The tables are only
/// read.
pub(crate) fn plan_shards<R: Threads + Sync, G: Gate>(
    rt: &R,
    alloc: Global,
    tables: &Tables,
    changeset: &Changeset,
    n: usize,
    gate: &G,
) -> Result<Vec<Result<ShardPlan, ApplyError>>, AllocError>
    requires some { 0 < n }
    requires few { n ≤ 16 }
    ensures len { IfOk result (λ answers. vec_len answers ≡ n) }
    ensures each { IfOk result (λ answers. (i : ℕ) (d : Result Part Error) → i < n
        → ReportsPart (shard_number n) i tables.now.rows (slice_index_or answers.items i d)
        (applied_part tables.now (of_shard (shard_number n) i) changeset.now)) }
{
    thread::map_indices(
        rt,
        alloc,
        n,
        &move |number: usize| -> Result<ShardPlan, ApplyError>
            requires some { 0 < n }
            requires few { n ≤ 16 }
            ensures { ReportsPart (shard_number n) number tables.entry.now.rows result
                (applied_part tables.entry.now (of_shard (shard_number n) number)
                changeset.entry.now) }
        {
            gate.enter(number);
            plan_shard(alloc, tables, changeset, Shard { number, n })
        },
    )
}
