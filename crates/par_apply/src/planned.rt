//! `RowPlan`: the changes of rows that a changeset makes, or its first conflict.

ghost use Rattle.std.specs.Prelude.{◌≡◌, ◌<◌, ◌≤◌, ◌⊎◌, None, Some, IfOk, IfErr};
ghost use Rattle.std.specs.{Bool.{Decides}, List.{IsDistinct}, Map.{keys_of}};
ghost use Rattle.cs_apply.specs.declared.conflict.ApplyError.TheVariants.{Memory};
ghost use Rattle.cs_apply.specs.Errors.{ReportsConflict};
ghost use Rattle.cs_apply.specs.{SameKey.{same_key}, Single.{single}};
ghost use Rattle.par_apply.specs.Durable.{changed_tables};
ghost use Rattle.par_apply.specs.Planned.{IsPlanOf, planned_changes};
ghost use Rattle.par_apply.specs.Workers.{first_error, first_error_from, changes_answered};

use crate::distinct::{DistinctChanges, RowChange};
use crate::gate::Gate;
use crate::worker::{ShardPlan, plan_shards};
use cs_apply::laws::rows_keep_columns;
use cs_apply::{ApplyError, Tables};
use cs_model::Changeset;
use std::alloc::Global;
use std::thread::Threads;

/// The changes of rows that a changeset makes: one for each key whose row is another one in the
/// end. `stage` takes it.
#[derive(Debug, Drop)]
pub struct RowPlan {
    pub(crate) changes: DistinctChanges,
}

impl RowPlan {
    /// The changes, each of another key. Their order means nothing.
    pub fn changes(&self) -> &[RowChange]
        ensures changes { result.now ≡ planned_changes self.now }
        ensures distinct { IsDistinct same_key (keys_of (planned_changes self.now)) }
    {
        &self.changes.list
    }

    /// Whether the tables `after` are the tables `before` with these changes made. Compares row by
    /// row, and does not allocate.
    pub fn leads(&self, before: &Tables, after: &Tables) -> bool
        ensures { Decides result
            (after.now ≡ changed_tables before.now (planned_changes self.now)) }
    {
        before.is_changed_to(self.changes(), after)
    }
}

// The first error so far, and what one worker answers.
fn first_error(
    best: Option<ApplyError>,
    answer: &Result<ShardPlan, ApplyError>,
) -> Option<ApplyError>
    ensures { result ≡ first_error best answer.now }
{
    let Err(error) = answer else {
        return best;
    };
    match (best, *error) {
        (None, error) => Some(error),
        (Some(ApplyError::Conflict(a)), ApplyError::Conflict(b)) => {
            let first = if b.position < a.position { b } else { a };
            Some(ApplyError::Conflict(first))
        }
        _ => Some(ApplyError::Memory),
    }
}

// The first error of all workers, if there is one.
fn first_error_of(answers: &[Result<ShardPlan, ApplyError>]) -> Option<ApplyError>
    ensures { result ≡ first_error_from None answers.now }
{
    let mut best = None;
    for answer in answers {
        best = first_error(best, answer);
    }
    best
}

// The changes of all workers, or the first error.
fn gathered(
    alloc: Global,
    answers: Vec<Result<ShardPlan, ApplyError>>,
) -> Result<RowPlan, ApplyError>
    requires { first_error_from None answers.items ≡ None
        → IsDistinct same_key (keys_of (changes_answered answers.items)) }
    ensures ok { IfOk result (λ plan. (first_error_from None answers.items ≡ None)
        × (planned_changes plan ≡ changes_answered answers.items)) }
    ensures refused { IfErr result (λ e. (e ≡ Memory)
        ⊎ (first_error_from None answers.items ≡ Some e)) }
{
    if let Some(error) = first_error_of(&answers) {
        return Err(error);
    }
    let mut list = Vec::new(alloc);
    for answer in answers {
        let Ok(mut part) = answer else {
            return Err(ApplyError::Memory);
        };
        if list.append(&mut part.changes).is_err() {
            return Err(ApplyError::Memory);
        }
    }
    let changes = DistinctChanges { list };
    Ok(RowPlan { changes })
}

/// Plans a changeset by `n` workers, from 1 to 16. Each has the keys of its shard (`shard_of`), and
/// a thread of its own; with one worker no thread is started. The tables are only read.
///
/// Returns the changes of rows that `Tables::apply` would make, or the first conflict that it would
/// return. `Memory` comes if memory runs out, for any worker.
pub fn plan_changes<R: Threads + Sync, G: Gate>(
    rt: &R,
    alloc: Global,
    tables: &Tables,
    changeset: &Changeset,
    n: usize,
    gate: &G,
) -> Result<RowPlan, ApplyError>
    requires some { 0 < n }
    requires few { n ≤ 16 }
    ensures ok { IfOk result (λ plan.
        IsPlanOf tables.now changeset.now (planned_changes plan)) }
    ensures refused { IfErr result (λ e. ReportsConflict e (single tables.now changeset.now)) }
{
    rows_keep_columns();
    // for what their clauses say: each row has its columns, and the changeset is one
    let _schema = tables.schema();
    let _sections = changeset.iter();
    let Ok(answers) = plan_shards(rt, alloc, tables, changeset, n, gate) else {
        return Err(ApplyError::Memory);
    };
    gathered(alloc, answers)
}
