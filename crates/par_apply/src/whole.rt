//! `apply_split`: plans, stages and commits in one call.

ghost use Rattle.std.specs.Prelude.{◌≡◌, ◌<◌, ◌≤◌, Ok, OnOk, OnErr, IfErr};
ghost use Rattle.cs_apply.specs.declared.conflict.ApplyError.TheVariants.{Memory};
ghost use Rattle.cs_apply.specs.Errors.{ReportsConflict};
ghost use Rattle.cs_apply.specs.Single.{single};
ghost use Rattle.par_apply.specs.Planned.{IsPlanOf, planned_changes};

use crate::gate::Gate;
use crate::planned::{RowPlan, plan_changes};
use crate::staged::stage;
use cs_apply::{ApplyError, Tables};
use cs_model::Changeset;
use std::alloc::Global;
use std::thread::Threads;

/// Applies all changes of a changeset, as `Tables::apply` does, by `n` workers, from 1 to 16. With
/// one worker it is `Tables::apply`. The tables, the first conflict and its position are the same
/// for every `n`.
///
/// Returns the first conflict, or `Memory` if memory runs out. An `Err` does not change the tables.
pub fn apply_split<R: Threads + Sync, G: Gate>(
    rt: &R,
    alloc: Global,
    tables: &mut Tables,
    changeset: &Changeset,
    n: usize,
    gate: &G,
) -> Result<(), ApplyError>
    requires some { 0 < n }
    requires few { n ≤ 16 }
    ensures ok { OnOk result (single tables.old changeset.now ≡ Ok tables.new) }
    ensures refused { IfErr result (λ e. ReportsConflict e (single tables.old changeset.now)) }
    ensures err { OnErr result (tables.new ≡ tables.old) }
{
    if n == 1 {
        gate.enter(0);
        return tables.apply(alloc, changeset);
    }
    let plan = plan_changes(rt, alloc, tables, changeset, n, gate)?;
    commit(alloc, tables, changeset, plan)
}

// Stages and commits the plan of a changeset. An `Err` does not change the tables.
fn commit(
    alloc: Global,
    tables: &mut Tables,
    changeset: &Changeset,
    plan: RowPlan,
) -> Result<(), ApplyError>
    requires { IsPlanOf tables.old changeset.now (planned_changes plan) }
    ensures ok { OnOk result (single tables.old changeset.now ≡ Ok tables.new) }
    ensures memory { IfErr result (λ e. e ≡ Memory) }
    ensures err { OnErr result (tables.new ≡ tables.old) }
{
    let places = tables.places_mut();
    match stage(alloc, places, plan) {
        Ok(staged) => {
            staged.commit(places);
            return Ok(());
        }
        Err(_) => return Err(ApplyError::Memory),
    }
}
