//! An endpoint that accepts into a durable store: the store commits first, then the tables.

ghost use Rattle.std.specs.{
  Prelude.{◌≡◌, ◌≤◌, ◌∷◌, [], true, false, Ok, OnOk, IfErr, IfOk, IfSome},
  List.{AllByRecursion, IsDistinct},
  Map.{keys_of},
};
ghost use Rattle.cs_apply.specs.{
  declared.conflict.ApplyError.TheVariants.{Memory},
  Errors.{ReportsConflict},
  SameKey.{same_key},
  Single.{single},
};
ghost use Rattle.cs_group.specs.Group.{group_of};
ghost use Rattle.par_apply.specs.{
  Durable.{changed_tables},
  Planned.{RowsFit, planned_changes},
  RowChanges.{overlaid},
};
ghost use Rattle.rb_subscriber.specs.{
  Accept.{
    ConflictsSingly,
    HasSingleTables,
    IsAdmitted,
    LeavesSingly,
    accept_brought,
    joined_bodies,
  },
  Durable.{
    IfStoreError,
    IfStoreFailed,
    IfStoreUnasked,
    KeepAnswers,
    IsNoRefusal,
    OnKeepConflict,
    PlansGroup,
  },
};

use crate::applier::Workers;
use crate::apply::{combined, only};
use crate::brought::Brought;
use crate::endpoint::Endpoint;
use crate::laws::{accepted_apply_singly, conflicts_are_single};
use crate::refusal::AcceptRefusal;
use cs_apply::{ApplyError, Tables};
use cs_group::laws::groups_apply;
use cs_model::Changeset;
use par_apply::laws::plans_apply;
use par_apply::{DurableRows, Gate, RefusedCommit, RowPlan, commit_durably, plan_changes};
use rb_desk::Delivery;
use rb_sequence::Entry;
use std::alloc::Global;
use std::thread::Threads;

/// What stops `Endpoint::accept_kept`.
#[derive(Debug, Drop)]
pub(crate) enum KeepError<E> {
    /// The delivery is refused. Neither the endpoint nor the store changes.
    Refused(AcceptRefusal),
    /// Memory ran out. Neither the endpoint nor the store changes.
    Memory,
    /// The store failed with this error: the endpoint has fallen. This is the plan of the accept.
    Store(RowPlan, E),
}

impl Endpoint {
    /// Accepts a delivery that brings these entries, as `accept` does, and commits it to a store
    /// with this endpoint's rows and cursor: to the store first, then to its tables. If the store
    /// fails, the endpoint falls.
    #[tactic(auto, unfolding(crate::specs::Accept::accept_brought))]
    pub(crate) fn accept_kept<E: Brought, R: Threads + Sync, G: Gate, S: DurableRows>(
        &mut self,
        workers: &Workers<R, G>,
        alloc: Global,
        entries: &E,
        store: &mut S,
        delivery: &Delivery,
    ) -> Result<u64, KeepError<S::Error>>
        requires kept { self.old.fallen ≡ false
            → S.keeps store.old self.old.tables.rows self.old.cursor }
        ensures answers { KeepAnswers result
            (accept_brought self.old (E.entries entries.now) delivery.now) self.old self.new }
        ensures singly { LeavesSingly result self.old (E.entries entries.now) self.new }
        ensures conflicts { OnKeepConflict result
            (ConflictsSingly self.old.tables (E.entries entries.now)) }
        ensures fit { IfStoreFailed result (λ plan.
            RowsFit self.old.tables (planned_changes plan)) }
        ensures distinct { IfStoreFailed result (λ plan.
            IsDistinct same_key (keys_of (planned_changes plan))) }
        ensures pending { IfStoreFailed result (λ plan.
            HasSingleTables self.old.tables (E.entries entries.now)
            (changed_tables self.old.tables (planned_changes plan))) }
        ensures kept { OnOk result (S.keeps store.new self.new.tables.rows self.new.cursor) }
        ensures leaves { IfStoreFailed result (λ plan.
            S.leaves store.new self.old.tables.rows self.old.cursor
            (overlaid self.old.tables.rows (planned_changes plan)) delivery.now.last) }
        ensures failed { IfStoreError result (λ plan why. S.failed store.old
            (planned_changes plan) delivery.now.last store.new why) }
        ensures unasked { IfStoreUnasked result (store.new ≡ store.old) }
    {
        accepted_apply_singly();
        conflicts_are_single();
        if let Some(why) = self.refuses_entries(entries, delivery) {
            return Err(KeepError::Refused(why));
        }
        let plan = match plan(workers, alloc, &self.tables, entries) {
            Ok(plan) => plan,
            Err(ApplyError::Conflict(why)) => {
                return Err(KeepError::Refused(AcceptRefusal::Conflict(why)));
            }
            Err(ApplyError::Memory) => return Err(KeepError::Memory),
        };
        self.commit_kept(alloc, store, plan, delivery.last())
    }

    // Commits the plan of an accept to the store, then to the tables, and moves the cursor. If the
    // store fails, the endpoint falls.
    fn commit_kept<S: DurableRows>(
        &mut self,
        alloc: Global,
        store: &mut S,
        plan: RowPlan,
        last: u64,
    ) -> Result<u64, KeepError<S::Error>>
        requires kept { S.keeps store.old self.old.tables.rows self.old.cursor }
        requires fit { RowsFit self.old.tables (planned_changes plan) }
        requires order { self.old.cursor ≤ last }
        ensures ok { IfOk result (λ cursor. (cursor ≡ last) × (self.new ≡ record self.old {
          cursor = last;
          tables = changed_tables self.old.tables (planned_changes plan);
        })) }
        ensures kept { OnOk result (S.keeps store.new self.new.tables.rows self.new.cursor) }
        ensures memory { IfErr result IsNoRefusal }
        ensures same { IfStoreUnasked result (self.new ≡ self.old) }
        ensures unasked { IfStoreUnasked result (store.new ≡ store.old) }
        ensures fell { IfStoreFailed result (λ back.
            (planned_changes back ≡ planned_changes plan)
            × (self.new ≡ record self.old { fallen = true })) }
        ensures leaves { IfStoreFailed result (λ back.
            S.leaves store.new self.old.tables.rows self.old.cursor
            (overlaid self.old.tables.rows (planned_changes back)) last) }
        ensures failed { IfStoreError result (λ back why. S.failed store.old
            (planned_changes back) last store.new why) }
    {
        match commit_durably(alloc, &mut self.tables, store, plan, last) {
            Ok(()) => {
                self.cursor = last;
                Ok(last)
            }
            Err(RefusedCommit::Memory) => Err(KeepError::Memory),
            Err(RefusedCommit::Store(plan, why)) => {
                self.fallen = true;
                Err(KeepError::Store(plan, why))
            }
        }
    }
}

/// The plan of the group of the bodies of entries, or its first conflict. A single body is planned
/// as it is, and grouped only if it conflicts: its group makes the same changes.
fn plan<E: Brought, R: Threads + Sync, G: Gate>(
    workers: &Workers<R, G>,
    alloc: Global,
    tables: &Tables,
    entries: &E,
) -> Result<RowPlan, ApplyError>
    requires { AllByRecursion (IsAdmitted tables.now.schema) (E.entries entries.now) }
    ensures ok { IfOk result (λ plan.
        PlansGroup tables.now (E.entries entries.now) (planned_changes plan)) }
    ensures refused { IfErr result (λ e.
        ReportsConflict e (single tables.now (group_of (joined_bodies (E.entries entries.now))))) }
{
    if let Some(entry) = only(entries)
        && let Some(answer) = plan_alone(workers, alloc, tables, entry)
    {
        return answer;
    }
    let Ok(changeset) = combined(alloc, tables.schema(), entries) else {
        return Err(ApplyError::Memory);
    };
    plan_by(workers, alloc, tables, &changeset)
}

// The plan of a body as it is, for its group; nothing if it conflicts.
fn plan_alone<R: Threads + Sync, G: Gate>(
    workers: &Workers<R, G>,
    alloc: Global,
    tables: &Tables,
    entry: &Entry,
) -> Option<Result<RowPlan, ApplyError>>
    ensures ok { IfSome result (λ answer. IfOk answer (λ plan.
        PlansGroup tables.now (entry.now ∷ []) (planned_changes plan))) }
    ensures memory { IfSome result (λ answer. IfErr answer (λ e. e ≡ Memory)) }
{
    groups_apply();
    // for what their clauses say: each row has its columns, and the body is a changeset
    let (_schema, _sections) = (tables.schema(), entry.body().iter());
    match plan_by(workers, alloc, tables, entry.body()) {
        Ok(plan) => Some(Ok(plan)),
        Err(ApplyError::Conflict(_)) => None,
        Err(ApplyError::Memory) => Some(Err(ApplyError::Memory)),
    }
}

// The plan of a changeset by these workers, or its first conflict.
fn plan_by<R: Threads + Sync, G: Gate>(
    workers: &Workers<R, G>,
    alloc: Global,
    tables: &Tables,
    changeset: &Changeset,
) -> Result<RowPlan, ApplyError>
    ensures ok { IfOk result (λ plan. (single tables.now changeset.now
        ≡ Ok (changed_tables tables.now (planned_changes plan)))
        × IsDistinct same_key (keys_of (planned_changes plan))
        × RowsFit tables.now (planned_changes plan)) }
    ensures refused { IfErr result (λ e. ReportsConflict e (single tables.now changeset.now)) }
{
    plans_apply();
    let (rt, n, gate) = (workers.rt, workers.n, workers.gate);
    plan_changes(rt, alloc, tables, changeset, n, gate)
}
