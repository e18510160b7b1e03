//! A durable store of rows and a cursor, and a plan that is committed to it and to tables.

ghost use Rattle.std.specs.Prelude.{◌≡◌, ℕ, OnOk, OnErr};
ghost use Rattle.cs_apply.specs.State.{Rows};
ghost use Rattle.par_apply.specs.Durable.{IfRefused, IfNotAsked, changed_tables};
ghost use Rattle.par_apply.specs.{Planned.{RowsFit, planned_changes}, RowChanges.{overlaid}};
ghost use Rattle.par_apply.specs.Staged.{changed_places};

use crate::distinct::RowChange;
use crate::planned::RowPlan;
use crate::staged::stage;
use cs_apply::{HeldTables, Tables};
use std::alloc::Global;

/// A store that keeps the rows of tables and a cursor together over a crash.
pub trait DurableRows {
    ghost use Rattle.std.specs.{Prelude.{◌≡◌, ℕ, IfErr, OnOk}, List.{IsDistinct}, Map.{keys_of}};
    ghost use Rattle.cs_apply.specs.{SameKey.{same_key}, State.{Rows}};
    ghost use Rattle.par_apply.specs.RowChanges.{RowChanges, overlaid};

    /// The store has these rows with this cursor, and a crash leaves them.
    ghost keeps: { Self → Rows → ℕ → Type 0 };

    /// A crash leaves the first rows with the first cursor, or the second rows with the second
    /// cursor.
    ghost leaves: { Self → Rows → ℕ → Rows → ℕ → Type 0 };

    /// Why the last commit returned this error: the store before it, its changes and its cursor,
    /// the store after it, and the error.
    ghost failed: { Self → RowChanges → ℕ → Self → Self.Error → Type 0 };

    /// Why it did not commit.
    type Error: Drop;

    /// Makes the changes of rows and sets the cursor, both or neither. Whenever it returns, with an
    /// error too, a crash leaves the rows and the cursor as before the call, or all of them as
    /// after it; after `Ok`, as after it. After an error, open the store again.
    fn commit(&mut self, changes: &[RowChange], cursor: u64) -> Result<(), Self::Error>
        requires kept { (rows : Rows) × (at : ℕ) × keeps self.old rows at }
        requires distinct { IsDistinct same_key (keys_of changes.now) }
        ensures ok { (rows : Rows) (at : ℕ) → keeps self.old rows at
            → OnOk result (keeps self.new (overlaid rows changes.now) cursor) }
        ensures leaves { (rows : Rows) (at : ℕ) → keeps self.old rows at
            → leaves self.new rows at (overlaid rows changes.now) cursor }
        ensures failed { IfErr result (failed self.old changes.now cursor self.new) };
}

/// Why `commit_durably` did not commit. The tables are as before the call.
#[derive(Debug, Drop)]
pub enum RefusedCommit<E> {
    /// Memory ran out. The store wasn't asked.
    Memory,
    /// The store answered with this error. It has the rows and the cursor from before the call, or
    /// those after it. The plan comes back.
    Store(RowPlan, E),
}

/// Commits a plan to a store with the rows of these tables, and then to the tables. All memory that
/// the tables need is allocated before the store is asked, so they never miss what the store has.
pub fn commit_durably<S: DurableRows>(
    alloc: Global,
    tables: &mut Tables,
    store: &mut S,
    plan: RowPlan,
    cursor: u64,
) -> Result<(), RefusedCommit<S::Error>>
    requires fit { RowsFit tables.old (planned_changes plan) }
    requires kept { (at : ℕ) × S.keeps store.old tables.old.rows at }
    ensures ok { OnOk result (tables.new ≡ changed_tables tables.old (planned_changes plan)) }
    ensures kept { OnOk result (S.keeps store.new tables.new.rows cursor) }
    ensures err { OnErr result (tables.new ≡ tables.old) }
    ensures unasked { IfNotAsked result (store.new ≡ store.old) }
    ensures failed { IfRefused result (λ _ why.
        S.failed store.old (planned_changes plan) cursor store.new why) }
    ensures returned { IfRefused result
        (λ back _. planned_changes back ≡ planned_changes plan) }
    ensures leaves { IfRefused result (λ _ _. (at : ℕ) → S.keeps store.old tables.old.rows at
        → S.leaves store.new tables.old.rows at
        (overlaid tables.old.rows (planned_changes plan)) cursor) }
{
    commit_places(alloc, tables.places_mut(), store, plan, cursor)
}

// The same of tables with their places, which the contract of `Tables` can't name. After an error
// each key has a place, or none, as before the call. After `Ok` no key of the plan has a place
// without a row.
fn commit_places<S: DurableRows>(
    alloc: Global,
    tables: &mut HeldTables,
    store: &mut S,
    plan: RowPlan,
    cursor: u64,
) -> Result<(), RefusedCommit<S::Error>>
    requires fit { RowsFit tables.old.state (planned_changes plan) }
    requires kept { (at : ℕ) × S.keeps store.old tables.old.state.rows at }
    ensures ok { OnOk result (tables.new ≡ changed_places tables.old (planned_changes plan)) }
    ensures changed { OnOk result
        (tables.new.state ≡ changed_tables tables.old.state (planned_changes plan)) }
    ensures kept { OnOk result (S.keeps store.new tables.new.state.rows cursor) }
    ensures err { OnErr result (tables.new ≡ tables.old) }
    ensures unasked { IfNotAsked result (store.new ≡ store.old) }
    ensures failed { IfRefused result (λ _ why.
        S.failed store.old (planned_changes plan) cursor store.new why) }
    ensures returned { IfRefused result
        (λ back _. planned_changes back ≡ planned_changes plan) }
    ensures leaves { IfRefused result (λ _ _. (at : ℕ) → S.keeps store.old tables.old.state.rows at
        → S.leaves store.new tables.old.state.rows at
        (overlaid tables.old.state.rows (planned_changes plan)) cursor) }
{
    let Ok(staged) = stage(alloc, tables, plan) else {
        return Err(RefusedCommit::Memory);
    };
    match store.commit(staged.changes(), cursor) {
        Ok(()) => {
            staged.commit(tables);
            Ok(())
        }
        Err(why) => Err(RefusedCommit::Store(staged.undo(tables), why)),
    }
}
