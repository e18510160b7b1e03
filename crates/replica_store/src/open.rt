//! Tests that a database is a replica's. No statement writes.

ghost use Rattle.std.specs.Prelude.{◌≡◌, ◌↔◌, ℕ, false, IsTrue, IfOk, OnOk, OnErr, Err};
ghost use Rattle.std.specs.List.{list_all};
ghost use Rattle.sqlite.specs.Held.{state, Serves};
ghost use Rattle.sqlite.specs.State.{HasCleanDisk, IsUnchanged};
ghost use Rattle.replica_store.specs.Causes.{CannotBegin, StoreHasCause};
ghost use Rattle.replica_store.specs.Layout.{replica_schema};
ghost use Rattle.replica_store.specs.Picture.{HasCursor, HoldsReplica, IsReplica};
ghost use Rattle.replica_store.specs.Reading.{AreRowRecords, HasTableColumns, is_shown_record};
ghost use Rattle.replica_store.specs.Steps.{
  WhereClean,
  Makes,
  AfterError,
  AddsNone,
  KeepsColumns,
  IsUndone,
  IsHandedBack,
};
ghost use Rattle.replica_store.specs.declared.error.ReplicaError.TheVariants.{Unusable};

use crate::error::{ReplicaError, reported};
use crate::layout::is_of_replica;
use crate::read::{is_blob_at, is_natural_at, only_mark, stored_marks, stored_rows};
use sqlite::{Alter, Connection, Row};

/// The connection. An open one with a replica's tables has their columns in each row, as it keeps
/// what its schema says.
pub(crate) fn with_columns<S: Alter>(conn: Connection<S>) -> Connection<S>
    ensures same { result ≡ conn }
    ensures columns { IsTrue (state S.Store conn).is_open → conn.schema ≡ replica_schema
        → HasTableColumns (state S.Store conn).now.trees }
{
    served(conn)
}

fn served<S: Alter>(conn: Connection<S>) -> Connection<S>
    ensures same { result ≡ conn }
    ensures serves { IsTrue (S.Store.view conn.store).is_open
        → Serves (S.Store.view conn.store) conn.schema }
{
    conn
}

/// Answers `Unusable` if the tables, a row or the mark aren't those of a replica.
pub(crate) fn check<S: Alter>(conn: &mut Connection<S>) -> Result<(), ReplicaError>
    requires { IsTrue (state S.Store conn.old).is_open → conn.old.schema ≡ replica_schema
        → HasTableColumns (state S.Store conn.old).now.trees }
    ensures held { HasCleanDisk (state S.Store conn.new) → OnOk result
        (HoldsReplica (state S.Store conn.new)
        × IsUnchanged (state S.Store conn.old) (state S.Store conn.new)) }
    ensures unusable { HasCleanDisk (state S.Store conn.new) → result ≡ Err Unusable
        → conn.old.schema ≡ replica_schema → IsReplica (state S.Store conn.old).now.trees → ⊥ }
    ensures back { OnErr result (IsHandedBack (state S.Store conn.old) (state S.Store conn.new)) }
    ensures survives { AddsNone (state S.Store conn.old) (state S.Store conn.new) }
    ensures cause { StoreHasCause result (CannotBegin (state S.Store conn.old))
        (state S.Store conn.old) (state S.Store conn.new) }
{
    if !conn.is_autocommit() {
        return Err(ReplicaError::Store);
    }
    if !is_of_replica(conn.schema()) {
        return Err(ReplicaError::Unusable);
    }
    if !is_replica(conn)? {
        return Err(ReplicaError::Unusable);
    }
    Ok(())
}

// whether what the tables store is a replica
fn is_replica<S: Alter>(conn: &mut Connection<S>) -> Result<bool, ReplicaError>
    requires schema { HasCleanDisk (state S.Store conn.old) → conn.old.schema ≡ replica_schema }
    requires columns { WhereClean KeepsColumns (state S.Store conn.old) }
    ensures fits { HasCleanDisk (state S.Store conn.new) → IfOk result (λ fits.
        IsTrue fits ↔ IsReplica (state S.Store conn.old).now.trees) }
    ensures same { Makes result IsUnchanged (state S.Store conn.old) (state S.Store conn.new) }
    ensures undone { AfterError result IsUndone (state S.Store conn.old) (state S.Store conn.new) }
    ensures mode { conn.old.in_transaction ≡ false → conn.new.in_transaction ≡ false }
    ensures named { result ≡ Err Unusable → ⊥ }
    ensures survives { AddsNone (state S.Store conn.old) (state S.Store conn.new) }
    ensures cause { StoreHasCause result ((state S.Store conn.old).is_open ≡ false)
        (state S.Store conn.old) (state S.Store conn.new) }
{
    let records = has_records(conn)?;
    let mark = has_mark(conn)?;
    Ok(records && mark)
}

// whether each stored row has a table's number, a key and a body
fn has_records<S: Alter>(conn: &mut Connection<S>) -> Result<bool, ReplicaError>
    requires schema { HasCleanDisk (state S.Store conn.old) → conn.old.schema ≡ replica_schema }
    requires columns { WhereClean KeepsColumns (state S.Store conn.old) }
    ensures fits { HasCleanDisk (state S.Store conn.new) → IfOk result (λ fits.
        IsTrue fits ↔ AreRowRecords ((state S.Store conn.old).now.trees 0)) }
    ensures same { Makes result IsUnchanged (state S.Store conn.old) (state S.Store conn.new) }
    ensures undone { AfterError result IsUndone (state S.Store conn.old) (state S.Store conn.new) }
    ensures mode { conn.old.in_transaction ≡ false → conn.new.in_transaction ≡ false }
    ensures named { result ≡ Err Unusable → ⊥ }
    ensures survives { AddsNone (state S.Store conn.old) (state S.Store conn.new) }
    ensures cause { StoreHasCause result ((state S.Store conn.old).is_open ≡ false)
        (state S.Store conn.old) (state S.Store conn.new) }
{
    let rows = reported(stored_rows(conn))?;
    Ok(are_records(&rows))
}

fn are_records(rows: &[Row]) -> bool
    ensures { result ≡ list_all is_shown_record rows.now }
{
    rows.iter().all(|row| is_record(row))
}

fn is_record(row: &Row) -> bool
    ensures { result ≡ is_shown_record row.now }
{
    is_natural_at(row, 0) && is_blob_at(row, 1) && is_blob_at(row, 2)
}

// whether there is one mark, with the id 1 and a place
fn has_mark<S: Alter>(conn: &mut Connection<S>) -> Result<bool, ReplicaError>
    requires schema { HasCleanDisk (state S.Store conn.old) → conn.old.schema ≡ replica_schema }
    requires columns { WhereClean KeepsColumns (state S.Store conn.old) }
    ensures fits { HasCleanDisk (state S.Store conn.new) → IfOk result (λ fits.
        IsTrue fits ↔ ((place : ℕ) × HasCursor (state S.Store conn.old).now.trees place)) }
    ensures same { Makes result IsUnchanged (state S.Store conn.old) (state S.Store conn.new) }
    ensures undone { AfterError result IsUndone (state S.Store conn.old) (state S.Store conn.new) }
    ensures mode { conn.old.in_transaction ≡ false → conn.new.in_transaction ≡ false }
    ensures named { result ≡ Err Unusable → ⊥ }
    ensures survives { AddsNone (state S.Store conn.old) (state S.Store conn.new) }
    ensures cause { StoreHasCause result ((state S.Store conn.old).is_open ≡ false)
        (state S.Store conn.old) (state S.Store conn.new) }
{
    let marks = reported(stored_marks(conn))?;
    Ok(only_mark(&marks).is_some())
}
