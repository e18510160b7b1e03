//! Loads the rows that a replica stores into tables.

ghost use Rattle.std.specs.Prelude.{◌≡◌, ◌≢◌, IfOk, IfErr, OnOk, Err, true, length, replicate};
ghost use Rattle.std.specs.Arc.{arc_value};
ghost use Rattle.std.specs.FinMap as map;
ghost use Rattle.cs_apply.specs.Held.{FitsKey};
ghost use Rattle.replica_store.specs.Changes.{row_body};
ghost use Rattle.replica_store.specs.Loading.{LoadsRows, AreSchemaRows, ShownBodies, AllShow};
ghost use Rattle.replica_store.specs.Loading.{PutsBody, AddsShown, HasOtherBody, CannotAdd};
ghost use Rattle.replica_store.specs.declared.error.ReplicaError.TheVariants.{Store, Unusable};

use crate::error::ReplicaError;
use crate::stored_row::{are_same, stored_row};
use cs_apply::{HeldTables, Tables};
use cs_model::{CopyIn, Row, RowKey, Schema};
use std::alloc::{AllocError, Global};
use std::sync::Arc;

/// Tables that keep every table of the schema, with the rows that the answer shows.
pub(crate) fn tables_of(
    alloc: Global,
    schema: &Arc<Schema>,
    answer: &[sqlite::Row],
) -> Result<Tables, ReplicaError>
    ensures loads { IfOk result (LoadsRows (arc_value schema.now) (ShownBodies answer.now)) }
    ensures fits { OnOk result (AreSchemaRows (arc_value schema.now) (ShownBodies answer.now)) }
    ensures unusable { result ≡ Err Unusable → AllShow answer.now
        → AreSchemaRows (arc_value schema.now) (ShownBodies answer.now) → ⊥ }
    ensures named { result ≡ Err Store → ⊥ }
{
    let mut tables = empty_tables(alloc, schema)?;
    for shown in answer {
        add_shown(alloc, &mut tables, shown)?;
    }
    Ok(tables)
}

// tables without rows, all of them kept
fn empty_tables(alloc: Global, schema: &Arc<Schema>) -> Result<Tables, AllocError>
    ensures { IfOk result (λ tables. tables ≡ record {
      schema = arc_value schema.now;
      kept = replicate (length (arc_value schema.now)) true;
      rows = map.empty;
    }) }
{
    let kept = vec![in alloc; true; schema.tables().len()]?;
    Ok(Tables::new(alloc, Arc::try_clone(schema)?, kept))
}

// adds what a row of the answer shows
fn add_shown(alloc: Global, tables: &mut Tables, shown: &sqlite::Row) -> Result<(), ReplicaError>
    ensures adds { OnOk result (AddsShown shown.now tables.old tables.new) }
    ensures unusable { result ≡ Err Unusable → CannotAdd shown.now tables.old }
    ensures named { result ≡ Err Store → ⊥ }
{
    let Some((key, row)) = stored_row(alloc, tables.schema(), shown)? else {
        return Err(ReplicaError::Unusable);
    };
    put_row(alloc, tables, key, row)
}

// puts a row under its key, which has none, or this one
fn put_row(alloc: Global, tables: &mut Tables, key: RowKey, row: Row) -> Result<(), ReplicaError>
    requires { FitsKey tables.old key row }
    ensures puts { OnOk result (PutsBody key (row_body row) tables.old tables.new) }
    ensures unusable { result ≡ Err Unusable → HasOtherBody tables.old key (row_body row) }
    ensures named { result ≡ Err Store → ⊥ }
{
    if let Some(there) = tables.row(&key) {
        if !are_same(there.bytes(), row.bytes()) {
            return Err(ReplicaError::Unusable);
        }
        return Ok(());
    }
    place_row(alloc, tables.places_mut(), key, row)?;
    Ok(())
}

// sets the row of a key that has none
fn place_row(
    alloc: Global,
    tables: &mut HeldTables,
    key: RowKey,
    row: Row,
) -> Result<(), AllocError>
    requires { FitsKey tables.old.state key row }
    ensures { OnOk result (tables.new.state ≡ record tables.old.state {
      rows = map.insert tables.old.state.rows key row;
    }) }
{
    let place = key.copy_in(alloc)?;
    tables.hold(place)?;
    tables.set(&key, row);
    Ok(())
}
