//! Reads a stored row: its key, and its values from their canonical bytes.

ghost use Rattle.std.specs.Prelude.{◌≡◌, ◌==◌, List, None, Some, IfOk, MatchOption, length};
ghost use Rattle.std.specs.Prelude.{slice_get, IsTrue, ◌↔◌};
ghost use Rattle.std.specs.List.{AllByRecursion};
ghost use Rattle.cs_model.specs.KeyBytes.{key_bytes};
ghost use Rattle.cs_model.specs.Packed.{Fits, unpacked};
ghost use Rattle.cs_model.specs.Row.{row_fields, values_of};
ghost use Rattle.cs_model.specs.declared.row_key.RowKey.{RowKey as Key};
ghost use Rattle.cs_model.specs.declared.value.Value.{Value};
ghost use Rattle.replica_store.specs.Changes.{row_body};
ghost use Rattle.replica_store.specs.Loading.{IsKeyedRow, IsSchemaRow, ShowsBody};

use crate::read::{blob_at, natural_at};
use cs_model::{Fields, Octets, Row, RowKey, Schema, Shape, field_push};
use std::alloc::{AllocError, Global};

/// The key and the row that a row of the answer shows, if it shows a row of the schema.
pub(crate) fn stored_row(
    alloc: Global,
    schema: &Schema,
    shown: &sqlite::Row,
) -> Result<Option<(RowKey, Row)>, AllocError>
    ensures { IfOk result (λ found. MatchOption found
        ((key : Key) (row : List Value) → ShowsBody shown.now key (row_body row)
        → IsSchemaRow schema.now key row → ⊥)
        (λ r. ShowsBody shown.now r.0 (row_body r.1) × IsSchemaRow schema.now r.0 r.1)) }
{
    let Some(number) = natural_at(shown, 0) else {
        return Ok(None);
    };
    let Some(bytes) = blob_at(shown, 1) else {
        return Ok(None);
    };
    let Some(body) = blob_at(shown, 2) else {
        return Ok(None);
    };
    let table = number as usize;
    let Some(shape) = shape_at(schema, table) else {
        return Ok(None);
    };
    let Some(row) = keyed_row(alloc, shape, bytes, body)? else {
        return Ok(None);
    };
    let bytes = Octets::from_slice(alloc, bytes)?;
    Ok(Some((RowKey { table, bytes }, row)))
}

// the shape of the table with this number
fn shape_at(schema: &Schema, table: usize) -> Option<&Shape>
    ensures { MatchOption result (slice_get schema.now table ≡ None)
        (λ shape. slice_get schema.now table ≡ Some shape.now) }
{
    schema.tables().get(table)
}

// the row with this key's bytes and this body, if there is one in a table of this shape
fn keyed_row(
    alloc: Global,
    shape: &Shape,
    bytes: &[u8],
    body: &[u8],
) -> Result<Option<Row>, AllocError>
    ensures { IfOk result (λ found. MatchOption found
        ((row : List Value) → body.now ≡ row_body row → IsKeyedRow shape.now bytes.now row → ⊥)
        (λ row. (body.now ≡ row_body row) × IsKeyedRow shape.now bytes.now row)) }
{
    let Some(row) = row_of_body(alloc, body)? else {
        return Ok(None);
    };
    if !has_columns(&row, shape.flags.len()) {
        return Ok(None);
    }
    if !has_key(alloc, &shape.flags, &row, bytes)? {
        return Ok(None);
    }
    Ok(Some(row))
}

// the row whose canonical bytes these are, if there is one
fn row_of_body(alloc: Global, body: &[u8]) -> Result<Option<Row>, AllocError>
    ensures { IfOk result (λ found. MatchOption found
        ((row : List Value) → body.now ≡ row_body row → AllByRecursion Fits (row_fields row) → ⊥)
        (λ row. (body.now ≡ row_body row) × AllByRecursion Fits (row_fields row))) }
{
    let row = values_in(alloc, body)?;
    if !are_same(row.bytes(), body) {
        return Ok(None);
    }
    Ok(Some(row))
}

// the values that any bytes decode to
fn values_in(alloc: Global, body: &[u8]) -> Result<Row, AllocError>
    ensures { IfOk result (λ row. row ≡ values_of (unpacked body.now)) }
{
    let mut row = Row::with_capacity(alloc, body.len())?;
    for field in Fields::of(body) {
        row.push(field)?;
    }
    Ok(row)
}

// whether the row has this number of values
fn has_columns(row: &Row, count: usize) -> bool
    ensures { result ≡ (length row.now == count) }
{
    let mut left = count;
    for _ in row.fields() {
        if left == 0 {
            return false;
        }
        left -= 1;
    }
    left == 0
}

// whether the values in key columns, joined, are these bytes
fn has_key(alloc: Global, flags: &[u8], row: &Row, bytes: &[u8]) -> Result<bool, AllocError>
    ensures { IfOk result (λ has. IsTrue has
        ↔ (bytes.now ≡ key_bytes flags.now (row_fields row.now))) }
{
    let key = key_of_values(alloc, flags, row)?;
    Ok(are_same(&key, bytes))
}

// the canonical bytes of the values in key columns
fn key_of_values(alloc: Global, flags: &[u8], row: &Row) -> Result<Vec<u8>, AllocError>
    ensures { IfOk result (λ key. key.items ≡ key_bytes flags.now (row_fields row.now)) }
{
    let mut key = Vec::with_capacity(alloc, 24)?;
    let mut fields = row.fields();
    for flag in flags {
        let Some(field) = fields.next() else {
            break;
        };
        if *flag > 0 {
            field_push(&mut key, field)?;
        }
    }
    Ok(key)
}

/// Whether two texts are the same.
pub(crate) fn are_same(first: &[u8], second: &[u8]) -> bool
    ensures { IsTrue result ↔ (first.now ≡ second.now) }
{
    first == second
}
