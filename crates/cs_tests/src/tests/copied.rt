//! Tests copies of tables. Each row has a number, which is its key, and the text `x`.

use crate::tests::fixture::{HEADER, counts, read, same, shape};
use cs_apply::Tables;
use cs_model::{CopyIn, Schema};
use std::alloc::{AllocError, Global};
use std::process::Abort;
use std::sync::Arc;
use std::test::Fail;

// the header of the second table
const SECOND: &[u8] = b"T\x02\x01\0u\0";

// Empty tables `t` and `u`, which are kept.
fn tables(alloc: Global) -> Result<Tables, Fail> {
    let mut shapes = Vec::new(alloc);
    for name in [b"t", b"u"] {
        shapes.push(shape(alloc, name, &[1, 0])?)?;
    }
    let schema = Schema::new(shapes)?;
    let kept = vec![in alloc; true; schema.tables().len()]?;
    let schema = Arc::new(alloc, schema)?;
    Ok(Tables::new(alloc, schema, kept))
}

// An INSERT or a DELETE of the row with this number.
fn change(op: u8, number: u8) -> [u8; 14] {
    [op, 0, 1, 0, 0, 0, 0, 0, 0, 0, number, 3, 1, b'x']
}

// The tables have exactly these rows, each given by its table and its number.
fn has(
    rt: &impl Abort,
    alloc: Global,
    tables: &Tables,
    wanted: &[(usize, u8)],
) -> Result<(), AllocError> {
    let rows = tables.rows_in_order(alloc)?;
    counts(rt, rows.len(), wanted.len());
    for ((key, row), (table, number)) in rows.iter().zip(wanted) {
        counts(rt, key.table, *table);
        same(rt, row.bytes(), &change(0, *number)[2..]);
    }
    Ok(())
}

fn apply(alloc: Global, tables: &mut Tables, parts: &[&[u8]]) -> Result<(), Fail> {
    let changeset = read(alloc, parts)?;
    Ok(tables.apply(alloc, &changeset)?)
}

// Tables with three rows. Of `t` two more were deleted, whose places are empty.
fn some(alloc: Global) -> Result<Tables, Fail> {
    let mut tables = tables(alloc)?;
    let inserts = [1, 2, 3].map(|number| change(0x12, number));
    let [one, two, three] = &inserts;
    apply(
        alloc,
        &mut tables,
        &[HEADER, one, two, three, SECOND, two, three],
    )?;
    apply(alloc, &mut tables, &[HEADER, &change(9, 1), &change(9, 3)])?;
    Ok(tables)
}

// Applies the DELETE of this row.
fn deletes(alloc: Global, tables: &mut Tables, header: &[u8], number: u8) -> Result<(), Fail> {
    apply(alloc, tables, &[header, &change(9, number)])
}

// A change of either leaves the other as it was.
fn stay_apart(
    rt: &impl Abort,
    alloc: Global,
    tables: &mut Tables,
    copy: &mut Tables,
) -> Result<(), Fail> {
    has(rt, alloc, copy, &[(0, 2), (1, 2), (1, 3)])?;
    deletes(alloc, copy, SECOND, 2)?;
    has(rt, alloc, tables, &[(0, 2), (1, 2), (1, 3)])?;
    deletes(alloc, tables, HEADER, 2)?;
    has(rt, alloc, copy, &[(0, 2), (1, 3)])?;
    Ok(has(rt, alloc, tables, &[(1, 2), (1, 3)])?)
}

#[test]
fn copies(rt: HostRuntime) -> Result<(), Fail> {
    let alloc = rt.alloc();
    let mut tables = some(alloc)?;
    let mut copy = tables.copy_in(alloc)?;
    stay_apart(&rt, alloc, &mut tables, &mut copy)
}

#[test]
fn copies_without_rows(rt: HostRuntime) -> Result<(), Fail> {
    let alloc = rt.alloc();
    let copy = tables(alloc)?.copy_in(alloc)?;
    Ok(has(&rt, alloc, &copy, &[])?)
}
