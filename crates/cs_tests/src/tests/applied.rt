//! Tests `Tables::apply`. Each table has two columns: its key, which is a number, and a text of one
//! byte.

use crate::tests::fixture::{HEADER, counts, read, same, shape};
use cs_apply::ConflictKind::{Data, NotFound};
use cs_apply::*;
use cs_model::{RowKey, Schema, Seq, Shape};
use std::alloc::{AllocError, Global};
use std::process::Abort;
use std::sync::Arc;
use std::test::Fail;

// Changes of row 1 and of row 5. UPDATED does not change row 5, and OTHER is a DELETE of row 1 with
// another text.
const FIRST: &[u8] = b"\x12\0\x01\0\0\0\0\0\0\0\x01\x03\x01x";

const FIFTH: &[u8] = b"\x12\0\x01\0\0\0\0\0\0\0\x05\x03\x01x";

const UPDATED: &[u8] = b"\x17\0\x01\0\0\0\0\0\0\0\x05\0\0\0";

const OTHER: &[u8] = b"\x09\0\x01\0\0\0\0\0\0\0\x01\x03\x01y";

const DELETED: &[u8] = b"\x09\0\x01\0\0\0\0\0\0\0\x01\x03\x01x";

// Changes of a table that doesn't exist, of `o`, which has another shape, and of `n`, which isn't
// kept. With the FIFTH after SHAPED these are four changes, which are skipped.
const UNKNOWN: &[u8] = b"T\x02\x01\0u\0\x09\0\x01\0\0\0\0\0\0\0\x07\x03\x01x";

const SHAPED: &[u8] = b"T\x02\x01\0o\0\x12\0\x01\0\0\0\0\0\0\0\x08\x03\x01x";

const NOT_KEPT: &[u8] = b"T\x02\x01\0n\0\x09\0\x01\0\0\0\0\0\0\0\x09\x03\x01x";

fn shapes(alloc: Global) -> Result<Vec<Shape>, AllocError> {
    let mut shapes = Vec::new(alloc);
    for (name, flags) in [(b"t", [1, 0]), (b"o", [1, 1]), (b"n", [1, 0])] {
        shapes.push(shape(alloc, name, &flags)?)?;
    }
    Ok(shapes)
}

// Empty tables `t` and `o`, which are kept, and `n`, which isn't.
fn tables(alloc: Global) -> Result<Tables, Fail> {
    let schema = Schema::new(shapes(alloc)?)?;
    let mut kept = vec![in alloc; true; schema.tables().len()]?;
    if let Some(last) = kept.last_mut() {
        *last = false;
    }
    let schema = Arc::new(alloc, schema)?;
    Ok(Tables::new(alloc, schema, kept))
}

// The tables have exactly the rows with these numbers, each with an `x`.
fn has(rt: &impl Abort, alloc: Global, tables: &Tables, numbers: &[u8]) -> Result<(), AllocError> {
    let rows = tables.rows_in_order(alloc)?;
    counts(rt, rows.len(), numbers.len());
    for ((key, row), number) in rows.iter().zip(numbers) {
        let bytes = [1, 0, 0, 0, 0, 0, 0, 0, *number, 3, 1, b'x'];
        same(rt, &key.bytes, &bytes[..9]);
        same(rt, row.bytes(), &bytes);
    }
    Ok(())
}

// Applies a text in parts, and expects this conflict or none, unless memory runs out. The tables
// have these rows after it.
fn goes(
    rt: &impl Abort,
    alloc: Global,
    tables: &mut Tables,
    parts: &[&[u8]],
    conflict: Option<Conflict>,
    after: &[u8],
) -> Result<(), Fail> {
    let changeset = read(alloc, parts)?;
    let got = tables.apply(alloc, &changeset).err();
    if matches!(&got, Some(ApplyError::Memory)) {
        return Err("out of memory")?;
    }
    assert_eq!(rt; got, conflict.map(ApplyError::Conflict));
    Ok(has(rt, alloc, tables, after)?)
}

#[test]
fn skipped(rt: HostRuntime) -> Result<(), Fail> {
    let alloc = rt.alloc();
    let mut tables = tables(alloc)?;
    let (position, kind) = (6, Data);
    for (parts, conflict, after) in [
        (&[HEADER, FIRST][..], None, 1),
        (
            &[
                HEADER, FIFTH, UNKNOWN, SHAPED, FIFTH, NOT_KEPT, HEADER, UPDATED, OTHER,
            ],
            Some(Conflict { position, kind }),
            1,
        ),
        (
            &[
                HEADER, FIFTH, UNKNOWN, SHAPED, FIFTH, NOT_KEPT, HEADER, UPDATED, DELETED,
            ],
            None,
            5,
        ),
    ] {
        goes(&rt, alloc, &mut tables, parts, conflict, &[after])?;
    }
    Ok(())
}

// 32 INSERTs, or DELETEs of all rows but every eighth, so that the empty places are swept.
fn many(alloc: Global, op: u8) -> Result<Vec<u8>, AllocError> {
    let mut changes = Vec::new(alloc);
    for number in 0..32u8 {
        if op == 0x12 || number % 8 != 3 {
            changes.extend_from_slice(&[op, 0, 1, 0, 0, 0, 0, 0, 0, 0, number, 3, 1, b'x'])?;
        }
    }
    Ok(changes)
}

fn found(rt: &impl Abort, alloc: Global, tables: &Tables) -> Result<(), AllocError> {
    for number in 0..32u8 {
        let bytes = Seq::from_slice(alloc, &[1, 0, 0, 0, 0, 0, 0, 0, number])?;
        let row = tables.row(&RowKey { table: 0, bytes });
        assert!(rt; row.is_some() == (number % 8 == 3));
    }
    Ok(())
}

// After the sweep, rows that come back get new places.
#[test]
fn swept(rt: HostRuntime) -> Result<(), Fail> {
    let alloc = rt.alloc();
    let mut tables = tables(alloc)?;
    let (inserts, deletes) = (many(alloc, 0x12)?, many(alloc, 9)?);
    let all: Vec<u8> = (0..32u8).collect(alloc)?;
    let (position, kind) = (0, NotFound);
    for (changes, conflict, after) in [
        (&inserts, None, &all[..]),
        (&deletes, None, &[3, 11, 19, 27]),
        (
            &deletes,
            Some(Conflict { position, kind }),
            &[3, 11, 19, 27],
        ),
    ] {
        goes(&rt, alloc, &mut tables, &[HEADER, changes], conflict, after)?;
    }
    found(&rt, alloc, &tables)?;
    let again = [HEADER, FIFTH, FIRST];
    let after = [1, 3, 5, 11, 19, 27];
    goes(&rt, alloc, &mut tables, &again, None, &after)
}
