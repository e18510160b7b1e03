//! Tests sections and changesets, and the keys of rows.

use crate::tests::fixture::{HEADER, counts, joined, read, same, shape};
use cs_model::*;
use cs_parse::parse_in_place;
use std::alloc::Global;
use std::cmp::Ordering;
use std::process::Abort;
use std::test::Fail;

// an INSERT of (7, 'w'), its UPDATE to (7, 'x') by a trigger, and a DELETE of (7, 'w'), in the
// table of HEADER
const INSERTED: &[u8] = b"\x12\0\x01\0\0\0\0\0\0\0\x07\x03\x01w";

const UPDATED: &[u8] = b"\x17\x01\x01\0\0\0\0\0\0\0\x07\x03\x01w\0\x03\x01x";

const DELETED: &[u8] = b"\x09\0\x01\0\0\0\0\0\0\0\x07\x03\x01w";

// the changeset of its own sections
fn again(changeset: Changeset) -> Changeset {
    Changeset::of(changeset.into_sections())
}

// The first section's table and changes.
fn parts(rt: &impl Abort, alloc: Global, all: Changeset) -> Result<(), Fail> {
    let copy = all.copy_in(alloc)?;
    let section = copy.iter().next().ok_or("no section")?;
    let wanted = shape(alloc, b"t", &[1, 0])?;
    assert!(rt; section.shape() == wanted.as_ref());
    same(rt, section.bytes(), UPDATED);
    counts(rt, section.len(), 1);
    Ok(())
}

#[test]
fn changes(rt: HostRuntime) -> Result<(), Fail> {
    let alloc = rt.alloc();
    let changeset = again(read(alloc, &[HEADER, UPDATED])?);
    parts(&rt, alloc, changeset)
}

// The one section of a text that is parsed in place has this change.
fn stands(rt: &impl Abort, alloc: Global, text: &[u8], wanted: &[u8]) -> Result<(), Fail> {
    let changeset = parse_in_place(alloc, text)?;
    let section = changeset.iter().next().ok_or("no section")?;
    same(rt, section.bytes(), wanted);
    same(rt, section.name(), b"t");
    counts(rt, section.len(), 1);
    Ok(())
}

// A length of more bytes than it needs is copied in its shortest form.
#[test]
fn in_place(rt: HostRuntime) -> Result<(), Fail> {
    let alloc = rt.alloc();
    let text = joined(alloc, &[HEADER, INSERTED])?;
    stands(&rt, alloc, &text, INSERTED)?;
    let text = joined(
        alloc,
        &[HEADER, b"\x12\0\x01\0\0\0\0\0\0\0\x07\x03\x80\x01w"],
    )?;
    stands(&rt, alloc, &text, INSERTED)
}

// ascending order: by the table first, then by the bytes, as unsigned
fn ordered(rt: &impl Abort, alloc: Global) -> Result<(), Fail> {
    let bytes = Seq::from_slice(alloc, b"")?;
    let mut last = RowKey { table: 0, bytes };
    for (table, bytes) in [
        (0, &b"\x7f"[..]),
        (0, b"\x7f\0"),
        (0, b"\x80"),
        (1, b""),
        (2, b"\x01\x02"),
        (10, b"\x01"),
    ] {
        let bytes = Seq::from_slice(alloc, bytes)?;
        let key = RowKey { table, bytes };
        assert!(rt; last.cmp(&key) == Ordering::Less);
        last = key;
    }
    Ok(())
}

// the key of the first change of a text of one section
fn has_key(
    rt: &impl Abort,
    alloc: Global,
    text: &[u8],
    change: &[u8],
    want: &[u8],
) -> Result<(), Fail> {
    let read = read(alloc, &[text, change])?;
    let section = read.iter().next().ok_or("no section")?;
    let change = section.changes().next().ok_or("no change")?;
    let key = RowKey::of(alloc, 3, &section.shape(), &change)?;
    same(rt, &key.bytes, want);
    Ok(())
}

#[test]
fn keys(rt: HostRuntime) -> Result<(), Fail> {
    let alloc = rt.alloc();
    for change in [INSERTED, UPDATED, DELETED] {
        has_key(&rt, alloc, HEADER, change, b"\x01\0\0\0\0\0\0\0\x07")?;
    }
    // a DELETE of (-2, NULL, 'x') in a table whose first and last columns are the key
    let header = b"T\x03\x02\0\x01u\0";
    let delete = b"\x09\0\x01\xff\xff\xff\xff\xff\xff\xff\xfe\x05\x03\x01x";
    let key = b"\x01\xff\xff\xff\xff\xff\xff\xff\xfe\x03\x01x";
    has_key(&rt, alloc, header, delete, key)?;
    ordered(&rt, alloc)
}
