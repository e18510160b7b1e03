//! Tests schemas, and which changesets they admit.

use crate::tests::fixture::{read, shape};
use cs_model::SectionFault::{ShapeDiffers, UnknownTable};
use cs_model::TableFault::{BadShape, DuplicateTable};
use cs_model::*;
use std::alloc::Global;
use std::process::Abort;
use std::test::Fail;

fn are(rt: &impl Abort, tables: &[Shape], want: &[Shape]) {
    assert_eq!(rt; tables, want);
}

// `Schema::new` accepts these tables, or returns this fault with the tables.
fn makes(
    rt: &impl Abort,
    alloc: Global,
    tables: Vec<Shape>,
    want: Result<(), TableFault>,
) -> Result<(), Fail> {
    let given = Shape::copy_all(alloc, &tables)?;
    match Schema::new(tables) {
        Ok(schema) => {
            assert!(rt; want.is_ok());
            are(rt, schema.copy_in(alloc)?.tables(), &given);
        }
        Err(refused) => {
            assert_eq!(rt; Err(refused.fault), want);
            are(rt, &refused.tables, &given);
        }
    }
    Ok(())
}

// `Schema::add` accepts this table, or returns this fault.
fn adds(
    rt: &impl Abort,
    mut schema: Schema,
    table: Shape,
    want: Result<(), TableFault>,
) -> Result<(), Fail> {
    match schema.add(table) {
        Err(SchemaError::Fault(fault)) => assert_eq!(rt; Err(fault), want),
        added => {
            added?;
            assert!(rt; want.is_ok());
        }
    }
    Ok(())
}

// The same for both calls, with `count` tables and one more.
fn counted(
    rt: &impl Abort,
    alloc: Global,
    count: usize,
    name: &[u8],
    want: Result<(), TableFault>,
) -> Result<(), Fail> {
    let mut tables = Vec::new(alloc);
    for high in 1..=5u8 {
        for low in 1..=205u8 {
            tables.push(shape(alloc, &[high, low], &[1])?)?;
        }
    }
    tables.truncate(count);
    let schema = Schema::new(Shape::copy_all(alloc, &tables)?)?;
    adds(rt, schema, shape(alloc, name, &[1])?, want)?;
    tables.push(shape(alloc, name, &[1])?)?;
    makes(rt, alloc, tables, want)
}

// texts of headers only, of known and unknown tables
fn admits(rt: &impl Abort, alloc: Global, schema: &Schema) -> Result<(), Fail> {
    let (t, u, x) = (b"T\x02\x01\0t\0", b"T\x02\x01\x01u\0", b"T\x02\x01\0x\0");
    let (other_t, other_u) = (b"T\x02\x01\x01t\0", b"T\x02\x01\x02u\0");
    for (headers, want) in [
        (&[][..], Ok(())),
        (&[&u[..], t, u][..], Ok(())),
        (&[&t[..], x, other_t][..], Err(UnknownTable(1))),
        (&[&u[..], t, other_u, x][..], Err(ShapeDiffers(2))),
    ] {
        let changeset = read(alloc, headers)?;
        assert_eq!(rt; schema.admits(&changeset), want);
    }
    for (name, flags, place) in [
        (b"t", [1, 0], Some(0)),
        (b"u", [1, 1], Some(1)),
        (b"u", [1, 0], None),
        (b"x", [1, 1], None),
    ] {
        let table = shape(alloc, name, &flags)?;
        assert_eq!(rt; schema.table(&table.as_ref()), place);
    }
    Ok(())
}

#[test]
fn schemas(rt: HostRuntime) -> Result<(), Fail> {
    let alloc = rt.alloc();
    let wide = vec![in alloc; 1u8; 2001]?;
    let name = vec![in alloc; b'n'; 1025]?;
    for (name, flags, want) in [
        (&b"u"[..], &[0, 255][..], Ok(())),
        (b"T", &wide[..2000], Ok(())),
        (&name[..1024], &[1], Ok(())),
        (b"t", &[1], Err(DuplicateTable(1))),
        (b"t", &[], Err(DuplicateTable(1))),
        (b"u", &[], Err(BadShape(1))),
        (b"u", &wide, Err(BadShape(1))),
        (b"u", &[0, 0], Err(BadShape(1))),
        (b"", &[1], Err(BadShape(1))),
        (&name, &[1], Err(BadShape(1))),
        (b"u\0", &[1], Err(BadShape(1))),
    ] {
        let first = shape(alloc, b"t", &[1, 0])?;
        let second = shape(alloc, name, flags)?;
        makes(&rt, alloc, vec![in alloc; first, second]?, want)?;
    }
    // the first that is refused is named
    let both = vec![in alloc; shape(alloc, b"", &[1])?, shape(alloc, b"", &[1])?]?;
    makes(&rt, alloc, both, Err(BadShape(0)))?;
    counted(&rt, alloc, 1023, b"new", Ok(()))?;
    counted(&rt, alloc, 1024, b"new", Err(BadShape(1024)))?;
    counted(&rt, alloc, 1024, b"\x01\x01", Err(DuplicateTable(1024)))?;
    let mut schema = Schema::empty(alloc);
    schema.add(shape(alloc, b"t", &[1, 0])?)?;
    schema.add(shape(alloc, b"u", &[1, 1])?)?;
    admits(&rt, alloc, &schema)
}
