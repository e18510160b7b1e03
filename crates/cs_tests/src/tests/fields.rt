//! Tests numbers, fields, records and rows.

use crate::tests::fixture::{gives, same};
use cs_model::FieldRef::{Blob, Integer, Null, Text, Undefined};
use cs_model::*;
use std::alloc::Global;
use std::process::Abort;
use std::test::Fail;

fn numbers(rt: &impl Abort, alloc: Global) -> Result<(), Fail> {
    for (value, text) in [
        (0u64, &b"\0"[..]),
        (127, b"\x7f"),
        (128, b"\x81\0"),
        (200, b"\x81\x48"),
        (16_777_216, b"\x88\x80\x80\0"),
        ((1 << 56) - 1, b"\xff\xff\xff\xff\xff\xff\xff\x7f"),
        (1 << 56, b"\x80\xc0\x80\x80\x80\x80\x80\x80\0"),
        (1 << 57, b"\x81\x80\x80\x80\x80\x80\x80\x80\0"),
        (u64::MAX, b"\xff\xff\xff\xff\xff\xff\xff\xff\xff"),
    ] {
        let mut out = Vec::new(alloc);
        varint_push(&mut out, value)?;
        same(rt, &out, text);
        assert_eq!(rt; varint_read(text), Some((value, text.len())));
    }
    for (text, read) in [
        (&b"\x80\x80\x01"[..], Some((1, 3))),
        (b"\x80\x80\x80\x80\x80\x80\x80\x80\x05\xff", Some((5, 9))),
        (b"\x81\x48\0\xff", Some((200, 2))),
        (b"", None),
        (b"\x80", None),
        (b"\x80\x80\x80\x80\x80\x80\x80\x80", None),
    ] {
        assert_eq!(rt; varint_read(text), read, "{text:?}");
    }
    Ok(())
}

// A field's bytes are these two parts, and decode to the field.
fn pushes(
    rt: &impl Abort,
    alloc: Global,
    field: FieldRef,
    front: &[u8],
    back: &[u8],
) -> Result<(), Fail> {
    let mut out = Vec::new(alloc);
    field_push(&mut out, field)?;
    assert_eq!(rt; out.strip_prefix(front), Some(back), "{field:?}");
    gives(rt, Fields::of(&out), &[field]);
    assert_eq!(rt; field_read(&out), Some((field, out.len())));
    Ok(())
}

fn row(rt: &impl Abort, alloc: Global, fields: &[FieldRef], bytes: &[u8]) -> Result<(), Fail> {
    let mut row = Row::with_capacity(alloc, 4)?;
    for field in fields {
        row.push(*field)?;
    }
    row.shrink_to_fit();
    gives(
        rt,
        row.fields(),
        &[Integer(-2), Text(b"x"), Blob(b""), Null],
    );
    same(rt, row.copy_in(alloc)?.bytes(), bytes);
    Ok(())
}

fn short_fields(rt: &impl Abort, alloc: Global) -> Result<(), Fail> {
    for (field, bytes) in [
        (Undefined, &b"\0"[..]),
        (Integer(1), b"\x01\0\0\0\0\0\0\0\x01"),
        (Integer(-2), b"\x01\xff\xff\xff\xff\xff\xff\xff\xfe"),
        (Integer(i64::MIN), b"\x01\x80\0\0\0\0\0\0\0"),
        (Integer(i64::MAX), b"\x01\x7f\xff\xff\xff\xff\xff\xff\xff"),
        (Text(b"x"), b"\x03\x01x"),
        (Text(b""), b"\x03\0"),
        (Blob(b"\0\xff"), b"\x04\x02\0\xff"),
        (Null, b"\x05"),
    ] {
        pushes(rt, alloc, field, bytes, b"")?;
    }
    Ok(())
}

fn long_fields(rt: &impl Abort, alloc: Global) -> Result<(), Fail> {
    for (len, text, blob) in [
        (127, &b"\x03\x7f"[..], &b"\x04\x7f"[..]),
        (128, b"\x03\x81\0", b"\x04\x81\0"),
        (200, b"\x03\x81\x48", b"\x04\x81\x48"),
        (16_383, b"\x03\xff\x7f", b"\x04\xff\x7f"),
        (16_384, b"\x03\x81\x80\0", b"\x04\x81\x80\0"),
    ] {
        let value = vec![in alloc; b'x'; len]?;
        pushes(rt, alloc, Text(&value), text, &value)?;
        pushes(rt, alloc, Blob(&value), blob, &value)?;
    }
    Ok(())
}

// Bytes that are no record's decode to something too, and are read to their end.
fn other_bytes(rt: &impl Abort) {
    gives(rt, Fields::of(b""), &[]);
    gives(rt, Fields::of(b"\x03\x05ab"), &[Text(b"ab")]);
    gives(rt, Fields::of(b"\x04\x80"), &[Blob(b"\x80")]);
    gives(rt, Fields::of(b"\x01\0\x05"), &[Null, Undefined, Null]);
    for bytes in [
        &b""[..],
        b"\x01\0",
        b"\x02\0\0\0\0\0\0\0\0",
        b"\x03\x02x",
        b"\x06",
    ] {
        assert!(rt; field_read(bytes).is_none());
    }
}

fn records(rt: &impl Abort, alloc: Global) -> Result<(), Fail> {
    let all = [
        Undefined,
        Integer(-2),
        Text(b"x"),
        Undefined,
        Blob(b""),
        Null,
    ];
    let bytes = b"\0\x01\xff\xff\xff\xff\xff\xff\xff\xfe\x03\x01x\0\x04\0\x05";
    let values = b"\x01\xff\xff\xff\xff\xff\xff\xff\xfe\x03\x01x\x04\0\x05";
    row(rt, alloc, &all, values)
}

#[test]
fn fields(rt: HostRuntime) -> Result<(), Fail> {
    let alloc = rt.alloc();
    numbers(&rt, alloc)?;
    for (op, byte) in [(Op::Insert, 18), (Op::Update, 23), (Op::Delete, 9)] {
        assert_eq!(rt; op.byte(), byte);
    }
    short_fields(&rt, alloc)?;
    long_fields(&rt, alloc)?;
    other_bytes(&rt);
    records(&rt, alloc)
}
