//! The tests that the exports need in this crate, since no other crate can call them: with enough
//! memory the canonical text is written, a text is inverted, and texts are combined. Their
//! contracts state the rest.

ghost use Rattle.std.specs.Prelude.{◌<◌};

use crate::combining::Text;
use crate::exports::{changeset_canonical, changeset_combine, changeset_invert};
use std::alloc::Global;
use std::process::Abort;
use std::test::*;

// two sections of one table, an empty section between them, an indirect byte of 5, and encodings of
// 2 and 1 that aren't the shortest. Two bytes that begin nothing follow.
const LOOSE: [u8; 50] = [
    0x54, 0x80, 2, 1, 0, 0x74, 0, 0x12, 5, 1, 0, 0, 0, 0, 0, 0, 0, 1, 3, 0x80, 1, 0x78, 0x54, 2, 1,
    0, 0x75, 0, 0x54, 2, 1, 0, 0x74, 0, 0x12, 0, 1, 0, 0, 0, 0, 0, 0, 0, 2, 3, 1, 0x79, 0, 0,
];

// the canonical text without those two bytes
const TIGHT: [u8; 34] = [
    0x54, 2, 1, 0, 0x74, 0, 0x12, 1, 1, 0, 0, 0, 0, 0, 0, 0, 1, 3, 1, 0x78, 0x12, 0, 1, 0, 0, 0, 0,
    0, 0, 0, 2, 3, 1, 0x79,
];

// Requests the canonical text in a buffer of 60 bytes of 9, of which `room` are passed, and
// compares all 60. If memory runs out, all are as before, and a second try follows.
fn writes(
    rt: &impl Abort,
    alloc: Global,
    text: &[u8],
    room: usize,
    want: i64,
    front: &[u8],
) -> Result<(), Fail>
    requires { room < 60 }
{
    let mut buffer = [9u8; 60];
    let mut answer = changeset_canonical(alloc, text, &mut buffer[..room]);
    if answer == -2 {
        assert!(rt; buffer == [9u8; 60]);
        answer = changeset_canonical(alloc, text, &mut buffer[..room]);
    }
    assert_eq!(rt; answer, want);
    begins(rt, alloc, &buffer, front)
}

// that the bytes after `front` are 9
fn begins(rt: &impl Abort, alloc: Global, buffer: &[u8; 60], front: &[u8]) -> Result<(), Fail> {
    let mut all = Vec::from_slice(alloc, front)?;
    for _ in front.len()..60 {
        all.push(9)?;
    }
    let all: &[u8] = &all;
    assert_eq!(rt; &buffer[..], all);
    Ok(())
}

#[test]
fn canonical_text_is_written_where_there_is_room(rt: HostRuntime) -> Result<(), Fail> {
    let alloc = rt.alloc();
    writes(&rt, alloc, &LOOSE[..48], 0, 34, &[])?;
    writes(&rt, alloc, &LOOSE[..48], 33, 34, &[])?;
    writes(&rt, alloc, &LOOSE[..48], 34, 34, &TIGHT)?;
    writes(&rt, alloc, &LOOSE[..48], 59, 34, &TIGHT)?;
    writes(&rt, alloc, &LOOSE, 59, -1, &[])
}

// an INSERT of the row (1, 5) of a table with two columns
const INSERTED: [u8; 26] = [
    0x54, 2, 1, 0, 0x74, 0, 0x12, 0, 1, 0, 0, 0, 0, 0, 0, 0, 1, 1, 0, 0, 0, 0, 0, 0, 0, 5,
];

// the UPDATE of its 5 to 6
const UPDATED: [u8; 36] = [
    0x54, 2, 1, 0, 0x74, 0, 0x17, 0, 1, 0, 0, 0, 0, 0, 0, 0, 1, 1, 0, 0, 0, 0, 0, 0, 0, 5, 0, 1, 0,
    0, 0, 0, 0, 0, 0, 6,
];

// the same as an indirect UPDATE, whose indirect byte isn't canonical
const INDIRECT: [u8; 36] = [
    0x54, 2, 1, 0, 0x74, 0, 0x17, 5, 1, 0, 0, 0, 0, 0, 0, 0, 1, 1, 0, 0, 0, 0, 0, 0, 0, 5, 0, 1, 0,
    0, 0, 0, 0, 0, 0, 6,
];

// both: an INSERT of (1, 6)
const BOTH: [u8; 26] = [
    0x54, 2, 1, 0, 0x74, 0, 0x12, 0, 1, 0, 0, 0, 0, 0, 0, 0, 1, 1, 0, 0, 0, 0, 0, 0, 0, 6,
];

// a table of its own, and then that table with one column
const OTHER: [u8; 10] = [0x54, 1, 1, 0x75, 0, 0x54, 1, 1, 0x74, 0];

// Combines INSERTED with a second text, in a buffer of 60 bytes of 9, of which `room` are passed.
// Compares all 60, and the index, place and kind, which are 7 before.
fn combines(
    rt: &impl Abort,
    alloc: Global,
    second: &[u8],
    room: usize,
    want: (i64, usize, usize, u32),
    front: &[u8],
) -> Result<(), Fail>
    requires { room < 60 }
{
    let mut buffer = [9u8; 60];
    let (mut text, mut at, mut kind) = (7usize, 7usize, 7u32);
    let texts = [Text { bytes: &INSERTED }, Text { bytes: second }];
    let out = &mut buffer[..room];
    let answer = changeset_combine(alloc, &texts, out, &mut text, &mut at, &mut kind);
    assert_eq!(rt; (answer, text, at, kind), want);
    begins(rt, alloc, &buffer, front)
}

#[test]
fn texts_are_combined(rt: HostRuntime) -> Result<(), Fail> {
    let alloc = rt.alloc();
    combines(&rt, alloc, &UPDATED, 26, (26, 7, 7, 7), &BOTH)?;
    combines(&rt, alloc, &UPDATED, 25, (26, 7, 7, 7), &[])?;
    combines(&rt, alloc, &INDIRECT, 26, (26, 7, 7, 7), &BOTH)?;
    combines(&rt, alloc, &UPDATED[..12], 59, (-1, 1, 12, 16), &[])?;
    combines(&rt, alloc, &OTHER, 59, (-3, 1, 1, 7), &[])
}

// its inverse: the UPDATE of 6 to 5
const BACK: [u8; 36] = [
    0x54, 2, 1, 0, 0x74, 0, 0x17, 0, 1, 0, 0, 0, 0, 0, 0, 0, 1, 1, 0, 0, 0, 0, 0, 0, 0, 6, 0, 1, 0,
    0, 0, 0, 0, 0, 0, 5,
];

#[test]
fn a_text_is_inverted(rt: HostRuntime) -> Result<(), Fail> {
    let alloc = rt.alloc();
    let mut buffer = [9u8; 60];
    assert_eq!(&rt; changeset_invert(alloc, &UPDATED, &mut buffer[..35]), 36);
    begins(&rt, alloc, &buffer, &[])?;
    assert_eq!(&rt; changeset_invert(alloc, &UPDATED, &mut buffer[..36]), 36);
    begins(&rt, alloc, &buffer, &BACK)?;
    assert_eq!(&rt; changeset_invert(alloc, &UPDATED[..12], &mut buffer), -1);
    begins(&rt, alloc, &buffer, &BACK)
}

// the front of an INSERT of (1, BLOB) into a table of two columns, up to the length of the BLOB
const LONG: [u8; 18] = [
    0x54, 2, 1, 0, 0x74, 0, 0x12, 0, 1, 0, 0, 0, 0, 0, 0, 0, 1, 4,
];

// the most bytes of a text
const MOST: usize = 16_777_216;

// A text of the most bytes is taken whole, and one of a byte more isn't.
#[test]
fn the_longest_text_is_taken(rt: HostRuntime) -> Result<(), Fail> {
    let alloc = rt.alloc();
    let mut text = Vec::from_slice(alloc, &LONG)?;
    // 16,777,194 as a varint
    text.extend_from_slice(&[0x87, 0xff, 0xff, 0x6a])?;
    text.resize(MOST, 0)?;
    assert_eq!(rt; changeset_canonical(alloc, &text, &mut []), MOST as i64);
    assert_eq!(rt; changeset_invert(alloc, &text, &mut []), MOST as i64);
    text.push(0)?;
    assert_eq!(rt; changeset_canonical(alloc, &text, &mut []), -1);
    Ok(())
}
