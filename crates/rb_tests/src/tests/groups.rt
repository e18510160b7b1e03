//! Tests of groups: where a changeset clashes, or memory runs out, what was added stays.

use cs_group::{Group, GroupError, combine};
use cs_invert::withdrawal;
use cs_model::Changeset;
use cs_parse::parse;
use cs_write::write;
use std::alloc::Global;
use std::process::Abort;
use std::test::Fail;

// INSERT and DELETE of (1, 'x') in a table `t` of two columns
const INSERT: &[u8] = b"T\x02\x01\0t\0\x12\0\x01\0\0\0\0\0\0\0\x01\x03\x01x";

const DELETE: &[u8] = b"T\x02\x01\0t\0\x09\0\x01\0\0\0\0\0\0\0\x01\x03\x01x";

// the header of a table `t` of one column
const NARROW: &[u8] = b"T\x01\x01t\0";

fn has(rt: &impl Abort, alloc: Global, changeset: &Changeset, want: &[u8]) -> Result<(), Fail> {
    let text = write(alloc, changeset)?;
    assert_eq!(rt; &text[..], want);
    Ok(())
}

// The first section clashes.
fn refused<T: Drop>(rt: &impl Abort, answer: Result<T, GroupError>) {
    match answer {
        Ok(_) => panic!(rt; "nothing clashes"),
        Err(error) => assert_eq!(rt; error, GroupError::Clash { section: 0 }),
    }
}

// Adds a changeset. If memory runs out, the group still has the earlier ones, and the second call
// adds it.
fn adds<'a>(
    rt: &impl Abort,
    alloc: Global,
    group: &mut Group<'a>,
    changeset: &'a Changeset,
    earlier: &[u8],
) -> Result<(), Fail> {
    match group.add(changeset) {
        Err(GroupError::Memory) => {
            has(rt, alloc, &group.output(alloc)?, earlier)?;
            Ok(group.add(changeset)?)
        }
        added => Ok(added?),
    }
}

fn is_grouped(rt: &impl Abort, alloc: Global, sent: &[Changeset; 3]) -> Result<(), Fail> {
    let [insert, narrow, delete] = sent;
    let mut group = Group::new(alloc);
    adds(rt, alloc, &mut group, insert, b"")?;
    refused(rt, group.add(narrow));
    has(rt, alloc, &group.output(alloc)?, INSERT)?;
    adds(rt, alloc, &mut group, delete, INSERT)?;
    has(rt, alloc, &group.output(alloc)?, b"")
}

fn is_combined(rt: &impl Abort, alloc: Global, sent: &[Changeset; 3]) -> Result<(), Fail> {
    refused(rt, combine(alloc, sent));
    let made = combine(alloc, &sent[..1])?;
    has(rt, alloc, &made, INSERT)
}

#[test]
fn another_shape_is_refused(rt: HostRuntime) -> Result<(), Fail> {
    let alloc = rt.alloc();
    let sent = [
        parse(alloc, INSERT)?,
        parse(alloc, NARROW)?,
        parse(alloc, DELETE)?,
    ];
    is_grouped(&rt, alloc, &sent)?;
    is_combined(&rt, alloc, &sent)?;
    let made = withdrawal(alloc, &sent[0])?;
    has(&rt, alloc, &made, DELETE)
}
