//! The commits of the test as changesets.

use crate::rows::{Moment, last_id};
use cs_model::{FieldRef, field_push};
use std::alloc::{AllocError, Global};

// the section of a table `t` of two columns, the first of which is its key
const SECTION: [u8; 6] = [0x54, 2, 1, 0, 0x74, 0];

const INSERT: [u8; 2] = [0x12, 0];

const DELETE: [u8; 2] = [0x09, 0];

const UPDATE: [u8; 2] = [0x17, 0];

/// The changeset that leads from the rows of one moment to those of another.
pub fn changeset(
    alloc: Global,
    count: u32,
    from: Moment,
    to: Moment,
) -> Result<Vec<u8>, AllocError> {
    let mut bytes = Vec::from_slice(alloc, &SECTION)?;
    for id in 1..=last_id(count) {
        add_change(&mut bytes, id, from.text(count, id), to.text(count, id))?;
    }
    Ok(bytes)
}

// adds the change of the row with this id, if its text differs
fn add_change(
    bytes: &mut Vec<u8>,
    id: u32,
    old: Option<&str>,
    new: Option<&str>,
) -> Result<(), AllocError> {
    if old == new {
        return Ok(());
    }
    match (old, new) {
        (None, None) => Ok(()),
        (None, Some(text)) => add_row(bytes, &INSERT, id, text),
        (Some(text), None) => add_row(bytes, &DELETE, id, text),
        (Some(text), Some(other)) => {
            add_row(bytes, &UPDATE, id, text)?;
            field_push(bytes, FieldRef::Undefined)?;
            field_push(bytes, FieldRef::Text(other.as_bytes()))
        }
    }
}

fn add_row(bytes: &mut Vec<u8>, operation: &[u8], id: u32, text: &str) -> Result<(), AllocError> {
    bytes.extend_from_slice(operation)?;
    field_push(bytes, FieldRef::Integer(i64::from(id)))?;
    field_push(bytes, FieldRef::Text(text.as_bytes()))
}
