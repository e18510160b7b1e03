//! The rows of the test: a table, the states before a commit and after it, and its changes.

use crate::texts::changeset;
use cs_apply::Tables;
use cs_model::{FieldRef, Row, RowKey, Schema, Seq, Shape, field_push};
use par_apply::RowChange;
use std::alloc::{AllocError, Global};
use std::io;
use std::sync::Arc;

/// The cursor before the commit, and the one after it.
pub const FIRST_CURSOR: u64 = 5;

pub const SECOND_CURSOR: u64 = 7;

/// Two commits, the changesets that lead to the same rows, and what a replica has after each of
/// them.
#[derive(Drop)]
pub struct Commits {
    pub first: Vec<RowChange>,
    pub second: Vec<RowChange>,
    pub first_text: Vec<u8>,
    pub second_text: Vec<u8>,
    pub before: State,
    pub after: State,
}

impl Commits {
    /// The second commit has so many changes: it deletes one row of each three, changes one, and
    /// adds one beside the third.
    pub fn new(alloc: Global, count: u32) -> io::Result<Commits> {
        Ok(Commits {
            first: all_changes(alloc, count, Moment::Empty, Moment::Before)?,
            second: all_changes(alloc, count, Moment::Before, Moment::After)?,
            first_text: changeset(alloc, count, Moment::Empty, Moment::Before)?,
            second_text: changeset(alloc, count, Moment::Before, Moment::After)?,
            before: State::at(alloc, Moment::Before, count, FIRST_CURSOR)?,
            after: State::at(alloc, Moment::After, count, SECOND_CURSOR)?,
        })
    }
}

/// The rows of a replica in the order of their keys, and its cursor.
#[derive(Drop)]
pub struct State {
    rows: Vec<(RowKey, Row)>,
    cursor: u64,
}

impl State {
    fn at(alloc: Global, moment: Moment, count: u32, cursor: u64) -> io::Result<State> {
        let mut rows = Vec::new(alloc);
        for id in 1..=last_id(count) {
            if let Some(text) = moment.text(count, id) {
                rows.push((key(alloc, id)?, row(alloc, id, text)?))?;
            }
        }
        Ok(State { rows, cursor })
    }

    /// Whether a replica has these rows and this cursor, and no others.
    pub fn is(&self, alloc: Global, tables: &Tables, cursor: u64) -> Result<bool, AllocError> {
        let found = tables.rows_in_order(alloc)?;
        Ok(cursor == self.cursor && are_same(&found, &self.rows))
    }
}

fn are_same(found: &[(&RowKey, &Row)], wanted: &[(RowKey, Row)]) -> bool {
    if found.len() != wanted.len() {
        return false;
    }
    for (one, other) in found.iter().zip(wanted) {
        if *one.0 != other.0 || one.1.bytes() != other.1.bytes() {
            return false;
        }
    }
    true
}

/// Before the first commit, before the second one, or after it.
#[derive(Clone, Copy)]
pub enum Moment {
    Empty,
    Before,
    After,
}

impl Moment {
    /// The text of the row with this id, if there is one.
    pub fn text(self, count: u32, id: u32) -> Option<&'static str> {
        match self {
            Moment::Empty => None,
            Moment::Before => text_before(count, id),
            Moment::After => text_after(count, id),
        }
    }
}

fn text_before(count: u32, id: u32) -> Option<&'static str> {
    if id <= count { Some("kept") } else { None }
}

fn text_after(count: u32, id: u32) -> Option<&'static str> {
    if id > count {
        return if (id - count) % 3 == 0 {
            Some("added")
        } else {
            None
        };
    }
    match id % 3 {
        1 => None,
        2 => Some("changed"),
        _ => Some("kept"),
    }
}

/// The last id that a row may have.
pub fn last_id(count: u32) -> u32 {
    count.saturating_mul(2)
}

// a commit: each row that differs after it
fn all_changes(alloc: Global, count: u32, from: Moment, to: Moment) -> io::Result<Vec<RowChange>> {
    let mut changes = Vec::new(alloc);
    for id in 1..=last_id(count) {
        let text = to.text(count, id);
        if text != from.text(count, id) {
            changes.push(change(alloc, id, text)?)?;
        }
    }
    Ok(changes)
}

fn change(alloc: Global, id: u32, text: Option<&str>) -> Result<RowChange, AllocError> {
    let row = match text {
        Some(text) => Some(row(alloc, id, text)?),
        None => None,
    };
    Ok((key(alloc, id)?, row))
}

fn key(alloc: Global, id: u32) -> Result<RowKey, AllocError> {
    let mut bytes = Vec::new(alloc);
    field_push(&mut bytes, FieldRef::Integer(i64::from(id)))?;
    Ok(RowKey {
        table: 0,
        bytes: Seq::from_vec(bytes),
    })
}

fn row(alloc: Global, id: u32, text: &str) -> Result<Row, AllocError> {
    let mut row = Row::with_capacity(alloc, 16)?;
    row.push(FieldRef::Integer(i64::from(id)))?;
    row.push(FieldRef::Text(text.as_bytes()))?;
    Ok(row)
}

/// A schema of one table with two columns, the first of which is its key.
pub fn one_table(alloc: Global) -> io::Result<Arc<Schema>> {
    let name = Seq::from_slice(alloc, b"t")?;
    let flags = Seq::from_slice(alloc, &[1, 0])?;
    let mut tables = Vec::new(alloc);
    tables.push(Shape { name, flags })?;
    match Schema::new(tables) {
        Ok(schema) => Ok(Arc::new(alloc, schema)?),
        Err(_) => Err(io::Error::other("the table is refused")),
    }
}
