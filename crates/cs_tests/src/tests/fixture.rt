//! Shared test data and comparisons. Each type that is often compared has one function, because the
//! prover goes through every comparison in the source.

use cs_model::{Changeset, FieldRef, Fields, Seq, Shape};
use cs_parse::parse;
use std::alloc::{AllocError, Global};
use std::process::Abort;
use std::test::Fail;

/// The header of a table `t` with two columns, the first of which is its key.
pub(super) const HEADER: &[u8] = b"T\x02\x01\0t\0";

/// An INSERT of (1, 'x') into it, and the front of that INSERT up to the key.
pub(super) const INSERT: &[u8] = b"\x12\0\x01\0\0\0\0\0\0\0\x01\x03\x01x";

pub(super) const BEGUN: &[u8] = b"\x12\0\x01\0\0\0\0\0\0\0\x01";

/// Joins these parts.
pub(super) fn joined(alloc: Global, parts: &[&[u8]]) -> Result<Vec<u8>, AllocError> {
    let mut all = Vec::new(alloc);
    for part in parts {
        all.extend_from_slice(part)?;
    }
    Ok(all)
}

/// Parses the text of these parts.
pub(super) fn read(alloc: Global, parts: &[&[u8]]) -> Result<Changeset, Fail> {
    let text = joined(alloc, parts)?;
    Ok(parse(alloc, &text)?)
}

/// A table with this name and these key flags.
pub(super) fn shape(alloc: Global, name: &[u8], flags: &[u8]) -> Result<Shape, AllocError> {
    let name = Seq::from_slice(alloc, name)?;
    let flags = Seq::from_slice(alloc, flags)?;
    Ok(Shape { name, flags })
}

pub(super) fn same(rt: &impl Abort, got: &[u8], want: &[u8]) {
    assert_eq!(rt; got, want);
}

pub(super) fn counts(rt: &impl Abort, got: usize, want: usize) {
    assert_eq!(rt; got, want);
}

/// The iterator returns exactly these fields.
pub(super) fn gives(rt: &impl Abort, mut fields: Fields, wanted: &[FieldRef]) {
    for field in wanted {
        assert_eq!(rt; fields.next(), Some(*field));
    }
    assert!(rt; fields.next().is_none());
}
