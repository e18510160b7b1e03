//! Tests the messages of errors.

use cs_apply::*;
use cs_model::SectionFault::{ShapeDiffers, UnknownTable};
use cs_model::TableFault::{BadShape, DuplicateTable};
use cs_model::*;
use cs_parse::FaultKind::*;
use cs_parse::*;
use cs_write::{SinkFault, WriteError};
use std::alloc::Global;
use std::fmt::Display;
use std::process::Abort;
use std::test::Fail;

fn says<T: Display>(rt: &impl Abort, alloc: Global, error: &T, text: &str) -> Result<(), Fail> {
    let said = format!(in alloc; "{error}")?;
    assert_eq!(rt; said.as_str(), text);
    Ok(())
}

// the faults of texts
fn kinds(rt: &impl Abort, alloc: Global) -> Result<(), Fail> {
    for (kind, text) in [
        (BadMarker, "the first byte begins no changeset"),
        (Patchset, "a patchset begins here, which isn't read"),
        (Columns, "a table has no column, or more than 2,000"),
        (NoKey, "no column of a table is in its key"),
        (EmptyName, "a table's name is empty"),
        (NameTooLong, "a table's name is longer than 1,024 bytes"),
        (BadOperation, "neither a change nor a header begins here"),
        (BadType, "no field has this type"),
        (Real, "a REAL value, which isn't read"),
        (
            UndefinedField,
            "a field of an INSERT or a DELETE has no value",
        ),
        (KeyMissing, "a key column has no value, or is NULL"),
        (KeyChanged, "an UPDATE gives a key column a new value"),
        (
            OneSided,
            "a column of an UPDATE has a value in one of its records only",
        ),
        (ValueTooLong, "a value is longer than 16,777,216 bytes"),
        (TooLong, "the text is longer than 16,777,216 bytes"),
        (Truncated, "the text ends inside a header or a change"),
    ] {
        says(rt, alloc, &kind, text)?;
    }
    let fault = ParseFault { at: 7, kind: Real };
    let text = "a REAL value, which isn't read, at byte 7";
    says(rt, alloc, &fault, text)?;
    says(rt, alloc, &ParseError::Fault(fault), text)?;
    says(rt, alloc, &EndError::Fault(fault), text)?;
    says(rt, alloc, &ParseError::Memory, "out of memory")
}

// the refusals of tables and sections
fn refusals(rt: &impl Abort, alloc: Global) -> Result<(), Fail> {
    let twice = "table 2 has the name of an earlier one";
    says(rt, alloc, &DuplicateTable(2), twice)?;
    says(rt, alloc, &SchemaError::Fault(DuplicateTable(2)), twice)?;
    let bad = "table 2 has a shape that no table may have, or is one too many";
    says(rt, alloc, &BadShape(2), bad)?;
    let unknown = "section 0 is of an unknown table";
    says(rt, alloc, &UnknownTable(0), unknown)?;
    says(rt, alloc, &EndError::Refused(UnknownTable(0)), unknown)?;
    let differs = "section 0 has another shape than its table";
    says(rt, alloc, &ShapeDiffers(0), differs)?;
    says(rt, alloc, &SchemaError::Memory, "out of memory")
}

#[test]
fn errors_say_what_is_wrong(rt: HostRuntime) -> Result<(), Fail> {
    let alloc = rt.alloc();
    kinds(&rt, alloc)?;
    refusals(&rt, alloc)?;
    for (kind, text) in [
        (ConflictKind::Data, "change 3: the row has other values"),
        (ConflictKind::NotFound, "change 3: there is no such row"),
        (ConflictKind::Conflict, "change 3: the row is there already"),
    ] {
        let conflict = Conflict { position: 3, kind };
        says(&rt, alloc, &conflict, text)?;
        says(&rt, alloc, &ApplyError::Conflict(conflict), text)?;
    }
    says(&rt, alloc, &ApplyError::Memory, "out of memory")?;
    let text = "the sink failed to take a piece";
    says(&rt, alloc, &SinkFault, text)?;
    says(&rt, alloc, &WriteError::Sink, text)?;
    says(&rt, alloc, &WriteError::Memory, "out of memory")
}
