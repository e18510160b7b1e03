//! The schema: the tables that a broker serves, and the check of a changeset against them.

ghost use Rattle.std.specs.Prelude.{◌≡◌, ◌++◌, ◌∷◌, [], Some, None, IfOk, IfErr, OnOk};
ghost use Rattle.std.specs.Prelude.{OnErr, IsOk, length, MatchResult, nat_lt};
ghost use Rattle.std.specs.List.{list_any, list_all};
ghost use Rattle.cs_model.specs.Schema.{has_name, has_shape, table_index, are_flags, is_name};
ghost use Rattle.cs_model.specs.Section.{Section};
ghost use Rattle.cs_model.specs.Schema.{refusal_at, table_refusal, tables_refusal, refusal_of};
ghost use Rattle.cs_model.specs.Schema.{same_bytes, same_shape, IsSchema, ReportsRefusal};
ghost use Rattle.cs_model.specs.declared.schema.SchemaError.TheVariants.{Memory};

use crate::changeset::Changeset;
use crate::copy::CopyIn;
use crate::shape::{Shape, ShapeRef};
use std::alloc::{AllocError, AllocFailed, Global};
use std::marker::Model;
use thiserror::Error;

/// The error of `Schema::new`, and of `Schema::add` in `SchemaError`. The call did not change the
/// tables. The number is the table's index, from 0.
#[derive(Clone, Copy, Debug, PartialEq, Eq, Error)]
pub enum TableFault {
    /// An earlier table has the same name.
    #[error("table {0} has the name of an earlier one")]
    DuplicateTable(usize),
    /// The table has no column, more than 2,000, no key column or an invalid name. Or 1,024 tables
    /// precede it.
    #[error("table {0} has a shape that no table may have, or is one too many")]
    BadShape(usize),
}

/// The error of `Schema::admits`, which changes nothing. The number is the section's index, from 0.
#[derive(Clone, Copy, Debug, PartialEq, Eq, Error)]
pub enum SectionFault {
    /// No table has the section's name.
    #[error("section {0} is of an unknown table")]
    UnknownTable(usize),
    /// The table of that name has another number of columns or other key flags than the section.
    #[error("section {0} has another shape than its table")]
    ShapeDiffers(usize),
}

/// The error of `Schema::new`: the first fault, and the tables.
#[derive(Debug, Drop)]
pub struct RefusedTables {
    pub fault: TableFault,
    pub tables: Vec<Shape>,
}

/// The error of `Schema::add`. The call did not change the schema.
#[derive(Debug, Drop, Error)]
pub enum SchemaError {
    /// The table is refused.
    #[error(transparent)]
    Fault(TableFault),
    /// Out of memory.
    #[error("out of memory")]
    Memory,
}

impl<T: Drop> From<AllocFailed<T>> for SchemaError {
    ghost from_gives = { λ _ e. e ≡ Memory };

    fn from(_e: AllocFailed<T>) -> SchemaError {
        SchemaError::Memory
    }
}

/// The tables that a broker serves: at most 1,024, in order, with distinct names. A table is
/// identified by its index, from 0.
#[derive(Debug, Drop)]
pub struct Schema {
    tables: Vec<Shape>,
}

impl Model for Schema {
    ghost use Rattle.std.specs.Prelude.{List};
    ghost use Rattle.cs_model.specs.declared.shape.Shape.{Shape};
    ghost use Rattle.cs_model.specs.Schema.{IsSchema};

    ghost Value = { List Shape };

    ghost view = { λ s. s.tables.items };

    ghost invariant = { λ s. IsSchema s.tables.items };
}

impl Schema {
    /// A schema without tables.
    pub fn empty(alloc: Global) -> Schema
        ensures { result ≡ [] }
    {
        Schema {
            tables: Vec::new(alloc),
        }
    }

    /// Makes a schema of these tables, without a copy. Refuses the first table whose name an
    /// earlier one has (`DuplicateTable`), or whose shape is invalid (`BadShape`). Returns all
    /// tables with the error.
    pub fn new(tables: Vec<Shape>) -> Result<Schema, RefusedTables>
        ensures ok { IfOk result (λ schema. (schema ≡ tables.items)
            × (tables_refusal [] tables.items ≡ None)) }
        ensures refused { IfErr result (λ e. (tables_refusal [] tables.items ≡ Some e.fault)
            × (e.tables.items ≡ tables.items)) }
    {
        match first_refusal(&tables) {
            Some(fault) => Err(RefusedTables { fault, tables }),
            None => Ok(Schema { tables }),
        }
    }

    /// Appends a table. Refuses it as `new` does, or returns `Memory`. An `Err` does not change the
    /// schema.
    pub fn add(&mut self, table: Shape) -> Result<(), SchemaError>
        ensures ok { OnOk result ((self.new ≡ self.old ++ table ∷ [])
            × (table_refusal self.old table ≡ None)) }
        ensures refused { IfErr result (λ e. ReportsRefusal e (table_refusal self.old table)) }
        ensures err { OnErr result (self.new ≡ self.old) }
    {
        match refusal(&self.tables, &table) {
            Some(fault) => Err(SchemaError::Fault(fault)),
            None => Ok(self.tables.push(table)?),
        }
    }

    /// The tables, in order. None of them is refused after those before it.
    pub fn tables(&self) -> &[Shape]
        ensures tables { result.now ≡ self.now }
        ensures valid { IsSchema self.now }
    {
        &self.tables
    }

    /// The index of the table with this name and these key flags, if there is one.
    pub fn table(&self, shape: &ShapeRef) -> Option<usize>
        ensures { result ≡ table_index self.now shape.now }
    {
        self.tables
            .iter()
            .position(|table| same_table(table, shape))
    }

    /// Checks that each section of a changeset has the shape of a table. Otherwise refuses the
    /// first section that doesn't, as `UnknownTable` or `ShapeDiffers`.
    pub fn admits(&self, changeset: &Changeset) -> Result<(), SectionFault>
        ensures ok { OnOk result (refusal_of self.now changeset.now ≡ None) }
        ensures refused { IfErr result (λ fault. refusal_of self.now changeset.now ≡ Some fault) }
    {
        // there are no more sections than a `usize` counts
        let _count = changeset.len();
        let mut place: usize = 0;
        for section in changeset.iter() {
            if !has_table(&self.tables, &section.shape()) {
                return Err(fault_at(&self.tables, section.name(), place));
            }
            place += 1;
        }
        Ok(())
    }
}

impl CopyIn for Schema {
    fn copy_in(&self, alloc: Global) -> Result<Schema, AllocError> {
        Ok(Schema {
            tables: Shape::copy_all(alloc, &self.tables)?,
        })
    }
}

fn same_table(a: &Shape, b: &ShapeRef) -> bool
    ensures { result ≡ same_shape a.now b.now }
{
    a.as_ref() == *b
}

fn has_table(tables: &[Shape], shape: &ShapeRef) -> bool
    ensures { result ≡ has_shape tables.now shape.now }
{
    tables.iter().any(|table| same_table(table, shape))
}

fn knows_name(tables: &[Shape], name: &[u8]) -> bool
    ensures { result ≡ has_name tables.now name.now }
{
    tables.iter().any(|table| &table.name[..] == name)
}

// why the section at this place, with a table of this name, is refused
fn fault_at(tables: &[Shape], name: &[u8], place: usize) -> SectionFault
    ensures { (section : Section) → section.shape.name ≡ name.now
        → result ≡ refusal_at tables.now place (Some section) }
{
    if knows_name(tables, name) {
        SectionFault::ShapeDiffers(place)
    } else {
        SectionFault::UnknownTable(place)
    }
}

fn flags_stand(flags: &[u8]) -> bool
    ensures { result ≡ are_flags flags.now }
{
    !flags.is_empty() && flags.len() <= 2000 && any_nonzero(flags)
}

fn any_nonzero(bytes: &[u8]) -> bool
    ensures { result ≡ list_any (λ byte. nat_lt 0 byte) bytes.now }
{
    bytes.iter().any(|byte| 0 < *byte)
}

fn all_nonzero(bytes: &[u8]) -> bool
    ensures { result ≡ list_all (λ byte. nat_lt 0 byte) bytes.now }
{
    bytes.iter().all(|byte| 0 < *byte)
}

fn name_stands(name: &[u8]) -> bool
    ensures { result ≡ is_name name.now }
{
    !name.is_empty() && name.len() <= 1024 && all_nonzero(name)
}

// why a table can't follow these
fn refusal(earlier: &[Shape], table: &Shape) -> Option<TableFault>
    ensures { result ≡ table_refusal earlier.now table.now }
{
    if knows_name(earlier, &table.name) {
        return Some(TableFault::DuplicateTable(earlier.len()));
    }
    if flags_stand(&table.flags) && name_stands(&table.name) && earlier.len() < 1024 {
        return None;
    }
    Some(TableFault::BadShape(earlier.len()))
}

fn first_refusal(tables: &[Shape]) -> Option<TableFault>
    ensures { result ≡ tables_refusal [] tables.now }
{
    for (i, table) in tables.iter().enumerate() {
        if let Some(fault) = refusal(&tables[..i], table) {
            return Some(fault);
        }
    }
    None
}
