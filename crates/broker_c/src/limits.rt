//! A broker's limits and tables, as C passes them.

ghost use Rattle.std.specs.Prelude.{◌≡◌, IfErr, IfOk, None, Some};
ghost use Rattle.broker_c.specs.Opening as opening;

use crate::codes::{Why, numbers};
use cs_model::{Seq, Shape, TableFault};
use rb_core::{Config, ConfigFault};
use std::alloc::{AllocError, Global};

/// The limits of a broker, with the meanings and ranges of `Config::new`.
#[derive(Clone, Copy)]
#[repr(C)]
pub struct Limits {
    pub batch: u64,
    pub window: u64,
    pub timeout: u64,
    pub capacity: u64,
    pub intake: u64,
    pub appliers: u64,
}

/// A table: the bytes of its name, and a byte for each column, which is 0 unless the column is part
/// of the primary key.
#[derive(Clone, Copy)]
#[repr(C)]
pub struct TableSpec<'a> {
    pub name: &'a [u8],
    pub key: &'a [u8],
}

/// The limits as a configuration. Refuses the first one that is out of its range.
pub fn config_of(limits: &Limits) -> Result<Config, ConfigFault>
    ensures ok { IfOk result (λ config. config ≡ opening.desk_limits limits.now) }
    ensures valid { IfOk result (λ config. opening.limits_refusal limits.now ≡ None) }
    ensures refused { IfErr result (λ fault. opening.limits_refusal limits.now ≡ Some fault) }
{
    Config::new(
        limits.batch,
        limits.window,
        limits.timeout,
        limits.capacity,
        limits.intake,
        limits.appliers,
    )
}

/// The place of a limit in `Limits`, from 0.
pub fn place_of(fault: ConfigFault) -> u64
    ensures { result ≡ opening.limit_place fault }
{
    match fault {
        ConfigFault::Batch => 0,
        ConfigFault::Window => 1,
        ConfigFault::Timeout => 2,
        ConfigFault::Capacity => 3,
        ConfigFault::Intake => 4,
        ConfigFault::Appliers => 5,
    }
}

/// The numbers of a refused table: its place, and 0 for its shape or 1 for its name.
pub fn table_why(fault: TableFault) -> Why
    ensures { result ≡ opening.table_why fault }
{
    match fault {
        TableFault::BadShape(place) => numbers(place as u64, 0),
        TableFault::DuplicateTable(place) => numbers(place as u64, 1),
    }
}

// a copy of a table
fn shape_of(alloc: Global, table: &TableSpec) -> Result<Shape, AllocError>
    ensures { IfOk result (λ shape. shape ≡ opening.table_shape table.now) }
{
    let name = Seq::from_slice(alloc, table.name)?;
    let flags = Seq::from_slice(alloc, table.key)?;
    Ok(Shape { name, flags })
}

/// Copies of the tables.
pub fn shapes_of(alloc: Global, tables: &[TableSpec]) -> Result<Vec<Shape>, AllocError>
    ensures { IfOk result (λ shapes. shapes.items ≡ opening.table_shapes tables.now) }
{
    let mut shapes = Vec::new(alloc);
    for table in tables {
        shapes.push(shape_of(alloc, table)?)?;
    }
    Ok(shapes)
}
