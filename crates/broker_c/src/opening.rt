//! The calls that make a handle, free its world, free it, and return its numbers.

ghost use Rattle.std.specs.Prelude.{◌≡◌, ◌&&◌, [], IfErr, IfOk, None, false, not};
ghost use Rattle.std.specs.Box.{box_value};
ghost use Rattle.cs_model.specs.Schema.{tables_refusal};
ghost use Rattle.broker_c.specs.Handle.{Shuts};
ghost use Rattle.broker_c.specs.Opening.{IsBegun, IsHandleOrNull, Opens, RefusesOpening};
ghost use Rattle.broker_c.specs.Opening.{RefusesSchema, TellsWhy};
ghost use Rattle.broker_c.specs.Opening as opening;

use crate::codes::{BAD_LIMIT, BAD_TABLE, BUSY, NO_MEMORY, SHUT, Why, numbers};
use crate::handle::Handle;
use crate::limits::{Limits, TableSpec, config_of, place_of, shapes_of, table_why};
use crate::parts::BoxParts;
use crate::slot::HandleSlot;
use cs_model::{Schema, TableFault};
use rb_core::{Config, ConfigFault, World};
use std::alloc::{AllocError, Global};
use std::mem;

// Why no broker is opened.
#[derive(Clone, Copy)]
pub(crate) enum OpenError {
    // this limit is out of its range
    BadLimit(ConfigFault),
    // this table is refused
    BadTable(TableFault),
    Memory,
}

// the tables as a schema
fn schema_of(alloc: Global, tables: &[TableSpec]) -> Result<Schema, OpenError>
    ensures ok { IfOk result (λ schema. schema ≡ opening.table_shapes tables.now) }
    ensures fit { IfOk result (λ schema.
        tables_refusal [] (opening.table_shapes tables.now) ≡ None) }
    ensures refused { IfErr result (λ error. RefusesSchema error tables.now) }
{
    let Ok(shapes) = shapes_of(alloc, tables) else {
        return Err(OpenError::Memory);
    };
    Schema::new(shapes).map_err(|refused| OpenError::BadTable(refused.fault))
}

// a handle over an empty world, in a box
fn begun(alloc: Global, config: Config, schema: Schema) -> Result<Box<Handle>, AllocError>
    ensures { IfOk result (λ broker. IsBegun config schema (box_value broker)) }
{
    let world = Box::new(alloc, World::new(alloc, config, schema)?)?;
    Ok(Box::new(alloc, Handle::of(world, numbers(0, 0)))?)
}

pub(crate) fn opened(
    alloc: Global,
    limits: &Limits,
    tables: &[TableSpec],
) -> Result<Box<Handle>, OpenError>
    ensures ok { IfOk result (λ broker.
        opening.IsOpened limits.now tables.now (box_value broker)) }
    ensures refused { IfErr result (λ error. RefusesOpening error limits.now tables.now) }
{
    let config = match config_of(limits) {
        Ok(config) => config,
        Err(fault) => return Err(OpenError::BadLimit(fault)),
    };
    let schema = schema_of(alloc, tables)?;
    begun(alloc, config, schema).map_err(|_| OpenError::Memory)
}

/// Opens a broker without publishers, entries and subscriptions, and sets `out` to its handle. It
/// copies the tables. Returns 0, or:
/// - -4 if a limit is out of its range, and sets `why` to the first such limit's place and 0
/// - -5 if a table is refused, and sets `why` to the first such table's place, and to 0 for its
///   shape or 1 for the name of an earlier one
/// - -2 if memory runs out
///
/// What it doesn't set stays as it was. It doesn't free what `out` was before.
#[unsafe(no_mangle)]
pub extern "C" fn broker_open(
    alloc: Global,
    out: &mut HandleSlot,
    limits: &Limits,
    tables: &[TableSpec],
    why: &mut Why,
) -> i32
    requires { out.old.full ≡ false }
    ensures { Opens result limits.now tables.now out.old out.new why.old why.new }
{
    match opened(alloc, limits, tables) {
        Ok(broker) => {
            mem::replace(out, HandleSlot::of_parts(BoxParts::of(broker))).end();
            0
        }
        Err(OpenError::BadLimit(fault)) => {
            *why = numbers(place_of(fault), 0);
            BAD_LIMIT
        }
        Err(OpenError::BadTable(fault)) => {
            *why = table_why(fault);
            BAD_TABLE
        }
        Err(OpenError::Memory) => NO_MEMORY,
    }
}

/// Lets go of everything behind the handle. The handle itself stays, and its other calls return -1
/// from then on. A handle that is shut stays as it is, and so does one that another call is in.
#[unsafe(no_mangle)]
pub extern "C" fn broker_shut(alloc: Global, broker: &mut Handle)
    ensures shut { Shuts (not broker.old.seal.full && broker.old.is_busy) broker.old broker.new }
    ensures why { broker.new.why ≡ broker.old.why }
{
    if broker.is_open() {
        drop(broker.take(alloc));
    } else if broker.is_busy() {
        return;
    }
    broker.shut();
}

/// Frees a handle with everything behind it. No call may be given it again. A null pointer is no
/// handle, and nothing is done.
#[unsafe(no_mangle)]
pub extern "C" fn broker_free(_alloc: Global, slot: HandleSlot)
    requires { IsHandleOrNull slot }
{
    match slot.tested() {
        (slot, true) => drop(slot.into_parts().into_box()),
        (slot, false) => slot.end(),
    }
}

/// Tells the numbers of the last event whose code was -3 or less. Sets `why` to them and returns 0,
/// or returns -1 if the handle is shut, or -6 if another call is in it. It leaves the handle as it
/// is.
#[unsafe(no_mangle)]
pub extern "C" fn broker_why(broker: &Handle, why: &mut Why) -> i32
    ensures { TellsWhy result broker.now why.old why.new }
{
    if !broker.is_open() {
        if broker.is_busy() {
            return BUSY;
        }
        return SHUT;
    }
    *why = broker.why();
    0
}
