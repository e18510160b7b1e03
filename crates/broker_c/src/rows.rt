//! The calls that return rows, as the text of a changeset with an INSERT for each row. They do not
//! change the broker and its numbers, and return -1 if the handle is shut, or -6 if another call is
//! in it.

ghost use Rattle.std.specs.Prelude.{◌≡◌, IfOk};
ghost use Rattle.std.specs.Option.{option_copied, option_map};
ghost use Rattle.broker_c.specs.Rows.{HasTable, IsMade, IsTableThere, ReadsRow, ReadsRows};
ghost use Rattle.broker_c.specs.Rows as texts;

use crate::codes::{NO_MEMORY, NO_ROW, NO_SUCH, NO_TABLE};
use crate::handle::Handle;
use crate::reading::told;
use crate::row_texts::text_of_rows;
use crate::writing::text_into;
use cs_apply::Tables;
use cs_model::{RowKey, Seq};
use std::alloc::{AllocError, Global};

/// The rows of a subscription, by table, then by the key's bytes. Returns the text's length, and
/// writes the text to the front of `out` if there is room for it. Returns -30 for an unknown
/// subscription, and -2 if memory runs out.
#[unsafe(no_mangle)]
pub extern "C" fn broker_rows(
    alloc: Global,
    broker: &mut Handle,
    subscription: u64,
    out: &mut [u8],
) -> i64
    ensures { ReadsRows result subscription broker.old broker.new out.old out.new }
{
    told!(
        alloc,
        broker,
        |world| rows_into(alloc, world.tables(subscription), out)
    )
}

/// The row of a subscription with this key in the table at this place. `key` is the canonical bytes
/// of the key columns' values, in the order of the columns. Returns the text's length, and writes
/// the text to the front of `out` if there is room for it. Returns -30 for an unknown subscription,
/// -46 if there is no such table, -47 if no row has this key, and -2 if memory runs out.
#[unsafe(no_mangle)]
pub extern "C" fn broker_row(
    alloc: Global,
    broker: &mut Handle,
    subscription: u64,
    table: u64,
    key: &[u8],
    out: &mut [u8],
) -> i64
    ensures { ReadsRow result subscription table key.now broker.old broker.new out.old out.new }
{
    told!(
        alloc,
        broker,
        |world| row_into(alloc, world.tables(subscription), table, key, out)
    )
}

// the rows of these tables, if there are such
fn rows_into(alloc: Global, tables: Option<&Tables>, out: &mut [u8]) -> i64
    ensures { IsMade (IsTableThere (option_copied tables.entry)) result
        (texts.all_rows_found (option_copied tables.entry)) out.old out.new }
{
    let Some(tables) = tables else {
        return i64::from(NO_SUCH);
    };
    match text_of_tables(alloc, tables) {
        Ok(text) => text_into(&text, out),
        Err(_) => i64::from(NO_MEMORY),
    }
}

fn text_of_tables(alloc: Global, tables: &Tables) -> Result<Vec<u8>, AllocError>
    ensures { IfOk result (λ text. text.items ≡ texts.tables_changeset tables.now) }
{
    let rows = tables.rows_in_order(alloc)?;
    text_of_rows(alloc, tables.schema().tables(), &rows)
}

// the row of a table with this key
fn row_into(alloc: Global, tables: Option<&Tables>, table: u64, key: &[u8], out: &mut [u8]) -> i64
    ensures { IsMade (HasTable (option_copied tables.entry) table) result
        (texts.row_found (option_copied tables.entry) table key.now) out.old out.new }
{
    let Some(tables) = tables else {
        return i64::from(NO_SUCH);
    };
    if tables.schema().tables().len() as u64 <= table {
        return i64::from(NO_TABLE);
    }
    match text_of_row(alloc, tables, table as usize, key) {
        Ok(Some(text)) => text_into(&text, out),
        Ok(None) => i64::from(NO_ROW),
        Err(_) => i64::from(NO_MEMORY),
    }
}

// the text of the row with this key, if there is one
fn text_of_row(
    alloc: Global,
    tables: &Tables,
    table: usize,
    key: &[u8],
) -> Result<Option<Vec<u8>>, AllocError>
    ensures { IfOk result (λ found. option_map (λ text. text.items) found
        ≡ texts.text_at tables.now table key.now) }
{
    let bytes = Seq::from_slice(alloc, key)?;
    let key = RowKey { table, bytes };
    match tables.row(&key) {
        None => Ok(None),
        Some(row) => {
            let text = text_of_rows(alloc, tables.schema().tables(), &[(&key, row)])?;
            Ok(Some(text))
        }
    }
}
