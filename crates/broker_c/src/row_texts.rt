//! Rows as the text of a changeset, with an INSERT for each of them.

ghost use Rattle.std.specs.Prelude.{◌≡◌, IfOk, None, Some};
ghost use Rattle.cs_apply.specs.Seen.{listed};
ghost use Rattle.cs_model.specs.Bytes.{AddsBytes};
ghost use Rattle.std.specs.Option.{option_copied};
ghost use Rattle.broker_c.specs.RowTexts as texts;

use cs_model::{Op, Row, RowKey, Shape, varint_push};
use std::alloc::{AllocError, Global};

/// The text of rows: a header where the table is another than that of the row before, and an INSERT
/// for each row.
pub fn text_of_rows(
    alloc: Global,
    tables: &[Shape],
    rows: &[(&RowKey, &Row)],
) -> Result<Vec<u8>, AllocError>
    ensures { IfOk result (λ text. text.items
        ≡ texts.rows_changeset tables.now None (listed rows.now)) }
{
    let mut text = Vec::new(alloc);
    let mut last = None;
    for (key, row) in rows {
        push_row(&mut text, tables, last, key.table, row)?;
        last = Some(key.table);
    }
    Ok(text)
}

// a row of this table, after one of the table `last`
fn push_row(
    text: &mut Vec<u8>,
    tables: &[Shape],
    last: Option<usize>,
    table: usize,
    row: &Row,
) -> Result<(), AllocError>
    ensures { AddsBytes result text.old text.new
        (texts.row_changeset tables.now last table row.now) }
{
    push_behind(text, tables, last, table)?;
    push_insert(text, row)
}

// the header of a table, unless the last row is of that one
fn push_behind(
    text: &mut Vec<u8>,
    tables: &[Shape],
    last: Option<usize>,
    table: usize,
) -> Result<(), AllocError>
    ensures { AddsBytes result text.old text.new (texts.header_before tables.now last table) }
{
    match last {
        Some(last) if last == table => Ok(()),
        Some(_) | None => push_header(text, tables.get(table)),
    }
}

fn push_header(text: &mut Vec<u8>, table: Option<&Shape>) -> Result<(), AllocError>
    ensures { AddsBytes result text.old text.new (texts.header_of (option_copied table.entry)) }
{
    let Some(shape) = table else {
        return Ok(());
    };
    let flags: &[u8] = &shape.flags;
    text.push(b'T')?;
    varint_push(text, flags.len() as u64)?;
    text.extend_from_slice(flags)?;
    text.extend_from_slice(&shape.name)?;
    text.push(0)?;
    Ok(())
}

fn push_insert(text: &mut Vec<u8>, row: &Row) -> Result<(), AllocError>
    ensures { AddsBytes result text.old text.new (texts.insert_bytes row.now) }
{
    text.push(Op::Insert.byte())?;
    text.push(0)?;
    text.extend_from_slice(row.bytes())
}
