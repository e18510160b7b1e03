//! Formats entries and rows as text.

ghost use Rattle.std.specs.Prelude.{◌≡◌, ◌++◌, IfOk, OnOk, string_bytes};
ghost use Rattle.hex.specs.Hex.{encode_lower};
ghost use Rattle.cs_apply.specs.Seen.{listed};
ghost use Rattle.cs_model.specs.Seen.{field_seen};
ghost use Rattle.rb_script.specs.Texts.{origin_text, bytes_word, entry_text, field_text, row_text};
ghost use Rattle.rb_script.specs.Texts.{rows_text};

use cs_model::{FieldRef, Origin, Row, RowKey, field_push};
use rb_core::Entry;
use std::alloc::{AllocError, Global};

// how many bytes are encoded at once
const ENCODED: usize = 4_096;

/// The text of an entry, without a line end. Returns `AllocError` if memory runs out.
pub fn text_of_entry(alloc: Global, entry: &Entry) -> Result<Vec<u8>, AllocError>
    ensures { IfOk result (λ text. text.items ≡ entry_text entry.now) }
{
    let number = entry.number();
    let (publisher, own) = (entry.publisher(), entry.own());
    let origin = text_of_origin(alloc, entry.origin())?;
    let mut text = Vec::new(alloc);
    let front = format!(in alloc; "entry {number} {publisher} {own} {origin} ")?;
    text.extend_from_slice(front.as_bytes())?;
    add_word(alloc, &mut text, entry.text())?;
    Ok(text)
}

fn text_of_origin(alloc: Global, origin: Origin) -> Result<String, AllocError>
    ensures { IfOk result (λ text. string_bytes text ≡ origin_text origin) }
{
    match origin {
        Origin::Sent => format!(in alloc; "s"),
        Origin::Withdraws(n) => format!(in alloc; "w{n}"),
    }
}

// Appends bytes as a word.
fn add_word(alloc: Global, text: &mut Vec<u8>, bytes: &[u8]) -> Result<(), AllocError>
    ensures { OnOk result (text.new.items ≡ text.old.items ++ bytes_word bytes.now) }
{
    match bytes {
        [] => Ok(text.push(b'-')?),
        _ => add_hex(alloc, text, bytes),
    }
}

// Appends bytes in hexadecimal, some at a time, so that the whole is not copied once more.
fn add_hex(alloc: Global, text: &mut Vec<u8>, bytes: &[u8]) -> Result<(), AllocError>
    ensures { OnOk result (text.new.items ≡ text.old.items ++ encode_lower bytes.now) }
{
    for piece in bytes.chunks(ENCODED) {
        text.extend_from_slice(hex::encode(alloc, piece)?.as_bytes())?;
    }
    Ok(())
}

/// The text of rows with their keys: how many, then each on its own line. Returns `AllocError` if
/// memory runs out.
pub fn text_of_rows(alloc: Global, rows: &[(&RowKey, &Row)]) -> Result<Vec<u8>, AllocError>
    ensures { IfOk result (λ text. text.items ≡ rows_text (listed rows.now)) }
{
    let count = rows.len();
    let mut text = Vec::new(alloc);
    text.extend_from_slice(format!(in alloc; "rows {count}\n")?.as_bytes())?;
    for (key, row) in rows {
        add_row(alloc, &mut text, key, row)?;
    }
    Ok(text)
}

/// Appends the line of a row to a text. Returns `AllocError` if memory runs out; a part of the line
/// may be appended then.
pub fn add_row(alloc: Global, text: &mut Vec<u8>, key: &RowKey, row: &Row) -> Result<(), AllocError>
    ensures { OnOk result (text.new.items ≡ text.old.items ++ row_text (key.now, row.now)) }
{
    let table = key.table;
    text.extend_from_slice(format!(in alloc; "row {table}")?.as_bytes())?;
    for value in row.fields() {
        add_field(alloc, text, value)?;
    }
    text.push(b'\n')?;
    Ok(())
}

fn add_field(alloc: Global, text: &mut Vec<u8>, field: FieldRef) -> Result<(), AllocError>
    ensures { OnOk result (text.new.items ≡ text.old.items ++ field_text (field_seen field.entry)) }
{
    let mut bytes = Vec::new(alloc);
    field_push(&mut bytes, field)?;
    text.push(b' ')?;
    text.extend_from_slice(hex::encode(alloc, bytes)?.as_bytes())
}
