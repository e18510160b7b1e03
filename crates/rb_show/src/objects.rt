//! Formats rows as JSON.

ghost use Rattle.std.specs.Prelude.{◌≡◌, ◌++◌, map, option_map, IfOk, OnOk};
ghost use Rattle.serde_json.specs.Data.{array};
ghost use Rattle.serde_json.specs.View.{items_of, view};
ghost use Rattle.cs_model.specs.Row.{values_of};
ghost use Rattle.cs_model.specs.Seen.{field_seen};
ghost use Rattle.rb_show.specs.Shown.{hex_data, json_line, row_data, text_data, value_data};
ghost use Rattle.rb_show.specs.ShownTexts.{field_data, field_items};

use crate::literals::utf8;
use cs_model::{FieldRef, RecordRef};
use serde_json::{Value, json};
use std::alloc::{AllocError, Global};

/// The line of a row: a JSON object with the values and the table's name. Returns `AllocError` if
/// memory runs out.
pub fn line_of_object(alloc: Global, name: &[u8], values: &RecordRef) -> Result<Vec<u8>, AllocError>
    ensures { IfOk result (λ line. line.items ≡ json_line name.now (values_of values.now)) }
{
    let object = object_of(alloc, name, values)?;
    let mut line = object.to_vec(alloc)?;
    line.push(b'\n')?;
    Ok(line)
}

fn object_of(alloc: Global, name: &[u8], values: &RecordRef) -> Result<Value, AllocError>
    ensures { IfOk result (λ object. view object ≡ row_data name.now (values_of values.now)) }
{
    let row = array_of(alloc, values)?;
    let table = text_of_bytes(alloc, name)?;
    json!(in alloc; {"row": row, "table": table})
}

fn array_of(alloc: Global, values: &RecordRef) -> Result<Value, AllocError>
    ensures { IfOk result (λ row. view row
        ≡ array (items_of (map value_data (values_of values.now)))) }
{
    let mut items = Vec::new(alloc);
    for field in values.fields() {
        add_item(alloc, &mut items, field)?;
    }
    Ok(Value::from(items))
}

// Appends the field's value, if it has one.
#[tactic(auto, using(crate::proofs::shown::RowLines::one_more_viewed))]
fn add_item(alloc: Global, items: &mut Vec<Value>, field: FieldRef) -> Result<(), AllocError>
    ensures { OnOk result (map view items.new.items
        ≡ map view items.old.items ++ field_items (field_data (field_seen field.entry))) }
{
    match item_of(alloc, field)? {
        None => Ok(()),
        Some(item) => Ok(items.push(item)?),
    }
}

// the field's value, if it has one
fn item_of(alloc: Global, field: FieldRef) -> Result<Option<Value>, AllocError>
    ensures { IfOk result (λ item. option_map view item ≡ field_data (field_seen field.entry)) }
{
    match field {
        FieldRef::Undefined => Ok(None),
        FieldRef::Integer(number) => Ok(Some(Value::from(number))),
        FieldRef::Text(bytes) => Ok(Some(text_of_bytes(alloc, bytes)?)),
        FieldRef::Blob(bytes) => Ok(Some(hex_of_bytes(alloc, bytes)?)),
        FieldRef::Null => Ok(Some(Value::Null)),
    }
}

// a text, or its bytes in hexadecimal if it isn't UTF-8
fn text_of_bytes(alloc: Global, bytes: &[u8]) -> Result<Value, AllocError>
    ensures { IfOk result (λ text. view text ≡ text_data bytes.now) }
{
    match utf8(bytes) {
        Some(text) => Value::try_from_str(alloc, text),
        None => hex_of_bytes(alloc, bytes),
    }
}

fn hex_of_bytes(alloc: Global, bytes: &[u8]) -> Result<Value, AllocError>
    ensures { IfOk result (λ hex. view hex ≡ hex_data bytes.now) }
{
    let hex = hex::encode(alloc, bytes)?;
    json!(in alloc; {"hex": hex})
}
