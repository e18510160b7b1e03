//! Formats rows as SQL literals.

ghost use Rattle.std.specs.Prelude.{◌≡◌, ◌++◌, ◌==◌, ◌&&◌, true, false, not, nat_le, IfOk};
ghost use Rattle.std.specs.{Prelude.{MatchOption, OnOk}, List.{flat_map, list_all}, Str.{is_utf8}};
ghost use Rattle.cs_model.specs.{Row.{values_of}, Seen.{field_seen}};
ghost use Rattle.rb_show.specs.Shown.{blob_literal, is_printable, literals, name_shown};
ghost use Rattle.rb_show.specs.Shown.{quote_doubled, sql_line, text_literal};
ghost use Rattle.rb_show.specs.ShownTexts.{field_literal, field_shown};

use cs_model::{FieldRef, RecordRef};
use std::alloc::{AllocError, Global};

/// The line of a row: the table's name, and the values as SQL literals. Returns `AllocError` if
/// memory runs out.
pub fn line_of_literals(
    alloc: Global,
    name: &[u8],
    values: &RecordRef,
) -> Result<Vec<u8>, AllocError>
    ensures { IfOk result (λ line. line.items ≡ sql_line name.now (values_of values.now)) }
{
    let mut line = Vec::new(alloc);
    add_name(alloc, &mut line, name)?;
    line.extend_from_slice(b": ")?;
    add_literals(alloc, &mut line, values)?;
    line.push(b'\n')?;
    Ok(line)
}

fn add_name(alloc: Global, text: &mut Vec<u8>, name: &[u8]) -> Result<(), AllocError>
    ensures { OnOk result (text.new.items ≡ text.old.items ++ name_shown name.now) }
{
    if printable(name) {
        text.extend_from_slice(name)
    } else {
        add_blob(alloc, text, name)
    }
}

// Appends the values, with commas between them.
fn add_literals(alloc: Global, text: &mut Vec<u8>, values: &RecordRef) -> Result<(), AllocError>
    ensures { OnOk result (text.new.items ≡ text.old.items ++ literals (values_of values.now)) }
{
    let mut later = false;
    for field in values.fields() {
        if field.has_value() {
            add_next(alloc, text, later, field)?;
            later = true;
        }
    }
    Ok(())
}

// Appends a value, after a comma if others came before.
fn add_next(
    alloc: Global,
    text: &mut Vec<u8>,
    later: bool,
    field: FieldRef,
) -> Result<(), AllocError>
    ensures { OnOk result (text.new.items
        ≡ text.old.items ++ field_literal later (field_seen field.entry)) }
{
    if later {
        text.extend_from_slice(b", ")?;
    }
    add_literal(alloc, text, field)
}

fn add_literal(alloc: Global, text: &mut Vec<u8>, field: FieldRef) -> Result<(), AllocError>
    ensures { OnOk result (text.new.items
        ≡ text.old.items ++ field_shown (field_seen field.entry)) }
{
    match field {
        FieldRef::Undefined => Ok(()),
        FieldRef::Integer(number) => {
            text.extend_from_slice(format!(in alloc; "{number}")?.as_bytes())
        }
        FieldRef::Text(bytes) if printable(bytes) => add_text(text, bytes),
        FieldRef::Text(bytes) => add_blob(alloc, text, bytes),
        FieldRef::Blob(bytes) => add_blob(alloc, text, bytes),
        FieldRef::Null => text.extend_from_slice(b"NULL"),
    }
}

// Appends a text between quotes, with its own quotes doubled.
fn add_text(text: &mut Vec<u8>, bytes: &[u8]) -> Result<(), AllocError>
    ensures { OnOk result (text.new.items ≡ text.old.items ++ text_literal bytes.now) }
{
    text.push(b'\'')?;
    add_doubled(text, bytes)?;
    Ok(text.push(b'\'')?)
}

fn add_doubled(text: &mut Vec<u8>, bytes: &[u8]) -> Result<(), AllocError>
    ensures { OnOk result (text.new.items ≡ text.old.items ++ flat_map quote_doubled bytes.now) }
{
    for byte in bytes {
        if *byte == b'\'' {
            text.push(b'\'')?;
        }
        text.push(*byte)?;
    }
    Ok(())
}

fn add_blob(alloc: Global, text: &mut Vec<u8>, bytes: &[u8]) -> Result<(), AllocError>
    ensures { OnOk result (text.new.items ≡ text.old.items ++ blob_literal bytes.now) }
{
    text.extend_from_slice(b"x'")?;
    text.extend_from_slice(hex::encode(alloc, bytes)?.as_bytes())?;
    Ok(text.push(b'\'')?)
}

fn printable(bytes: &[u8]) -> bool
    ensures { result ≡ is_printable bytes.now }
{
    utf8(bytes).is_some() && visible(bytes)
}

/// The bytes as a text, if they are UTF-8.
#[tactic(auto, using(crate::proofs::shown::RowLines::utf8_tests))]
pub fn utf8(bytes: &[u8]) -> Option<&str>
    ensures { MatchOption result (is_utf8 bytes.now ≡ false)
        (λ text. (text.now ≡ bytes.now) × (is_utf8 bytes.now ≡ true)) }
{
    match str::from_utf8(bytes) {
        Ok(text) => Some(text),
        Err(_) => None,
    }
}

// whether no byte is a control character
fn visible(bytes: &[u8]) -> bool
    ensures { result ≡ list_all (λ byte. nat_le 32 byte && not (byte == 127)) bytes.now }
{
    bytes.iter().all(|byte| 32 <= *byte && *byte != 127)
}
