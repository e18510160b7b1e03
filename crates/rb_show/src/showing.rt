//! Shows the rows of a script's output.

ghost use Rattle.std.specs.Prelude.{◌≡◌, [], List, ℕ, None, map, IfOk, IfErr, OnErr};
ghost use Rattle.std.specs.Io.KnownBytes.{Consumes, IsAtEnd, Keeps};
ghost use Rattle.rb_script.specs.Script.{lines_of};
ghost use Rattle.rb_show.specs.Shown.{line_shown, lines_shown, row_line, rows_shown, tables_at};
ghost use Rattle.rb_show.specs.Showing.{ShowsLines, ShowEnds};
ghost use Rattle.rb_show.specs.ShownTexts.{IsOfInput, IsOfOutput, ShowsLine};
ghost use Rattle.rb_show.specs.ShownTexts.{named_row, tables_seen};

use crate::literals::line_of_literals;
use crate::objects::line_of_object;
use crate::row_form::RowForm;
use crate::show_fault::ShowError;
use crate::tables::{NamedRow, TableList, row_alone_in};
use rb_script::{flush, is, parts, write_whole};
use std::alloc::{AllocError, Global};
use std::io::{ErrorKind, Read, Write};

/// Reads lines from `reader` to its end, and writes the rows in them to `writer`, a line each, in
/// this form. A line `table HEX` adds a table as in a script. A line `row T HEX HEX ..` is a row of
/// the table with index T. All other lines show nothing.
///
/// Returns `Row` at the first line that begins with `row` and has no row of a table. The rows of
/// the lines before it are written then.
///
/// Returns `Read` if the reader fails, and nothing is written then. Returns `Write` if the writer
/// fails or accepts no byte, and `Memory` if memory runs out. A prefix of the rows is written then,
/// whose last one may be cut.
pub fn show<R: Read, W: Write>(
    alloc: Global,
    reader: &mut R,
    writer: &mut W,
    form: RowForm,
) -> Result<(), ShowError>
    ensures { ShowEnds form result (R.remaining reader.old) (R.remaining reader.new)
        (W.contents writer.old) (W.contents writer.new) }
{
    let input = input_of(alloc, reader)?;
    show_input(alloc, form, &input, writer)
}

// all that the reader has left
fn input_of<R: Read>(alloc: Global, reader: &mut R) -> Result<Vec<u8>, ShowError>
    ensures ok { IfOk result (λ input. Consumes (R.remaining reader.old) (R.remaining reader.new)
        input.items) }
    ensures end { IfOk result (λ input. IsAtEnd (R.remaining reader.new)) }
    ensures err { OnErr result ((input : List ℕ)
        × Consumes (R.remaining reader.old) (R.remaining reader.new) input) }
    ensures fault { IfErr result IsOfInput }
{
    let mut input = Vec::new(alloc);
    match reader.read_to_end(&mut input) {
        Ok(_) => Ok(input),
        Err(why) if why.kind() == ErrorKind::OutOfMemory => Err(ShowError::Memory),
        Err(why) => Err(ShowError::Read(why)),
    }
}

fn show_input<W: Write>(
    alloc: Global,
    form: RowForm,
    input: &[u8],
    writer: &mut W,
) -> Result<(), ShowError>
    ensures { ShowsLines result (rows_shown form input.now) (W.contents writer.old)
        (W.contents writer.new) }
{
    let shown = show_all(alloc, form, input, writer);
    let flushed = flush_rows(writer);
    match shown {
        Ok(()) => flushed,
        Err(ShowError::Row(number)) => match flushed {
            Ok(()) => Err(ShowError::Row(number)),
            Err(fault) => Err(fault),
        },
        Err(fault) => Err(fault),
    }
}

// The same, without the last flush.
fn show_all<W: Write>(
    alloc: Global,
    form: RowForm,
    input: &[u8],
    writer: &mut W,
) -> Result<(), ShowError>
    ensures { ShowsLines result (rows_shown form input.now) (W.contents writer.old)
        (W.contents writer.new) }
{
    let lines = lines(alloc, input)?;
    show_lines(alloc, form, &lines, writer)
}

fn lines(alloc: Global, input: &[u8]) -> Result<Vec<&[u8]>, AllocError>
    ensures { IfOk result (λ lines. map (λ line. line.now) lines.items ≡ lines_of input.now) }
{
    input.split(|byte| *byte == b'\n').collect(alloc)
}

fn show_lines<W: Write>(
    alloc: Global,
    form: RowForm,
    lines: &[&[u8]],
    writer: &mut W,
) -> Result<(), ShowError>
    ensures { ShowsLines result
        (lines_shown form (tables_at [] []) 1 (map (λ line. line.now) lines.now))
        (W.contents writer.old) (W.contents writer.new) }
{
    let mut tables = TableList::none(alloc);
    for (i, line) in lines.iter().enumerate() {
        show_line(alloc, form, &mut tables, i as u64 + 1, line, writer)?;
    }
    Ok(())
}

// Shows the line with this number.
fn show_line<W: Write>(
    alloc: Global,
    form: RowForm,
    tables: &mut TableList,
    number: u64,
    line: &[u8],
    writer: &mut W,
) -> Result<(), ShowError>
    ensures { ShowsLine result number (line_shown form (tables_seen tables.old) line.now)
        (tables_seen tables.new) (W.contents writer.old) (W.contents writer.new) }
{
    let words = parts(alloc, line)?;
    let Some((name, rest)) = words.split_first() else {
        return Ok(());
    };
    if is(name, b"row") {
        let Some(changeset) = tables.row(alloc, rest)? else {
            return Err(ShowError::Row(number));
        };
        return match row_alone_in(&changeset) {
            None => Err(ShowError::Row(number)),
            Some(row) => show_row(alloc, form, &row, writer),
        };
    }
    if is(name, b"table") {
        tables.add(alloc, rest)?;
    }
    Ok(())
}

fn show_row<W: Write>(
    alloc: Global,
    form: RowForm,
    row: &NamedRow,
    writer: &mut W,
) -> Result<(), ShowError>
    ensures { ShowsLines result (row_line form (named_row row.now), None) (W.contents writer.old)
        (W.contents writer.new) }
{
    let line = line_of_row(alloc, form, row)?;
    match write_whole(writer, &line) {
        Ok(()) => Ok(()),
        Err(why) => Err(ShowError::Write(why)),
    }
}

fn line_of_row(alloc: Global, form: RowForm, row: &NamedRow) -> Result<Vec<u8>, AllocError>
    ensures { IfOk result (λ line. line.items ≡ row_line form (named_row row.now)) }
{
    match form {
        RowForm::Sql => line_of_literals(alloc, row.name, &row.values),
        RowForm::Json => line_of_object(alloc, row.name, &row.values),
    }
}

// Flushes the writer.
fn flush_rows<W: Write>(writer: &mut W) -> Result<(), ShowError>
    ensures kept { Keeps (W.contents writer.old) (W.contents writer.new) }
    ensures fault { IfErr result IsOfOutput }
{
    match flush(writer) {
        Ok(()) => Ok(()),
        Err(why) => Err(ShowError::Write(why)),
    }
}
