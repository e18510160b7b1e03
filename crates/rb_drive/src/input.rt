//! Reads the input of a drive, line by line, up to its end or its first bad line.

ghost use Rattle.std.specs.Prelude.{◌≡◌, ◌+◌, ◌∷◌, [], length, vec_len, IfOk, Some};
ghost use Rattle.rb_drive.specs.Input.{InputEnds};
ghost use Rattle.rb_drive.specs.Reading.{AddEnds, EndsAfter, ReadingGoesOn, IsReadUpTo, with_entry};
ghost use Rattle.rb_drive.specs.Reading.{with_line};
ghost use Rattle.rb_drive.specs.declared.entries.LineEntry.TheVariants.{Table, Changeset};

use crate::entries::{LineEntry, entry_in};
use crate::fault::DriveError;
use crate::progress::Progress;
use cs_model::{Octets, Schema, SchemaError, Shape};
use rb_script::{MOST_OF_LINE, read_some};
use std::alloc::{AllocError, Global};
use std::io::Read;

// the most changesets of an input
const MOST_OF_CHANGESETS: usize = 65_536;

// how many bytes a read asks for
const PIECE: usize = 65_536;

/// A changeset that the input gives to a publisher: the number of its line, counted from 1 over all
/// lines, its publisher, and its bytes, right or wrong.
#[derive(Debug, Drop)]
pub struct Given {
    pub line: u64,
    pub publisher: u64,
    pub text: Octets,
}

/// An input: its tables, and its changesets in the order of their lines.
#[derive(Debug, Drop)]
pub struct Input {
    pub schema: Schema,
    pub givens: Vec<Given>,
}

// How far an input is read.
#[derive(Drop)]
struct Reading {
    // what the lines before gave, each a table or a changeset
    input: Input,
    // what is read of the line
    line: Vec<u8>,
}

/// Reads an input: `table HEX` lines, each with a table's header, then at most 65,536 lines
/// `changeset P HEX`, each with a publisher's number from 0 to 63 and bytes. A line has at most
/// 65,536 bytes; the last one may have no line end.
///
/// Returns `Line` with the number of the first other line, as soon as it ends or is too long, and
/// `Read` if the reader fails before. Counts the lines as it reads them.
pub fn read_input<R: Read>(
    alloc: Global,
    reader: &mut R,
    progress: &Progress,
) -> Result<Input, DriveError>
    ensures { InputEnds result (R.remaining reader.old) (R.remaining reader.new) }
{
    let mut buffer = zeros(alloc, PIECE)?;
    let piece = buffer.as_mut_slice();
    let mut reading = nothing_read(alloc);
    for _ in 0..u64::MAX {
        progress.set_read(lines_in(&reading));
        let read = match read_some(reader, piece) {
            Ok(n) => n,
            Err(why) => return Err(DriveError::Read(why)),
        };
        if read == 0 {
            return finish(alloc, reading);
        }
        feed(alloc, &mut reading, &piece[..read])?;
    }
    // each pass reads a byte at least, and a bad line comes before so many
    unreachable!()
}

fn zeros(alloc: Global, n: usize) -> Result<Vec<u8>, AllocError>
    ensures { IfOk result (λ bytes. vec_len bytes ≡ n) }
{
    vec![in alloc; 0u8; n]
}

fn nothing_read(alloc: Global) -> Reading
    ensures { IsReadUpTo [] result }
{
    Reading {
        input: Input {
            schema: Schema::empty(alloc),
            givens: Vec::new(alloc),
        },
        line: Vec::new(alloc),
    }
}

// Goes over these bytes.
fn feed(alloc: Global, reading: &mut Reading, bytes: &[u8]) -> Result<(), DriveError>
    ensures { ReadingGoesOn reading.old bytes.now result reading.new }
{
    for byte in bytes {
        take_byte(alloc, reading, *byte)?;
    }
    Ok(())
}

// A line that is too long is bad before its end comes, so that an endless one ends.
fn take_byte(alloc: Global, reading: &mut Reading, byte: u8) -> Result<(), DriveError>
    ensures { ReadingGoesOn reading.old (byte ∷ []) result reading.new }
{
    if byte == b'\n' {
        add_line(alloc, &mut reading.input, &reading.line)?;
        reading.line.clear();
        return Ok(());
    }
    if reading.line.len() >= MOST_OF_LINE {
        return Err(DriveError::Line(next_line(&reading.input)));
    }
    reading.line.push(byte)?;
    Ok(())
}

// Ends the input. What comes after the last line end is a line if it is not empty.
fn finish(alloc: Global, reading: Reading) -> Result<Input, DriveError>
    ensures { EndsAfter reading result }
{
    let Reading { mut input, line } = reading;
    if !line.is_empty() {
        add_line(alloc, &mut input, &line)?;
    }
    Ok(input)
}

// Adds what a line says to the input, or returns `Line` if it is a bad one.
fn add_line(alloc: Global, input: &mut Input, line: &[u8]) -> Result<(), DriveError>
    ensures { AddEnds (with_line input.old.schema input.old.givens.items line.now) input.old
        result input.new }
{
    match entry_in(alloc, line)? {
        None => Err(DriveError::Line(next_line(input))),
        Some(LineEntry::Table(shape)) => add_table(input, shape),
        Some(LineEntry::Changeset { publisher, text }) => add_changeset(input, publisher, text),
    }
}

// The tables come before the changesets.
fn add_table(input: &mut Input, shape: Shape) -> Result<(), DriveError>
    ensures { AddEnds (with_entry input.old.schema input.old.givens.items (Some (Table shape)))
        input.old result input.new }
{
    if !input.givens.is_empty() {
        return Err(DriveError::Line(next_line(input)));
    }
    match input.schema.add(shape) {
        Ok(()) => Ok(()),
        Err(SchemaError::Fault(_)) => Err(DriveError::Line(next_line(input))),
        Err(SchemaError::Memory) => Err(DriveError::Memory),
    }
}

fn add_changeset(input: &mut Input, publisher: u64, text: Octets) -> Result<(), DriveError>
    ensures { AddEnds (with_entry input.old.schema input.old.givens.items
        (Some (Changeset publisher text))) input.old result input.new }
{
    let line = next_line(input);
    if input.givens.len() >= MOST_OF_CHANGESETS {
        return Err(DriveError::Line(line));
    }
    input.givens.push(Given {
        line,
        publisher,
        text,
    })?;
    Ok(())
}

// How many lines are read so far, with the one that has only begun.
fn lines_in(reading: &Reading) -> u64 {
    let next = next_line(&reading.input);
    if reading.line.is_empty() {
        next - 1
    } else {
        next
    }
}

// The number of the line after those that gave this input.
fn next_line(input: &Input) -> u64
    ensures { result ≡ length input.now.schema + length input.now.givens.items + 1 }
{
    let tables = input.schema.tables();
    tables.len() as u64 + input.givens.len() as u64 + 1
}
