//! Answers one line of a script.

ghost use Rattle.std.specs.Prelude.{◌≡◌, ◌++◌, ◌∷◌, [], codes, IfOk, IfSome, Some, None, length};
ghost use Rattle.std.specs.Prelude.{map as list_map, string_bytes, ◌<◌};
ghost use Rattle.cs_model.specs.Schema.{table_refusal};
ghost use Rattle.rb_core.specs.Outcome.{outcome};
ghost use Rattle.rb_script.specs.Lines.{line_answer, form_answer, line_of, world_of, event_answer};
ghost use Rattle.rb_script.specs.Lines.{entry_answer, rows_answer, left_answer, with_line_end};
ghost use Rattle.rb_script.specs.Lines.{answer_text, combine_answer, table_answer, table_added};

use crate::answer::LineAnswer;
use crate::forms::Form;
use crate::header::header_in;
use crate::reading::form;
use crate::replies::{text_of, text_of_desk_refusal};
use crate::texts::{text_of_entry, text_of_rows};
use cs_model::{CopyIn, Schema, SchemaError, Shape, TableFault};
use rb_core::{Config, Event, World};
use rb_desk::DeskRefusal;
use std::alloc::{AllocError, Global};

/// The most bytes of a line, without its line end.
pub const MOST_OF_LINE: usize = 65_536;

/// How far a script has come: its tables are being read, or its world runs.
#[derive(Debug, Drop)]
pub enum Stage {
    Tables(Schema),
    Running(World),
}

/// The answer to a line, each of its lines with a line end, and the stage after it. A line of more
/// than 65,536 bytes may be truncated, as long as it keeps more than that. Returns `AllocError` if
/// memory runs out.
pub fn answer(
    alloc: Global,
    config: Config,
    stage: Stage,
    line: &[u8],
) -> Result<(LineAnswer, Stage), AllocError>
    ensures { IfOk result (λ given. line_answer config stage line.now
        ≡ (answer_text given.0, given.1)) }
{
    if line.is_empty() {
        return Ok((LineAnswer::Text(Vec::new(alloc)), stage));
    }
    if line.len() > MOST_OF_LINE {
        return Ok((text_line(alloc, "refused LineTooLong")?, stage));
    }
    let form = form(alloc, line)?;
    answer_form(alloc, config, stage, form)
}

fn answer_form(
    alloc: Global,
    config: Config,
    stage: Stage,
    form: Option<Form>,
) -> Result<(LineAnswer, Stage), AllocError>
    ensures { IfOk result (λ given. form_answer config stage form
        ≡ (answer_text given.0, given.1)) }
{
    match form {
        None => Ok((text_line(alloc, "refused Line")?, stage)),
        Some(Form::Table(bytes)) => table(alloc, stage, &bytes),
        Some(Form::Happens(event)) => answer_event(alloc, begin(alloc, config, stage)?, event),
        Some(Form::Entry(number)) => {
            let world = begin(alloc, config, stage)?;
            let text = entry(alloc, &world, number)?;
            Ok((text, Stage::Running(world)))
        }
        Some(Form::Combine { first, last }) => {
            let world = begin(alloc, config, stage)?;
            let text = combine(alloc, &world, first, last)?;
            Ok((text, Stage::Running(world)))
        }
        Some(Form::Rows(subscription)) => {
            let world = begin(alloc, config, stage)?;
            let text = rows(alloc, &world, subscription)?;
            Ok((text, Stage::Running(world)))
        }
        Some(Form::Left) => {
            let world = begin(alloc, config, stage)?;
            let text = left(alloc, &world)?;
            Ok((text, Stage::Running(world)))
        }
    }
}

// a text with a line end
fn text_line(alloc: Global, text: &str) -> Result<LineAnswer, AllocError>
    ensures { IfOk result (λ line. answer_text line ≡ line_of text.now) }
{
    let mut line = Vec::new(alloc);
    line.extend_from_slice(text.as_bytes())?;
    line.push(b'\n')?;
    Ok(LineAnswer::Text(line))
}

// the world, which begins with the first line of another form than `table`
fn begin(alloc: Global, config: Config, stage: Stage) -> Result<World, AllocError>
    ensures { IfOk result (λ world. world ≡ world_of config stage) }
{
    match stage {
        Stage::Tables(schema) => World::new(alloc, config, schema),
        Stage::Running(world) => Ok(world),
    }
}

fn answer_event(
    alloc: Global,
    mut world: World,
    event: Event,
) -> Result<(LineAnswer, Stage), AllocError>
    ensures { IfOk result (λ given. event_answer (outcome world event)
        ≡ (answer_text given.0, given.1)) }
{
    let reply = world.step(alloc, event)?;
    let text = text_of(alloc, reply)?;
    let line = text_line(alloc, &text)?;
    Ok((line, Stage::Running(world)))
}

fn entry(alloc: Global, world: &World, number: u64) -> Result<LineAnswer, AllocError>
    ensures { IfOk result (λ line. answer_text line ≡ entry_answer world.now number) }
{
    match world.entry(number) {
        None => text_line(alloc, "refused NotPlaced"),
        Some(found) => {
            let mut line = text_of_entry(alloc, found)?;
            line.push(b'\n')?;
            Ok(LineAnswer::Text(line))
        }
    }
}

fn combine(alloc: Global, world: &World, first: u64, last: u64) -> Result<LineAnswer, AllocError>
    ensures { IfOk result (λ line. answer_text line ≡ combine_answer world.now first last) }
{
    match world.combined(alloc, first, last)? {
        None => text_line(alloc, "refused NotPlaced"),
        Some(changeset) => Ok(LineAnswer::Combined(changeset)),
    }
}

fn rows(alloc: Global, world: &World, subscription: u64) -> Result<LineAnswer, AllocError>
    ensures { IfOk result (λ text. answer_text text ≡ rows_answer world.now subscription) }
{
    match world.rows(alloc, subscription)? {
        None => {
            let text = text_of_desk_refusal(alloc, DeskRefusal::NoSuch)?;
            text_line(alloc, &text)
        }
        Some(rows) => Ok(LineAnswer::Text(text_of_rows(alloc, &rows)?)),
    }
}

fn left(alloc: Global, world: &World) -> Result<LineAnswer, AllocError>
    ensures { IfOk result (λ line. answer_text line ≡ left_answer world.now) }
{
    let count = world.left();
    let text = format!(in alloc; "left {count}")?;
    text_line(alloc, &text)
}

fn table(alloc: Global, stage: Stage, bytes: &[u8]) -> Result<(LineAnswer, Stage), AllocError>
    ensures { IfOk result (λ given. with_line_end (table_answer stage bytes.now)
        ≡ (answer_text given.0, given.1)) }
{
    match stage {
        Stage::Running(world) => Ok((text_line(alloc, "refused Line")?, Stage::Running(world))),
        Stage::Tables(schema) => match header_in(alloc, bytes)? {
            None => Ok((text_line(alloc, "refused BadShape")?, Stage::Tables(schema))),
            Some(shape) => add_table(alloc, schema, shape),
        },
    }
}

fn add_table(
    alloc: Global,
    mut schema: Schema,
    shape: Shape,
) -> Result<(LineAnswer, Stage), AllocError>
    ensures { IfOk result (λ given.
        with_line_end (table_added schema shape (table_refusal schema shape))
        ≡ (answer_text given.0, given.1)) }
{
    let text = match schema.add(shape) {
        Ok(()) => "ok",
        Err(SchemaError::Fault(TableFault::DuplicateTable(_))) => "refused DuplicateTable",
        Err(SchemaError::Fault(_)) => "refused BadShape",
        Err(SchemaError::Memory) => return Err(AllocError),
    };
    Ok((text_line(alloc, text)?, Stage::Tables(schema)))
}
