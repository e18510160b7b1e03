//! Runs a script from a reader to a writer.

ghost use Rattle.std.specs.Prelude.{◌≡◌, ◌+◌, ◌<◌, ◌^◌, ◌∷◌, [], ℕ, List, length};
ghost use Rattle.std.specs.Prelude.{false, vec_len, Ok, Err, OnOk, IfErr, IfOk};
ghost use Rattle.std.specs.Io.KnownBytes.{Appends};
ghost use Rattle.rb_script.specs.declared.lines.Stage.TheVariants.{Tables};
ghost use Rattle.rb_script.specs.Lines.{line_answer};
ghost use Rattle.rb_script.specs.Output.{place_at, longer};
ghost use Rattle.rb_script.specs.Answering.{numbered_answer, stops_after};
ghost use Rattle.rb_script.specs.Feeding.{AreFed, StopsIn, fed_lines, line_at};
ghost use Rattle.rb_script.specs.Ends.{ScriptEnds};

use crate::answering::Answering;
use crate::fault::ScriptError;
use crate::lines::{MOST_OF_LINE, Stage, answer};
use crate::output::{flush_answers, refused_line, refuses, write_answer};
use crate::streams::read_some;
use cs_model::Schema;
use rb_core::Config;
use std::alloc::{AllocError, Global};
use std::io::{Read, Write};

/// The most bytes of a script.
pub const MOST_OF_SCRIPT: usize = 16_777_216;

// how many bytes a read asks for
const PIECE: usize = 65_536;

// How far a script has come.
#[derive(Drop)]
struct Place {
    stage: Stage,
    // the number of the line that is read
    number: u64,
    // what is read of it
    line: Vec<u8>,
}

/// Reads lines from `reader` and writes their answers to `writer`, in order. Each line has one
/// answer line, but an empty line has none and `rows` has several. The last line may have no line
/// end. `how` says whether the answers are numbered, and whether the script stops after the first
/// line that is refused or faulty.
///
/// Before each read, all whole lines so far are answered and the writer is flushed.
///
/// Returns `Read` if the reader fails, and `Endless` if more than 16,777,216 bytes come. The
/// answers to all whole lines before are written then.
///
/// Returns `Write` if the writer fails or accepts no byte, and `Memory` if memory runs out. A
/// prefix of the answers is written then, whose last one may be cut.
///
/// Returns `Refused` after a refused or faulty line, if `how` is strict. The answers up to its own
/// are written then, and nothing after that.
pub fn run_script<R: Read, W: Write>(
    alloc: Global,
    reader: &mut R,
    writer: &mut W,
    config: Config,
    how: Answering,
) -> Result<(), ScriptError>
    // The output is the answers to the input: to all of it or, after a fault, to as much as the
    // fault allows.
    ensures { ScriptEnds how config result (R.remaining reader.old) (R.remaining reader.new)
        (W.contents writer.old) (W.contents writer.new) }
{
    let answered = answer_all(alloc, reader, writer, config, how);
    let flushed = flush_answers(writer);
    match answered {
        Ok(()) => flushed,
        Err(ScriptError::Refused(line)) => match flushed {
            Ok(()) => Err(ScriptError::Refused(line)),
            Err(fault) => Err(fault),
        },
        Err(fault) => Err(fault),
    }
}

// The same, without the last flush.
fn answer_all<R: Read, W: Write>(
    alloc: Global,
    reader: &mut R,
    writer: &mut W,
    config: Config,
    how: Answering,
) -> Result<(), ScriptError>
    ensures { ScriptEnds how config result (R.remaining reader.old) (R.remaining reader.new)
        (W.contents writer.old) (W.contents writer.new) }
{
    let mut buffer = zeros(alloc, PIECE)?;
    let piece = buffer.as_mut_slice();
    let mut place = first_place(alloc);
    let mut count = 0;
    for _ in 0..=MOST_OF_SCRIPT {
        // the caller has its answers before the next read waits
        flush_answers(writer)?;
        let read = match read_some(reader, piece) {
            Ok(read) => read,
            Err(why) => return Err(ScriptError::Read(why)),
        };
        if read == 0 {
            answer_line(alloc, config, how, place, writer)?;
            return Ok(());
        }
        if MOST_OF_SCRIPT - count < read {
            let within = &piece[..MOST_OF_SCRIPT - count];
            feed(alloc, config, how, place, within, writer)?;
            return Err(ScriptError::Endless);
        }
        place = feed(alloc, config, how, place, &piece[..read], writer)?;
        count += read;
    }
    // each pass reads at least one byte
    unreachable!()
}

fn zeros(alloc: Global, n: usize) -> Result<Vec<u8>, AllocError>
    ensures { IfOk result (λ bytes. vec_len bytes ≡ n) }
{
    vec![in alloc; 0u8; n]
}

// before the first line
fn first_place(alloc: Global) -> Place
    ensures place { place_at result.stage result.line.items ≡ place_at (Tables []) [] }
    ensures number { result.number ≡ 1 }
{
    Place {
        stage: Stage::Tables(Schema::empty(alloc)),
        number: 1,
        line: Vec::new(alloc),
    }
}

// Answers the lines that end in these bytes. Returns the place after them.
fn feed<W: Write>(
    alloc: Global,
    config: Config,
    how: Answering,
    place: Place,
    bytes: &[u8],
    writer: &mut W,
) -> Result<Place, ScriptError>
    requires { place.number + length bytes.now < 2 ^ 64 }
    ensures ok { IfOk result (λ next. AreFed how config place.number
        (place_at place.stage place.line.items) bytes.now
        (W.contents writer.old) (W.contents writer.new)
        next.number (place_at next.stage next.line.items)) }
    ensures err { IfErr result (λ fault. StopsIn how place.number
        (fed_lines config (place_at place.stage place.line.items) bytes.now) fault
        (W.contents writer.old) (W.contents writer.new)) }
{
    let mut place = place;
    for byte in bytes {
        if *byte == b'\n' {
            place = answer_line(alloc, config, how, place, writer)?;
        } else {
            lengthen(&mut place.line, *byte)?;
        }
    }
    Ok(place)
}

// Appends a byte to a line. A line that is too long already does not change.
fn lengthen(line: &mut Vec<u8>, byte: u8) -> Result<(), AllocError>
    ensures { OnOk result (line.new.items ≡ longer line.old.items byte) }
{
    if line.len() <= MOST_OF_LINE {
        line.push(byte)?;
    }
    Ok(())
}

// Answers the line at a place, and returns the place after it.
fn answer_line<W: Write>(
    alloc: Global,
    config: Config,
    how: Answering,
    place: Place,
    writer: &mut W,
) -> Result<Place, ScriptError>
    requires { place.number + 1 < 2 ^ 64 }
    ensures ok { IfOk result (λ next. (stops_after how
        (line_at config (place_at place.stage place.line.items)) ≡ false)
        × Appends (W.contents writer.old) (W.contents writer.new)
        (numbered_answer how place.number (line_answer config place.stage place.line.items).0)
        × (place_at next.stage next.line.items
        ≡ place_at (line_answer config place.stage place.line.items).1 [])
        × (next.number ≡ place.number + 1)) }
    ensures err { IfErr result (λ fault. StopsIn how place.number
        (line_at config (place_at place.stage place.line.items) ∷ []) fault
        (W.contents writer.old) (W.contents writer.new)) }
{
    let Place {
        stage,
        number,
        mut line,
    } = place;
    let (given, stage) = answer(alloc, config, stage, &line)?;
    write_answer(alloc, how, number, &given, writer)?;
    if how.strict && refuses(&given) {
        return Err(ScriptError::Refused(refused_line(number, line, given)));
    }
    line.clear();
    Ok(Place {
        stage,
        number: number + 1,
        line,
    })
}
