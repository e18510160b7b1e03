//! Writes answers, and finds those that refuse a line.

ghost use Rattle.std.specs.Prelude.{◌≡◌, ◌-◌, ◌++◌, codes, length, take, true, OnOk, OnErr, IfErr};
ghost use Rattle.std.specs.Prelude.{Some};
ghost use Rattle.std.specs.Fmt.{decimal};
ghost use Rattle.std.specs.Io.KnownBytes.{Appends, Keeps};
ghost use Rattle.cs_write.specs.Text.{text_of};
ghost use Rattle.rb_script.specs.Answering.{is_refusal, numbered_answer};
ghost use Rattle.rb_script.specs.Ends.{IsOfAnswers};
ghost use Rattle.rb_script.specs.Lines.{answer_text, found_changeset, line_of};
ghost use Rattle.rb_script.specs.Streams.{AppendsFront};
ghost use Rattle.rb_script.specs.Texts.{bytes_word};

use crate::answer::LineAnswer;
use crate::answering::{Answering, RefusedLine};
use crate::fault::ScriptError;
use crate::hex_sink::write_changeset;
use crate::streams::{flush, write_text};
use cs_model::{Changeset, Seq};
use std::alloc::Global;
use std::io::Write;

/// Whether an answer says that its line is refused or faulty.
pub fn refuses(answer: &LineAnswer) -> bool
    ensures { result ≡ is_refusal (answer_text answer.now) }
{
    match answer {
        LineAnswer::Text(text) => text.starts_with(b"refused ") || text.starts_with(b"fault "),
        // it begins with `text`
        LineAnswer::Combined(_) => false,
    }
}

/// Writes the answer to the line with this number, after the number if there are numbers. An `Err`
/// has written a prefix.
pub fn write_answer<W: Write>(
    alloc: Global,
    how: Answering,
    number: u64,
    answer: &LineAnswer,
    writer: &mut W,
) -> Result<(), ScriptError>
    ensures ok { OnOk result (Appends (W.contents writer.old) (W.contents writer.new)
        (numbered_answer how number (answer_text answer.now))) }
    ensures err { OnErr result (AppendsFront (W.contents writer.old) (W.contents writer.new)
        (numbered_answer how number (answer_text answer.now))) }
    ensures faults { IfErr result IsOfAnswers }
{
    match answer {
        LineAnswer::Text(text) => write_numbered_text(alloc, how, number, text, writer),
        LineAnswer::Combined(changeset) => write_combined(alloc, how, number, changeset, writer),
    }
}

// Writes an answer that is kept as a text.
#[tactic(auto, using(crate::proofs::endings::StreamLaws::fronts))]
fn write_numbered_text<W: Write>(
    alloc: Global,
    how: Answering,
    number: u64,
    answer: &[u8],
    writer: &mut W,
) -> Result<(), ScriptError>
    ensures ok { OnOk result (Appends (W.contents writer.old) (W.contents writer.new)
        (numbered_answer how number answer.now)) }
    ensures err { OnErr result (AppendsFront (W.contents writer.old) (W.contents writer.new)
        (numbered_answer how number answer.now)) }
    ensures faults { IfErr result IsOfAnswers }
{
    match answer {
        [] => Ok(()),
        _ if how.numbers => write_numbered(alloc, number, answer, writer),
        _ => write_text(writer, answer),
    }
}

// Writes the answer of `combine`. The changeset's text goes out piece by piece.
fn write_combined<W: Write>(
    alloc: Global,
    how: Answering,
    number: u64,
    changeset: &Changeset,
    writer: &mut W,
) -> Result<(), ScriptError>
    ensures ok { OnOk result (Appends (W.contents writer.old) (W.contents writer.new)
        (numbered_answer how number (line_of (found_changeset (Some changeset.now))))) }
    ensures err { OnErr result (AppendsFront (W.contents writer.old) (W.contents writer.new)
        (numbered_answer how number (line_of (found_changeset (Some changeset.now))))) }
    ensures faults { IfErr result IsOfAnswers }
{
    if !how.numbers {
        return write_word(alloc, b"text ", changeset, writer);
    }
    let front = format!(in alloc; "{number} text ")?;
    write_word(alloc, front.as_bytes(), changeset, writer)
}

// Writes the front, the changeset's text as a word, and a line end.
#[tactic(auto, using(crate::proofs::endings::StreamLaws::fronts))]
fn write_word<W: Write>(
    alloc: Global,
    front: &[u8],
    changeset: &Changeset,
    writer: &mut W,
) -> Result<(), ScriptError>
    ensures ok { OnOk result (Appends (W.contents writer.old) (W.contents writer.new)
        (front.now ++ line_of (bytes_word (text_of changeset.now)))) }
    ensures err { OnErr result (AppendsFront (W.contents writer.old) (W.contents writer.new)
        (front.now ++ line_of (bytes_word (text_of changeset.now)))) }
    ensures faults { IfErr result IsOfAnswers }
{
    write_text(writer, front)?;
    write_changeset(alloc, changeset, writer)?;
    write_text(writer, b"\n")
}

/// A line that is refused or faulty, with its answer, without the answer's line end.
pub fn refused_line(number: u64, line: Vec<u8>, answer: LineAnswer) -> RefusedLine
    requires { is_refusal (answer_text answer) ≡ true }
    ensures { result ≡ record {
      number = number;
      line = line.items;
      answer = take (length (answer_text answer) - 1) (answer_text answer);
    } }
{
    match answer {
        LineAnswer::Text(text) => refused_line_of_text(number, line, text),
        LineAnswer::Combined(_) => unreachable!(),
    }
}

fn refused_line_of_text(number: u64, line: Vec<u8>, text: Vec<u8>) -> RefusedLine
    ensures { result ≡ record {
      number = number;
      line = line.items;
      answer = take (length text.items - 1) text.items;
    } }
{
    let mut text = text;
    text.pop();
    RefusedLine {
        number,
        line: Seq::from_vec(line),
        answer: Seq::from_vec(text),
    }
}

// Writes the number, a space and the answer.
#[tactic(auto, using(crate::proofs::endings::StreamLaws::fronts))]
fn write_numbered<W: Write>(
    alloc: Global,
    number: u64,
    answer: &[u8],
    writer: &mut W,
) -> Result<(), ScriptError>
    ensures ok { OnOk result (Appends (W.contents writer.old) (W.contents writer.new)
        ((decimal number ++ codes " ") ++ answer.now)) }
    ensures err { OnErr result (AppendsFront (W.contents writer.old) (W.contents writer.new)
        ((decimal number ++ codes " ") ++ answer.now)) }
    ensures faults { IfErr result IsOfAnswers }
{
    let front = format!(in alloc; "{number} ")?;
    write_both(writer, front.as_bytes(), answer)
}

#[tactic(auto, using(crate::proofs::endings::StreamLaws::fronts))]
fn write_both<W: Write>(writer: &mut W, front: &[u8], text: &[u8]) -> Result<(), ScriptError>
    ensures ok { OnOk result (Appends (W.contents writer.old) (W.contents writer.new)
        (front.now ++ text.now)) }
    ensures err { OnErr result (AppendsFront (W.contents writer.old) (W.contents writer.new)
        (front.now ++ text.now)) }
    ensures faults { IfErr result IsOfAnswers }
{
    write_text(writer, front)?;
    write_text(writer, text)
}

/// Flushes the writer.
pub fn flush_answers<W: Write>(writer: &mut W) -> Result<(), ScriptError>
    ensures kept { Keeps (W.contents writer.old) (W.contents writer.new) }
    ensures fault { IfErr result IsOfAnswers }
{
    match flush(writer) {
        Ok(()) => Ok(()),
        Err(why) => Err(ScriptError::Write(why)),
    }
}
