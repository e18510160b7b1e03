//! Writes the text of a changeset in hexadecimal, piece by piece.

ghost use Rattle.std.specs.Prelude.{◌≡◌, ◌∷◌, ◌++◌, [], codes, ℕ, List, Option, None, Err, IfErr};
ghost use Rattle.std.specs.Prelude.{true, false, MatchOption, OnErr, OnOk};
ghost use Rattle.std.specs.Io.KnownBytes.{Appends, Keeps};
ghost use Rattle.std.proofs.Props.{props};
ghost use Rattle.hex.specs.Hex.{encode_lower};
ghost use Rattle.cs_write.specs.Text.{text_of};
ghost use Rattle.cs_write.specs.declared.pieces.WriteError.TheVariants as failure;
ghost use Rattle.rb_script.specs.Ends.{IsOfAnswers};
ghost use Rattle.rb_script.specs.Sinks.{GainsAll, GainsFront, IsOfAnswers-prop, has_none};
ghost use Rattle.rb_script.specs.Sinks.{hex_of_pieces};
ghost use Rattle.rb_script.specs.Streams.{AppendsFront};
ghost use Rattle.rb_script.specs.Texts.{bytes_word};

use crate::fault::ScriptError;
use crate::piece_list::PieceList;
use crate::streams::write_text;
use cs_model::Changeset;
use cs_write::{Sink, SinkFault, WriteError, write_pieces};
use std::alloc::Global;
use std::io::Write;
use std::marker::{Brand, PhantomData};

// how many bytes of the text are encoded and written at once
const PIECE: usize = 4_096;

/// Writes the text of a changeset as a word: in hexadecimal, or `-` if it is empty. An `Err` has
/// written a prefix.
#[tactic(auto, using(crate::proofs::sinks::CutLaws::dashes))]
pub fn write_changeset<W: Write>(
    alloc: Global,
    changeset: &Changeset,
    writer: &mut W,
) -> Result<(), ScriptError>
    ensures ok { OnOk result (Appends (W.contents writer.old) (W.contents writer.new)
        (bytes_word (text_of changeset.now))) }
    ensures err { OnErr result (AppendsFront (W.contents writer.old) (W.contents writer.new)
        (bytes_word (text_of changeset.now))) }
    ensures faults { IfErr result IsOfAnswers }
{
    let to = HexWriter {
        alloc,
        writer,
        empty: true,
        fault: None,
    };
    let (to, written) = put_pieces::<W, Brand>(changeset, to);
    let HexWriter {
        writer,
        empty,
        fault,
        ..
    } = to;
    match written {
        Ok(()) if empty => write_text(writer, b"-"),
        Ok(()) => Ok(()),
        Err(WriteError::Memory) => Err(ScriptError::Memory),
        Err(WriteError::Sink) => match fault {
            Some(fault) => Err(fault),
            None => unreachable!(),
        },
    }
}

// Puts a changeset's text into a sink that writes to `to`, which has no piece yet.
fn put_pieces<'a, W: Write, L: Loan>(
    changeset: &Changeset,
    to: HexWriter<'a, W>,
) -> (HexWriter<'a, W>, Result<(), WriteError>)
    requires name { to.writer.ghost_name ≡ L.name }
    requires before { W.contents to.writer.now ≡ L.before }
    requires fresh { (to.empty ≡ true) × (to.fault ≡ None) }
    ensures name { result.0.writer.ghost_name ≡ to.entry.writer.ghost_name }
    ensures word { OnOk result.1 (result.0.empty ≡ false
        → Appends (W.contents to.entry.writer.now) (W.contents result.0.writer.now)
        (bytes_word (text_of changeset.now))) }
    ensures none { OnOk result.1 (result.0.empty ≡ true → (text_of changeset.now ≡ [])
        × Keeps (W.contents to.entry.writer.now) (W.contents result.0.writer.now)) }
    ensures front { OnErr result.1 (AppendsFront (W.contents to.entry.writer.now)
        (W.contents result.0.writer.now) (bytes_word (text_of changeset.now))) }
    ensures fault { result.1 ≡ Err failure.Sink → MatchOption result.0.fault ⊥ IsOfAnswers }
{
    let alloc = to.alloc;
    let mut sink: HexSink<W, L> = HexSink {
        to,
        taken: PieceList::new(),
        failed: PieceList::new(),
        loan: PhantomData,
    };
    let written = write_pieces(alloc, changeset, PIECE, &mut sink);
    let HexSink { to, .. } = sink;
    (to, written)
}

// Names the loan of a writer to a sink, and what is known of the writer's contents before it. The
// type of a sink has it, so what the sink says of the two outlasts a call that doesn't know them.
trait Loan {
    ghost name: { ℕ };

    ghost before: { Option (List ℕ) };
}

impl Loan for Brand {
    ghost name = { 0 };

    ghost before = { None };
}

// Writes pieces in hexadecimal, and keeps what came of it.
#[derive(Drop)]
struct HexWriter<'a, W> {
    alloc: Global,
    writer: &'a mut W,
    // whether no piece is written
    empty: bool,
    // why a piece failed
    fault: Option<ScriptError>,
}

impl<W: Write> HexWriter<'_, W> {
    fn write(&mut self, piece: &[u8]) -> Result<(), SinkFault>
        ensures name { self.new.writer.ghost_name ≡ self.old.writer.ghost_name }
        ensures ok { OnOk result (Appends (W.contents self.old.writer.now)
            (W.contents self.new.writer.now) (encode_lower piece.now)) }
        ensures some { OnOk result ((self.new.empty ≡ false) × (self.new.fault ≡ self.old.fault)) }
        ensures err { OnErr result (AppendsFront (W.contents self.old.writer.now)
            (W.contents self.new.writer.now) (encode_lower piece.now)) }
        ensures fault { OnErr result ((self.new.empty ≡ self.old.empty)
            × MatchOption self.new.fault ⊥ IsOfAnswers) }
    {
        match write_hex(self.alloc, self.writer, piece) {
            Ok(()) => {
                self.empty = false;
                Ok(())
            }
            Err(fault) => {
                self.fault = Some(fault);
                Err(SinkFault)
            }
        }
    }
}

fn write_hex<W: Write>(alloc: Global, writer: &mut W, bytes: &[u8]) -> Result<(), ScriptError>
    ensures ok { OnOk result (Appends (W.contents writer.old) (W.contents writer.new)
        (encode_lower bytes.now)) }
    ensures err { OnErr result (AppendsFront (W.contents writer.old) (W.contents writer.new)
        (encode_lower bytes.now)) }
    ensures faults { IfErr result IsOfAnswers }
{
    let text = hex::encode(alloc, bytes)?;
    write_text(writer, text.as_bytes())
}

// Takes pieces until one fails: after that it writes nothing.
#[derive(Drop)]
struct HexSink<'a, W: Write, L: Loan> {
    to: HexWriter<'a, W>,
    taken: PieceList,
    failed: PieceList,
    loan: PhantomData<L>,
    ghost name: { to.writer.ghost_name ≡ L.name },
    ghost none: { to.empty ≡ has_none taken.pieces },
    ghost sound: { MatchOption to.fault (failed.pieces ≡ [])
        IsOfAnswers } by { Prim.hlevel (props, IsOfAnswers-prop) },
    ghost all: { failed.pieces ≡ [] → GainsAll L.before
        (W.contents to.writer.now) (hex_of_pieces taken.pieces) } by { Prim.hlevel props },
    ghost front: { GainsFront L.before (W.contents to.writer.now)
        (hex_of_pieces (taken.pieces ++ failed.pieces)) } by { Prim.hlevel props },
}

impl<W: Write, L: Loan> Sink for HexSink<'_, W, L> {
    ghost taken = { λ s. s.taken.pieces };

    ghost failed = { λ s. s.failed.pieces };

    fn put(&mut self, piece: &[u8]) -> Result<(), SinkFault> {
        if self.to.fault.is_some() {
            self.failed.push(piece);
            return Err(SinkFault);
        }
        match self.to.write(piece) {
            Ok(()) => {
                self.taken.push(piece);
                Ok(())
            }
            Err(why) => {
                self.failed.push(piece);
                Err(why)
            }
        }
    }
}
