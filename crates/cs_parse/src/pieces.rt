//! The streaming parser: reads a text that comes in pieces of any size.

ghost use Rattle.std.specs.Prelude.{◌≡◌, ◌<◌, ◌≤◌, ◌+◌, [], ◌++◌, length, IfOk, IfErr, IsOk};
ghost use Rattle.std.specs.Prelude.{IsTrue, OnOk, OnErr, ℕ, List, None, Some, Ok, Err};
ghost use Rattle.cs_model.specs.{Bytes.{AreBytes}, Changeset.{most_bytes}, Text.{Spells}};
ghost use Rattle.cs_parse.specs.Answer.{Shows};
ghost use Rattle.cs_parse.specs.Fault.{IsFault};
ghost use Rattle.cs_parse.specs.Front.{TakesIn};
ghost use Rattle.cs_parse.specs.Lack.{HasNoZero};
ghost use Rattle.cs_parse.specs.Pieces.{offset_of, IsLasting, ReportsLasting, IsFaultless};
ghost use Rattle.cs_parse.specs.Progress.{nothing, broken, advanced, answer_at_end, progress_of};
ghost use Rattle.cs_parse.specs.Progress.{FeedAnswers, Took, TakesPiece};
ghost use Rattle.cs_parse.specs.Reading.{answer_of};
ghost use Rattle.cs_parse.specs.declared.fault.FaultKind.TheVariants.{TooLong};
ghost use Rattle.cs_parse.specs.declared.fault.ParseFault.{ParseFault};

use crate::fault::{FaultKind, ParseError, ParseFault};
use crate::grow::{grow, still_waits, unread};
use crate::growing::Growing;
use crate::header::first_zero;
use crate::laws::progress_tells;
use crate::spot::Spot;
use crate::whole::MOST_BYTES;
use cs_model::Changeset;
use std::alloc::Global;
use std::marker::Model;
use std::mem;

/// Reads a text that comes in pieces of any size. Keeps only what it has parsed and the bytes of
/// the incomplete header or change.
///
/// Contracts see how far the text is read (`Progress`). They hold for every text that a parser with
/// this progress may have taken (`Took`). So no result depends on how the text was cut.
#[derive(Debug, Drop)]
pub struct PieceParser {
    text: Growing,
    offset: usize,
    fault: Option<ParseFault>,
    // how far the parser scanned the incomplete change or header
    spot: Spot,
    // A lower bound on the bytes missing from it; a shorter piece is appended without being read. 0
    // if nothing is known.
    lacking: usize,
    // whether the bound counts nonzero bytes only, because the header's name is incomplete
    header: bool,
}

impl Model for PieceParser {
    ghost use Rattle.std.specs.Prelude.{◌≤◌, ◌+◌};
    ghost use Rattle.cs_model.specs.Changeset.{most_bytes};
    ghost use Rattle.cs_parse.specs.Front.{KeepsSpot, IsReadOut};
    ghost use Rattle.cs_parse.specs.Lack.{IsPaused};
    ghost use Rattle.cs_parse.specs.Progress.{Progress, last_flags};

    ghost Value = { Progress };

    ghost view = { λ p. record {
      sections = p.text.0;
      pending = p.text.1;
      offset = p.offset;
      fault = p.fault;
    } };

    ghost invariant = { λ p. (p.offset + p.lacking ≤ most_bytes)
        × KeepsSpot (last_flags p.text.0) p.text.1 p.spot
        × IsPaused p.fault p.text.0 p.text.1 p.header p.lacking
        × IsReadOut p.text.0 p.text.1 };
}

// Returns `true` unless a header's name ends in these bytes.
#[inline(always)]
fn no_end(header: bool, bytes: &[u8]) -> bool
    ensures { IsTrue result → IsTrue header → HasNoZero bytes.now }
{
    !header || first_zero(bytes).is_none()
}

// The type says that these are bytes.
fn are_bytes(bytes: &[u8])
    ensures { AreBytes bytes.now }
{}

impl PieceParser {
    /// A parser that has taken nothing. Does not allocate.
    #[tactic(auto, using(crate::proofs::feeding::RestLaws::out_empty))]
    pub fn new(alloc: Global) -> PieceParser
        ensures progress { result ≡ nothing }
        ensures text { Took result [] }
    {
        PieceParser {
            text: Growing::new(alloc),
            offset: 0,
            fault: None,
            spot: Spot::start(),
            lacking: 0,
            header: false,
        }
    }

    /// Takes the next piece. An incomplete text is not an error.
    ///
    /// `Fault` comes with the piece that contains the fault's byte. Every later call returns the
    /// same fault and takes nothing. `Memory` does not change the parser, and never comes after a
    /// fault. It comes in place of a fault only if an item is incomplete.
    pub fn feed(&mut self, alloc: Global, piece: &[u8]) -> Result<(), ParseError>
        // The call reads the piece after the text so far, unless the text has a permanent fault or
        // memory runs out.
        ensures fed { FeedAnswers result self.old piece.now self.new }
        // A reported fault is the text's, and it is permanent.
        ensures told { (text : List ℕ) → Took self.old text
            → IfErr result (λ error. ReportsLasting error (text ++ piece.now)) }
        // If no fault is reported, the text can be continued to a changeset.
        ensures going { (text : List ℕ) → Took self.old text
            → OnOk result (IsFaultless (text ++ piece.now)) }
        // After the call the parser may have taken the text with the piece (`Took`), also if a
        // fault is reported. If memory runs out, it may have taken the text alone.
        ensures taken { (text : List ℕ) → Took self.old text
            → TakesPiece result text piece.now self.new }
        // If the text has a permanent fault, the call reports it again.
        ensures again { (text : List ℕ) (fault : ParseFault) → Took self.old text
            → IsLasting text fault → result ≡ Err (ParseError.Fault fault) }
        // So it does with the fault of the progress, whatever the text is.
        ensures lasts { (fault : ParseFault) → self.old.fault ≡ Some fault
            → result ≡ Err (ParseError.Fault fault) }
        // An empty piece needs no memory.
        ensures empty { piece.now ≡ [] → self.old.fault ≡ None → IsOk result }
        // Nor does the fault of a piece that comes after the most bytes that a text may have.
        ensures full { self.old.offset ≡ most_bytes → self.old.fault ≡ None → 0 < length piece.now
            → result ≡ Err (ParseError.Fault (record { at = most_bytes; kind = TooLong })) }
        // Where no item is incomplete, no fault needs memory.
        ensures memory { result ≡ Err ParseError.Memory → self.old.pending ≡ []
            → (advanced self.old piece.now).fault ≡ None }
    {
        self.fed(alloc, piece)
    }

    // The same, because the progress determines the result. Bytes of a value of known length, or of
    // a name, are only appended to the pending ones. If pieces are short, most calls do no more.
    #[inline(always)]
    fn fed(&mut self, alloc: Global, piece: &[u8]) -> Result<(), ParseError>
        ensures fed { FeedAnswers result self.old piece.now self.new }
        ensures again { (fault : ParseFault) → self.old.fault ≡ Some fault
            → result ≡ Err (ParseError.Fault fault) }
        ensures empty { piece.now ≡ [] → self.old.fault ≡ None → IsOk result }
        ensures full { self.old.offset ≡ most_bytes → self.old.fault ≡ None → 0 < length piece.now
            → result ≡ Err (ParseError.Fault (record { at = most_bytes; kind = TooLong })) }
        ensures memory { result ≡ Err ParseError.Memory → self.old.pending ≡ []
            → (advanced self.old piece.now).fault ≡ None }
    {
        if piece.is_empty() {
            return self.fed_nothing();
        }
        if piece.len() < self.lacking && no_end(self.header, piece) {
            self.text.extend(piece)?;
            self.lacking -= piece.len();
            self.offset += piece.len();
            return Ok(());
        }
        self.read_in(alloc, piece)
    }

    // the same, for an empty piece
    #[tactic(auto, unfolding(crate::specs::Progress::advanced))]
    fn fed_nothing(&self) -> Result<(), ParseError>
        ensures fed { FeedAnswers result self.now [] self.now }
        ensures again { (fault : ParseFault) → self.now.fault ≡ Some fault
            → result ≡ Err (ParseError.Fault fault) }
        ensures empty { self.now.fault ≡ None → IsOk result }
    {
        if let Some(fault) = self.fault {
            return Err(ParseError::Fault(fault));
        }
        Ok(())
    }

    // the same, for a piece that has to be read
    #[tactic(auto, unfolding(crate::specs::Progress::advanced))]
    fn read_in(&mut self, alloc: Global, piece: &[u8]) -> Result<(), ParseError>
        ensures fed { FeedAnswers result self.old piece.now self.new }
        ensures again { (fault : ParseFault) → self.old.fault ≡ Some fault
            → result ≡ Err (ParseError.Fault fault) }
        ensures full { self.old.offset ≡ most_bytes → self.old.fault ≡ None → 0 < length piece.now
            → result ≡ Err (ParseError.Fault (record { at = most_bytes; kind = TooLong })) }
        ensures memory { result ≡ Err ParseError.Memory → self.old.pending ≡ []
            → (advanced self.old piece.now).fault ≡ None }
    {
        if let Some(fault) = self.fault {
            return Err(ParseError::Fault(fault));
        }
        let too_long = ParseFault {
            at: MOST_BYTES,
            kind: FaultKind::TooLong,
        };
        let room = MOST_BYTES - self.offset;
        // a full text: nothing is reserved
        if room == 0 && !piece.is_empty() {
            return Err(self.break_off(alloc, too_long));
        }
        match self.take_in(alloc, &piece[..piece.len().min(room)]) {
            Ok(()) if piece.len() <= room => Ok(()),
            Ok(()) => Err(self.break_off(alloc, too_long)),
            Err(ParseError::Fault(fault)) => Err(self.break_off(alloc, fault)),
            Err(ParseError::Memory) => {
                if piece.len() > room && self.text.waiting().is_empty() {
                    return Err(self.break_off(alloc, too_long));
                }
                Err(ParseError::Memory)
            }
        }
    }

    // Reads bytes within the limit.
    fn take_in(&mut self, alloc: Global, bytes: &[u8]) -> Result<(), ParseError>
        requires within { self.old.offset + length bytes.now ≤ most_bytes }
        requires none { self.old.fault ≡ None }
        ensures { TakesIn result self.old bytes.now self.new }
    {
        let start = self.text.waiting().len();
        if self.text.extend(bytes).is_err() {
            return Err(self.without_room(bytes));
        }
        let taken = self.offset + bytes.len();
        let (lacking, header) = still_waits(
            self.text.last_flags(),
            self.text.waiting(),
            &mut self.spot,
        );
        if lacking > 0 {
            self.lacking = lacking.min(MOST_BYTES - taken);
            self.header = header;
            self.offset = taken;
            return Ok(());
        }
        self.lacking = 0;
        self.spot = Spot::start();
        are_bytes(self.text.waiting());
        match grow(alloc, &mut self.text, taken) {
            Ok(()) => {
                self.offset = taken;
                Ok(())
            }
            Err(error) => {
                self.text.shorten(start);
                Err(error)
            }
        }
    }

    // The error when there is no memory for bytes within the limit. They can't be read where they
    // stand if an item is incomplete, because it begins in other bytes.
    fn without_room(&self, bytes: &[u8]) -> ParseError
        requires within { self.now.offset + length bytes.now ≤ most_bytes }
        ensures { TakesIn {A = Unit {0}} (Err result) self.now bytes.now self.now }
    {
        if !self.text.waiting().is_empty() {
            return ParseError::Memory;
        }
        unread(self.text.last_flags(), bytes, self.offset + bytes.len())
    }

    // Drops everything but the fault.
    #[tactic(auto, using(crate::proofs::feeding::RestLaws::out_empty))]
    fn break_off(&mut self, alloc: Global, fault: ParseFault) -> ParseError
        requires { fault.at ≤ most_bytes }
        ensures broken { self.new ≡ broken fault }
        ensures told { result ≡ ParseError.Fault fault }
    {
        self.text = Growing::new(alloc);
        self.offset = fault.at;
        self.fault = Some(fault);
        self.spot = Spot::start();
        self.lacking = 0;
        ParseError::Fault(fault)
    }

    /// Returns the changeset that the bytes so far encode, or their fault. Changes nothing and does
    /// not allocate, so feeding may continue.
    pub fn finish(&self) -> Result<&Changeset, ParseFault>
        ensures found { (text : List ℕ) → Took self.now text
            → IfOk result (λ changeset. Spells text changeset.now) }
        ensures faulty { (text : List ℕ) → Took self.now text
            → IfErr result (λ fault. IsFault text fault) }
        ensures exact { Shows result (answer_at_end self.now) }
    {
        self.finished()
    }

    // the same, because the progress determines the result
    fn finished(&self) -> Result<&Changeset, ParseFault>
        ensures { Shows result (answer_at_end self.now) }
    {
        if let Some(fault) = self.fault {
            return Err(fault);
        }
        match self.text.whole() {
            Some(changeset) => Ok(changeset),
            None => Err(ParseFault {
                at: self.offset,
                kind: FaultKind::Truncated,
            }),
        }
    }

    /// Moves out the changeset that `finish` returns, which must be `Ok`, and resets the parser.
    pub fn take(&mut self, alloc: Global) -> Changeset
        requires { IsOk (answer_at_end self.old) }
        ensures changeset { answer_at_end self.old ≡ Ok result }
        ensures text { (text : List ℕ) → Took self.old text → Spells text result }
        ensures new { self.new ≡ nothing }
    {
        self.taken(alloc)
    }

    // the same, because the progress determines the result
    fn taken(&mut self, alloc: Global) -> Changeset
        requires { IsOk (answer_at_end self.old) }
        ensures changeset { answer_at_end self.old ≡ Ok result }
        ensures new { self.new ≡ nothing }
    {
        let parser = mem::replace(self, PieceParser::new(alloc));
        let PieceParser { text, .. } = parser;
        text.into_changeset()
    }

    /// Consumes the parser. Returns what `finish` returns, with the changeset moved out.
    pub fn into_changeset(self) -> Result<Changeset, ParseFault>
        ensures changeset { result ≡ answer_at_end self }
        ensures text { (text : List ℕ) → Took self text → result ≡ answer_of text }
    {
        self.into_ended()
    }

    // the same, because the progress determines the result
    fn into_ended(self) -> Result<Changeset, ParseFault>
        ensures { result ≡ answer_at_end self }
    {
        if let Err(fault) = self.finish() {
            return Err(fault);
        }
        let PieceParser { text, .. } = self;
        Ok(text.into_changeset())
    }

    /// The number of bytes taken so far, or the place of the fault.
    pub fn offset(&self) -> usize
        ensures value { result ≡ self.now.offset }
        ensures text { (text : List ℕ) → Took self.now text → result ≡ offset_of text }
    {
        progress_tells();
        self.offset
    }
}
