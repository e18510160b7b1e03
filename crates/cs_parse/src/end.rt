//! `PieceParser::end`: ends a text that came in pieces and checks its changeset against a schema.

ghost use Rattle.std.specs.Prelude.{◌≡◌, ℕ, List};
ghost use Rattle.cs_parse.specs.Answer.{Shows};
ghost use Rattle.cs_parse.specs.End.{admitted_answer, left_by};
ghost use Rattle.cs_parse.specs.Progress.{answer_at_end, Took};
ghost use Rattle.cs_parse.specs.Reading.{answer_of};

use crate::fault::ParseFault;
use crate::laws::progress_tells;
use crate::pieces::PieceParser;
use cs_model::{Changeset, Schema, SectionFault};
use std::alloc::Global;
use thiserror::Error;

/// The error of `PieceParser::end`. The call did not change the parser.
#[derive(Clone, Copy, Debug, PartialEq, Eq, Error)]
pub enum EndError {
    /// The bytes so far encode no changeset.
    #[error(transparent)]
    Fault(ParseFault),
    /// The schema refuses a section of the changeset.
    #[error(transparent)]
    Refused(SectionFault),
}

impl PieceParser {
    /// Ends the text. If the bytes so far encode a changeset that the schema admits, moves the
    /// changeset out and resets the parser. Does not allocate.
    ///
    /// Returns `Fault` if `finish` returns a fault. Otherwise returns `Refused` with the first
    /// section that the schema refuses. Neither error changes the parser, so feeding may continue.
    pub fn end(&mut self, alloc: Global, schema: &Schema) -> Result<Changeset, EndError>
        ensures answer { result ≡ admitted_answer schema.now (answer_at_end self.old) }
        ensures left { self.new ≡ left_by result self.old }
        ensures text { (text : List ℕ) → Took self.old text
            → result ≡ admitted_answer schema.now (answer_of text) }
    {
        progress_tells();
        self.end_by(alloc, schema)
    }

    // the same, because the progress determines the result
    fn end_by(&mut self, alloc: Global, schema: &Schema) -> Result<Changeset, EndError>
        ensures answer { result ≡ admitted_answer schema.now (answer_at_end self.old) }
        ensures left { self.new ≡ left_by result self.old }
    {
        let changeset = match spelled(self) {
            Ok(changeset) => changeset,
            Err(fault) => return Err(EndError::Fault(fault)),
        };
        if let Err(fault) = schema.admits(changeset) {
            return Err(EndError::Refused(fault));
        }
        Ok(self.take(alloc))
    }
}

// the changeset that the bytes so far encode, or their fault
fn spelled(parser: &PieceParser) -> Result<&Changeset, ParseFault>
    ensures { Shows result (answer_at_end parser.now) }
{
    parser.finish()
}
