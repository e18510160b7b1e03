//! Parses a whole text, into a changeset of its own (`parse`), or in place (`parse_in_place`).

ghost use Rattle.std.specs.Prelude.{◌≡◌, IfOk, IfErr, Err, List};
ghost use Rattle.cs_model.specs.Section.{Section};
ghost use Rattle.cs_model.specs.Text.{Spells};
ghost use Rattle.cs_parse.specs.declared.fault.ParseFault.{ParseFault};
ghost use Rattle.cs_parse.specs.Answer.{IsRead, ParseAnswers, ReportsFault};
ghost use Rattle.cs_parse.specs.Fault.{IsFault};
ghost use Rattle.cs_parse.specs.Reading.{answer_of};

use crate::fault::ParseError;
use crate::whole::sections_of;
use cs_model::{Changeset, TextChangeset};
use std::alloc::Global;

/// Returns what `parse` does. Copies nothing of a text in canonical form; one that isn't is copied
/// whole.
///
/// `Memory` comes only if the text encodes a changeset. Neither error changes anything.
pub fn parse_in_place<'a>(alloc: Global, text: &'a [u8]) -> Result<TextChangeset<'a>, ParseError>
    // A changeset that is returned is the one that the text encodes.
    ensures found { IfOk result (λ changeset. Spells text.now changeset) }
    // If the text encodes a changeset, that changeset is returned, unless memory runs out.
    ensures only { (changeset : List Section) → Spells text.now changeset
        → IsRead result changeset }
    // An error is the text's fault, or memory ran out and the text encodes a changeset.
    ensures faulty { IfErr result (λ error. ReportsFault error text.now) }
    // If the text has a fault, the fault is returned, even without memory.
    ensures the_fault { (fault : ParseFault) → IsFault text.now fault
        → result ≡ Err (ParseError.Fault fault) }
    // The text determines the result.
    ensures exact { ParseAnswers result (answer_of text.now) }
{
    in_place(alloc, text)
}

// the same, because the text determines the result
fn in_place<'a>(alloc: Global, text: &'a [u8]) -> Result<TextChangeset<'a>, ParseError>
    ensures { ParseAnswers result (answer_of text.now) }
{
    Ok(TextChangeset::of(sections_of(alloc, text)?))
}

/// Returns the changeset that `text` encodes, or the text's one fault. The fault is at the first
/// byte after which no continuation encodes a changeset, or at the end of a truncated text.
///
/// `Memory` comes only if the text encodes a changeset, because finding a fault does not allocate.
/// Neither error changes anything. The call reads at most 16,777,216 bytes. A longer text is
/// `TooLong`, unless its fault is among those bytes.
pub fn parse(alloc: Global, text: &[u8]) -> Result<Changeset, ParseError>
    // A changeset that is returned is the one that the text encodes.
    ensures found { IfOk result (λ changeset. Spells text.now changeset) }
    // If the text encodes a changeset, that changeset is returned, unless memory runs out.
    ensures only { (changeset : List Section) → Spells text.now changeset
        → IsRead result changeset }
    // An error is the text's fault, or memory ran out and the text encodes a changeset.
    ensures faulty { IfErr result (λ error. ReportsFault error text.now) }
    // If the text has a fault, the fault is returned, even without memory.
    ensures the_fault { (fault : ParseFault) → IsFault text.now fault
        → result ≡ Err (ParseError.Fault fault) }
    // The text determines the result.
    ensures exact { ParseAnswers result (answer_of text.now) }
{
    copied(alloc, text)
}

// the same, because the text determines the result
fn copied(alloc: Global, text: &[u8]) -> Result<Changeset, ParseError>
    ensures { ParseAnswers result (answer_of text.now) }
{
    let changeset = in_place(alloc, text)?;
    Ok(changeset.into_changeset(alloc)?)
}
