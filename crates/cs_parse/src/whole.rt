//! Reads a whole text within the limit, or counts its changes without building a changeset
//! (`count_changes`).

ghost use Rattle.std.specs.Prelude.{◌≡◌, ◌≤◌, List, IfOk, IfErr, Ok, Err, length};
ghost use Rattle.cs_model.specs.{
  Changeset.{most_bytes},
  Section.{Section},
  Text.{Spells},
  TextFront.{sections_of_text},
};
ghost use Rattle.cs_parse.specs.{
  declared.fault.ParseFault.{ParseFault},
  Answer.{ParseAnswers},
  Count.{changes_in, counted_answer, HasChangeCount},
  Fault.{IsFault},
  Reading.{answer_of, fault_of, overlong_answer, sections_at, whole_answer},
};

use crate::fault::{FaultKind, ParseError, ParseFault};
use crate::section::{sections_counted, whole_sections};
use crate::stop::ParseRefusal;
use cs_model::TextSections;
use std::alloc::Global;

/// The maximum length of a text, in bytes.
pub const MOST_BYTES: usize = 16_777_216;

// The fault of a text whose first `len` bytes are read. Its kind is `ended` if they end too early.
fn fault_from(refusal: ParseRefusal, len: usize, ended: FaultKind) -> ParseFault
    ensures { result ≡ fault_of len ended refusal }
{
    match refusal {
        ParseRefusal::Short => ParseFault {
            at: len,
            kind: ended,
        },
        // the byte is in the text, so `left` is at most `len`
        ParseRefusal::Bad { left, kind } => ParseFault {
            at: len.saturating_sub(left),
            kind,
        },
    }
}

// the sections of a text within the limit
fn whole_of<'a>(alloc: Global, text: &'a [u8]) -> Result<TextSections<'a>, ParseError>
    ensures ok { IfOk result (λ x. whole_answer (length text.now) (sections_at text.now)
        ≡ Ok (sections_of_text x)) }
    ensures err { IfErr result (λ error. ParseAnswers (Err error)
        (whole_answer (length text.now) (sections_at text.now))) }
{
    match whole_sections(alloc, text) {
        Ok((sections, _, None)) => Ok(sections),
        Ok((_, _, Some(refusal))) => Err(ParseError::Fault(fault_from(
            refusal,
            text.len(),
            FaultKind::Truncated,
        ))),
        Err(_) => Err(unbuilt(text)),
    }
}

// The error when memory runs out. It is the text's fault if it has one, because finding a fault
// does not allocate.
fn unbuilt(text: &[u8]) -> ParseError
    ensures { ParseAnswers (Err result) (whole_answer (length text.now) (sections_at text.now)) }
{
    match sections_counted(text) {
        Ok(_) => ParseError::Memory,
        Err(refusal) => ParseError::Fault(fault_from(refusal, text.len(), FaultKind::Truncated)),
    }
}

// the fault of a text over the limit that begins with `front`
fn cut_of(front: &[u8]) -> ParseFault
    ensures { overlong_answer (length front.now) (sections_at front.now) ≡ Err result }
{
    let refusal = match sections_counted(front) {
        Ok(_) => ParseRefusal::Short,
        Err(refusal) => refusal,
    };
    fault_from(refusal, front.len(), FaultKind::TooLong)
}

/// The sections of a text, or the error of `parse`.
#[tactic(auto, unfolding(crate::specs::Reading::answer_of))]
pub fn sections_of<'a>(alloc: Global, text: &'a [u8]) -> Result<TextSections<'a>, ParseError>
    ensures ok { IfOk result (λ x. answer_of text.now ≡ Ok (sections_of_text x)) }
    ensures err { IfErr result (λ error. ParseAnswers (Err error) (answer_of text.now)) }
{
    if text.len() > MOST_BYTES {
        return Err(ParseError::Fault(cut_of(&text[..MOST_BYTES])));
    }
    whole_of(alloc, text)
}

// the number of changes in a text, from the result of reading it
#[tactic(auto, unfolding(crate::specs::Reading::answer_of))]
fn counted(text: &[u8]) -> Result<usize, ParseFault>
    ensures { result ≡ counted_answer (answer_of text.now) }
{
    if text.len() > MOST_BYTES {
        return Err(cut_of(&text[..MOST_BYTES]));
    }
    match sections_counted(text) {
        Ok((changes, _)) => Ok(changes),
        Err(refusal) => Err(fault_from(refusal, text.len(), FaultKind::Truncated)),
    }
}

/// Returns the number of changes that `text` encodes, or its one fault, as `parse` does. Does not
/// allocate, because it keeps no value that it reads. Use it to check a text without keeping
/// anything.
pub fn count_changes(text: &[u8]) -> Result<usize, ParseFault>
    // The text encodes a changeset with the number of changes returned.
    ensures found { IfOk result (λ count. HasChangeCount text.now count) }
    // If the text encodes a changeset, its number of changes is returned.
    ensures only { (changeset : List Section) → Spells text.now changeset
        → result ≡ Ok (changes_in changeset) }
    // A fault that is returned is the text's.
    ensures faulty { IfErr result (λ fault. IsFault text.now fault) }
    // If the text has a fault, the fault is returned.
    ensures the_fault { (fault : ParseFault) → IsFault text.now fault → result ≡ Err fault }
    // The number of changes is at most the limit on bytes.
    ensures bounded { IfOk result (λ count. count ≤ most_bytes) }
{
    counted(text)
}
