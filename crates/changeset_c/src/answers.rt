//! The results of the exports, as numbers for C.

ghost use Rattle.std.specs.Prelude.{◌≡◌, IfOk, OnErr, OnOk, length, pos};
ghost use Rattle.cs_write.specs.Buffer.{given};
ghost use Rattle.changeset_c.specs.Says.{CanonicalSays, CheckSays, InvertSays, KeptBut};
ghost use Rattle.changeset_c.specs.Says.{inverse_text};

use crate::results::{NO_MEMORY, NONE, length_told};
use cs_invert::write_inverse;
use cs_model::TextChangeset;
use cs_parse::{ParseError, count_changes, parse, parse_in_place};
use cs_write::laws::text_is_no_longer;
use cs_write::write_to;
use std::alloc::{AllocError, Global};

/// How many changes the text spells; or -1, with the place and the kind's number of its fault.
pub fn check(text: &[u8], fault_at: &mut usize, fault_kind: &mut u32) -> i64
    ensures says { CheckSays result fault_at.new fault_kind.new text.now }
    ensures same_place { KeptBut result fault_at.old fault_at.new }
    ensures same_kind { KeptBut result fault_kind.old fault_kind.new }
{
    match count_changes(text) {
        Ok(changes) => changes as i64,
        Err(fault) => {
            *fault_at = fault.at;
            *fault_kind = fault.kind.number();
            NONE
        }
    }
}

/// The length of the canonical text, which is written if `out` has room for it; -1; or -2. A
/// canonical text is never longer than the text that was read, so an `i64` holds its length.
pub fn canonical(alloc: Global, text: &[u8], out: &mut [u8]) -> i64
    ensures { CanonicalSays result out.old out.new text.now }
{
    text_is_no_longer();
    match parse(alloc, text) {
        Ok(changeset) => match write_to(alloc, &changeset, out) {
            Ok(len) => len as i64,
            Err(_) => NO_MEMORY,
        },
        Err(ParseError::Fault(_)) => NONE,
        Err(ParseError::Memory) => NO_MEMORY,
    }
}

/// The length of the text of the inverse, which is written if `out` has room for it; -1; or -2.
pub fn inverted(alloc: Global, text: &[u8], out: &mut [u8]) -> i64
    ensures { InvertSays result out.old out.new text.now }
{
    match parse_in_place(alloc, text) {
        Ok(changeset) => written(alloc, &changeset, out).unwrap_or(NO_MEMORY),
        Err(ParseError::Fault(_)) => NONE,
        Err(ParseError::Memory) => NO_MEMORY,
    }
}

// Writes the text of the inverse if there is room for it, and returns its length.
fn written(alloc: Global, changeset: &TextChangeset, out: &mut [u8]) -> Result<i64, AllocError>
    ensures len { IfOk result (λ n. n ≡ pos (length (inverse_text changeset.now))) }
    ensures ok { OnOk result (out.new ≡ given (inverse_text changeset.now) out.old) }
    ensures err { OnErr result (out.new ≡ out.old) }
{
    length_told(write_inverse(alloc, changeset, out)?)
}
