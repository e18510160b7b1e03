//! The functions that C calls, under the names of `include/changeset.h`. A slice is passed as its
//! pointer and its length. The allocator isn't an argument in C.

ghost use Rattle.std.specs.Prelude.{◌≡◌, ℕ, List, [], None, pos, negsuc, length};
ghost use Rattle.cs_model.specs.{Section.{Section}, Text.{Spells}};
ghost use Rattle.cs_parse.specs.{declared.fault.ParseFault.{ParseFault}, Count.{changes_in}};
ghost use Rattle.cs_parse.specs.Fault.{IsFault};
ghost use Rattle.cs_write.specs.Text.{text_of};
ghost use Rattle.cs_group.specs.Adding.{first_refused};
ghost use Rattle.changeset_c.specs.Combining.{CombineSays, HasClash, HasTextFault, IsClash};
ghost use Rattle.changeset_c.specs.Combining.{IsTextFault, KeptUnlessBad, SpellAll, combined_text};
ghost use Rattle.changeset_c.specs.Combining.{texts_of};
ghost use Rattle.changeset_c.specs.Says.{CanonicalSays, CheckSays, InvertSays, IsFaultAt, IsNumber};
ghost use Rattle.changeset_c.specs.Says.{KeptBut, inverse_text};

use crate::answers::{canonical, check, inverted};
use crate::combining::{CombineError, Text, combined};
use crate::reading::texts_are_read_so;
use crate::results::{CLASH, NO_MEMORY, NONE};
use cs_parse::laws::every_text;
use std::alloc::Global;

/// How many changes the text spells; or -1, with the place and the kind's number of its one fault.
/// Does not allocate. Unless it returns -1, it does not change the place and the number.
#[unsafe(no_mangle)]
pub extern "C" fn changeset_check(text: &[u8], fault_at: &mut usize, fault_kind: &mut u32) -> i64
    // The result is true of the text.
    ensures says { CheckSays result fault_at.new fault_kind.new text.now }
    // For a text that spells a changeset, the result is its number of changes.
    ensures only { (changeset : List Section) → Spells text.now changeset
        → result ≡ pos (changes_in changeset) }
    // For a text with a fault, the result is -1 and that fault.
    ensures the_fault { (fault : ParseFault) → IsFault text.now fault
        → IsFaultAt result fault_at.new fault_kind.new fault }
    ensures same_place { KeptBut result fault_at.old fault_at.new }
    ensures same_kind { KeptBut result fault_kind.old fault_kind.new }
{
    every_text();
    check(text, fault_at, fault_kind)
}

/// The length of the canonical text of what the text spells, written to the front of `out` if there
/// is room for it. Returns -1 if the text spells no changeset. Returns -2 if it spells one and
/// memory ran out. The rest of `out` does not change.
#[unsafe(no_mangle)]
pub extern "C" fn changeset_canonical(alloc: Global, text: &[u8], out: &mut [u8]) -> i64
    // The result is true of the text, and `out` is as it says.
    ensures says { CanonicalSays result out.old out.new text.now }
    // For a text that spells a changeset, the result is the length, unless memory runs out.
    ensures only { (changeset : List Section) → Spells text.now changeset
        → IsNumber result (length (text_of changeset)) }
    // For a text with a fault, the result is -1.
    ensures the_fault { (fault : ParseFault) → IsFault text.now fault → result ≡ negsuc 0 }
{
    every_text();
    canonical(alloc, text, out)
}

/// The length of the canonical text of the inverse of what the text spells, written to the front of
/// `out` if there is room for it. Returns -1 if the text spells no changeset. Returns -2 if it
/// spells one and memory ran out. The rest of `out` does not change.
#[unsafe(no_mangle)]
pub extern "C" fn changeset_invert(alloc: Global, text: &[u8], out: &mut [u8]) -> i64
    // The result is true of the text, and `out` is as it says.
    ensures says { InvertSays result out.old out.new text.now }
    // For a text that spells a changeset, the result is the length, unless memory runs out.
    ensures only { (changeset : List Section) → Spells text.now changeset
        → IsNumber result (length (inverse_text changeset)) }
    // For a text with a fault, the result is -1.
    ensures the_fault { (fault : ParseFault) → IsFault text.now fault → result ≡ negsuc 0 }
{
    every_text();
    inverted(alloc, text, out)
}

/// Combines texts into one, in their order. Returns the length of the canonical text of their
/// group, in bytes, written to the front of `out` if there is room for it.
///
/// Returns -1 if the first text that can't be added has a fault. Sets `fault_text` to the text's
/// index, and `fault_at` and `fault_kind` to the fault's place and its kind's number. Returns -3 if
/// that text has a section whose table has the name of an earlier section's and another shape. Sets
/// `fault_text` to the text's index, and `fault_at` to the section's. Indexes are from 0. Returns
/// -2 if memory ran out. What is not named here does not change.
#[unsafe(no_mangle)]
pub extern "C" fn changeset_combine(
    alloc: Global,
    texts: &[Text],
    out: &mut [u8],
    fault_text: &mut usize,
    fault_at: &mut usize,
    fault_kind: &mut u32,
) -> i64
    // The result is true of the texts, and `out` is as it says.
    ensures says { CombineSays result (texts_of texts.now) out.old out.new
        fault_text.new fault_at.new fault_kind.new }
    // If the texts spell changesets of which no two clash, the result is the length of the text of
    // their group, unless memory runs out.
    ensures only { (changesets : List (List Section)) → SpellAll (texts_of texts.now) changesets
        → first_refused [] changesets ≡ None
        → IsNumber result (length (combined_text changesets)) }
    // If the first text that can't be added has a fault, the result is -1 and that fault, unless
    // memory runs out.
    ensures the_fault { (text at kind : ℕ) → HasTextFault (texts_of texts.now) text at kind
        → IsTextFault result fault_text.new fault_at.new fault_kind.new text at kind }
    // If it has a section that clashes, the result is -3 and that section, unless memory runs out.
    ensures the_clash { (text section : ℕ) → HasClash (texts_of texts.now) text section
        → IsClash result fault_text.new fault_at.new text section }
    ensures same_text { KeptUnlessBad result fault_text.old fault_text.new }
    ensures same_place { KeptUnlessBad result fault_at.old fault_at.new }
    ensures same_kind { KeptBut result fault_kind.old fault_kind.new }
{
    texts_are_read_so(texts);
    match combined(alloc, texts, out) {
        Ok(len) => len,
        Err(CombineError::Memory) => NO_MEMORY,
        Err(CombineError::Fault { text, fault }) => {
            *fault_text = text;
            *fault_at = fault.at;
            *fault_kind = fault.kind.number();
            NONE
        }
        Err(CombineError::Clash { text, section }) => {
            *fault_text = text;
            *fault_at = section;
            CLASH
        }
    }
}
