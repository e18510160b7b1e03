//! Reads the sections at the front of a text that stand there in canonical form.

ghost use Rattle.std.specs.Prelude.{◌≡◌, ◌++◌, [], IfOk, IsTrue, Ok};
ghost use Rattle.cs_model.specs.SectionText.{header_text};
ghost use Rattle.cs_parse.specs.Front.{ReadsNext, prefixed};
ghost use Rattle.cs_parse.specs.Progress.{read_on};
ghost use Rattle.cs_parse.specs.Reading.{shape_at};

use crate::and::both;
use crate::change::whole_changes;
use crate::section::shape_in;
use cs_model::laws::{changes_fit, spelled_is_said};
use cs_model::{ShapeRef, TextFront, varint_strip};
use std::alloc::{AllocError, Global};

// Whether the header that these bytes begin with is in canonical form: its number of columns is a
// shortest varint.
fn has_canonical_header(shape: &ShapeRef, bytes: &[u8], behind: &[u8]) -> bool
    requires { shape_at bytes.now ≡ Ok (shape.now, behind.now) }
    ensures { IsTrue result → bytes.now ≡ header_text shape.now ++ behind.now }
{
    match bytes.split_first() {
        Some((_, counted)) => varint_strip(counted, shape.flags.len() as u64).is_some(),
        None => false,
    }
}

// Adds the next section, and returns `true`, if it is whole and in canonical form. `bytes` are
// those after the sections. An `Err` changes nothing.
fn next_canonical(front: &mut TextFront, bytes: &[u8]) -> Result<bool, AllocError>
    requires { bytes.now ≡ front.old.1 }
    ensures { IfOk result (λ more. ReadsNext more front.old.0 front.old.1 front.new.0 front.new.1) }
{
    let Ok((shape, behind)) = shape_in(bytes) else {
        return Ok(false);
    };
    let (count, rest, canonical, why) = whole_changes(shape.flags, behind);
    if why.is_some() || !both(canonical, has_canonical_header(&shape, bytes, behind)) {
        return Ok(false);
    }
    let (section, _) = bytes.split_at(bytes.len() - rest.len());
    let (changes, _) = behind.split_at(behind.len() - rest.len());
    changes_fit();
    spelled_is_said();
    front.push(&shape, section, changes, count)?;
    Ok(true)
}

/// The sections at the front of a text, as far as they are whole and in canonical form. Returns
/// `AllocError` if memory runs out.
pub fn canonical_front<'a>(alloc: Global, text: &'a [u8]) -> Result<TextFront<'a>, AllocError>
    // What is read behind them is what is read behind them in the text.
    ensures { IfOk result (λ front. prefixed front.0 (read_on [] front.1) ≡ read_on [] text.now) }
{
    let mut front = TextFront::new(alloc, text);
    // each turn takes at least one byte
    for _ in 0..text.len() {
        let rest = front.rest();
        if !next_canonical(&mut front, rest)? {
            break;
        }
    }
    Ok(front)
}
