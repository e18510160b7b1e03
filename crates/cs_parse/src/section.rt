//! Reads the sections of a text, a header and its changes each, and counts their changes.

ghost use Rattle.std.specs.Prelude.{◌≡◌, ◌<◌, ◌++◌, ◌∷◌, [], IfOk, IsTrue, OnOk, length};
ghost use Rattle.std.specs.List.{AllByRecursion};
ghost use Rattle.cs_model.specs.PackedChanges.{AreCanonical, Fit, unpacked_changes};
ghost use Rattle.cs_model.specs.TextFront.{sections_of_text};
ghost use Rattle.cs_parse.specs.Count.{counted, changes_in};
ghost use Rattle.cs_parse.specs.Front.{NextSection, changes_front, prefixed};
ghost use Rattle.cs_parse.specs.Progress.{read_on};
ghost use Rattle.cs_parse.specs.Reading.{Reads, shape_at, section_at, is_empty, many_at};
ghost use Rattle.cs_parse.specs.Reading.{sections_at};

use crate::canonical::canonical_front;
use crate::change::{changes_counted, whole_changes};
use crate::fault::FaultKind;
use crate::header::header_of;
use crate::stop::ParseRefusal;
use cs_model::laws::{changes_fit, spelled_is_said};
use cs_model::{Sections, ShapeRef, TextSections};
use std::alloc::{AllocError, Global};

/// Reads a section's shape, in place. Only a `T` ends the section before it. So another first byte
/// is the first byte of the text.
#[tactic(auto, unfolding(crate::specs::Reading::shape_at))]
pub fn shape_in(bytes: &[u8]) -> Result<(ShapeRef, &[u8]), ParseRefusal>
    ensures { Reads (λ x. (x.0, x.1.now)) result (shape_at bytes.now) }
{
    let Some((&byte, rest)) = bytes.split_first() else {
        return Err(ParseRefusal::Short);
    };
    if byte == 0x54 {
        return header_of(rest);
    }
    let kind = if byte == 0x50 {
        FaultKind::Patchset
    } else {
        FaultKind::BadMarker
    };
    Err(ParseRefusal::Bad {
        left: bytes.len(),
        kind,
    })
}

// Adds the section of this table with its complete changes. Returns the bytes after them, and why
// the next change isn't read.
fn add_section<'a>(
    sections: &mut Sections,
    shape: &ShapeRef,
    bytes: &'a [u8],
) -> Result<(&'a [u8], Option<ParseRefusal>), AllocError>
    ensures added { OnOk result (sections.new ≡ sections.old ++ record {
      shape = shape.now;
      changes = (changes_front shape.now.flags bytes.now).items;
    } ∷ []) }
    ensures rest { IfOk result (λ x. x.0.now ≡ (changes_front shape.now.flags bytes.now).rest) }
    ensures why { IfOk result (λ x. x.1 ≡ (changes_front shape.now.flags bytes.now).why) }
{
    let (count, rest, canonical, why) = whole_changes(shape.flags, bytes);
    let (text, _) = bytes.split_at(bytes.len() - rest.len());
    changes_fit();
    spelled_is_said();
    push_section(sections, shape, text, count, canonical)?;
    Ok((rest, why))
}

// Adds the section of this table with the `count` changes that `text` encodes.
fn push_section(
    sections: &mut Sections,
    shape: &ShapeRef,
    text: &[u8],
    count: usize,
    canonical: bool,
) -> Result<(), AllocError>
    requires fit { AllByRecursion (Fit (length shape.now.flags))
        (unpacked_changes (length shape.now.flags) text.now) }
    requires count { count ≡ length (unpacked_changes (length shape.now.flags) text.now) }
    requires canonical { IsTrue canonical → AreCanonical (length shape.now.flags) text.now }
    ensures { OnOk result (sections.new ≡ sections.old ++ record {
      shape = shape.now;
      changes = unpacked_changes (length shape.now.flags) text.now;
    } ∷ []) }
{
    sections.push_header(shape)?;
    sections.push_text(shape.flags.len(), text, count, canonical)
}

// Adds the next section if its header is complete, with its complete changes. Returns the bytes
// after it, and why it isn't read to its end.
fn next_section<'a>(
    sections: &mut Sections,
    bytes: &'a [u8],
) -> Result<(&'a [u8], Option<ParseRefusal>), AllocError>
    requires { 0 < length bytes.now }
    ensures { IfOk result (λ x. NextSection sections.old sections.new bytes.now x.0.now x.1) }
{
    let (shape, rest) = match shape_in(bytes) {
        Ok(read) => read,
        Err(why) => return Ok((bytes, Some(why))),
    };
    let (after, why) = add_section(sections, &shape, rest)?;
    Ok((after, why))
}

// Adds the sections of these bytes, the last one as far as it is complete. Returns the bytes after
// them, and why no more is read.
fn more_sections<'a>(
    sections: &mut Sections,
    bytes: &'a [u8],
) -> Result<(&'a [u8], Option<ParseRefusal>), AllocError>
    ensures { IfOk result (λ x. prefixed sections.old (read_on [] bytes.now)
        ≡ record { sections = sections.new; rest = x.0.now; why = x.1 }) }
{
    let mut rest = bytes;
    // each turn takes at least one byte
    for _ in 0..bytes.len() {
        if rest.is_empty() {
            break;
        }
        let (after, why) = next_section(sections, rest)?;
        rest = after;
        if why.is_some() {
            return Ok((rest, why));
        }
    }
    Ok((rest, None))
}

/// Reads the sections of a text, the last one as far as it is complete. They stay where they stand
/// if all of them are in canonical form, and the text ends with them. Returns them, the bytes after
/// them, and why no more is read.
pub fn whole_sections<'a>(
    alloc: Global,
    bytes: &'a [u8],
) -> Result<(TextSections<'a>, &'a [u8], Option<ParseRefusal>), AllocError>
    ensures { IfOk result (λ x. read_on [] bytes.now
        ≡ record { sections = sections_of_text x.0; rest = x.1.now; why = x.2 }) }
{
    let front = canonical_front(alloc, bytes)?;
    let rest = front.rest();
    if rest.is_empty() {
        return Ok((TextSections::InPlace(front), rest, None));
    }
    let mut sections = front.into_sections(alloc)?;
    let (rest, why) = more_sections(&mut sections, rest)?;
    Ok((TextSections::Copied(sections), rest, why))
}

// the number of changes of the next section, and the bytes after it
#[tactic(auto, unfolding(crate::specs::Reading::section_at))]
fn section_counted(bytes: &[u8]) -> Result<(usize, &[u8]), ParseRefusal>
    ensures { Reads (λ x. (x.0, x.1.now)) result
        (counted (λ section. length section.changes) (section_at bytes.now)) }
{
    let (shape, rest) = shape_in(bytes)?;
    let (count, rest) = changes_counted(shape.flags, rest)?;
    Ok((count, rest))
}

/// Returns the number of changes of a text, and the bytes after it, which are empty.
pub fn sections_counted(bytes: &[u8]) -> Result<(usize, &[u8]), ParseRefusal>
    ensures { Reads (λ x. (x.0, x.1.now)) result (counted changes_in (sections_at bytes.now)) }
{
    let mut count: usize = 0;
    let mut rest = bytes;
    // each turn takes at least one byte
    for _ in 0..bytes.len() {
        if rest.is_empty() {
            break;
        }
        let (changes, after) = section_counted(rest)?;
        count += changes;
        rest = after;
    }
    Ok((count, rest))
}
