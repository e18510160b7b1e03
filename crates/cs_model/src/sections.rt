//! Sections in their canonical text, in one buffer.

ghost use Rattle.std.specs.Prelude.{◌≡◌, ◌==◌, ◌++◌, ◌∷◌, [], OnOk, OnErr, IfOk, length, take};
ghost use Rattle.std.specs.Prelude.{IsTrue, MatchOption, None, Some};
ghost use Rattle.std.specs.List.{AllByRecursion};
ghost use Rattle.cs_model.specs.{
  Bytes.{AddsBytes},
  PackedChanges.{AreCanonical, Fit, change_of, unpacked_changes},
  SectionText.{header_text, sections_text},
  Section.{Section},
  Seen.{fields_seen},
  Sections.{EndsWithSection, FitLast, IsPlaceOf, IsText, LastHasColumns, LastIsLong},
  Sections.{last_flags, sections_by, with_changes},
};

use crate::at::{At, grow_at, grow_last};
use crate::canonical::text_push;
use crate::change::Op;
use crate::field_ref::FieldRef;
use crate::packed_change::PackedChange;
use crate::pushing::fields_push;
use crate::section_ref::{SectionRef, SectionRefs};
use crate::shape::ShapeRef;
use crate::varint::varint_push;
use std::alloc::{AllocError, Global};
use std::marker::Model;

/// Sections as their canonical text. Contracts see the list of sections.
#[derive(Debug, Drop)]
pub struct Sections {
    text: Vec<u8>,
    ats: Vec<At>,
}

impl Model for Sections {
    ghost use Rattle.std.specs.Prelude.{List};
    ghost use Rattle.cs_model.specs.Section.{Section};
    ghost use Rattle.cs_model.specs.Sections.{IsText, sections_by};

    ghost Value = { List Section };

    ghost view = { λ c. sections_by c.ats.items c.text.items };

    ghost invariant = { λ c. IsText c.ats.items c.text.items
        (sections_by c.ats.items c.text.items) };
}

impl Sections {
    /// No sections. Does not allocate.
    pub fn new(alloc: Global) -> Sections
        ensures { result ≡ [] }
    {
        Sections {
            text: Vec::new(alloc),
            ats: Vec::new(alloc),
        }
    }

    /// No sections, and room for a text of `len` bytes. Returns `AllocError` if memory runs out.
    pub fn with_capacity(alloc: Global, len: usize) -> Result<Sections, AllocError>
        ensures { IfOk result (λ made. made ≡ []) }
    {
        Ok(Sections {
            text: Vec::with_capacity(alloc, len)?,
            ats: Vec::new(alloc),
        })
    }

    /// The number of sections.
    pub fn len(&self) -> usize
        ensures { result ≡ length self.now }
    {
        self.iter().len()
    }

    /// Returns `true` if there are no sections.
    pub fn is_empty(&self) -> bool
        ensures { result ≡ (length self.now == 0) }
    {
        self.len() == 0
    }

    /// Returns a cursor over the sections, in order.
    pub fn iter(&self) -> SectionRefs<'_>
        ensures { result ≡ self.now }
    {
        SectionRefs::of(&self.ats, &self.text)
    }

    /// Its text.
    pub fn text(&self) -> &[u8]
        ensures { result.now ≡ sections_text self.now }
    {
        &self.text
    }

    /// Adds a section without changes. An `Err` changes nothing.
    pub fn push_header(&mut self, shape: &ShapeRef) -> Result<(), AllocError>
        ensures ok { OnOk result
            (self.new ≡ self.old ++ record { shape = shape.now; changes = [] } ∷ []) }
        ensures err { OnErr result (self.new ≡ self.old) }
    {
        self.ats.reserve(1)?;
        let start = self.text.len();
        let at = match add_header(&mut self.text, shape) {
            Ok(at) => at,
            Err(error) => {
                self.text.truncate(start);
                return Err(error);
            }
        };
        self.ats.push_reserved(at);
        Ok(())
    }

    /// Adds a change to the last section, in one copy. An `Err` changes nothing.
    pub fn push_packed(&mut self, change: &PackedChange) -> Result<(), AllocError>
        requires { LastIsLong self.old change.now.op change.now.before change.now.after }
        ensures ok { OnOk result (self.new ≡ with_changes self.old (change.now ∷ [])) }
        ensures err { OnErr result (self.new ≡ self.old) }
    {
        let bytes = change.bytes();
        self.text.extend_from_slice(bytes)?;
        grow_last(&mut self.ats, bytes.len(), 1);
        Ok(())
    }

    /// Adds a change whose records have these fields to the last section. An `Err` changes nothing.
    pub fn push_fields(
        &mut self,
        op: Op,
        indirect: bool,
        before: &[FieldRef],
        after: &[FieldRef],
    ) -> Result<(), AllocError>
        requires { LastIsLong self.old op (fields_seen before.now) (fields_seen after.now) }
        ensures ok { OnOk result (self.new ≡ with_changes self.old
            (change_of op indirect (fields_seen before.now) (fields_seen after.now) ∷ [])) }
        ensures err { OnErr result (self.new ≡ self.old) }
    {
        let start = self.text.len();
        fields_push(&mut self.text, op, indirect, before, after)?;
        let size = self.text.len() - start;
        grow_last(&mut self.ats, size, 1);
        Ok(())
    }

    /// Adds the changes of a section to the last, in one copy. An `Err` changes nothing.
    pub fn push_changes(&mut self, section: &SectionRef) -> Result<(), AllocError>
        requires { LastHasColumns self.old (length section.now.shape.flags) }
        ensures ok { OnOk result (self.new ≡ with_changes self.old section.now.changes) }
        ensures err { OnErr result (self.new ≡ self.old) }
    {
        let bytes = section.canonical();
        self.text.extend_from_slice(bytes)?;
        grow_last(&mut self.ats, bytes.len(), section.len());
        Ok(())
    }

    /// Adds the `count` changes that a text encodes to the last section, in canonical form: in one
    /// copy if they are `canonical` there. An `Err` changes nothing.
    pub fn push_text(
        &mut self,
        columns: usize,
        text: &[u8],
        count: usize,
        canonical: bool,
    ) -> Result<(), AllocError>
        requires last { LastHasColumns self.old columns }
        requires fit { AllByRecursion (Fit columns) (unpacked_changes columns text.now) }
        requires count { count ≡ length (unpacked_changes columns text.now) }
        requires canonical { IsTrue canonical → AreCanonical columns text.now }
        ensures ok { OnOk result (self.new
            ≡ with_changes self.old (unpacked_changes columns text.now)) }
        ensures err { OnErr result (self.new ≡ self.old) }
    {
        let start = self.text.len();
        text_push(&mut self.text, columns, text, canonical)?;
        let size = self.text.len() - start;
        grow_last(&mut self.ats, size, count);
        Ok(())
    }

    /// The key flags of the last section's table. Reads no other section.
    pub fn last_flags(&self) -> Option<&[u8]>
        ensures { MatchOption result (last_flags self.now ≡ None)
            (λ flags. last_flags self.now ≡ Some flags.now) }
    {
        let (at, _) = self.ats.split_last()?;
        Some(flags_at(at, &self.text))
    }

    /// Adds other sections, in one copy of their text. An `Err` changes nothing.
    pub fn append(&mut self, others: Sections) -> Result<(), AllocError>
        ensures ok { OnOk result (self.new ≡ self.old ++ others) }
        ensures err { OnErr result (self.new ≡ self.old) }
    {
        let (text, mut ats) = others.into_parts();
        append_both(&mut self.text, &mut self.ats, &text, &mut ats)?;
        Ok(())
    }

    /// Adds the `count` changes that a text encodes to the last section, as `push_text` does, and
    /// then other sections. An `Err` changes nothing.
    pub fn join(
        &mut self,
        columns: usize,
        text: &[u8],
        count: usize,
        canonical: bool,
        others: Sections,
    ) -> Result<(), AllocError>
        requires last { LastHasColumns self.old columns }
        requires fit { AllByRecursion (Fit columns) (unpacked_changes columns text.now) }
        requires count { count ≡ length (unpacked_changes columns text.now) }
        requires canonical { IsTrue canonical → AreCanonical columns text.now }
        ensures ok { OnOk result (self.new
            ≡ with_changes self.old (unpacked_changes columns text.now) ++ others) }
        ensures err { OnErr result (self.new ≡ self.old) }
    {
        let len = self.ats.len();
        let start = self.text.len();
        text_push(&mut self.text, columns, text, canonical)?;
        let size = self.text.len() - start;
        let (more, mut ats) = others.into_parts();
        match append_both(&mut self.text, &mut self.ats, &more, &mut ats) {
            Ok(()) => {}
            Err(error) => {
                self.text.truncate(start);
                return Err(error);
            }
        }
        grow_at(&mut self.ats, len, size, count);
        Ok(())
    }

    /// Its text, without a copy.
    pub fn into_text(self) -> Vec<u8>
        ensures { result.items ≡ sections_text self }
    {
        let (text, _) = self.into_parts();
        text
    }

    /// Gives back the room that the sections don't need.
    pub fn shrink_to_fit(&mut self)
        ensures { self.new ≡ self.old }
    {
        self.text.shrink_to_fit();
        self.ats.shrink_to_fit();
    }

    /// The text and the index.
    pub(crate) fn into_parts(self) -> (Vec<u8>, Vec<At>)
        ensures stands { IsText result.1.items result.0.items self }
        ensures says { sections_by result.1.items result.0.items ≡ self }
    {
        let Sections { text, ats } = self;
        (text, ats)
    }

    /// The sections of a text and its index.
    pub(crate) fn from_parts(text: Vec<u8>, ats: Vec<At>) -> Sections
        requires { IsText ats.items text.items (sections_by ats.items text.items) }
        ensures { result ≡ sections_by ats.items text.items }
    {
        Sections { text, ats }
    }

    /// A copy.
    pub fn copy_in(&self, alloc: Global) -> Result<Sections, AllocError>
        ensures { IfOk result (λ copy. copy ≡ self.now) }
    {
        Ok(Sections {
            text: Vec::from_slice(alloc, &self.text)?,
            ats: Vec::from_slice(alloc, &self.ats)?,
        })
    }
}

// the key flags of the section at the end of a text
fn flags_at<'a>(at: &At, text: &'a [u8]) -> &'a [u8]
    requires { (section : Section) × EndsWithSection at.now text.now section }
    ensures { (section : Section) → EndsWithSection at.now text.now section
        → result.now ≡ section.shape.flags }
{
    let len = at.head as usize + at.columns as usize + at.name as usize + 1 + at.size;
    let (_, section) = text.split_at(text.len() - len);
    let (_, from_flags) = section.split_at(at.head as usize);
    let (flags, _) = from_flags.split_at(at.columns as usize);
    flags
}

// Appends to both. An `Err` changes nothing.
fn append_both(
    text: &mut Vec<u8>,
    ats: &mut Vec<At>,
    more: &[u8],
    others: &mut Vec<At>,
) -> Result<(), AllocError>
    ensures text { OnOk result (text.new.items ≡ text.old.items ++ more.now) }
    ensures ats { OnOk result (ats.new.items ≡ ats.old.items ++ others.old.items) }
    ensures same_text { OnErr result (text.new.items ≡ text.old.items) }
    ensures same_ats { OnErr result (ats.new.items ≡ ats.old.items) }
{
    let start = text.len();
    text.extend_from_slice(more)?;
    let added = ats.append(others);
    if added.is_err() {
        text.truncate(start);
    }
    added
}

// Appends a header, and returns where its section stands. An `Err` may have appended some.
fn add_header(out: &mut Vec<u8>, shape: &ShapeRef) -> Result<At, AllocError>
    ensures ok { AddsBytes result out.old out.new (header_text shape.now) }
    ensures at { IfOk result (λ at. IsPlaceOf at (record { shape = shape.now; changes = [] })) }
    ensures adds { take (length out.old.items) out.new.items ≡ out.old.items }
{
    let start = out.len();
    out.push(b'T')?;
    varint_push(out, shape.flags.len() as u64)?;
    let head = out.len() - start;
    out.extend_from_slice(shape.flags)?;
    out.extend_from_slice(shape.name)?;
    out.push(0)?;
    At::of(shape, head, 0, 0)
}
