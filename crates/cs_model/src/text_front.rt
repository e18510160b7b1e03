//! The front of a text, as far as it is in canonical form.

ghost use Rattle.std.specs.Prelude.{◌≡◌, ◌++◌, ◌∷◌, [], IfOk, OnErr, OnOk, drop, length};
ghost use Rattle.cs_model.specs.PackedChanges.{AreCanonical, unpacked_changes};
ghost use Rattle.cs_model.specs.SectionText.{header_text};
ghost use Rattle.cs_model.specs.TextFront.{StartsWith};

use crate::at::At;
use crate::section_ref::SectionRefs;
use crate::sections::Sections;
use crate::shape::ShapeRef;
use std::alloc::{AllocError, Global};
use std::marker::Model;

/// The sections that a text begins with, where they stand there in canonical form. Contracts see
/// the sections, and the bytes after them.
#[derive(Debug, Drop)]
pub struct TextFront<'a> {
    text: &'a [u8],
    // the length of the sections' bytes
    len: usize,
    ats: Vec<At>,
}

impl<'a> Model for TextFront<'a> {
    ghost use Rattle.std.specs.Prelude.{ℕ, List, ◌≤◌, drop, length, take};
    ghost use Rattle.std.specs.Coded.{coded×, coded_list, coded_ℕ};
    ghost use Rattle.cs_model.specs.Section.{Section, section_code};
    ghost use Rattle.cs_model.specs.Sections.{IsText, sections_by};

    ghost Value = { List Section × List ℕ };

    ghost coded = { coded× (coded_list section_code) (coded_list coded_ℕ) };

    ghost view = { λ f. (sections_by f.ats.items (take f.len f.text.now), drop f.len f.text.now) };

    ghost invariant = { λ f. (f.len ≤ length f.text.now)
        × IsText f.ats.items (take f.len f.text.now)
        (sections_by f.ats.items (take f.len f.text.now)) };
}

impl<'a> TextFront<'a> {
    /// No sections, and the whole text after them. Does not allocate.
    pub fn new(alloc: Global, text: &'a [u8]) -> TextFront<'a>
        ensures { result ≡ ([], text.now) }
    {
        TextFront {
            text,
            len: 0,
            ats: Vec::new(alloc),
        }
    }

    /// The number of sections.
    pub fn len(&self) -> usize
        ensures { result ≡ length self.now.0 }
    {
        self.iter().len()
    }

    /// Returns an iterator over the sections, in order.
    pub fn iter(&self) -> SectionRefs<'_>
        ensures { result ≡ self.now.0 }
    {
        let (front, _) = self.text.split_at(self.len);
        SectionRefs::of(&self.ats, front)
    }

    /// The bytes after the sections.
    pub fn rest(&self) -> &'a [u8]
        ensures { result.now ≡ self.now.1 }
    {
        let (_, rest) = self.text.split_at(self.len);
        rest
    }

    /// Adds the section of this table that the bytes after the others begin with: a canonical
    /// header, and these `count` changes. Copies no byte. An `Err` changes nothing.
    pub fn push(
        &mut self,
        shape: &ShapeRef,
        section: &[u8],
        changes: &[u8],
        count: usize,
    ) -> Result<(), AllocError>
        requires stands { StartsWith section.now self.old.1 }
        requires parts { section.now ≡ header_text shape.now ++ changes.now }
        requires canonical { AreCanonical (length shape.now.flags) changes.now }
        requires count { count ≡ length (unpacked_changes (length shape.now.flags) changes.now) }
        ensures ok { OnOk result (self.new ≡ (
          self.old.0 ++ record {
            shape = shape.now;
            changes = unpacked_changes (length shape.now.flags) changes.now;
          } ∷ [],
          drop (length section.now) self.old.1,
        )) }
        ensures err { OnErr result (self.new ≡ self.old) }
    {
        self.ats.reserve(1)?;
        let head = section.len() - changes.len() - 1 - shape.name.len() - shape.flags.len();
        let at = At::of(shape, head, changes.len(), count)?;
        self.ats.push_reserved(at);
        self.len += section.len();
        Ok(())
    }

    /// The sections, in one copy of their bytes. Returns `AllocError` if memory runs out.
    pub fn into_sections(self, alloc: Global) -> Result<Sections, AllocError>
        ensures { IfOk result (λ sections. sections ≡ self.entry.0) }
    {
        let TextFront { text, len, ats } = self;
        let (front, _) = text.split_at(len);
        Ok(Sections::from_parts(Vec::from_slice(alloc, front)?, ats))
    }
}
