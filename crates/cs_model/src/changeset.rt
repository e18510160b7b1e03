//! A whole changeset: a list of sections, each with the changes of one table.

ghost use Rattle.std.specs.Prelude.{◌≡◌, ◌==◌, ◌++◌, [], IfOk, IsTrue, MatchOption, None, OnErr};
ghost use Rattle.std.specs.Prelude.{OnOk, Some, length};
ghost use Rattle.std.specs.List.{AllByRecursion};
ghost use Rattle.cs_model.specs.PackedChanges.{AreCanonical, Fit, unpacked_changes};
ghost use Rattle.cs_model.specs.Sections.{LastHasColumns, last_flags, with_changes};
ghost use Rattle.cs_model.specs.Changeset.{IsChangeset, only_header};
ghost use Rattle.cs_model.specs.SectionText.{sections_text};

use crate::copy::CopyIn;
use crate::section_ref::SectionRefs;
use crate::sections::Sections;
use crate::shape::Shape;
use std::alloc::{AllocError, Global};
use std::marker::Model;

/// A changeset ("The Session Extension"): sections in order, each with changes that fit its table.
/// It is the canonical text of its sections, in one buffer. Contracts see the list of sections.
#[derive(Debug, Drop)]
pub struct Changeset {
    sections: Sections,
}

impl Model for Changeset {
    ghost use Rattle.std.specs.Prelude.{List};
    ghost use Rattle.cs_model.specs.Section.{Section};
    ghost use Rattle.cs_model.specs.Changeset.{IsChangeset};

    ghost Value = { List Section };

    ghost view = { λ c. c.sections };

    ghost invariant = { λ c. IsChangeset c.sections };
}

impl Changeset {
    /// A changeset without sections. Does not allocate.
    pub fn new(alloc: Global) -> Changeset
        ensures { result ≡ [] }
    {
        Changeset {
            sections: Sections::new(alloc),
        }
    }

    /// The number of sections.
    pub fn len(&self) -> usize
        ensures { result ≡ length self.now }
    {
        self.sections.len()
    }

    /// Returns `true` if there are no sections.
    pub fn is_empty(&self) -> bool
        ensures { result ≡ (length self.now == 0) }
    {
        self.sections.is_empty()
    }

    /// Returns an iterator over the sections, in order.
    pub fn iter(&self) -> SectionRefs<'_>
        ensures same { result ≡ self.now }
        ensures valid { IsChangeset self.now }
    {
        self.sections.iter()
    }

    /// The canonical text of the sections, one after another. It is the changeset's canonical text
    /// if no two sections have one shape, and each has changes.
    pub fn text(&self) -> &[u8]
        ensures { result.now ≡ sections_text self.now }
    {
        self.sections.text()
    }

    /// Makes a changeset of these sections, without a copy. Parsers and writers use it.
    pub fn of(sections: Sections) -> Changeset
        requires { IsChangeset sections }
        ensures { result ≡ sections }
    {
        Changeset { sections }
    }

    /// The key flags of the last section's table. Reads no other section.
    pub fn last_flags(&self) -> Option<&[u8]>
        ensures flags { MatchOption result (last_flags self.now ≡ None)
            (λ flags. last_flags self.now ≡ Some flags.now) }
        ensures valid { IsChangeset self.now }
    {
        self.sections.last_flags()
    }

    /// Adds sections. An `Err` changes nothing. Parsers use it.
    pub fn append(&mut self, others: Sections) -> Result<(), AllocError>
        requires { IsChangeset (self.old ++ others) }
        ensures ok { OnOk result (self.new ≡ self.old ++ others) }
        ensures err { OnErr result (self.new ≡ self.old) }
    {
        self.sections.append(others)
    }

    /// Adds changes to the last section, and then sections, as `Sections::join` does. An `Err`
    /// changes nothing. Parsers use it.
    pub fn join(
        &mut self,
        columns: usize,
        text: &[u8],
        count: usize,
        canonical: bool,
        others: Sections,
    ) -> Result<(), AllocError>
        requires last { LastHasColumns self.old columns }
        requires fit { AllByRecursion (Fit columns) (unpacked_changes columns text.now) }
        requires count { count ≡ length (unpacked_changes columns text.now) }
        requires canonical { IsTrue canonical → AreCanonical columns text.now }
        requires valid { IsChangeset
            (with_changes self.old (unpacked_changes columns text.now) ++ others) }
        ensures ok { OnOk result (self.new
            ≡ with_changes self.old (unpacked_changes columns text.now) ++ others) }
        ensures err { OnErr result (self.new ≡ self.old) }
    {
        self.sections.join(columns, text, count, canonical, others)
    }

    /// Gives back the room that the changeset doesn't need.
    pub fn shrink_to_fit(&mut self)
        ensures { self.new ≡ self.old }
    {
        self.sections.shrink_to_fit();
    }

    /// Returns the sections, without a copy. Parsers use it; others read by `iter`.
    pub fn into_sections(self) -> Sections
        ensures same { result ≡ self }
        ensures valid { IsChangeset self }
    {
        let Changeset { sections } = self;
        sections
    }

    /// Its text, without a copy.
    pub fn into_text(self) -> Vec<u8>
        ensures { result.items ≡ sections_text self }
    {
        let Changeset { sections } = self;
        sections.into_text()
    }

    /// A copy of the shape of its only section, if it has one section and that has no changes.
    /// Returns `AllocError` if memory runs out.
    pub fn header(&self, alloc: Global) -> Result<Option<Shape>, AllocError>
        ensures { IfOk result (λ shape. shape ≡ only_header self.now) }
    {
        let mut sections = self.iter();
        let Some(section) = sections.next() else {
            return Ok(None);
        };
        if section.is_empty() && sections.next().is_none() {
            return Ok(Some(section.shape().to_shape(alloc)?));
        }
        Ok(None)
    }
}

impl CopyIn for Changeset {
    fn copy_in(&self, alloc: Global) -> Result<Changeset, AllocError> {
        Ok(Changeset {
            sections: self.sections.copy_in(alloc)?,
        })
    }
}
