//! A changeset that stands in the text that encodes it.

ghost use Rattle.std.specs.Prelude.{◌≡◌, IfOk, length};
ghost use Rattle.cs_model.specs.Changeset.{IsChangeset};
ghost use Rattle.cs_model.specs.TextFront.{sections_of_text};

use crate::changeset::Changeset;
use crate::section_ref::SectionRefs;
use crate::sections::Sections;
use crate::text_front::TextFront;
use std::alloc::{AllocError, Global};
use std::marker::Model;

/// The sections that a text encodes.
#[derive(Debug, Drop)]
pub enum TextSections<'a> {
    /// They stand in canonical form in the text.
    InPlace(TextFront<'a>),
    /// The text has one of them in another form.
    Copied(Sections),
}

impl<'a> TextSections<'a> {
    /// The sections in a text of their own. Copies them if they stand in place. Returns
    /// `AllocError` if memory runs out.
    pub fn into_sections(self, alloc: Global) -> Result<Sections, AllocError>
        ensures { IfOk result (λ sections. sections ≡ sections_of_text self.entry) }
    {
        match self {
            TextSections::InPlace(front) => front.into_sections(alloc),
            TextSections::Copied(sections) => Ok(sections),
        }
    }
}

/// A changeset that stands in the text that encodes it, if it is in canonical form there. Contracts
/// see the list of sections.
#[derive(Debug, Drop)]
pub struct TextChangeset<'a> {
    sections: TextSections<'a>,
}

impl<'a> Model for TextChangeset<'a> {
    ghost use Rattle.std.specs.Prelude.{List};
    ghost use Rattle.cs_model.specs.{
      Section.{Section},
      Changeset.{IsChangeset},
      TextFront.{sections_of_text},
    };

    ghost Value = { List Section };

    ghost view = { λ c. sections_of_text c.sections };

    ghost invariant = { λ c. IsChangeset (sections_of_text c.sections) };
}

impl<'a> TextChangeset<'a> {
    /// Makes a changeset of these sections, without a copy. cs_parse uses it.
    pub fn of(sections: TextSections<'a>) -> TextChangeset<'a>
        requires { IsChangeset (sections_of_text sections) }
        ensures { result ≡ sections_of_text sections.entry }
    {
        TextChangeset { sections }
    }

    /// The number of sections.
    pub fn len(&self) -> usize
        ensures { result ≡ length self.now }
    {
        match &self.sections {
            TextSections::InPlace(front) => front.len(),
            TextSections::Copied(sections) => sections.len(),
        }
    }

    /// Returns an iterator over the sections, in order.
    pub fn iter(&self) -> SectionRefs<'_>
        ensures same { result ≡ self.now }
        ensures valid { IsChangeset self.now }
    {
        match &self.sections {
            TextSections::InPlace(front) => front.iter(),
            TextSections::Copied(sections) => sections.iter(),
        }
    }

    /// The same changeset in a text of its own. Copies it if it stands in place. Returns
    /// `AllocError` if memory runs out.
    pub fn into_changeset(self, alloc: Global) -> Result<Changeset, AllocError>
        ensures { IfOk result (λ changeset. changeset ≡ self.entry) }
    {
        let TextChangeset { sections } = self;
        let mut sections = sections.into_sections(alloc)?;
        sections.shrink_to_fit();
        Ok(Changeset::of(sections))
    }
}
