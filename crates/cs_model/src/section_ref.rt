//! Borrowed sections, and an iterator over the sections of a changeset.

ghost use Rattle.std.specs.Prelude.{◌≡◌, length, ◌==◌};
ghost use Rattle.std.specs.List.{AllByRecursion};
ghost use Rattle.cs_model.specs.PackedChanges.{AreCanonical, Fit, changes_bytes};
ghost use Rattle.cs_model.specs.PackedChanges.{unpacked_changes};
ghost use Rattle.cs_model.specs.Sections.{IsText, StartsSection, after_section, first_section};
ghost use Rattle.cs_model.specs.Sections.{sections_by};
ghost use Rattle.cs_model.specs.SectionText.{sections_text};

use crate::at::At;
use crate::change_ref::ChangeRefs;
use crate::packed_change::PackedChanges;
use crate::shape::ShapeRef;
use std::iter::Iterator;
use std::marker::Model;

/// A section of a changeset, borrowed. Contracts see the section.
#[derive(Drop)]
pub struct SectionRef<'a> {
    name: &'a [u8],
    flags: &'a [u8],
    bytes: &'a [u8],
    // the number of changes
    count: usize,
}

impl<'a> Model for SectionRef<'a> {
    ghost use Rattle.std.specs.Prelude.{◌≡◌, length};
    ghost use Rattle.cs_model.specs.PackedChanges.{AreCanonical, unpacked_changes};
    ghost use Rattle.cs_model.specs.Section.{Section, section_code};

    ghost Value = { Section };

    ghost coded = { section_code };

    ghost view = { λ s. record {
      shape = record { name = s.name.now; flags = s.flags.now };
      changes = unpacked_changes (length s.flags.now) s.bytes.now;
    } };

    ghost invariant = { λ s. AreCanonical (length s.flags.now) s.bytes.now
        × (s.count ≡ length (unpacked_changes (length s.flags.now) s.bytes.now)) };
}

impl<'a> SectionRef<'a> {
    /// Borrows the same section once more.
    pub fn again(&self) -> SectionRef<'a>
        ensures { result ≡ self.now }
    {
        SectionRef {
            name: self.name,
            flags: self.flags,
            bytes: self.bytes,
            count: self.count,
        }
    }

    /// The name of the table.
    pub fn name(&self) -> &'a [u8]
        ensures { result.now ≡ self.now.shape.name }
    {
        self.name
    }

    /// The key flags of the table, one byte a column.
    pub fn flags(&self) -> &'a [u8]
        ensures { result.now ≡ self.now.shape.flags }
    {
        self.flags
    }

    /// The table.
    pub fn shape(&self) -> ShapeRef<'a>
        ensures { result ≡ self.now.shape }
    {
        ShapeRef {
            name: self.name,
            flags: self.flags,
        }
    }

    /// Returns an iterator over the changes, in order.
    pub fn changes(&self) -> ChangeRefs<'a>
        ensures { result ≡ self.now.changes }
    {
        ChangeRefs::of(self.flags.len(), self.bytes)
    }

    /// The same iterator, over the changes as their bytes.
    pub fn packed_changes(&self) -> PackedChanges<'a>
        ensures { result ≡ self.now.changes }
    {
        PackedChanges::of(self.changes())
    }

    /// The canonical bytes of the changes, one after another.
    pub fn bytes(&self) -> &'a [u8]
        ensures { result.now ≡ changes_bytes self.now.changes }
    {
        self.bytes
    }

    /// The same bytes; each of the changes has canonical bytes.
    pub(crate) fn canonical(&self) -> &'a [u8]
        ensures bytes { result.now ≡ changes_bytes self.now.changes }
        ensures fit { AllByRecursion (Fit (length self.now.shape.flags)) self.now.changes }
    {
        self.bytes
    }

    /// The number of changes.
    pub fn len(&self) -> usize
        ensures { result ≡ length self.now.changes }
    {
        self.count
    }

    /// Returns `true` if there are no changes.
    pub fn is_empty(&self) -> bool
        ensures { result ≡ (length self.now.changes == 0) }
    {
        self.count == 0
    }
}

// the section at the front of a text, and the bytes behind it
fn section_of<'a>(at: &At, text: &'a [u8]) -> (SectionRef<'a>, &'a [u8])
    requires { StartsSection at.now text.now (after_section at.now text.now) }
    ensures section { result.0 ≡ first_section at.now text.now }
    ensures rest { result.1.now ≡ after_section at.now text.now }
{
    let (_, from_flags) = text.split_at(at.head as usize);
    let (flags, from_name) = from_flags.split_at(at.columns as usize);
    let (name, zero) = from_name.split_at(at.name as usize);
    let (_, from_changes) = zero.split_at(1);
    let (bytes, rest) = from_changes.split_at(at.size);
    let section = SectionRef {
        name,
        flags,
        bytes,
        count: at.count,
    };
    (section, rest)
}

/// An iterator over the sections of a changeset. Contracts see the list of remaining sections.
#[derive(Drop)]
pub struct SectionRefs<'a> {
    ats: &'a [At],
    bytes: &'a [u8],
}

impl<'a> Model for SectionRefs<'a> {
    ghost use Rattle.std.specs.Prelude.{List};
    ghost use Rattle.cs_model.specs.Section.{Section};
    ghost use Rattle.cs_model.specs.Sections.{IsText, sections_by};

    ghost Value = { List Section };

    ghost view = { λ s. sections_by s.ats.now s.bytes.now };

    ghost invariant = { λ s. IsText s.ats.now s.bytes.now (sections_by s.ats.now s.bytes.now) };
}

impl<'a> SectionRefs<'a> {
    /// An iterator over the sections of a canonical text with this index.
    pub(crate) fn of(ats: &'a [At], bytes: &'a [u8]) -> SectionRefs<'a>
        requires { IsText ats.now bytes.now (sections_by ats.now bytes.now) }
        ensures { result ≡ sections_by ats.now bytes.now }
    {
        SectionRefs { ats, bytes }
    }

    /// Borrows the same sections once more.
    pub fn again(&self) -> SectionRefs<'a>
        ensures { result ≡ self.now }
    {
        SectionRefs {
            ats: self.ats,
            bytes: self.bytes,
        }
    }

    /// The canonical text of the remaining sections, one after another.
    pub fn text(&self) -> &'a [u8]
        ensures { result.now ≡ sections_text self.now }
    {
        self.bytes
    }

    /// The number of remaining sections.
    pub fn len(&self) -> usize
        ensures { result ≡ length self.now }
    {
        self.ats.len()
    }
}

impl<'a> Iterator for SectionRefs<'a> {
    ghost use Rattle.std.specs.Iterator.{YieldsFirstBy, item_count};

    type Item = SectionRef<'a>;

    ghost next_gives = { YieldsFirstBy (λ s. s) (λ s. s) };

    ghost remaining = { item_count (λ s. s) };

    fn next(&mut self) -> Option<SectionRef<'a>> {
        let (at, more) = self.ats.split_first()?;
        let (section, rest) = section_of(at, self.bytes);
        self.ats = more;
        self.bytes = rest;
        Some(section)
    }
}
