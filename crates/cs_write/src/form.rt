//! The canonical form of a changeset: one section per shape, and none without changes.

ghost use Rattle.std.specs.Prelude.{◌≡◌, ◌++◌, ◌∷◌, ◌↔◌, [], IfOk, IsTrue, OnOk, length};
ghost use Rattle.std.specs.List.{AllByRecursion};
ghost use Rattle.cs_write.specs.Canon.{canon, canon_of, joined_section};
ghost use Rattle.cs_write.specs.Groups.{HasColumns, IsAlike};
ghost use Rattle.cs_write.specs.Own.{AreOwn, IsFormBeside};
ghost use Rattle.cs_write.specs.Seen.{seen};
ghost use Rattle.cs_write.specs.Text.{text_of};

use crate::groups::{Groups, any_change, groups_of};
use cs_model::{Changeset, SectionRef, SectionRefs, Sections, ShapeRef};
use indexmap::IndexSet;
use std::alloc::{AllocError, Global};

// Adds one section with the changes of these, one after another.
fn push_joined(
    form: &mut Sections,
    shape: &ShapeRef,
    sections: &[SectionRef],
) -> Result<(), AllocError>
    requires { AllByRecursion (HasColumns (length shape.now.flags)) sections.now }
    ensures { OnOk result (form.new
        ≡ form.old ++ joined_section (shape.now, sections.now) ∷ []) }
{
    form.push_header(shape)?;
    for section in sections {
        form.push_changes(section)?;
    }
    Ok(())
}

// one section for each group that has a change
fn form_of(alloc: Global, groups: &Groups) -> Result<Sections, AllocError>
    requires { AllByRecursion IsAlike (seen groups.now.entries) }
    ensures { IfOk result (λ form. form ≡ canon_of (seen groups.now.entries)) }
{
    let mut form = Sections::new(alloc);
    for (shape, sections) in groups.iter() {
        if any_change(sections) {
            push_joined(&mut form, shape, sections)?;
        }
    }
    Ok(form)
}

// Whether these sections have different shapes, and a change each.
fn are_own(alloc: Global, sections: SectionRefs) -> Result<bool, AllocError>
    ensures { IfOk result (λ own. IsTrue own ↔ AreOwn [] sections.entry) }
{
    let mut shapes = IndexSet::new(alloc);
    for section in sections {
        if section.is_empty() || !shapes.insert(section.shape())? {
            return Ok(false);
        }
    }
    Ok(true)
}

/// Whether sections are in canonical form: no two have one shape, and none is without changes.
/// Returns `AllocError` if memory runs out.
pub fn is_form(alloc: Global, sections: SectionRefs) -> Result<bool, AllocError>
    ensures { IfOk result (λ form. IsTrue form ↔ (canon sections.entry ≡ sections.entry)) }
{
    are_own(alloc, sections)
}

/// Returns the canonical form of a changeset that isn't in that form itself, as `canonical` does,
/// and `None` if it is: no two sections have one shape, and none is without changes. Returns
/// `AllocError` if memory runs out.
pub fn other_form(alloc: Global, changeset: &Changeset) -> Result<Option<Changeset>, AllocError>
    ensures { IfOk result (λ form. IsFormBeside changeset.now form) }
{
    if is_form(alloc, changeset.iter())? {
        return Ok(None);
    }
    Ok(Some(canonical(alloc, changeset)?))
}

/// The canonical text of a changeset, from the form that `other_form` returned for it.
pub fn text_beside<'a>(form: &'a Option<Changeset>, changeset: &'a Changeset) -> &'a [u8]
    requires { IsFormBeside changeset.now form.now }
    ensures { result.now ≡ text_of changeset.now }
{
    match form {
        Some(form) => form.text(),
        None => changeset.text(),
    }
}

/// Returns a copy of a changeset in canonical form. Sections of the same shape become one, at the
/// place of the first, with all their changes in order. Sections without changes are dropped.
/// Returns `AllocError` if memory runs out.
pub fn canonical(alloc: Global, changeset: &Changeset) -> Result<Changeset, AllocError>
    ensures { IfOk result (λ form. form ≡ canon changeset.now) }
{
    let groups = groups_of(alloc, changeset.iter())?;
    Ok(Changeset::of(form_of(alloc, &groups)?))
}
