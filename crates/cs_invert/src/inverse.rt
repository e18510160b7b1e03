//! The inverse of a changeset.

ghost use Rattle.std.specs.Prelude.{◌≡◌, ◌++◌, ◌∷◌, [], IfOk, OnOk};
ghost use Rattle.cs_model.specs.Changeset.{IsChangeset, IsSection};
ghost use Rattle.cs_model.specs.PackedChanges.{changes_bytes};
ghost use Rattle.cs_invert.specs.Inverse.{inverse, inverse_section};

use crate::laws::inverses_are_changesets;
use crate::laying::put_changes;
use cs_model::{Changeset, SectionRef, SectionRefs, Sections};
use std::alloc::{AllocError, Global};

/// Returns the inverse of a changeset, as `sqlite3changeset_invert` does: an INSERT becomes a
/// DELETE of the same row, a DELETE becomes an INSERT, and an UPDATE exchanges its old and new
/// values. The changes keep their order and their indirect flags. Returns `AllocError` if memory
/// runs out.
pub fn invert(alloc: Global, changeset: &Changeset) -> Result<Changeset, AllocError>
    ensures { IfOk result (λ made. made ≡ inverse changeset.now) }
{
    inverted(alloc, changeset.iter())
}

/// The inverse of the changeset with these sections.
pub(crate) fn inverted(alloc: Global, sections: SectionRefs) -> Result<Changeset, AllocError>
    requires { IsChangeset sections }
    ensures { IfOk result (λ made. made ≡ inverse sections.entry) }
{
    inverses_are_changesets();
    // an inverse is as long as its changeset
    let mut made = Sections::with_capacity(alloc, sections.text().len())?;
    for section in sections {
        push_inverse(alloc, &mut made, &section)?;
    }
    Ok(Changeset::of(made))
}

// Adds a section with the inverses of a section's changes, in order.
fn push_inverse(alloc: Global, made: &mut Sections, section: &SectionRef) -> Result<(), AllocError>
    requires { IsSection section.now }
    ensures { OnOk result (made.new ≡ made.old ++ inverse_section section.now ∷ []) }
{
    made.push_header(&section.shape())?;
    let text = inverse_bytes(alloc, section)?;
    made.push_text(section.flags().len(), &text, section.len(), true)
}

// The canonical bytes of the inverses of a section's changes, one after another.
fn inverse_bytes(alloc: Global, section: &SectionRef) -> Result<Vec<u8>, AllocError>
    requires { IsSection section.now }
    ensures { IfOk result (λ text. text.items
        ≡ changes_bytes (inverse_section section.now).changes) }
{
    let mut text = vec![in alloc; 0; section.bytes().len()]?;
    put_changes(section, &mut text, 0);
    Ok(text)
}
