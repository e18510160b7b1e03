//! The tables of a group by their names.

ghost use Rattle.std.specs.Prelude.{◌≡◌, ◌++◌, ◌∷◌, [], None, IfErr, IfOk, List, OnOk, length};
ghost use Rattle.std.specs.Prelude.{false, not, take};
ghost use Rattle.cs_model.specs.Section.{Section};
ghost use Rattle.cs_group.specs.Adding.{Knows, ReportsIfClash, differs_by, known_as};
ghost use Rattle.cs_group.specs.Group.{clashes, first_clash};

use crate::error::GroupError;
use crate::key::Key;
use cs_model::{SectionRef, ShapeRef};
use indexmap::IndexMap;
use std::alloc::AllocError;

/// The shape of each table, by its name.
pub(crate) type Tables<'a> = IndexMap<Key<'a>, ShapeRef<'a>>;

/// Whether a section's table has the shape that is known by its name. A new name becomes known.
pub(crate) fn admit<'a>(tables: &mut Tables<'a>, shape: ShapeRef<'a>) -> Result<bool, AllocError>
    ensures admits { IfOk result (λ fits. fits
        ≡ not (differs_by (known_as tables.old.entries shape.entry.name) shape.entry)) }
    ensures knows { OnOk result ((earlier : List Section) (section : Section)
        → section.shape ≡ shape.entry → Knows earlier tables.old.entries
        → clashes earlier section ≡ false → Knows (earlier ++ section ∷ []) tables.new.entries) }
    ensures kept { take (length tables.old.entries) tables.new.entries ≡ tables.old.entries }
{
    let name = Key::in_place(shape.name);
    if let Some(known) = tables.get(&name) {
        return Ok(*known == shape);
    }
    tables.insert(name, shape)?;
    Ok(true)
}

/// Adds the tables of these sections. An `Err` may have added some.
pub(crate) fn admit_all<'a>(
    tables: &mut Tables<'a>,
    sections: &[SectionRef<'a>],
) -> Result<(), GroupError>
    ensures ok { OnOk result ((earlier : List Section) → Knows earlier tables.old.entries
        → Knows (earlier ++ sections.now) tables.new.entries) }
    ensures fits { OnOk result ((earlier : List Section) → Knows earlier tables.old.entries
        → first_clash earlier sections.now ≡ None) }
    ensures refused { IfErr result (λ e. (earlier : List Section) → Knows earlier tables.old.entries
        → ReportsIfClash e (first_clash earlier sections.now)) }
    ensures kept { take (length tables.old.entries) tables.new.entries ≡ tables.old.entries }
{
    for (section, part) in sections.iter().enumerate() {
        if !admit(tables, part.shape())? {
            return Err(GroupError::Clash { section });
        }
    }
    Ok(())
}
