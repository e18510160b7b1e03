//! The changeset that sections are combined into.

ghost use Rattle.std.specs.Prelude.{◌≡◌, [], IfOk, filter, map};
ghost use Rattle.std.specs.List.{AllByRecursion};
ghost use Rattle.cs_model.specs.Changeset.{IsChangeset, IsSection};
ghost use Rattle.cs_write.specs.Canon.{by_shape, has_changes, joined_section};
ghost use Rattle.cs_write.specs.Seen.{seen};
ghost use Rattle.cs_group.specs.Group.{combined_section, group_of};

use crate::rows::Rows;
use cs_model::{Changeset, SectionRef, Sections};
use cs_write::{Groups, add_section};
use indexmap::IndexMap;
use std::alloc::{AllocError, Global};

// the sections of each table
fn by_table<'a>(alloc: Global, sections: &[SectionRef<'a>]) -> Result<Groups<'a>, AllocError>
    ensures { IfOk result (λ groups. seen groups.entries ≡ by_shape [] sections.now) }
{
    let mut groups = IndexMap::new(alloc);
    for section in sections {
        add_section(alloc, &mut groups, section.again())?;
    }
    Ok(groups)
}

// one section for each table of which something is left
fn sections_of(alloc: Global, groups: &Groups) -> Result<Sections, AllocError>
    requires { AllByRecursion IsSection (map joined_section (seen groups.now.entries)) }
    ensures { IfOk result (λ sections. sections ≡ filter has_changes
        (map (λ group. combined_section (joined_section group)) (seen groups.now.entries))) }
{
    let mut sections = Sections::new(alloc);
    for (shape, group) in groups.iter() {
        let rows = Rows::of(alloc, shape, group)?;
        if rows.any_change() {
            rows.push_to(&mut sections)?;
        }
    }
    Ok(sections)
}

/// The group of sections, as a changeset. Returns `AllocError` if memory runs out.
pub(crate) fn changeset_of(alloc: Global, sections: &[SectionRef]) -> Result<Changeset, AllocError>
    requires { IsChangeset sections.now }
    ensures { IfOk result (λ made. made ≡ group_of sections.now) }
{
    let groups = by_table(alloc, sections)?;
    Ok(Changeset::of(sections_of(alloc, &groups)?))
}
