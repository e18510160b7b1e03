//! Groups the sections of a changeset by their shapes.

ghost use Rattle.std.specs.Prelude.{◌≡◌, [], IfOk, OnErr, OnOk, length, nat_lt};
ghost use Rattle.cs_model.specs.Changeset.{all_changes};
ghost use Rattle.cs_write.specs.Canon.{by_shape};
ghost use Rattle.cs_write.specs.Groups.{added};
ghost use Rattle.cs_write.specs.Seen.{seen};

use cs_model::{SectionRef, SectionRefs, ShapeRef};
use indexmap::IndexMap;
use std::alloc::{AllocError, Global};

/// The sections of each shape. The shapes are in the order of their first sections.
pub type Groups<'a> = IndexMap<ShapeRef<'a>, Vec<SectionRef<'a>>>;

/// Adds a section to the group of its shape, which it creates if there is none. If memory runs out,
/// the groups are as before. cs_group uses it.
pub fn add_section<'a>(
    alloc: Global,
    groups: &mut Groups<'a>,
    section: SectionRef<'a>,
) -> Result<(), AllocError>
    ensures ok { OnOk result (seen groups.new.entries
        ≡ added (seen groups.old.entries) section.entry) }
    ensures err { OnErr result (seen groups.new.entries ≡ seen groups.old.entries) }
{
    let shape = section.shape();
    if let Some(place) = groups.get_index_of(&shape) {
        if let Some(group) = groups.get_index_mut(place) {
            group.push(section)?;
        }
        return Ok(());
    }
    let mut group = Vec::new(alloc);
    group.push(section)?;
    groups.insert(shape, group)?;
    Ok(())
}

/// Groups the sections of a changeset.
pub fn groups_of<'a>(alloc: Global, sections: SectionRefs<'a>) -> Result<Groups<'a>, AllocError>
    ensures { IfOk result (λ groups. seen groups.entries ≡ by_shape [] sections.entry) }
{
    let mut groups = IndexMap::new(alloc);
    for section in sections {
        add_section(alloc, &mut groups, section)?;
    }
    Ok(groups)
}

/// Whether these sections have a change.
pub fn any_change(sections: &[SectionRef]) -> bool
    ensures { result ≡ nat_lt 0 (length (all_changes sections.now)) }
{
    for section in sections {
        if !section.is_empty() {
            return true;
        }
    }
    false
}
