//! What all changes of one table come to.

ghost use Rattle.std.specs.Prelude.{◌≡◌, ◌++◌, ◌∷◌, [], IfOk, OnOk, length, nat_lt};
ghost use Rattle.std.specs.List.{AllByRecursion};
ghost use Rattle.cs_model.specs.Changeset.{IsChange, all_changes};
ghost use Rattle.cs_group.specs.Group.{combined};
ghost use Rattle.cs_group.specs.Table.{HasColumnsOf, slot_changes, slots_seen};
ghost use Rattle.cs_group.specs.TableRows.{rows_seen};

use crate::slot::Slot;
use crate::table::Table;
use cs_model::laws::changes_fit;
use cs_model::{SectionRef, Sections, ShapeRef};
use std::alloc::{AllocError, Global};

/// The rows of a table, each with its merged change, or none where its changes cancel out.
#[derive(Drop)]
pub(crate) struct Rows<'s, 'a> {
    shape: &'s ShapeRef<'a>,
    // in the order in which the rows began
    slots: Vec<Option<Slot<'a>>>,
}

impl<'s, 'a> Rows<'s, 'a> {
    /// What the changes of these sections of one table come to.
    pub(crate) fn of(
        alloc: Global,
        shape: &'s ShapeRef<'a>,
        sections: &[SectionRef<'a>],
    ) -> Result<Rows<'s, 'a>, AllocError>
        requires { AllByRecursion (IsChange shape.now) (all_changes sections.now) }
        ensures shape { IfOk result (λ rows. rows.shape.now ≡ shape.now) }
        ensures columns { IfOk result (λ rows. AllByRecursion
            (HasColumnsOf (length shape.now.flags)) (slot_changes (slots_seen rows.slots.items))) }
        ensures combined { IfOk result (λ rows. slot_changes (slots_seen rows.slots.items)
            ≡ combined shape.now.flags (all_changes sections.now)) }
    {
        changes_fit();
        let mut table = Table::new(alloc, shape.flags);
        for section in sections {
            table.add_all(alloc, section)?;
        }
        let Table { slots, .. } = table;
        Ok(Rows { shape, slots })
    }

    /// Adds a section with the changes, in the order in which their rows began.
    pub(crate) fn push_to(&self, sections: &mut Sections) -> Result<(), AllocError>
        requires { AllByRecursion (HasColumnsOf (length self.now.shape.now.flags))
            (slot_changes (slots_seen self.now.slots.items)) }
        ensures { OnOk result (sections.new ≡ sections.old ++ rows_seen self.now ∷ []) }
    {
        sections.push_header(self.shape)?;
        for slot in &self.slots {
            let Some(slot) = slot else {
                continue;
            };
            slot.push_to(sections)?;
        }
        Ok(())
    }

    /// Whether a row has a change.
    pub(crate) fn any_change(&self) -> bool
        ensures { result ≡ nat_lt 0 (length (slot_changes (slots_seen self.now.slots.items))) }
    {
        for slot in &self.slots {
            if slot.is_some() {
                return true;
            }
        }
        false
    }
}
