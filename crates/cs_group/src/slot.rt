//! What the changes of a row come to so far.

ghost use Rattle.std.specs.Prelude.{◌≡◌, ◌∷◌, [], IfOk, OnOk};
ghost use Rattle.cs_model.specs.Sections.{LastIsLong, with_changes};
ghost use Rattle.cs_model.specs.Seen.{change_seen, fields_seen};
ghost use Rattle.cs_group.specs.Slots.{merged_seen, slot_seen};
ghost use Rattle.cs_group.specs.Table.{met_at, slots_seen};

use cs_model::{FieldRef, Op, PackedChange, RecordRef, Sections};
use std::alloc::{AllocError, Global};

/// A change that comes from several. Its fields stand in the changesets that they come from.
#[derive(Debug, Drop)]
pub(crate) struct Merged<'a> {
    pub(crate) op: Op,
    pub(crate) indirect: bool,
    pub(crate) before: Vec<FieldRef<'a>>,
    pub(crate) after: Vec<FieldRef<'a>>,
}

/// The one change that a row's changes come to.
#[derive(Drop)]
pub(crate) enum Slot<'a> {
    /// A change that met no other, where it stands.
    Alone(PackedChange<'a>),
    /// A change that comes from several. Few slots have one, so it stands apart.
    Merged(Box<Merged<'a>>),
}

impl<'a> Slot<'a> {
    /// The change as lists of fields, of which a record has `columns`.
    pub(crate) fn into_merged(
        self,
        alloc: Global,
        columns: usize,
    ) -> Result<Box<Merged<'a>>, AllocError>
        ensures { IfOk result (λ merged. merged_seen merged.value ≡ slot_seen self.entry) }
    {
        match self {
            Slot::Alone(change) => {
                let change = change.unpack();
                let merged = Merged {
                    op: change.op,
                    indirect: change.indirect,
                    before: fields_of(alloc, columns, &change.before)?,
                    after: fields_of(alloc, columns, &change.after)?,
                };
                Ok(Box::new(alloc, merged)?)
            }
            Slot::Merged(merged) => Ok(merged),
        }
    }

    /// Adds the change to the last section, in one copy of the bytes that its fields have.
    pub(crate) fn push_to(&self, sections: &mut Sections) -> Result<(), AllocError>
        requires { LastIsLong sections.old (slot_seen self.now).op (slot_seen self.now).before
            (slot_seen self.now).after }
        ensures { OnOk result (sections.new
            ≡ with_changes sections.old (slot_seen self.now ∷ [])) }
    {
        match self {
            Slot::Alone(change) => sections.push_packed(change),
            Slot::Merged(merged) => {
                sections.push_fields(merged.op, merged.indirect, &merged.before, &merged.after)
            }
        }
    }
}

/// The place of a slot that has a change.
pub(crate) fn met(slots: &[Option<Slot>], place: Option<usize>) -> Option<usize>
    ensures { result ≡ met_at (slots_seen slots.now) place }
{
    let place = place?;
    match slots.get(place) {
        Some(Some(_)) => Some(place),
        _ => None,
    }
}

/// The fields of a record, which are `columns` or none.
pub(crate) fn fields_of<'a>(
    alloc: Global,
    columns: usize,
    from: &RecordRef<'a>,
) -> Result<Vec<FieldRef<'a>>, AllocError>
    ensures { IfOk result (λ fields. fields_seen fields.items ≡ from.now) }
{
    // a field takes at least one byte
    let mut fields = Vec::with_capacity(alloc, columns.min(from.bytes().len()))?;
    for field in from.fields() {
        fields.push(field)?;
    }
    Ok(fields)
}
