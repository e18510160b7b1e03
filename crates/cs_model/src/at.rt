//! Where a section stands in a text.

ghost use Rattle.std.specs.Prelude.{◌≡◌, ◌<◌, ◌≤◌, ◌++◌, IfOk, drop, length, take};
ghost use Rattle.cs_model.specs.Sections.{HasRoomFor, grown_index};

use crate::shape::ShapeRef;
use std::alloc::AllocError;

/// Where a section stands in a text: the lengths of its parts, in bytes.
#[derive(Clone, Copy, Debug)]
pub struct At {
    /// Before the key flags: `T` and the number of columns.
    pub head: u16,
    /// The number of columns, a byte each.
    pub columns: u16,
    /// The name.
    pub name: u16,
    /// The changes.
    pub size: usize,
    /// The number of changes.
    pub count: usize,
}

impl At {
    /// The place of a section of this table: `head` bytes before its key flags, and `count` changes
    /// in `size` bytes. `AllocError` says that a number doesn't fit its field, which those of a
    /// changeset's tables always do.
    pub fn of(shape: &ShapeRef, head: usize, size: usize, count: usize) -> Result<At, AllocError>
        ensures { IfOk result (λ at. (at.head ≡ head) × (at.columns ≡ length shape.now.flags)
            × (at.name ≡ length shape.now.name) × (at.size ≡ size) × (at.count ≡ count)) }
    {
        let Ok(head) = u16::try_from(head) else {
            return Err(AllocError);
        };
        let Ok(columns) = u16::try_from(shape.flags.len()) else {
            return Err(AllocError);
        };
        let Ok(name) = u16::try_from(shape.name.len()) else {
            return Err(AllocError);
        };
        Ok(At {
            head,
            columns,
            name,
            size,
            count,
        })
    }
}

/// So many bytes and changes more in the last of the first `len` sections.
pub fn grow_at(ats: &mut Vec<At>, len: usize, size: usize, count: usize)
    requires some { 0 < len }
    requires inside { len ≤ length ats.old.items }
    requires room { HasRoomFor (take len ats.old.items) size count }
    ensures { ats.new.items
        ≡ grown_index (take len ats.old.items) size count ++ drop len ats.old.items }
{
    let mut at = ats[len - 1];
    at.size += size;
    at.count += count;
    ats[len - 1] = at;
}

/// So many bytes and changes more in the last section.
pub fn grow_last(ats: &mut Vec<At>, size: usize, count: usize)
    requires { HasRoomFor ats.old.items size count }
    ensures { ats.new.items ≡ grown_index ats.old.items size count }
{
    let Some(mut at) = ats.pop() else {
        return;
    };
    at.size += size;
    at.count += count;
    ats.push_reserved(at);
}
