//! The shape of a table, as a changeset's header declares it: its name and key flags.

ghost use Rattle.std.specs.Prelude.{◌≡◌, IfOk};
ghost use Rattle.std.specs.Cmp.{and_equiv, and_per, on_equiv, on_per, partial_equiv_from_equiv};
ghost use Rattle.std.specs.Cmp.Lexicographic.{nat_list_eq_equiv};
ghost use Rattle.cs_model.specs.Schema.{same_shape};
ghost use Rattle.cs_model.specs.Shape.{shape_fed, shapes_alike};

use crate::seq::{Octets, Seq};
use std::alloc::{AllocError, Global};
use std::hash::{Hash, Hasher};
use std::marker::Model;

/// A table as a changeset's header declares it: what `sqlite3changeset_op` and
/// `sqlite3changeset_pk` report of it.
#[derive(Debug, Drop, PartialEq, Eq, Hash)]
pub struct Shape {
    /// The table's name, 1 to 1,024 bytes without a zero byte.
    pub name: Octets,
    /// The key flags, one byte a column, 1 to 2,000. Nonzero means that the column is part of the
    /// primary key.
    pub flags: Octets,
}

impl Shape {
    /// Borrows the shape.
    pub fn as_ref(&self) -> ShapeRef<'_>
        ensures { result ≡ self.now }
    {
        ShapeRef {
            name: &self.name,
            flags: &self.flags,
        }
    }
}

/// A table's shape, borrowed. Contracts see the shape.
#[derive(Debug, Drop)]
pub struct ShapeRef<'a> {
    /// The table's name.
    pub name: &'a [u8],
    /// The key flags, one byte a column.
    pub flags: &'a [u8],
}

impl<'a> Model for ShapeRef<'a> {
    ghost use Rattle.cs_model.specs.contracts.shape.Shape as shape;
    ghost use Rattle.cs_model.specs.declared.shape.Shape.{Shape};

    ghost Value = { Shape };

    ghost view = { λ s. record { name = s.name.now; flags = s.flags.now } };
}

impl<'a> ShapeRef<'a> {
    /// Copies the shape into buffers of its own.
    pub fn to_shape(&self, alloc: Global) -> Result<Shape, AllocError>
        ensures { IfOk result (λ copy. copy ≡ self.now) }
    {
        Ok(Shape {
            name: Seq::from_slice(alloc, self.name)?,
            flags: Seq::from_slice(alloc, self.flags)?,
        })
    }
}

impl<'a> PartialEq for ShapeRef<'a> {
    ghost eq = { same_shape };

    ghost laws = { and_per (on_per (λ s. s.name) (partial_equiv_from_equiv nat_list_eq_equiv))
        (on_per (λ s. s.flags) (partial_equiv_from_equiv nat_list_eq_equiv)) };

    fn eq(&self, other: &Self) -> bool {
        self.name == other.name && self.flags == other.flags
    }
}

impl<'a> Eq for ShapeRef<'a> {
    ghost laws = { and_equiv (on_equiv (λ s. s.name) nat_list_eq_equiv)
        (on_equiv (λ s. s.flags) nat_list_eq_equiv) };
}

impl<'a> Hash for ShapeRef<'a> {
    ghost hash_input = { shape_fed };

    ghost respects_eq = { shapes_alike };

    // all bytes at once: a slice feeds one after another
    fn hash<H: Hasher>(&self, state: &mut H) {
        state.write(self.name);
        state.write(self.flags);
    }
}
