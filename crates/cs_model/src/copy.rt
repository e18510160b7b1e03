//! `CopyIn`: exact copies that report when memory runs out.

ghost use Rattle.std.specs.Prelude.{◌≡◌, IfOk};

use crate::seq::Seq;
use crate::shape::Shape;
use std::alloc::{AllocError, Global};

/// A copy that is the same value, which generic code may rely on (`Clone` promises less).
pub trait CopyIn: Drop + Sized {
    /// Copies the value into new memory. Returns `AllocError` if memory runs out.
    fn copy_in(&self, alloc: Global) -> Result<Self, AllocError>
        ensures { IfOk result (λ copy. copy ≡ self.now) };

    /// Copies the values into a new list. Returns `AllocError` if memory runs out.
    fn copy_all(alloc: Global, items: &[Self]) -> Result<Vec<Self>, AllocError>
        ensures { IfOk result (λ copies. copies.items ≡ items.now) }
    {
        let mut copies = Vec::with_capacity(alloc, items.len())?;
        for item in items {
            copies.push(item.copy_in(alloc)?)?;
        }
        Ok(copies)
    }
}

impl CopyIn for u8 {
    fn copy_in(&self, _alloc: Global) -> Result<u8, AllocError> {
        Ok(*self)
    }

    // bytes are copied in bulk
    fn copy_all(alloc: Global, items: &[u8]) -> Result<Vec<u8>, AllocError> {
        Vec::from_slice(alloc, items)
    }
}

impl<T: CopyIn> CopyIn for Seq<T> {
    fn copy_in(&self, alloc: Global) -> Result<Seq<T>, AllocError> {
        Ok(Seq::from_vec(T::copy_all(alloc, self)?))
    }
}

impl CopyIn for Shape {
    fn copy_in(&self, alloc: Global) -> Result<Shape, AllocError> {
        let name = self.name.copy_in(alloc)?;
        let flags = self.flags.copy_in(alloc)?;
        Ok(Shape { name, flags })
    }
}
