//! What C sees as a `broker *`: a handle's box, without its type.

ghost use denote.RawPtr.{InBlock};
ghost use Rattle.std.specs.Prelude.{◌≡◌, Bool, true, false};
ghost use Rattle.broker_c.specs.Boxed.{owns_if};
ghost use Rattle.broker_c.specs.contracts.handle.Handle as handle;

use crate::handle::Handle;
use crate::parts::BoxParts;
use std::alloc::Global;
use std::marker::Model;
use std::ptr;

/// A handle's box, or nothing. It owns the handle if it is `full`, and `held` is the handle then.
#[repr(C)]
pub struct HandleSlot {
    pointer: *mut u8,
    alloc: Global,
    pub ghost full: { Bool },
    pub ghost held: { handle.the_row.Denot } by { handle.the_row.coded },
}

impl Model for HandleSlot {
    ghost also_owns = { λ s. owns_if handle.the_row s.full s.alloc s.pointer s.held };
}

impl HandleSlot {
    /// Ends a slot that has nothing.
    pub fn end(self)
        requires { self.full ≡ false }
    {
        let HandleSlot {
            pointer: _,
            alloc: _,
        } = self;
    }

    /// A slot of the parts of a handle's box.
    pub fn of_parts(parts: BoxParts<Handle, Global>) -> HandleSlot
        ensures { (result.full ≡ true) × (result.held ≡ parts.value) }
    {
        let BoxParts { pointer, alloc } = parts;
        HandleSlot {
            pointer: pointer as *mut u8,
            alloc,
        }
    }

    /// The parts of the handle's box, from a slot that has one.
    pub fn into_parts(self) -> BoxParts<Handle, Global>
        requires { self.full ≡ true }
        ensures { result.value ≡ self.held }
    {
        let HandleSlot { pointer, alloc } = self;
        BoxParts {
            pointer: pointer as *mut Handle,
            alloc,
        }
    }

    /// The slot, and whether it has a handle: whether its pointer isn't null.
    pub fn tested(self) -> (HandleSlot, bool)
        requires { InBlock self.pointer → self.full ≡ true }
        ensures { (result.0 ≡ self) × (result.1 ≡ self.full) }
    {
        let is_full = self.pointer != ptr::null_mut();
        (self, is_full)
    }
}

unsafe impl Send for HandleSlot {}
