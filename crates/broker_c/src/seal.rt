//! A world's box in a handle: a pointer without its type, since no type of Rattle's that owns a
//! `Vec` crosses to C.

ghost use Rattle.std.specs.Prelude.{◌≡◌, Bool, true, false};
ghost use Rattle.rb_core.specs.contracts.world.World as world;
ghost use Rattle.broker_c.specs.Boxed.{owns_if};

use crate::parts::BoxParts;
use rb_core::World;
use std::alloc::Global;
use std::marker::Model;
use std::ptr;

/// A world's box, or nothing. It owns the world if it is `full`, and `held` is the world then.
#[repr(C)]
pub struct Seal {
    pointer: *mut u8,
    alloc: Global,
    pub ghost full: { Bool },
    pub ghost held: { world.the_row.Denot } by { world.the_row.coded },
}

impl Model for Seal {
    ghost also_owns = { λ s. owns_if world.the_row s.full s.alloc s.pointer s.held };
}

impl Seal {
    /// A seal that has nothing.
    pub fn none(alloc: Global) -> Seal
        ensures { result.full ≡ false }
    {
        Seal {
            pointer: ptr::null_mut(),
            alloc,
        }
    }

    /// Ends a seal that has nothing.
    pub fn end(self)
        requires { self.full ≡ false }
    {
        let Seal {
            pointer: _,
            alloc: _,
        } = self;
    }

    /// A seal of the parts of a world's box.
    pub fn of_parts(parts: BoxParts<World, Global>) -> Seal
        ensures { (result.full ≡ true) × (result.held ≡ parts.value) }
    {
        let BoxParts { pointer, alloc } = parts;
        Seal {
            pointer: pointer as *mut u8,
            alloc,
        }
    }

    /// The parts of the world's box, from a seal that has one.
    pub fn into_parts(self) -> BoxParts<World, Global>
        requires { self.full ≡ true }
        ensures { result.value ≡ self.held }
    {
        let Seal { pointer, alloc } = self;
        BoxParts {
            pointer: pointer as *mut World,
            alloc,
        }
    }
}

unsafe impl Send for Seal {}
