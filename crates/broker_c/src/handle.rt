//! The handle: a world, or nothing once the world is let go, with the numbers of its last refusal.

ghost use Rattle.std.specs.Prelude.{◌≡◌, true, false, IfOk, OnErr};
ghost use Rattle.std.specs.Box.{box_value};
ghost use Rattle.rb_core.specs.Memory.{MayRunOut};
ghost use Rattle.rb_core.specs.Outcome.{outcome};
ghost use Rattle.rb_core.specs.Placing.{MayStarve, placing};
ghost use Rattle.broker_c.specs.Codes as codes;

use crate::codes::{Why, placing_why, why_after};
use crate::parts::BoxParts;
use crate::seal::Seal;
use rb_core::{Event, PlacingError, PlacingRefusal, Reply, World};
use std::alloc::{AllocError, Global};
use std::mem;

/// A broker, as C holds one. It is open while it holds a world, and busy while a call has taken the
/// world out. `why` has the numbers of the last fault or refusal.
#[repr(C)]
pub struct Handle {
    is_open: bool,
    is_busy: bool,
    seal: Seal,
    why: Why,
    ghost tied: { is_open ≡ seal.full },
    ghost apart: { is_open ≡ true → is_busy ≡ false },
}

impl Handle {
    /// A handle that holds this world and these numbers.
    pub fn of(world: Box<World>, why: Why) -> Handle
        ensures full { result.seal.full ≡ true }
        ensures held { result.seal.held ≡ box_value world }
        ensures why { result.why ≡ why }
    {
        Handle {
            is_open: true,
            is_busy: false,
            seal: Seal::of_parts(BoxParts::of(world)),
            why,
        }
    }

    /// Whether the handle holds a world.
    pub fn is_open(&self) -> bool
        ensures { result ≡ self.now.seal.full }
    {
        self.is_open
    }

    /// Whether another call has taken the world out.
    pub fn is_busy(&self) -> bool
        ensures { result ≡ self.now.is_busy }
    {
        self.is_busy
    }

    /// The numbers of the last fault or refusal.
    pub fn why(&self) -> Why
        ensures { result ≡ self.now.why }
    {
        self.why
    }

    /// Takes the world out, for one call. The numbers stay.
    pub fn take(&mut self, alloc: Global) -> Box<World>
        requires { self.old.seal.full ≡ true }
        ensures value { box_value result ≡ self.old.seal.held }
        ensures full { self.new.seal.full ≡ false }
        ensures busy { self.new.is_busy ≡ true }
        ensures why { self.new.why ≡ self.old.why }
    {
        self.is_busy = true;
        self.is_open = false;
        mem::replace(&mut self.seal, Seal::none(alloc))
            .into_parts()
            .into_box()
    }

    /// Puts the world back, with these numbers.
    pub fn put(&mut self, world: Box<World>, why: Why)
        requires full { self.old.seal.full ≡ false }
        requires busy { self.old.is_busy ≡ true }
        ensures full { self.new.seal.full ≡ true }
        ensures held { self.new.seal.held ≡ box_value world }
        ensures busy { self.new.is_busy ≡ false }
        ensures why { self.new.why ≡ why }
    {
        self.is_open = true;
        self.is_busy = false;
        self.why = why;
        mem::replace(&mut self.seal, Seal::of_parts(BoxParts::of(world))).end();
    }

    /// Ends the handle's last call, which has let the world go.
    pub fn shut(&mut self)
        requires { self.old.seal.full ≡ false }
        ensures full { self.new.seal.full ≡ false }
        ensures busy { self.new.is_busy ≡ false }
        ensures why { self.new.why ≡ self.old.why }
    {
        self.is_busy = false;
    }

    /// Applies an event to the world, and returns the reply. After a fault or a refusal the numbers
    /// are the reply's. Returns `AllocError` if memory runs out, and changes nothing then.
    pub fn serve(&mut self, alloc: Global, event: &Event) -> Result<Reply, AllocError>
        requires { self.old.seal.full ≡ true }
        ensures full { self.new.seal.full ≡ true }
        ensures ok { IfOk result (λ reply. outcome self.old.seal.held event.now
            ≡ (reply, self.new.seal.held)) }
        ensures why { IfOk result (λ reply. self.new.why ≡ codes.numbers_after reply self.old.why) }
        ensures err { OnErr result (self.new.seal.held ≡ self.old.seal.held) }
        ensures same_why { OnErr result (self.new.why ≡ self.old.why) }
        ensures memory { OnErr result (MayRunOut self.old.seal.held event.now
            (outcome self.old.seal.held event.now).0) }
    {
        let why = self.why;
        let mut world = self.take(alloc);
        match world.serve(alloc, event) {
            Ok(reply) => {
                self.put(world, why_after(&reply, why));
                Ok(reply)
            }
            Err(error) => {
                self.put(world, why);
                Err(error)
            }
        }
    }

    /// Places a whole changeset. After a refusal the numbers are its. Returns `AllocError` if
    /// memory runs out, and changes nothing then.
    pub fn place(
        &mut self,
        alloc: Global,
        publisher: u64,
        text: &[u8],
    ) -> Result<Result<u64, PlacingRefusal>, AllocError>
        requires { self.old.seal.full ≡ true }
        ensures full { self.new.seal.full ≡ true }
        ensures ok { IfOk result (λ placed. placing self.old.seal.held publisher text.now
            ≡ (placed, self.new.seal.held)) }
        ensures why { IfOk result (λ placed. self.new.why ≡ codes.numbers_by placed self.old.why) }
        ensures err { OnErr result (self.new.seal.held ≡ self.old.seal.held) }
        ensures same_why { OnErr result (self.new.why ≡ self.old.why) }
        ensures memory { OnErr result (MayStarve self.old.seal.held publisher text.now) }
    {
        let why = self.why;
        let mut world = self.take(alloc);
        match world.place(alloc, publisher, text) {
            Ok(number) => {
                self.put(world, why);
                Ok(Ok(number))
            }
            Err(PlacingError::Refused(refusal)) => {
                self.put(world, placing_why(refusal));
                Ok(Err(refusal))
            }
            Err(PlacingError::Memory) => {
                self.put(world, why);
                Err(AllocError)
            }
        }
    }
}

impl Drop for Handle {
    fn drop(self) {
        let Handle {
            is_open,
            is_busy: _,
            seal,
            why: _,
        } = self;
        if is_open {
            drop(seal.into_parts().into_box());
        } else {
            seal.end();
        }
    }
}
