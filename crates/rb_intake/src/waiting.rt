//! `NothingWaits`: what shows that the sequencer found an intake empty.

ghost use Rattle.std.specs.Prelude.{◌≡◌};
ghost use Rattle.rb_intake.specs.Passes.{SequencerKnows};
ghost use base.Fml.{ftrue};

use crate::passes::SequencerPass;
use std::fmt;
use std::marker::{Model, PhantomData};

/// Shows that an intake was empty at a moment, and what the sequencer's pass knew then: its queue,
/// and all that it had pulled. Only `Intake::pop` makes one. It takes no bytes.
pub struct NothingWaits {
    marker: PhantomData<()>,
    /// What the pass knew.
    pub ghost seen: { SequencerKnows },
}

impl Model for NothingWaits {
    ghost also_owns = { λ _. ftrue };
}

impl NothingWaits {
    /// What shows it of an intake that this pass has just found empty.
    pub(crate) fn seen_by(pass: &SequencerPass) -> NothingWaits
        ensures { result.seen ≡ pass.now }
    {
        let _ = pass;
        NothingWaits {
            marker: PhantomData,
        }
    }
}

impl Drop for NothingWaits {
    fn drop(self) {
        let Self { marker: _ } = self;
    }
}

// Sound: there are no bytes, and nothing is owned.
unsafe impl Send for NothingWaits {}

unsafe impl Sync for NothingWaits {}

impl fmt::Debug for NothingWaits {
    fn fmt<W: fmt::Write>(&self, f: &mut fmt::Formatter<W>) -> fmt::Result {
        f.debug_struct("NothingWaits").finish_non_exhaustive()
    }
}
