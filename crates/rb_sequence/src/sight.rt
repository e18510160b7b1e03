//! `Sight`: what was seen of the cells of a sequence, as clauses see it.

ghost use Rattle.std.specs.Prelude.{◌≡◌, ◌++◌, ◌∷◌, [], List};
ghost use Rattle.rb_sequence.specs.Cells.{CellToken};
ghost use base.Fml.{ftrue};

use crate::told::Told;
use std::marker::{Model, PhantomData};

/// The tokens of the cells that were seen, in the order in which they were seen. Clauses see them;
/// the value itself takes no bytes and needs no memory. Only a token lengthens it, so nobody can
/// make one up: what it shows, the cells have shown.
pub struct Sight {
    marker: PhantomData<()>,
    /// The tokens.
    pub ghost tokens: { List CellToken },
}

impl Model for Sight {
    ghost also_owns = { λ _. ftrue };
}

impl Sight {
    /// Nothing is seen yet.
    pub fn nothing() -> Sight
        ensures { result.tokens ≡ [] }
    {
        Sight {
            marker: PhantomData,
        }
    }

    /// The same, and the cell of this token after it.
    pub fn with(&self, told: &Told) -> Sight
        ensures { result.tokens ≡ self.now.tokens ++ told.now ∷ [] }
    {
        let _ = told;
        Sight {
            marker: PhantomData,
        }
    }
}

impl Drop for Sight {
    fn drop(self) {
        let Self { marker: _ } = self;
    }
}

// Sound: there are no bytes, and nothing is owned.
unsafe impl Send for Sight {}

unsafe impl Sync for Sight {}
