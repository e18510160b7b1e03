//! `Batches`: the tokens of each delivery that a subscription accepted, as clauses see them.

ghost use Rattle.std.specs.Prelude.{◌≡◌, ◌++◌, ◌∷◌, [], List};
ghost use Rattle.rb_sequence.specs.Cells.{CellToken};
ghost use base.Fml.{ftrue};

use rb_sequence::Told;
use std::marker::{Model, PhantomData};

/// The tokens of one delivery.
#[derive(Drop)]
pub(crate) struct Batch {
    pub(crate) told: Vec<Told>,
}

impl Model for Batch {
    ghost use Rattle.std.specs.Prelude.{List};
    ghost use Rattle.rb_sequence.specs.Cells.{CellToken};

    ghost Value = { List CellToken };

    ghost view = { λ b. b.told.items };
}

/// The tokens of accepted deliveries, each delivery's together, in the order of accepting. It takes
/// no bytes.
pub(crate) struct Batches {
    marker: PhantomData<()>,
    pub ghost list: { List (List CellToken) },
}

impl Model for Batches {
    ghost also_owns = { λ _. ftrue };
}

impl Batches {
    /// No delivery is accepted yet.
    pub(crate) fn none() -> Batches
        ensures { result.list ≡ [] }
    {
        Batches {
            marker: PhantomData,
        }
    }

    /// The same, and one more after them.
    pub(crate) fn with(&self, batch: &Batch) -> Batches
        ensures { result.list ≡ self.now.list ++ batch.now ∷ [] }
    {
        let _ = batch;
        Batches {
            marker: PhantomData,
        }
    }
}

impl Drop for Batches {
    fn drop(self) {
        let Self { marker: _ } = self;
    }
}

// Sound: there are no bytes, and nothing is owned.
unsafe impl Send for Batches {}

unsafe impl Sync for Batches {}
