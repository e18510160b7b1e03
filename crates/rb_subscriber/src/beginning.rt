//! `Beginning`: the tables that a subscription began with, as clauses see them.

ghost use Rattle.std.specs.Prelude.{◌≡◌};
ghost use Rattle.cs_apply.specs.State.{TableState, state_code};
ghost use base.Fml.{ftrue};

use cs_apply::Tables;
use std::marker::{Model, PhantomData};

/// Tables as they were. It takes no bytes. A `std::snapshot::Snapshot` would do, but the prover
/// finds no way to send a struct that has one to another thread.
pub(crate) struct Beginning {
    marker: PhantomData<()>,
    pub ghost value: { TableState } by { state_code },
}

impl Model for Beginning {
    ghost also_owns = { λ _. ftrue };
}

impl Beginning {
    /// The tables as they are.
    pub(crate) fn of(tables: &Tables) -> Beginning
        ensures { result.value ≡ tables.now }
    {
        let _ = tables;
        Beginning {
            marker: PhantomData,
        }
    }
}

impl Drop for Beginning {
    fn drop(self) {
        let Self { marker: _ } = self;
    }
}

// Sound: there are no bytes, and nothing is owned.
unsafe impl Send for Beginning {}

unsafe impl Sync for Beginning {}
