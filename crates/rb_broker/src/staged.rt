//! `StagedSet`: a changeset that a publisher may send.

ghost use Rattle.std.specs.Prelude.{◌≡◌};
ghost use Rattle.std.specs.Option.{option_copied};
ghost use Rattle.cs_model.specs.Changeset.{AgreeOnShapes};
ghost use Rattle.rb_broker.specs.Publishers.{IsStaged};

use crate::brand::BrokerBrand;
use cs_model::{Changeset, Origin};
use rb_sequence::Told;
use std::marker::{Model, PhantomData};

/// A changeset that a publisher staged: what it was fed, or the withdrawal of an entry. Only the
/// publisher that staged it can send it.
#[derive(Drop)]
pub struct StagedSet<L: BrokerBrand> {
    pub(crate) publisher: u64,
    pub(crate) origin: Origin,
    pub(crate) body: Changeset,
    // shows the entry that it withdraws, if it withdraws one
    pub(crate) withdraws: Option<Told>,
    pub(crate) of: PhantomData<L>,
}

impl<L: BrokerBrand> Model for StagedSet<L> {
    ghost use Rattle.cs_model.specs.Changeset.{AgreeOnShapes};
    ghost use Rattle.rb_broker.specs.Publishers.{StagedView, WithdrawsShown};

    ghost Value = { StagedView };

    ghost view = { λ s. record {
      publisher = s.publisher;
      origin = s.origin;
      body = s.body;
      withdraws = s.withdraws;
    } };

    ghost invariant = { λ s. WithdrawsShown L.cells s.origin s.withdraws s.publisher s.body
        × AgreeOnShapes s.body };
}

impl<L: BrokerBrand> StagedSet<L> {
    /// The number of the publisher that staged it.
    pub fn publisher(&self) -> u64
        ensures { result ≡ self.now.publisher }
    {
        self.publisher
    }

    /// Whether its publisher was fed the changeset, or it withdraws an entry.
    pub fn origin(&self) -> Origin
        ensures { result ≡ self.now.origin }
    {
        self.origin
    }

    /// The changeset. Sections of one name in it have one shape.
    pub fn body(&self) -> &Changeset
        ensures body { result.now ≡ self.now.body }
        ensures agrees { AgreeOnShapes self.now.body }
    {
        &self.body
    }

    /// A token of the entry that it withdraws, if it withdraws one.
    pub fn withdraws(&self) -> Option<&Told>
        ensures token { option_copied result ≡ self.now.withdraws }
        ensures shown { IsStaged L.cells self.now }
    {
        self.withdraws.as_ref()
    }
}
