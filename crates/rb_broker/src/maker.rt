//! `PublisherMaker`: who makes the publishers of a broker.

ghost use Rattle.std.specs.Prelude.{◌≡◌};
ghost use Rattle.std.specs.Arc.{arc_value};
ghost use Rattle.rb_broker.specs.Publishers.{MakesPublisher};

use crate::brand::BrokerBrand;
use crate::broker::Broker;
use crate::publisher::Publisher;
use crate::refusal::AddError;
use cs_parse::PieceParser;
use rb_intake::MakerPass;
use std::alloc::Global;
use std::collections::BTreeSet;
use std::marker::{Model, PhantomData};
use std::sync::Arc;

/// The most publishers of a broker.
pub const MOST_PUBLISHERS: u64 = 64;

/// Makes the publishers of a broker, which has one. Its owner may make them while other threads
/// share the broker. Contracts see how many it made.
#[derive(Drop)]
pub struct PublisherMaker<L: BrokerBrand> {
    pub(crate) pass: MakerPass,
    pub(crate) of: PhantomData<L>,
}

impl<L: BrokerBrand> Model for PublisherMaker<L> {
    ghost use Rattle.std.specs.Prelude.{ℕ, ◌≡◌, ◌≤◌};
    ghost use Rattle.std.specs.Coded.{coded_ℕ};

    ghost Value = { ℕ };

    ghost coded = { coded_ℕ };

    ghost view = { λ m. m.pass.made };

    ghost invariant = { λ m. (m.pass.queue ≡ L.queue) × (m.pass.made ≤ 64) };
}

impl<L: BrokerBrand> PublisherMaker<L> {
    /// How many publishers it made. Their numbers are those below it.
    pub fn made(&self) -> u64
        ensures { result ≡ self.now }
    {
        self.pass.made()
    }

    /// Its pass, for the end of the broker. It makes no more publishers.
    pub fn into_pass(self) -> MakerPass
        ensures { result ≡ record { queue = L.queue; made = self } }
    {
        self.pass
    }

    /// Makes a publisher, with an empty stream. No other has its number.
    ///
    /// Refuses `TooMany` if there are 64 publishers, then `Memory`. Nothing changes then.
    pub fn make(&mut self, alloc: Global, broker: &Broker<L>) -> Result<Publisher<L>, AddError>
        ensures { MakesPublisher (arc_value broker.now.schema) result self.old self.new }
    {
        if self.pass.made() >= MOST_PUBLISHERS {
            return Err(AddError::TooMany);
        }
        let Ok(schema) = Arc::try_clone(&broker.schema) else {
            return Err(AddError::Memory);
        };
        Ok(Publisher {
            schema,
            stream: PieceParser::new(alloc),
            pass: broker.intake.publisher(&mut self.pass),
            withdrawn: BTreeSet::new(alloc),
            closing: None,
            of: PhantomData,
        })
    }
}
