//! The parts of a world: schema, publishers, intake, sequence, desk, endpoints, deliveries, marks.

ghost use Rattle.std.specs.Prelude.{◌≡◌};
ghost use Rattle.std.specs.Arc.{arc_value};
ghost use Rattle.rb_core.specs.State.{empty_world};

use crate::publisher::PublisherState;
use cs_model::Schema;
use rb_desk::{Config, Delivery, TalliedBoard};
use rb_sequence::{Entry, Item};
use rb_subscriber::Endpoint;
use std::alloc::Global;
use std::collections::VecDeque;
use std::marker::Model;
use std::sync::Arc;

/// The parts of a world, which events change. Functions require their common invariant (*IsWorld*)
/// where they need it, and `World` keeps it.
#[derive(Debug, Drop)]
pub(crate) struct Parts {
    pub(crate) schema: Arc<Schema>,
    pub(crate) publishers: Vec<PublisherState>,
    pub(crate) intake: VecDeque<Item>,
    pub(crate) hand: Option<Item>,
    pub(crate) sequence: Vec<Entry>,
    pub(crate) desk: TalliedBoard,
    pub(crate) endpoints: Vec<Endpoint>,
    pub(crate) deliveries: Vec<Delivery>,
    /// Whether the entry at each place is withdrawn. An entry past its end isn't.
    pub(crate) withdrawn: Vec<bool>,
}

impl Model for Parts {
    ghost use Rattle.std.specs.Arc.{arc_value};
    ghost use Rattle.std.specs.Coded.{codes};
    ghost use Rattle.cs_apply.specs.State.{state_code};
    ghost use Rattle.rb_core.specs.State.{State};

    ghost Value = { State };

    ghost coded = { Prim.hlevel (codes, state_code) };

    ghost view = { λ w. record {
      schema = arc_value w.schema;
      publishers = w.publishers.items;
      intake = w.intake.items;
      hand = w.hand;
      sequence = w.sequence.items;
      desk = w.desk.picture;
      steps = w.desk.steps;
      endpoints = w.endpoints.items;
      deliveries = w.deliveries.items;
      withdrawn = w.withdrawn.items;
    } };
}

impl Parts {
    /// A world without publishers, entries and subscriptions.
    pub(crate) fn new(alloc: Global, config: Config, schema: Arc<Schema>) -> Parts
        ensures { result ≡ empty_world config (arc_value schema) }
    {
        Parts {
            schema,
            publishers: Vec::new(alloc),
            intake: VecDeque::new(alloc),
            hand: None,
            sequence: Vec::new(alloc),
            desk: TalliedBoard::new(alloc, config),
            endpoints: Vec::new(alloc),
            deliveries: Vec::new(alloc),
            withdrawn: Vec::new(alloc),
        }
    }
}
