//! `Opened`: the parts of a new broker, before it has a brand.

ghost use Rattle.std.specs.Prelude.{◌≡◌, IfOk};

use cs_model::Schema;
use rb_desk::{Config, Desk, Step};
use rb_history::{Chronicle, Hand};
use rb_intake::{Intake, MakerPass, SequencerPass};
use rb_sequence::{Filler, Preparer, Sequence};
use rb_subscriber::MOST_SUBSCRIPTIONS;
use std::alloc::{AllocError, Global};
use std::marker::Model;
use std::sync::Arc;
use std::sync::ledger::Blank;

/// The parts of a new broker. Contracts see its limits, its tables, the cells of its sequence, the
/// queue of its intake with its size, the ledger of its subscriptions' steps, and the name of its
/// history. `Broker::start` makes the broker of it, under a brand that has these.
#[derive(Drop)]
pub struct Opened {
    pub(crate) config: Config,
    pub(crate) schema: Arc<Schema>,
    pub(crate) sequence: Sequence,
    pub(crate) preparer: Preparer,
    pub(crate) filler: Filler,
    pub(crate) intake: Intake,
    pub(crate) sequencer: SequencerPass,
    pub(crate) maker: MakerPass,
    pub(crate) desk: Desk,
    pub(crate) blank: Blank,
    pub(crate) history: Chronicle<Step>,
    pub(crate) keeper: Hand<Step>,
    pub(crate) placer: Hand<Step>,
}

impl Model for Opened {
    ghost use Rattle.std.specs.Prelude.{◌≡◌, []};
    ghost use Rattle.std.specs.Arc.{arc_value};
    ghost use Rattle.rb_broker.specs.Brands.{OpenedParts};
    ghost use Rattle.rb_desk.specs.Picture.{empty_picture};

    ghost Value = { OpenedParts };

    ghost view = { λ o. record {
      limits = o.config;
      schema = arc_value o.schema;
      cells = o.sequence;
      queue = o.intake.queue;
      room = o.intake.capacity;
      ledger = o.blank.name;
      history = o.history.name;
    } };

    ghost invariant = { λ o. (o.sequencer
        ≡ record { queue = o.intake.queue; pulled = []; ended = [] })
        × (o.maker ≡ record { queue = o.intake.queue; made = 0 })
        × (o.desk ≡ record { picture = empty_picture o.config; steps = [] })
        × (o.sequence.capacity ≡ o.config.capacity)
        × (o.blank.parts ≡ 1024)
        × (o.preparer ≡ o.sequence) × (o.filler ≡ o.sequence) × (o.history.log ≡ [])
        × (o.keeper.name ≡ o.history.name) × (o.keeper.made ≡ 0)
        × (o.placer.name ≡ o.history.name) × (o.placer.made ≡ 0) };
}

impl Opened {
    /// A broker with these limits, for changesets of these tables. Returns `AllocError` if memory
    /// runs out.
    pub fn new(alloc: Global, config: Config, schema: Schema) -> Result<Opened, AllocError>
        ensures limits { IfOk result (λ o. o.limits ≡ config) }
        ensures schema { IfOk result (λ o. o.schema ≡ schema) }
        ensures room { IfOk result (λ o. o.room ≡ config.intake) }
        ensures capacity { IfOk result (λ o. o.cells.capacity ≡ config.capacity) }
    {
        let schema = Arc::new(alloc, schema)?;
        let (sequence, preparer, filler) = Sequence::new(alloc, config.capacity())?;
        let (intake, sequencer, maker) = Intake::new(alloc, config.intake() as usize)?;
        let (history, keeper, placer) = Chronicle::open();
        Ok(Opened {
            config,
            schema,
            sequence,
            preparer,
            filler,
            intake,
            sequencer,
            maker,
            desk: Desk::new(alloc, config)?,
            blank: Blank::new(MOST_SUBSCRIPTIONS),
            history,
            keeper,
            placer,
        })
    }
}
