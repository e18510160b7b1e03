//! `Broker`: what all threads share. Its lock holds the desk.

ghost use Rattle.std.specs.Prelude.{◌≡◌, ◌++◌, ◌∷◌, [], ℕ, IfErr, IfOk, IfSome};
ghost use Rattle.std.specs.{Arc.{arc_value}, Prelude.{MatchResult}};
ghost use Rattle.rb_intake.specs.Passes.{IsAllPulled};
ghost use Rattle.rb_sequence.specs.{Cells.{IsLastToken}, Items.{CountsUp}};
ghost use Rattle.rb_broker.specs.Placing.{DeskCloses, DeskPlaces, DeskRefuses, IsLastPulled};
ghost use Rattle.rb_broker.specs.Placing.{ShowsEntry, ShowsWhy};

use crate::brand::BrokerBrand;
use crate::locked::{Locked, refused};
use crate::maker::PublisherMaker;
use crate::opened::Opened;
use crate::refusal::{PlaceError, RefusedItem};
use cs_model::Schema;
use rb_desk::Config;
use rb_intake::{Intake, NothingWaits, SequencerPass};
use rb_sequence::{Entry, Item, Preparer, Sequence, Told, ToldLast};
use rb_subscriber::{Auditor, Register, Stake};
use std::alloc::Global;
use std::marker::PhantomData;
use std::sync::{Arc, Mutex, Wait};

/// A broker. Threads share it by reference.
#[derive(Drop)]
pub struct Broker<L: BrokerBrand> {
    config: Config,
    pub(crate) schema: Arc<Schema>,
    sequence: Sequence,
    preparer: Preparer,
    pub(crate) intake: Intake,
    pub(crate) locked: Mutex<Locked<L>>,
    ghost limits: { config ≡ L.limits },
    ghost cells: { sequence ≡ L.cells },
    ghost prepares: { preparer ≡ L.cells },
    ghost queue: { intake.queue ≡ L.queue },
}

/// A broker that was started, with what its owners are made of. There is one of
/// each.
#[derive(Drop)]
pub struct Started<L: BrokerBrand> {
    pub broker: Broker<L>,
    /// The pass for its sequencer.
    pub sequencer: SequencerPass,
    /// Makes its publishers.
    pub publishers: PublisherMaker<L>,
    /// Audits its subscriptions.
    pub auditor: Auditor<L>,
    /// The part of its sequencer in the history of its steps.
    pub placer: Stake<L>,
    /// The part of whoever subscribes, takes for any subscription, expires and closes.
    pub keeper: Stake<L>,
}

impl<L: BrokerBrand> Broker<L> {
    /// Starts a broker that was opened, under a brand of its own.
    pub fn start(opened: Opened) -> Started<L>
        requires sequence { (opened.limits ≡ L.limits) × (opened.cells ≡ L.cells) }
        requires queue { opened.queue ≡ L.queue }
        requires ledger { (opened.ledger ≡ L.name) × (L.parts ≡ 1024) × (L.all ≡ 1024) }
        requires history { opened.history ≡ L.history }
        ensures sequencer { result.sequencer
            ≡ record { queue = L.queue; pulled = []; ended = [] } }
        ensures publishers { result.publishers ≡ 0 }
        ensures auditor { result.auditor ≡ record { sum = 0; heard = 0; seen = [] } }
        ensures seen { (result.placer.seen ≡ []) × (result.keeper.seen ≡ []) }
        ensures schema { arc_value result.broker.schema ≡ opened.schema }
    {
        let mut history = opened.history;
        let (register, auditor) = Register::open(opened.blank, &mut history);
        let placer = Stake::new(&mut history, opened.placer);
        let keeper = Stake::new(&mut history, opened.keeper);
        let broker = Broker {
            config: opened.config,
            schema: opened.schema,
            sequence: opened.sequence,
            preparer: opened.preparer,
            intake: opened.intake,
            locked: Mutex::new(Locked {
                desk: opened.desk,
                filler: opened.filler,
                register,
                closing: None,
                history,
            }),
        };
        let publishers = PublisherMaker {
            pass: opened.maker,
            of: PhantomData,
        };
        Started {
            broker,
            sequencer: opened.sequencer,
            publishers,
            auditor,
            placer,
            keeper,
        }
    }

    /// Its limits.
    pub fn config(&self) -> Config
        ensures { result ≡ L.limits }
    {
        self.config
    }

    /// Its sequence, which anyone reads without waiting. Only the broker changes it.
    pub fn sequence(&self) -> &Sequence
        ensures { result.now ≡ L.cells }
    {
        &self.sequence
    }

    /// Its sequence and its intake, for its end. Nobody else has the broker then.
    pub fn into_parts(self) -> (Sequence, Intake)
        ensures sequence { result.0 ≡ L.cells }
        ensures intake { result.1.queue ≡ L.queue }
    {
        (self.sequence, self.intake)
    }

    /// Pulls the item that waits first. `Sequencer::turn` calls it.
    pub fn pull<R: Wait>(&self, rt: &R, pass: &mut SequencerPass) -> Result<Item, NothingWaits>
        requires { pass.old.queue ≡ L.queue }
        ensures item { MatchResult result
            (λ item. pass.new ≡ record pass.old { pulled = pass.old.pulled ++ item ∷ [] })
            (λ nothing. (pass.new ≡ pass.old) × IsAllPulled pass.new
            × (nothing.seen ≡ pass.new)) }
        ensures numbered { (p : ℕ) → CountsUp p pass.new.pulled }
    {
        self.intake.pop(rt, pass)
    }

    /// Places an item under this number, in one hold of the lock: its cell is set, and the desk has
    /// placed the number. All memory is allocated before the hold: the item's canonical form, its
    /// box and, for the first number of a segment, its cells. `Sequencer::turn` calls it.
    ///
    /// It asks for the sequencer's pass, of which there is one, and for the last item that the pass
    /// pulled; the number is how many it pulled. So only the pass's owner places, and only what it
    /// pulled.
    ///
    /// Each refusal hands the item back.
    pub fn place_next<R: Wait>(
        &self,
        rt: &R,
        alloc: Global,
        _pass: &mut SequencerPass,
        placer: &mut Stake<L>,
        item: Item,
        number: u64,
    ) -> Result<Told, RefusedItem>
        requires queue { _pass.old.queue ≡ L.queue }
        requires last { IsLastPulled _pass.old item number }
        ensures pass { _pass.new ≡ _pass.old }
        ensures ok { IfOk result (λ told. ShowsEntry L.cells told
            (record { number = number; item = item })) }
        ensures placed { IfOk result (λ told.
            DeskPlaces L.limits told.number placer.old placer.new) }
        ensures err { IfErr result (λ refused. (refused.item ≡ item)
            × ShowsWhy L.cells number refused.why) }
        ensures desk { IfErr result (λ refused.
            DeskRefuses L.limits L.cells number refused.why placer.old placer.new) }
    {
        let Ok(form) = item.form(alloc) else {
            let why = PlaceError::Memory;
            return Err(RefusedItem { why, item });
        };
        let entry = Entry::new(alloc, number, item, form);
        if number > self.sequence.capacity() {
            let mut locked = self.locked.lock(rt);
            return Err(refused(locked.refuses(placer, number), entry));
        }
        match self.preparer.ready(alloc, entry) {
            Ok(ready) => {
                let mut locked = self.locked.lock(rt);
                locked.place(placer, ready)
            }
            Err(failed) => Err(refused(PlaceError::Memory, failed.value)),
        }
    }

    /// Closes the sequence after its last number, in one hold of the lock: the closing cell is set,
    /// and the desk is closed. The token shows the number. If it is closed already, returns the
    /// same token.
    ///
    /// Returns `None` if the closing cell is set though the sequence isn't closed. Nothing else
    /// sets it, so this does not happen.
    pub fn close<R: Wait>(&self, rt: &R, keeper: &mut Stake<L>) -> Option<ToldLast>
        ensures closed { IfSome result (λ told. IsLastToken L.cells told) }
        ensures desk { DeskCloses L.limits result keeper.old keeper.new }
    {
        let mut locked = self.locked.lock(rt);
        locked.close(keeper)
    }
}
