//! `Subscription`: what one thread accepts of the cells, and the tokens that show it.

ghost use Rattle.std.specs.{
  Prelude.{◌≡◌, ◌<◌, suc, true, None, IfNone, IfSome},
  Option.{is_some, option_copied},
  Thread.{IsSync},
};
ghost use Rattle.rb_sequence.specs.Cells.{AreInCells, IsTokenOf};
ghost use Rattle.rb_subscriber.specs.{
  Accept.{AsksNoEntries, HasSingleTables, refusal_before},
  Applier.{Applies, IsApplied},
  AcceptShown.{ShownAnswers, ConflictsShown, DueAnswers},
  Batches.{HasBatchTables},
  Durable.{IsPendingOver},
  Shown.{entries_told},
  Subscription.{cursor_of, own_endpoint, accepted_token, batches_told},
};

use crate::applier::Workers;
use crate::batches::{Batch, Batches};
use crate::beginning::Beginning;
use crate::endpoint::Endpoint;
use crate::pending::Pending;
use crate::refusal::{AcceptError, AcceptRefusal, SubscriptionError};
use crate::shown::{Shown, ShownEntries, add, tokens_of};
use crate::stake::Stake;
use crate::step_ledger::StepLedger;
use cs_apply::{ApplyError, Tables};
use cs_model::Changeset;
use par_apply::{Gate, apply_split};
use rb_desk::Delivery;
use rb_sequence::{Sequence, Told};
use std::alloc::Global;
use std::marker::Model;
use std::sync::ledger::Share;
use std::thread::Threads;

/// A subscription of a broker with threads, owned by one thread. It reads the entries of a delivery
/// from the cells, applies them to its own tables, and keeps a token for each entry that it
/// accepted. It shares nothing that could change, so it waits for nobody. Only a `Register` makes
/// one, counts its steps and sets its link.
#[derive(Drop)]
pub struct Subscription<L: StepLedger> {
    pub(crate) sub: u64,
    pub(crate) end: Endpoint,
    // what its tables were when it began
    pub(crate) base: Beginning,
    pub(crate) told: Vec<Told>,
    // which of the tokens came together
    pub(crate) batches: Batches,
    // there exactly if it has fallen
    pub(crate) pending: Option<Pending>,
    pub(crate) steps: u64,
    pub(crate) share: Share<L>,
    // what it has seen of its broker's history
    pub(crate) stake: Stake<L>,
}

impl<L: StepLedger> Model for Subscription<L> {
    ghost use Rattle.std.specs.{
      Prelude.{◌≡◌, ◌<◌, ◌≤◌, ◌+◌, ◌^◌, suc, length, IfSome},
      Coded.{codes},
      Option.{is_some},
      Vec.{vec_capacity, vec_len},
    };
    ghost use Rattle.cs_apply.specs.State.{state_code};
    ghost use Rattle.rb_sequence.specs.Cells.{AreInCells};
    ghost use Rattle.rb_subscriber.specs.{
      Accept.{HasSingleTables},
      Batches.{HasBatchTables},
      Durable.{IsPendingOver},
      Shown.{entries_told},
      Subscription.{SubscriptionState, batches_told},
    };

    ghost Value = { SubscriptionState };

    ghost coded = { Prim.hlevel (codes, state_code) };

    ghost view = { λ s. record {
      sub = s.sub;
      start = s.end.start;
      link = s.end.link;
      closed = s.end.closed;
      base = s.base.value;
      tables = s.end.tables;
      told = s.told.items;
      batches = s.batches.list;
      pending = s.pending;
      steps = s.steps;
      owner = s.stake;
    } };

    ghost invariant = { λ s. (s.end.cursor ≡ s.end.start + length s.told.items)
        × AreInCells L.cells (suc s.end.start) s.told.items
        × HasSingleTables s.base.value (entries_told s.told.items) s.end.tables
        × (s.end.fallen ≡ is_some s.pending)
        × IfSome s.pending (IsPendingOver L.cells s.end.cursor s.base.value s.told.items
        s.end.tables)
        × IfSome s.pending (λ p. (vec_len s.told + length p.tokens ≤ vec_capacity s.told)
        × (s.end.cursor + length p.tokens < 2 ^ 64))
        × (s.share.parts ≡ 1)
        × (s.share.amount ≡ s.steps)
        × HasBatchTables s.base.value (batches_told s.batches.list) (entries_told s.told.items)
        s.end.tables };
}

impl<L: StepLedger> Subscription<L> {
    /// Accepts a delivery: reads its entries from the cells, applies the group of their changesets
    /// by these workers, keeps their tokens, and moves the cursor to the delivery's last number,
    /// which it returns. `sequence` is that of its broker. If the changesets apply one after
    /// another without conflict, their group leaves the same tables. What it returns and leaves
    /// doesn't depend on how many workers there are, unless memory runs out.
    ///
    /// Refuses, in this order, `Store`, `Closed`, `StaleLink`, `Seen`, `Gap`, `Unseen`, `Shape`,
    /// `Conflict`. `Memory` may replace a conflict, but no other refusal. An error does not change
    /// the subscription. A conflict comes only if the changesets conflict too when they are applied
    /// one after another. `Unseen` comes only if the cell of its number showed nothing: the entry
    /// isn't placed yet, or its placement isn't seen by this thread yet.
    pub fn accept<R: Threads + Sync, G: Gate>(
        &mut self,
        workers: &Workers<R, G>,
        alloc: Global,
        sequence: &Sequence,
        delivery: &Delivery,
    ) -> Result<u64, SubscriptionError>
        requires { sequence.now ≡ L.cells }
        ensures answers { ShownAnswers L.cells delivery.now result self.old self.new }
        ensures conflicts { ConflictsShown self.old.tables result }
    {
        self.accept_by(
            &|tables: &mut Tables, changeset: &Changeset| -> Result<(), ApplyError>
                requires { IsSync R.row }
                ensures { IsApplied tables.entry.now changeset.entry.now result tables.exit.now }
            {
                apply_split(
                    workers.rt,
                    alloc,
                    tables,
                    changeset,
                    workers.n,
                    workers.gate,
                )
            },
            alloc,
            sequence,
            delivery,
        )
    }

    /// Accepts a delivery as `accept` does, in the caller's thread. It starts none.
    pub fn accept_alone(
        &mut self,
        alloc: Global,
        sequence: &Sequence,
        delivery: &Delivery,
    ) -> Result<u64, SubscriptionError>
        requires { sequence.now ≡ L.cells }
        ensures answers { ShownAnswers L.cells delivery.now result self.old self.new }
        ensures conflicts { ConflictsShown self.old.tables result }
    {
        self.accept_by(
            &|tables: &mut Tables, changeset: &Changeset| -> Result<(), ApplyError>
                ensures { IsApplied tables.entry.now changeset.entry.now result tables.exit.now }
            { tables.apply(alloc, changeset) },
            alloc,
            sequence,
            delivery,
        )
    }

    // accepts a delivery, and applies it by a call that does as `Tables::apply`
    fn accept_by<F: Fn(&mut Tables, &Changeset) -> Result<(), ApplyError>>(
        &mut self,
        applier: &F,
        alloc: Global,
        sequence: &Sequence,
        delivery: &Delivery,
    ) -> Result<u64, SubscriptionError>
        requires applier { Applies F.Fn applier.now }
        requires cells { sequence.now ≡ L.cells }
        ensures answers { ShownAnswers L.cells delivery.now result self.old self.new }
        ensures conflicts { ConflictsShown self.old.tables result }
    {
        match self.refuses(delivery) {
            Some(why) => Err(SubscriptionError::Refused(why)),
            None => self.accept_due(applier, alloc, sequence, delivery),
        }
    }

    // why it is refused whatever the cells show
    pub(crate) fn refuses(&self, delivery: &Delivery) -> Option<AcceptRefusal>
        ensures why { result ≡ refusal_before (own_endpoint self.now) delivery.now }
        ensures early { IfSome result AsksNoEntries }
        ensures next { IfNone result ((delivery.now.first ≡ suc (cursor_of self.now))
            × (cursor_of self.now < delivery.now.last)) }
        ensures none { IfNone result (self.now.pending ≡ None) }
    {
        let _told = &self.told;
        self.end.refuses(delivery)
    }

    // `accept_by`, for a delivery that begins right after the cursor
    fn accept_due<F: Fn(&mut Tables, &Changeset) -> Result<(), ApplyError>>(
        &mut self,
        applier: &F,
        alloc: Global,
        sequence: &Sequence,
        delivery: &Delivery,
    ) -> Result<u64, SubscriptionError>
        requires applier { Applies F.Fn applier.now }
        requires cells { sequence.now ≡ L.cells }
        requires free { refusal_before (own_endpoint self.old) delivery.now ≡ None }
        requires none { self.old.pending ≡ None }
        requires due { (delivery.now.first ≡ suc (cursor_of self.old))
            × (cursor_of self.old < delivery.now.last) }
        ensures answers { DueAnswers L.cells delivery.now result self.old self.new }
        ensures conflicts { ConflictsShown self.old.tables result }
    {
        let schema = self.end.tables().schema();
        let shown = tokens_of(alloc, sequence, &mut self.told, schema, delivery)?;
        let entries = ShownEntries {
            sequence,
            told: &shown,
        };
        match self.end.accept_brought(applier, alloc, &entries, delivery) {
            Ok(cursor) => {
                let batch = Batch { told: shown };
                self.batches = self.batches.with(&batch);
                add(&mut self.told, batch.told);
                Ok(cursor)
            }
            Err(AcceptError::Refused(why)) => {
                let shown = Shown::Held(shown);
                Err(SubscriptionError::RefusedEntries { why, shown })
            }
            Err(AcceptError::Memory) => {
                let shown = Shown::Held(shown);
                Err(SubscriptionError::Memory { shown })
            }
        }
    }

    /// Closes it permanently: it accepts nothing more.
    pub fn close(&mut self)
        ensures { self.new ≡ record self.old { closed = true } }
    {
        self.end.close();
    }

    /// Its number at the desk.
    pub fn sub(&self) -> u64
        ensures { result ≡ self.now.sub }
    {
        self.sub
    }

    /// Its current link.
    pub fn link(&self) -> u64
        ensures { result ≡ self.now.link }
    {
        self.end.link()
    }

    /// The number after which it began.
    pub fn start(&self) -> u64
        ensures { result ≡ self.now.start }
    {
        self.end.start()
    }

    /// The last number that it accepted; at first, its start. It has accepted the entries from its
    /// start on, one after another, each as its cell shows it.
    pub fn cursor(&self) -> u64
        ensures cursor { result ≡ cursor_of self.now }
        ensures shown { AreInCells L.cells (suc self.now.start) self.now.told }
    {
        let _told = &self.told;
        self.end.cursor()
    }

    /// Its tables. They are what the groups of the deliveries that it accepted leave, applied one
    /// after another to the tables that it began with. If the changesets apply one after another
    /// without conflict, they are the result of that.
    pub fn tables(&self) -> &Tables
        ensures value { result.now ≡ self.now.tables }
        ensures batches { HasBatchTables self.now.base (batches_told self.now.batches)
            (entries_told self.now.told) self.now.tables }
        ensures singly { HasSingleTables self.now.base (entries_told self.now.told)
            self.now.tables }
    {
        let _told = &self.told;
        self.end.tables()
    }

    /// The token of the entry with this number, if it accepted it. It is of the broker's cells.
    pub fn told(&self, number: u64) -> Option<&Told>
        ensures token { option_copied result
            ≡ accepted_token self.now.start self.now.told number }
        ensures shown { IfSome result (λ told. IsTokenOf L.cells told.now
            × (told.now.number ≡ number)) }
    {
        let place = number.checked_sub(self.end.start())?.checked_sub(1)?;
        self.told.get(place as usize)
    }

    /// Whether it has fallen: its durable store failed while it accepted, and it accepts nothing
    /// more. `fall` makes it one that can be resumed.
    pub fn is_fallen(&self) -> bool
        ensures value { result ≡ is_some self.now.pending }
        ensures pending { IfSome self.now.pending (IsPendingOver L.cells (cursor_of self.now)
            self.now.base self.now.told self.now.tables) }
    {
        self.pending.is_some()
    }

    /// How many of its steps were counted.
    pub fn steps(&self) -> u64
        ensures { result ≡ self.now.steps }
    {
        self.steps
    }
}
