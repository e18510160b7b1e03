//! Accepting into a durable store: the subscription's rows and its cursor are there, too.

ghost use Rattle.std.specs.Prelude.{◌≡◌, ◌+◌, None, IfSome, OnErr, OnOk, length};
ghost use Rattle.par_apply.specs.RowChanges.{overlaid};
ghost use Rattle.rb_subscriber.specs.Durable.{DurableAnswers, DurableConflictsShown, IfFell};
ghost use Rattle.rb_subscriber.specs.Durable.{IfStoreFails};
ghost use Rattle.rb_subscriber.specs.Subscription.{cursor_of};

use crate::applier::Workers;
use crate::batches::Batch;
use crate::keeping::KeepError;
use crate::pending::Pending;
use crate::refusal::{DurableError, SubscriptionError};
use crate::shown::{Shown, ShownEntries, add, tokens_of};
use crate::step_ledger::StepLedger;
use crate::subscription::Subscription;
use par_apply::{DurableRows, Gate};
use rb_desk::Delivery;
use rb_sequence::Sequence;
use std::alloc::Global;
use std::thread::Threads;

impl<L: StepLedger> Subscription<L> {
    /// Accepts a delivery as `accept` does, and commits it to a durable store, which has this
    /// subscription's rows and cursor: first to the store, then to its tables. A crash leaves in
    /// the store the rows and the cursor from before the delivery, or those after it; after `Ok`,
    /// those after it.
    ///
    /// Refuses as `accept` does, and last of all comes `DurableError::Store`, with the store's
    /// error. The subscription has fallen then, and keeps the tokens: every later delivery is
    /// refused for `AcceptRefusal::Store`. Give it up by `fall`, open the store again, and hand
    /// what it has to the broker's `resume`. Any other error changes neither the subscription nor
    /// the store.
    pub fn accept_durable<R: Threads + Sync, G: Gate, S: DurableRows>(
        &mut self,
        workers: &Workers<R, G>,
        alloc: Global,
        sequence: &Sequence,
        store: &mut S,
        delivery: &Delivery,
    ) -> Result<u64, DurableError<S::Error>>
        requires cells { sequence.now ≡ L.cells }
        requires kept { self.old.pending ≡ None
            → S.keeps store.old self.old.tables.rows (cursor_of self.old) }
        ensures answers { DurableAnswers L.cells delivery.now result self.old self.new }
        ensures conflicts { DurableConflictsShown self.old.tables result }
        ensures kept { OnOk result (S.keeps store.new self.new.tables.rows (cursor_of self.new)) }
        ensures leaves { IfFell self.old.pending self.new.pending (λ pending.
            S.leaves store.new self.old.tables.rows (cursor_of self.old)
            (overlaid self.old.tables.rows pending.changes)
            (cursor_of self.old + length pending.tokens)) }
        ensures failed { IfStoreFails result (λ why.
            IfSome self.new.pending (λ pending. S.failed store.old pending.changes
            (cursor_of self.old + length pending.tokens) store.new why)) }
        ensures unasked { OnErr result (self.new.pending ≡ self.old.pending
            → store.new ≡ store.old) }
    {
        if let Some(why) = self.refuses(delivery) {
            return Err(DurableError::Accept(SubscriptionError::Refused(why)));
        }
        let schema = self.end.tables().schema();
        let shown = tokens_of(alloc, sequence, &mut self.told, schema, delivery)?;
        let entries = ShownEntries {
            sequence,
            told: &shown,
        };
        match self
            .end
            .accept_kept(workers, alloc, &entries, store, delivery)
        {
            Ok(cursor) => {
                let batch = Batch { told: shown };
                self.batches = self.batches.with(&batch);
                add(&mut self.told, batch.told);
                Ok(cursor)
            }
            Err(KeepError::Refused(why)) => {
                let shown = Shown::Held(shown);
                let refused = SubscriptionError::RefusedEntries { why, shown };
                Err(DurableError::Accept(refused))
            }
            Err(KeepError::Memory) => {
                let shown = Shown::Held(shown);
                Err(DurableError::Accept(SubscriptionError::Memory { shown }))
            }
            Err(KeepError::Store(plan, why)) => {
                self.pending = Some(Pending { told: shown, plan });
                Err(DurableError::Store(why))
            }
        }
    }
}
