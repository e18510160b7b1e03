//! The broker's calls for subscriptions: each is one hold of its lock.

ghost use Rattle.std.specs.Prelude.{◌≡◌, ◌+◌, length, IfErr, IfOk, Ok, OnErr, OnOk};
ghost use Rattle.std.specs.Arc.{arc_value};
ghost use Rattle.std.specs.Bool.{Decides};
ghost use mathlib.Core.List.{IsPrefix};
ghost use Rattle.rb_desk.specs.Calls.{ack, expire, nack, nack_opened, reconnect, take, take_any};
ghost use Rattle.rb_desk.specs.Calls.{unsubscribe};
ghost use Rattle.rb_desk.specs.Journaled.{counted_steps, is_own};
ghost use Rattle.rb_desk.specs.declared.step.Step.TheVariants as step;
ghost use Rattle.rb_subscriber.specs.Lost.{FitsLost, gone_on};
ghost use Rattle.rb_subscriber.specs.Owner.{steps_made};
ghost use Rattle.rb_subscriber.specs.Register.{HaveSeenTheirs};
ghost use Rattle.rb_subscriber.specs.Subscription.{cursor_of, new_subscription, with_owner};
ghost use Rattle.rb_broker.specs.Holding.{DeskReturns, RefusesTables, ShowsDrained};
ghost use Rattle.rb_broker.specs.Holding.{SubscribesAfterDesk, counted_step, desk_answer};
ghost use Rattle.rb_broker.specs.Holding.{ended_step, heard_too, made_after, relinked_step};
ghost use Rattle.rb_broker.specs.Resuming.{ReconnectReturns, ResumesNothing};

use crate::brand::BrokerBrand;
use crate::broker::Broker;
use crate::refusal::{RefusedResume, RefusedSubscription, ResumeError, SubscribeError, TakeError};
use cs_apply::Tables;
use rb_desk::{Delivery, DeskError};
use rb_subscriber::{Auditor, Lost, RefusedAudit, Stake, Subscription};
use std::alloc::Global;
use std::sync::Wait;

/// The calls for subscriptions. Each takes the lock once, and is one call of the desk then, which
/// refuses as the desk does. A refused call is no step, but its owner has seen the history then.
impl<L: BrokerBrand> Broker<L> {
    /// Makes a subscription to the numbers after `start`, with these tables.
    ///
    /// Refuses `OtherSchema` first of all, then `StartAhead` and `TooMany` as the desk does. The
    /// tables come back then.
    pub fn subscribe<R: Wait>(
        &self,
        rt: &R,
        alloc: Global,
        keeper: &mut Stake<L>,
        tables: Tables,
        start: u64,
    ) -> Result<Subscription<L>, RefusedSubscription>
        ensures new { IfOk result (λ s. s ≡ new_subscription s.sub start s.link tables s.owner) }
        ensures schema { OnOk result (tables.schema ≡ arc_value self.now.schema) }
        ensures refused { IfErr result (RefusesTables (arc_value self.now.schema) tables) }
        ensures desk { SubscribesAfterDesk L.limits result start keeper.old keeper.new }
    {
        if !self.has_schema(&tables) {
            let why = SubscribeError::OtherSchema;
            return Err(RefusedSubscription { why, tables });
        }
        let mut locked = self.locked.lock(rt);
        locked.subscribe(alloc, keeper, tables, start)
    }

    // whether these tables are of the broker's schema
    fn has_schema(&self, tables: &Tables) -> bool
        ensures { Decides result (tables.now.schema ≡ arc_value self.now.schema) }
    {
        tables.schema().tables() == self.schema.tables()
    }

    /// Delivers a subscription's ready numbers, from the lowest: they are in flight from now on.
    /// `now` is a tick of the caller's clock.
    ///
    /// Refuses as the desk's `take` does at the subscription's cursor. Where that is `Drained`, the
    /// token shows the last number.
    pub fn take<R: Wait>(
        &self,
        rt: &R,
        alloc: Global,
        subscription: &mut Subscription<L>,
        now: u64,
    ) -> Result<Delivery, TakeError>
        ensures ok { OnOk result (subscription.new ≡
            counted_step (with_owner subscription.old subscription.new.owner)) }
        ensures err { OnErr result (subscription.new ≡
            with_owner subscription.old subscription.new.owner) }
        ensures of { IfOk result (λ delivery. (delivery.sub ≡ subscription.old.sub)
            × (delivery.link ≡ subscription.old.link)) }
        ensures drained { IfErr result (ShowsDrained L.cells (cursor_of subscription.old)) }
        ensures desk { DeskReturns L.limits (desk_answer result)
            (λ p. take p subscription.old.sub subscription.old.link
            (cursor_of subscription.old) now)
            (step.Take subscription.old.sub subscription.old.link (cursor_of subscription.old)
            now)
            subscription.old.owner subscription.new.owner }
    {
        let mut locked = self.locked.lock(rt);
        locked.take(alloc, subscription, now)
    }

    /// Delivers the ready numbers that have waited longest, of whichever subscription. `now` is a
    /// tick of the caller's clock. No subscription counts the step.
    ///
    /// Refuses `Empty` if nothing is ready.
    pub fn take_any<R: Wait>(
        &self,
        rt: &R,
        alloc: Global,
        keeper: &mut Stake<L>,
        now: u64,
    ) -> Result<Delivery, DeskError>
        ensures { DeskReturns L.limits result (λ p. take_any p now) (step.TakeAny now)
            keeper.old keeper.new }
    {
        let mut locked = self.locked.lock(rt);
        locked.take_any(alloc, keeper, now)
    }

    /// Acknowledges a delivery that the subscription has accepted. Returns its floor: everything up
    /// to there is acknowledged.
    ///
    /// Refuses as the desk's `ack` does.
    pub fn ack<R: Wait>(
        &self,
        rt: &R,
        alloc: Global,
        subscription: &mut Subscription<L>,
        delivery: &Delivery,
    ) -> Result<u64, DeskError>
        ensures ok { OnOk result (subscription.new ≡
            counted_step (with_owner subscription.old subscription.new.owner)) }
        ensures err { OnErr result (subscription.new ≡
            with_owner subscription.old subscription.new.owner) }
        ensures desk { DeskReturns L.limits result (λ p. ack p subscription.old.sub
            delivery.now.link delivery.now.number (cursor_of subscription.old))
            (step.Ack subscription.old.sub delivery.now.link delivery.now.number
            (cursor_of subscription.old))
            subscription.old.owner subscription.new.owner }
    {
        let mut locked = self.locked.lock(rt);
        locked.ack(alloc, subscription, delivery)
    }

    /// Gives a delivery back: its numbers are ready again.
    ///
    /// Refuses as the desk's `nack` does.
    pub fn nack<R: Wait>(
        &self,
        rt: &R,
        alloc: Global,
        subscription: &mut Subscription<L>,
        delivery: &Delivery,
    ) -> Result<(), DeskError>
        ensures ok { OnOk result (subscription.new ≡
            counted_step (with_owner subscription.old subscription.new.owner)) }
        ensures err { OnErr result (subscription.new ≡
            with_owner subscription.old subscription.new.owner) }
        ensures desk { DeskReturns L.limits result (λ p. nack p subscription.old.sub
            delivery.now.link delivery.now.number)
            (step.Nack subscription.old.sub delivery.now.link delivery.now.number)
            subscription.old.owner subscription.new.owner }
    {
        let mut locked = self.locked.lock(rt);
        locked.nack(alloc, subscription, delivery)
    }

    /// Gives a delivery back and opens it: each of its numbers is ready again, alone, so that a
    /// later delivery has one of them. A subscriber does so where a delivery of several numbers
    /// conflicts: it then accepts all that apply, and finds the one that doesn't. Returns how many
    /// numbers it has.
    ///
    /// Refuses as the desk's `nack_opened` does.
    pub fn nack_opened<R: Wait>(
        &self,
        rt: &R,
        alloc: Global,
        subscription: &mut Subscription<L>,
        delivery: &Delivery,
    ) -> Result<u64, DeskError>
        ensures ok { OnOk result (subscription.new ≡
            counted_step (with_owner subscription.old subscription.new.owner)) }
        ensures err { OnErr result (subscription.new ≡
            with_owner subscription.old subscription.new.owner) }
        ensures desk { DeskReturns L.limits result (λ p. nack_opened p subscription.old.sub
            delivery.now.link delivery.now.number)
            (step.NackOpened subscription.old.sub delivery.now.link delivery.now.number)
            subscription.old.owner subscription.new.owner }
    {
        let mut locked = self.locked.lock(rt);
        locked.nack_opened(alloc, subscription, delivery)
    }

    /// Makes all deliveries ready again that were taken the timeout ago or earlier. Returns how
    /// many these are. `now` is a tick of the caller's clock.
    pub fn expire<R: Wait>(
        &self,
        rt: &R,
        alloc: Global,
        keeper: &mut Stake<L>,
        now: u64,
    ) -> Result<u64, DeskError>
        ensures { DeskReturns L.limits result (λ p. (Ok (expire p now).0, (expire p now).1))
            (step.Expire now) keeper.old keeper.new }
    {
        let mut locked = self.locked.lock(rt);
        locked.expire(alloc, keeper, now)
    }

    /// Continues a subscription after its cursor, under a new link, which it returns: deliveries
    /// under the old one are stale.
    ///
    /// Refuses as the desk's `reconnect` does.
    pub fn reconnect<R: Wait>(
        &self,
        rt: &R,
        alloc: Global,
        subscription: &mut Subscription<L>,
    ) -> Result<u64, DeskError>
        ensures ok { IfOk result (λ link. subscription.new ≡
            relinked_step link (with_owner subscription.old subscription.new.owner)) }
        ensures err { OnErr result (subscription.new ≡
            with_owner subscription.old subscription.new.owner) }
        ensures desk { DeskReturns L.limits result
            (λ p. reconnect p subscription.old.sub (cursor_of subscription.old))
            (step.Reconnect subscription.old.sub (cursor_of subscription.old))
            subscription.old.owner subscription.new.owner }
    {
        let mut locked = self.locked.lock(rt);
        locked.reconnect(alloc, subscription)
    }

    /// Resumes a subscription that fell, with the tables and the cursor that its durable store has:
    /// it goes on after that cursor, under a new link. It is a reconnection, and counted as one.
    ///
    /// Refuses `OtherState` first of all: the tables and the cursor aren't those from before the
    /// delivery that was being accepted, nor those after it. Then it refuses as the desk's
    /// `reconnect` does. Each refusal hands back the subscription that fell and the tables.
    pub fn resume<R: Wait>(
        &self,
        rt: &R,
        alloc: Global,
        lost: Lost<L>,
        tables: Tables,
        cursor: u64,
    ) -> Result<Subscription<L>, RefusedResume<L>>
        ensures fits { OnOk result (FitsLost lost tables cursor) }
        ensures ok { IfOk result (λ s.
            s ≡ counted_step (with_owner (gone_on lost tables cursor s.link) s.owner)) }
        ensures refused { IfErr result (ResumesNothing lost tables cursor) }
        ensures link { IfOk result (λ s. ReconnectReturns L.limits lost.sub cursor (Ok s.link)
            lost.owner s.owner) }
        ensures desk { IfErr result (λ refused. ReconnectReturns L.limits lost.sub cursor
            (Err refused.why) lost.owner refused.lost.owner) }
    {
        if !lost.fits(&tables, cursor) {
            let why = ResumeError::OtherState;
            return Err(RefusedResume { why, lost, tables });
        }
        let mut locked = self.locked.lock(rt);
        locked.resume(alloc, lost, tables, cursor)
    }

    /// Ends a subscription: nothing is delivered to it any more, and it is closed.
    ///
    /// Refuses as the desk's `unsubscribe` does.
    pub fn unsubscribe<R: Wait>(
        &self,
        rt: &R,
        alloc: Global,
        subscription: &mut Subscription<L>,
    ) -> Result<(), DeskError>
        ensures ok { OnOk result (subscription.new ≡
            ended_step (with_owner subscription.old subscription.new.owner)) }
        ensures err { OnErr result (subscription.new ≡
            with_owner subscription.old subscription.new.owner) }
        ensures desk { DeskReturns L.limits result
            (λ p. unsubscribe p subscription.old.sub subscription.old.link)
            (step.Unsubscribe subscription.old.sub subscription.old.link)
            subscription.old.owner subscription.new.owner }
    {
        let mut locked = self.locked.lock(rt);
        locked.unsubscribe(alloc, subscription)
    }

    /// Hears these subscriptions, which are gone then. Returns how many takings, acknowledgements,
    /// givings back, reconnections and unsubscribings the journal has: it is the sum of the steps
    /// of all subscriptions that the auditor heard. It is no step.
    ///
    /// The auditor has seen the whole history of the broker's steps then: what it had seen before,
    /// and more. Each of these subscriptions had seen all of its own steps in it, with their kinds
    /// and operands.
    ///
    /// Returns `RefusedAudit`, with the subscriptions, exactly if the auditor has not heard all
    /// that were made, with these. The auditor has seen the history all the same.
    pub fn audit<R: Wait>(
        &self,
        rt: &R,
        auditor: &mut Auditor<L>,
        subscriptions: Vec<Subscription<L>>,
    ) -> Result<u64, RefusedAudit<L>>
        ensures sum { IfOk result (λ sum. sum ≡ auditor.new.sum) }
        ensures journal { IfOk result (λ sum.
            sum ≡ counted_steps is_own (steps_made auditor.new.seen)) }
        ensures heard { OnOk result (auditor.new
            ≡ heard_too auditor.old subscriptions.items auditor.new.seen) }
        ensures all { OnOk result (auditor.new.heard ≡ made_after L.limits auditor.new.seen) }
        ensures own { OnOk result (HaveSeenTheirs subscriptions.items auditor.new.seen) }
        ensures missing { IfErr result (λ missing.
            (missing.subscriptions.items ≡ subscriptions.items)
            × (auditor.old.heard + length subscriptions.items
            ≡ made_after L.limits auditor.new.seen → ⊥)) }
        ensures err { OnErr result
            (auditor.new ≡ record auditor.old { seen = auditor.new.seen }) }
        ensures seen { IsPrefix auditor.old.seen auditor.new.seen }
    {
        let mut locked = self.locked.lock(rt);
        locked.audit(auditor, subscriptions)
    }
}
