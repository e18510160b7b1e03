//! What one hold of the broker's lock does for the keeper and for the auditor. No subscription
//! counts a step of the keeper.

ghost use Rattle.std.specs.Prelude.{◌≡◌, ◌+◌, ◌++◌, length, IfErr, IfOk, Ok, OnErr, OnOk};
ghost use mathlib.Core.List.{IsPrefix};
ghost use Rattle.rb_desk.specs.Calls.{expire, take_any};
ghost use Rattle.rb_desk.specs.Journaled.{JournalAnswers, counted_steps, is_own};
ghost use Rattle.rb_desk.specs.declared.step.Step.TheVariants as step;
ghost use Rattle.rb_history.specs.Kept.{count_under};
ghost use Rattle.rb_subscriber.specs.Owner.{OthersSince, has_seen};
ghost use Rattle.rb_subscriber.specs.Register.{HaveSeenTheirs};
ghost use Rattle.rb_broker.specs.Holding.{AreReplays, MakesSubscription, heard_too, own_step};

use crate::brand::BrokerBrand;
use crate::locked::Locked;
use crate::refusal::{RefusedSubscription, SubscribeError};
use cs_apply::Tables;
use rb_desk::laws::{only_subscribe_and_close, steps_are_counted};
use rb_desk::{Delivery, DeskError, Step};
use rb_subscriber::{Auditor, RefusedAudit, Stake, Subscription};
use std::alloc::Global;

impl<L: BrokerBrand> Locked<L> {
    /// The desk's `subscribe`, and the subscription that it numbers.
    pub(crate) fn subscribe(
        &mut self,
        alloc: Global,
        keeper: &mut Stake<L>,
        tables: Tables,
        start: u64,
    ) -> Result<Subscription<L>, RefusedSubscription>
        ensures made { MakesSubscription result tables start self.old.desk self.new.desk }
        ensures held { AreReplays L.limits self.old.desk self.old.history.log self.new.desk
            self.new.history.log }
        ensures others { OthersSince keeper.old self.old.history.log }
        ensures log { self.new.history.log ≡ self.old.history.log
            ++ own_step result keeper.old.number (step.Subscribe start) }
        ensures seen { keeper.new ≡ has_seen keeper.old self.new.history.log }
        ensures own { IfOk result (λ s. (s.owner.seen ≡ keeper.new.seen)
            × (count_under s.owner.number keeper.new.seen ≡ 0)) }
    {
        steps_are_counted();
        only_subscribe_and_close();
        let _few = self.desk.steps();
        keeper.catch_up(&mut self.history);
        match self.desk.subscribe(alloc, start) {
            Ok((sub, link)) => {
                let _steps = self.desk.steps();
                let own = keeper.enroll(&mut self.history, &Step::Subscribe { start });
                let register = &mut self.register;
                Ok(register.subscribe(alloc, sub, link, start, tables, own))
            }
            Err(error) => Err(RefusedSubscription {
                why: SubscribeError::Desk(error),
                tables,
            }),
        }
    }

    /// The desk's `take_any`.
    pub(crate) fn take_any(
        &mut self,
        alloc: Global,
        keeper: &mut Stake<L>,
        now: u64,
    ) -> Result<Delivery, DeskError>
        ensures desk { JournalAnswers result (take_any self.old.desk.picture now)
            (step.TakeAny now) self.old.desk self.new.desk }
        ensures held { AreReplays L.limits self.old.desk self.old.history.log self.new.desk
            self.new.history.log }
        ensures others { OthersSince keeper.old self.old.history.log }
        ensures log { self.new.history.log ≡ self.old.history.log
            ++ own_step result keeper.old.number (step.TakeAny now) }
        ensures seen { keeper.new ≡ has_seen keeper.old self.new.history.log }
    {
        steps_are_counted();
        only_subscribe_and_close();
        let _few = self.desk.steps();
        keeper.catch_up(&mut self.history);
        let delivery = self.desk.take_any(alloc, now)?;
        let _steps = self.desk.steps();
        keeper.append(&mut self.history, &Step::TakeAny { now });
        Ok(delivery)
    }

    /// The desk's `expire`.
    pub(crate) fn expire(
        &mut self,
        alloc: Global,
        keeper: &mut Stake<L>,
        now: u64,
    ) -> Result<u64, DeskError>
        ensures desk { JournalAnswers result
            (Ok (expire self.old.desk.picture now).0, (expire self.old.desk.picture now).1)
            (step.Expire now) self.old.desk self.new.desk }
        ensures held { AreReplays L.limits self.old.desk self.old.history.log self.new.desk
            self.new.history.log }
        ensures others { OthersSince keeper.old self.old.history.log }
        ensures log { self.new.history.log ≡ self.old.history.log
            ++ own_step result keeper.old.number (step.Expire now) }
        ensures seen { keeper.new ≡ has_seen keeper.old self.new.history.log }
    {
        steps_are_counted();
        only_subscribe_and_close();
        let _few = self.desk.steps();
        keeper.catch_up(&mut self.history);
        let count = self.desk.expire(alloc, now)?;
        let _steps = self.desk.steps();
        keeper.append(&mut self.history, &Step::Expire { now });
        Ok(count)
    }

    /// The register's `audit`: how many steps of the subscriptions' own the journal has. The
    /// auditor has seen the history then, and each subscription had seen all of its own steps.
    pub(crate) fn audit(
        &mut self,
        auditor: &mut Auditor<L>,
        subscriptions: Vec<Subscription<L>>,
    ) -> Result<u64, RefusedAudit<L>>
        ensures journal { IfOk result (λ sum. sum ≡ counted_steps is_own self.old.desk.steps) }
        ensures sum { IfOk result (λ sum. sum ≡ auditor.new.sum) }
        ensures heard { OnOk result (auditor.new
            ≡ heard_too auditor.old subscriptions.items self.old.history.log) }
        ensures made { OnOk result
            (auditor.new.heard ≡ length self.old.desk.picture.subscriptions) }
        ensures own { OnOk result (HaveSeenTheirs subscriptions.items self.old.history.log) }
        ensures err { OnErr result
            (auditor.new ≡ record auditor.old { seen = self.old.history.log }) }
        ensures missing { IfErr result (λ missing.
            (missing.subscriptions.items ≡ subscriptions.items)
            × (auditor.old.heard + length subscriptions.items
            ≡ length self.old.desk.picture.subscriptions → ⊥)) }
        ensures grows { IsPrefix auditor.old.seen self.old.history.log }
        ensures seen { auditor.new.seen ≡ self.old.history.log }
        ensures held { AreReplays L.limits self.old.desk self.old.history.log self.new.desk
            self.new.history.log }
        ensures same { (self.new.desk ≡ self.old.desk)
            × (self.new.history.log ≡ self.old.history.log) }
    {
        steps_are_counted();
        let _few = self.desk.steps();
        let (register, all) = (&mut self.register, &mut self.history);
        register.audit(auditor, subscriptions, all)
    }
}
