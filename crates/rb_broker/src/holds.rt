//! What one hold of the broker's lock does for a subscription: the desk's call, the count of the
//! step, and its place in the history.

ghost use Rattle.std.specs.Prelude.{◌≡◌, ◌+◌, ◌++◌, ◌∷◌, [], ◌<◌, ◌^◌, IfErr, IfOk, OnErr, OnOk};
ghost use Rattle.rb_desk.specs.Calls.{ack, nack, nack_opened, reconnect, take, unsubscribe};
ghost use Rattle.rb_desk.specs.Journaled.{IsReplay, JournalAnswers};
ghost use Rattle.rb_desk.specs.declared.step.Step.TheVariants as step;
ghost use Rattle.rb_subscriber.specs.Lost.{FitsLost};
ghost use Rattle.rb_subscriber.specs.Owner.{OthersSince, has_seen};
ghost use Rattle.rb_subscriber.specs.Subscription.{cursor_of, with_owner};
ghost use Rattle.rb_broker.specs.Holding.{AreReplays, IsAtEnd, ShowsDrained, counted_step};
ghost use Rattle.rb_broker.specs.Holding.{desk_answer, desk_error, ended_step, own_step};
ghost use Rattle.rb_broker.specs.Holding.{relinked_step};
ghost use Rattle.rb_broker.specs.Resuming.{ResumesAsDesk};

use crate::brand::BrokerBrand;
use crate::locked::Locked;
use crate::refusal::{RefusedResume, ResumeError, TakeError};
use cs_apply::Tables;
use rb_desk::laws::{
    drained_is_at_the_end, only_subscribe_and_close, steps_are_counted, takes_are_as_asked,
};
use rb_desk::{Delivery, Desk, DeskError, DeskRefusal, Step};
use rb_history::Chronicle;
use rb_subscriber::{Lost, Register, Subscription};
use std::alloc::Global;

impl<L: BrokerBrand> Locked<L> {
    /// The desk's `take` for a subscription, at its cursor.
    pub(crate) fn take(
        &mut self,
        alloc: Global,
        subscription: &mut Subscription<L>,
        now: u64,
    ) -> Result<Delivery, TakeError>
        ensures desk { JournalAnswers (desk_answer result)
            (take self.old.desk.picture subscription.old.sub subscription.old.link
            (cursor_of subscription.old) now)
            (step.Take subscription.old.sub subscription.old.link (cursor_of subscription.old) now)
            self.old.desk self.new.desk }
        ensures held { AreReplays L.limits self.old.desk self.old.history.log self.new.desk
            self.new.history.log }
        ensures others { OthersSince subscription.old.owner self.old.history.log }
        ensures log { self.new.history.log ≡ self.old.history.log
            ++ own_step (desk_answer result) subscription.old.owner.number
            (step.Take subscription.old.sub subscription.old.link (cursor_of
            subscription.old) now) }
        ensures seen { subscription.new.owner
            ≡ has_seen subscription.old.owner self.new.history.log }
        ensures ok { OnOk result (subscription.new ≡
            counted_step (with_owner subscription.old subscription.new.owner)) }
        ensures err { OnErr result (subscription.new ≡
            with_owner subscription.old subscription.new.owner) }
        ensures of { IfOk result (λ delivery. (delivery.sub ≡ subscription.old.sub)
            × (delivery.link ≡ subscription.old.link)) }
        ensures drained { IfErr result (ShowsDrained L.cells (cursor_of subscription.old)) }
    {
        steps_are_counted();
        only_subscribe_and_close();
        takes_are_as_asked();
        drained_is_at_the_end();
        let _few = self.desk.steps();
        subscription.catch_up(&mut self.history);
        let (sub, link, cursor) = (
            subscription.sub(),
            subscription.link(),
            subscription.cursor(),
        );
        match self.desk.take(alloc, sub, link, cursor, now) {
            Ok(delivery) => {
                let step = Step::Take {
                    sub,
                    link,
                    cursor,
                    now,
                };
                note(
                    &self.desk,
                    &mut self.register,
                    &mut self.history,
                    subscription,
                    &step,
                );
                Ok(delivery)
            }
            Err(error) => Err(self.take_error(error, cursor)),
        }
    }

    // why nothing is delivered, with the token of the closing cell
    fn take_error(&self, error: DeskError, _cursor: u64) -> TakeError
        requires { IsAtEnd _cursor self.now.desk.picture.closing error }
        ensures same { desk_error result ≡ error }
        ensures drained { ShowsDrained L.cells _cursor result }
    {
        match (error, &self.closing) {
            (DeskError::Refused(DeskRefusal::Drained { .. }), Some(told)) => {
                TakeError::Drained(told.again())
            }
            (error, _) => TakeError::Desk(error),
        }
    }

    /// The desk's `ack` of a delivery, for a subscription at its cursor.
    pub(crate) fn ack(
        &mut self,
        alloc: Global,
        subscription: &mut Subscription<L>,
        delivery: &Delivery,
    ) -> Result<u64, DeskError>
        ensures desk { JournalAnswers result (ack self.old.desk.picture subscription.old.sub
            delivery.now.link delivery.now.number (cursor_of subscription.old))
            (step.Ack subscription.old.sub delivery.now.link delivery.now.number
            (cursor_of subscription.old))
            self.old.desk self.new.desk }
        ensures held { AreReplays L.limits self.old.desk self.old.history.log self.new.desk
            self.new.history.log }
        ensures others { OthersSince subscription.old.owner self.old.history.log }
        ensures log { self.new.history.log ≡ self.old.history.log
            ++ own_step result subscription.old.owner.number
            (step.Ack subscription.old.sub delivery.now.link delivery.now.number (cursor_of
            subscription.old)) }
        ensures seen { subscription.new.owner
            ≡ has_seen subscription.old.owner self.new.history.log }
        ensures ok { OnOk result (subscription.new ≡
            counted_step (with_owner subscription.old subscription.new.owner)) }
        ensures err { OnErr result (subscription.new ≡
            with_owner subscription.old subscription.new.owner) }
    {
        steps_are_counted();
        only_subscribe_and_close();
        let _few = self.desk.steps();
        subscription.catch_up(&mut self.history);
        let (sub, cursor) = (subscription.sub(), subscription.cursor());
        let (link, number) = (delivery.link(), delivery.number());
        let floor = self.desk.ack(alloc, sub, link, number, cursor)?;
        let step = Step::Ack {
            sub,
            link,
            delivery: number,
            cursor,
        };
        note(
            &self.desk,
            &mut self.register,
            &mut self.history,
            subscription,
            &step,
        );
        Ok(floor)
    }

    /// The desk's `nack` of a delivery, for a subscription.
    pub(crate) fn nack(
        &mut self,
        alloc: Global,
        subscription: &mut Subscription<L>,
        delivery: &Delivery,
    ) -> Result<(), DeskError>
        ensures desk { JournalAnswers result (nack self.old.desk.picture subscription.old.sub
            delivery.now.link delivery.now.number)
            (step.Nack subscription.old.sub delivery.now.link delivery.now.number)
            self.old.desk self.new.desk }
        ensures held { AreReplays L.limits self.old.desk self.old.history.log self.new.desk
            self.new.history.log }
        ensures others { OthersSince subscription.old.owner self.old.history.log }
        ensures log { self.new.history.log ≡ self.old.history.log
            ++ own_step result subscription.old.owner.number
            (step.Nack subscription.old.sub delivery.now.link delivery.now.number) }
        ensures seen { subscription.new.owner
            ≡ has_seen subscription.old.owner self.new.history.log }
        ensures ok { OnOk result (subscription.new ≡
            counted_step (with_owner subscription.old subscription.new.owner)) }
        ensures err { OnErr result (subscription.new ≡
            with_owner subscription.old subscription.new.owner) }
    {
        steps_are_counted();
        only_subscribe_and_close();
        let _few = self.desk.steps();
        subscription.catch_up(&mut self.history);
        let sub = subscription.sub();
        let (link, number) = (delivery.link(), delivery.number());
        self.desk.nack(alloc, sub, link, number)?;
        let step = Step::Nack {
            sub,
            link,
            delivery: number,
        };
        note(
            &self.desk,
            &mut self.register,
            &mut self.history,
            subscription,
            &step,
        );
        Ok(())
    }

    /// The desk's `nack_opened` of a delivery, for a subscription.
    pub(crate) fn nack_opened(
        &mut self,
        alloc: Global,
        subscription: &mut Subscription<L>,
        delivery: &Delivery,
    ) -> Result<u64, DeskError>
        ensures desk { JournalAnswers result (nack_opened self.old.desk.picture
            subscription.old.sub delivery.now.link delivery.now.number)
            (step.NackOpened subscription.old.sub delivery.now.link delivery.now.number)
            self.old.desk self.new.desk }
        ensures held { AreReplays L.limits self.old.desk self.old.history.log self.new.desk
            self.new.history.log }
        ensures others { OthersSince subscription.old.owner self.old.history.log }
        ensures log { self.new.history.log ≡ self.old.history.log
            ++ own_step result subscription.old.owner.number
            (step.NackOpened subscription.old.sub delivery.now.link delivery.now.number) }
        ensures seen { subscription.new.owner
            ≡ has_seen subscription.old.owner self.new.history.log }
        ensures ok { OnOk result (subscription.new ≡
            counted_step (with_owner subscription.old subscription.new.owner)) }
        ensures err { OnErr result (subscription.new ≡
            with_owner subscription.old subscription.new.owner) }
    {
        steps_are_counted();
        only_subscribe_and_close();
        let _few = self.desk.steps();
        subscription.catch_up(&mut self.history);
        let sub = subscription.sub();
        let (link, number) = (delivery.link(), delivery.number());
        let count = self.desk.nack_opened(alloc, sub, link, number)?;
        let step = Step::NackOpened {
            sub,
            link,
            delivery: number,
        };
        note(
            &self.desk,
            &mut self.register,
            &mut self.history,
            subscription,
            &step,
        );
        Ok(count)
    }

    /// The desk's `reconnect` of a subscription, at its cursor. It has the new link then.
    pub(crate) fn reconnect(
        &mut self,
        alloc: Global,
        subscription: &mut Subscription<L>,
    ) -> Result<u64, DeskError>
        ensures desk { JournalAnswers result (reconnect self.old.desk.picture
            subscription.old.sub (cursor_of subscription.old))
            (step.Reconnect subscription.old.sub (cursor_of subscription.old))
            self.old.desk self.new.desk }
        ensures held { AreReplays L.limits self.old.desk self.old.history.log self.new.desk
            self.new.history.log }
        ensures others { OthersSince subscription.old.owner self.old.history.log }
        ensures log { self.new.history.log ≡ self.old.history.log
            ++ own_step result subscription.old.owner.number
            (step.Reconnect subscription.old.sub (cursor_of subscription.old)) }
        ensures seen { subscription.new.owner
            ≡ has_seen subscription.old.owner self.new.history.log }
        ensures ok { IfOk result (λ link. subscription.new ≡
            relinked_step link (with_owner subscription.old subscription.new.owner)) }
        ensures err { OnErr result (subscription.new ≡
            with_owner subscription.old subscription.new.owner) }
    {
        steps_are_counted();
        only_subscribe_and_close();
        let _few = self.desk.steps();
        subscription.catch_up(&mut self.history);
        let (sub, cursor) = (subscription.sub(), subscription.cursor());
        let link = self.desk.reconnect(alloc, sub, cursor)?;
        let step = Step::Reconnect { sub, cursor };
        note(
            &self.desk,
            &mut self.register,
            &mut self.history,
            subscription,
            &step,
        );
        self.register.relink(subscription, link);
        Ok(link)
    }

    /// The desk's `reconnect` of a subscription that fell, at this cursor. It goes on with these
    /// tables then.
    pub(crate) fn resume(
        &mut self,
        alloc: Global,
        lost: Lost<L>,
        tables: Tables,
        cursor: u64,
    ) -> Result<Subscription<L>, RefusedResume<L>>
        requires { FitsLost lost tables cursor }
        ensures made { ResumesAsDesk result lost tables cursor self.old.desk self.new.desk }
        ensures held { AreReplays L.limits self.old.desk self.old.history.log self.new.desk
            self.new.history.log }
        ensures others { OthersSince lost.owner self.old.history.log }
        ensures log { self.new.history.log ≡ self.old.history.log
            ++ own_step result lost.owner.number (step.Reconnect lost.sub cursor) }
        ensures ok { IfOk result (λ s. s.owner ≡ has_seen lost.owner self.new.history.log) }
        ensures err { IfErr result (λ refused.
            refused.lost.owner ≡ has_seen lost.owner self.new.history.log) }
    {
        steps_are_counted();
        only_subscribe_and_close();
        let _few = self.desk.steps();
        let mut lost = lost;
        lost.catch_up(&mut self.history);
        let sub = lost.sub();
        match self.desk.reconnect(alloc, sub, cursor) {
            Ok(link) => {
                let mut subscription = self.register.resume(lost, tables, cursor, link);
                let step = Step::Reconnect { sub, cursor };
                note(
                    &self.desk,
                    &mut self.register,
                    &mut self.history,
                    &mut subscription,
                    &step,
                );
                Ok(subscription)
            }
            Err(error) => Err(RefusedResume {
                why: ResumeError::Desk(error),
                lost,
                tables,
            }),
        }
    }

    /// The desk's `unsubscribe` of a subscription, which is closed then.
    pub(crate) fn unsubscribe(
        &mut self,
        alloc: Global,
        subscription: &mut Subscription<L>,
    ) -> Result<(), DeskError>
        ensures desk { JournalAnswers result (unsubscribe self.old.desk.picture
            subscription.old.sub subscription.old.link)
            (step.Unsubscribe subscription.old.sub subscription.old.link)
            self.old.desk self.new.desk }
        ensures held { AreReplays L.limits self.old.desk self.old.history.log self.new.desk
            self.new.history.log }
        ensures others { OthersSince subscription.old.owner self.old.history.log }
        ensures log { self.new.history.log ≡ self.old.history.log
            ++ own_step result subscription.old.owner.number
            (step.Unsubscribe subscription.old.sub subscription.old.link) }
        ensures seen { subscription.new.owner
            ≡ has_seen subscription.old.owner self.new.history.log }
        ensures ok { OnOk result (subscription.new ≡
            ended_step (with_owner subscription.old subscription.new.owner)) }
        ensures err { OnErr result (subscription.new ≡
            with_owner subscription.old subscription.new.owner) }
    {
        steps_are_counted();
        only_subscribe_and_close();
        let _few = self.desk.steps();
        subscription.catch_up(&mut self.history);
        let (sub, link) = (subscription.sub(), subscription.link());
        self.desk.unsubscribe(alloc, sub, link)?;
        let step = Step::Unsubscribe { sub, link };
        note(
            &self.desk,
            &mut self.register,
            &mut self.history,
            subscription,
            &step,
        );
        subscription.close();
        Ok(())
    }
}

// Counts a step that the desk has made for a subscription, and adds it to the history. The
// subscription has seen all steps before it.
fn note<L: BrokerBrand>(
    desk: &Desk,
    register: &mut Register<L>,
    all: &mut Chronicle<Step>,
    subscription: &mut Subscription<L>,
    step: &Step,
)
    requires room { register.old.total + 1 < 2 ^ 64 }
    requires name { all.old.name ≡ L.history }
    requires seen { subscription.old.owner.seen ≡ all.old.log }
    ensures replays { IsReplay desk.now }
    ensures total { register.new ≡ record register.old { total = register.old.total + 1 } }
    ensures name { all.new.name ≡ all.old.name }
    ensures log { all.new.log ≡
        all.old.log ++ (subscription.old.owner.number, step.now) ∷ [] }
    ensures subscription { subscription.new ≡ counted_step
        (with_owner subscription.old (has_seen subscription.old.owner all.new.log)) }
{
    let _steps = desk.steps();
    register.count(subscription);
    subscription.append(all, step);
}
