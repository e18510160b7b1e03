//! Calls that deliver numbers to subscriptions.

ghost use Rattle.std.specs.Prelude.{◌≡◌, ℕ, max, OnErr, OnOk, Some, slice_get};
ghost use Rattle.rb_deliveries.specs.Changes.{MayDeliver};
ghost use Rattle.rb_deliveries.specs.Picture.{Subscription};
ghost use Rattle.rb_desk.specs.Calls.{delivered_picture, delivery_from, take, take_any};
ghost use Rattle.rb_desk.specs.Answers.{DeskAnswers, call_refusal};
ghost use Rattle.rb_desk.specs.Picture.{deliveries_of};
ghost use Rattle.rb_desk.specs.Shown.{AreLeft, Draws, FindsToTake};

use crate::board::{Board, Caller};
use crate::delivery::Delivery;
use crate::refusal::{DeskError, DeskRefusal};
use rb_deliveries::Span;
use std::alloc::AllocError;

impl Board {
    /// Delivers a subscription's ready span with the lowest numbers; it is in flight from now on.
    /// `cursor` is the last number that the subscriber has accepted. `now` is a tick of the
    /// caller's clock; the desk's clock is the greatest tick so far.
    ///
    /// Refuses `NoSuch`, `StaleLink`, `Closed`, `WindowFull`. If nothing is ready, refuses
    /// `Drained` if the sequence is closed and all of it is settled, else `Empty`.
    #[tactic(auto, unfolding(crate::specs::Calls::take))]
    pub(crate) fn take(
        &mut self,
        caller: Caller,
        cursor: u64,
        now: u64,
    ) -> Result<Delivery, DeskError>
        requires { AreLeft 0 self.old }
        ensures answer { DeskAnswers result
            (take self.old.picture caller.sub caller.link cursor now)
            self.old.picture self.new.picture }
        ensures err { OnErr result (self.new ≡ self.old) }
        ensures draws { Draws 0 self.old self.new }
    {
        let span = self.to_take(caller, cursor)?;
        Ok(self.deliver(caller, span, now)?)
    }

    /// Why `take` would refuse these numbers, or `None` where it would not. Does not change the
    /// desk.
    pub(crate) fn refuses_take(&self, caller: Caller, cursor: u64) -> Option<DeskRefusal>
        ensures { (now : ℕ) → result
            ≡ call_refusal (take self.now.picture caller.sub caller.link cursor now).0 }
    {
        self.to_take(caller, cursor).err()
    }

    /// Delivers the first span in the ready order whose subscription has room in its window. `now`
    /// is as in `take`.
    ///
    /// Refuses `Empty` if there is none.
    #[tactic(auto, unfolding(crate::specs::Calls::take_any))]
    pub(crate) fn take_any(&mut self, now: u64) -> Result<Delivery, DeskError>
        requires { AreLeft 0 self.old }
        ensures answer { DeskAnswers result (take_any self.old.picture now)
            self.old.picture self.new.picture }
        ensures err { OnErr result (self.new ≡ self.old) }
        ensures draws { Draws 0 self.old self.new }
    {
        let Some((sub, span)) = self.deliveries.first_of_all() else {
            let front = self.deliveries.front();
            return Err(DeskRefusal::Empty { front }.into());
        };
        let link = match self.deliveries.get(sub) {
            Some(found) => found.link(),
            None => unreachable!(),
        };
        Ok(self.deliver(Caller { sub, link }, span, now)?)
    }

    /// Why `take_any` would refuse, or `None` where it would not. Does not change the desk.
    pub(crate) fn refuses_take_any(&self) -> Option<DeskRefusal>
        ensures { (now : ℕ) → result ≡ call_refusal (take_any self.now.picture now).0 }
    {
        match self.deliveries.first_of_all() {
            Some(_) => None,
            None => Some(DeskRefusal::Empty {
                front: self.deliveries.front(),
            }),
        }
    }
}

impl Board {
    // the span that `take` delivers, or why it refuses
    #[tactic(auto, unfolding(crate::specs::Calls::take))]
    fn to_take(&self, caller: Caller, cursor: u64) -> Result<Span, DeskRefusal>
        ensures { FindsToTake result self.now.picture caller.sub caller.link cursor }
    {
        let found = self.linked(caller)?;
        if found.closed() {
            return Err(DeskRefusal::Closed);
        }
        if found.in_flight() >= self.config.window() {
            return Err(DeskRefusal::WindowFull);
        }
        if let Some(span) = found.first_ready() {
            return Ok(span);
        }
        if let Some(last) = self.closing {
            if found.is_empty() && cursor == last {
                return Err(DeskRefusal::Drained { last });
            }
        }
        Err(DeskRefusal::Empty {
            front: self.deliveries.front(),
        })
    }

    // Delivers a span to the caller's subscription, which has this link.
    fn deliver(&mut self, caller: Caller, span: Span, now: u64) -> Result<Delivery, AllocError>
        requires left { AreLeft 0 self.old }
        requires may { MayDeliver (deliveries_of self.old.picture) caller.sub span }
        requires linked { (q : Subscription)
            → slice_get self.old.picture.subscriptions caller.sub ≡ Some q → caller.link ≡ q.link }
        ensures ok { (delivery : Delivery) → result ≡ Ok delivery
            → (q : Subscription) → slice_get self.old.picture.subscriptions caller.sub ≡ Some q
            → (delivery ≡ delivery_from self.old.picture caller.sub q span)
            × (self.new.picture ≡ delivered_picture self.old.picture caller.sub q span
            (max self.old.picture.clock now)) }
        ensures err { OnErr result (self.new ≡ self.old) }
        ensures draws { Draws 0 self.old self.new }
    {
        let tick = self.clock.max(now);
        let number = self.deliveries.deliver(caller.sub, span, tick)?;
        self.clock = tick;
        Ok(Delivery::of(number, caller.sub, caller.link, span))
    }
}
