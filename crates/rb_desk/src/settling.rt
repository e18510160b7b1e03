//! Calls that end a delivery: acknowledge, negatively acknowledge, open, expire.

ghost use Rattle.std.specs.Prelude.{◌≡◌, OnErr};
ghost use Rattle.rb_desk.specs.Calls.{ack, nack, nack_opened, expire};
ghost use Rattle.rb_desk.specs.Answers.{DeskAnswers, call_refusal};
ghost use Rattle.rb_desk.specs.Shown.{AreLeft, Draws, FindsInFlight, FindsToAck};

use crate::board::{Board, Caller};
use crate::refusal::{DeskError, DeskRefusal};
use rb_deliveries::Span;

impl Board {
    /// Settles a delivery's numbers. The subscriber must have accepted all of them; `cursor` is the
    /// last number that it accepted. Returns the floor, up to which everything is settled now.
    ///
    /// Refuses `NoSuch`, `StaleLink`, `NotInFlight`, `NotAccepted`.
    #[tactic(auto, unfolding(crate::specs::Calls::ack))]
    pub(crate) fn ack(
        &mut self,
        caller: Caller,
        delivery: u64,
        cursor: u64,
    ) -> Result<u64, DeskRefusal>
        ensures answer { ack self.old.picture caller.sub caller.link delivery cursor
            ≡ (result, self.new.picture) }
        ensures err { OnErr result (self.new ≡ self.old) }
        ensures draws { Draws 0 self.old self.new }
    {
        let span = self.to_ack(caller, delivery, cursor)?;
        Ok(self.deliveries.ack(caller.sub, span))
    }

    /// Why `ack` would refuse these numbers, or `None` where it would not.
    pub(crate) fn refuses_ack(
        &self,
        caller: Caller,
        delivery: u64,
        cursor: u64,
    ) -> Option<DeskRefusal>
        ensures { result
            ≡ call_refusal (ack self.now.picture caller.sub caller.link delivery cursor).0 }
    {
        self.to_ack(caller, delivery, cursor).err()
    }

    /// Negatively acknowledges a delivery: its numbers are ready again, after all that are ready.
    /// Does not allocate.
    ///
    /// Refuses `NoSuch`, `StaleLink`, `NotInFlight`.
    #[tactic(auto, unfolding(crate::specs::Calls::nack))]
    pub(crate) fn nack(&mut self, caller: Caller, delivery: u64) -> Result<(), DeskRefusal>
        requires { AreLeft 1 self.old }
        ensures answer { nack self.old.picture caller.sub caller.link delivery
            ≡ (result, self.new.picture) }
        ensures err { OnErr result (self.new ≡ self.old) }
        ensures draws { Draws 1 self.old self.new }
    {
        let span = self.in_flight(caller, delivery)?;
        self.deliveries.nack(caller.sub, span);
        Ok(())
    }

    /// Why `nack` would refuse these numbers, or `None` where it would not.
    pub(crate) fn refuses_nack(&self, caller: Caller, delivery: u64) -> Option<DeskRefusal>
        ensures { result ≡ call_refusal (nack self.now.picture caller.sub caller.link delivery).0 }
    {
        self.in_flight(caller, delivery).err()
    }

    /// Negatively acknowledges a delivery and opens it: each of its numbers is ready again, alone,
    /// after all that are ready, by rising number. Returns how many numbers it has.
    ///
    /// Refuses `NoSuch`, `StaleLink`, `NotInFlight`.
    #[tactic(auto, unfolding(crate::specs::Calls::nack_opened))]
    pub(crate) fn nack_opened(&mut self, caller: Caller, delivery: u64) -> Result<u64, DeskError>
        requires { AreLeft self.old.picture.front self.old }
        ensures answer { DeskAnswers result
            (nack_opened self.old.picture caller.sub caller.link delivery)
            self.old.picture self.new.picture }
        ensures err { OnErr result (self.new ≡ self.old) }
        ensures draws { Draws self.old.picture.front self.old self.new }
    {
        let span = self.in_flight(caller, delivery)?;
        Ok(self.deliveries.nack_opened(caller.sub, span)?)
    }

    /// Why `nack_opened` would refuse these numbers, or `None` where it would not.
    pub(crate) fn refuses_nack_opened(&self, caller: Caller, delivery: u64) -> Option<DeskRefusal>
        ensures { result
            ≡ call_refusal (nack_opened self.now.picture caller.sub caller.link delivery).0 }
    {
        self.in_flight(caller, delivery).err()
    }

    /// Expires every delivery that has been out for `timeout` ticks or longer, in the order they
    /// were taken: its numbers are ready again. `now` is a tick of the caller's clock; the desk's
    /// clock is the greatest tick so far. Returns how many deliveries expired.
    ///
    /// Does not allocate, and refuses nothing.
    #[tactic(auto, unfolding(crate::specs::Calls::expire))]
    pub(crate) fn expire(&mut self, now: u64) -> u64
        requires { AreLeft self.old.picture.next_delivery self.old }
        ensures answer { expire self.old.picture now ≡ (result, self.new.picture) }
        ensures draws { Draws self.old.picture.next_delivery self.old self.new }
    {
        let clock = self.clock.max(now);
        self.clock = clock;
        self.deliveries.expire(self.config.timeout(), clock)
    }
}

impl Board {
    // the span that is in flight to the subscription as this delivery, or why there is none
    #[tactic(auto, unfolding(crate::specs::Calls::ack, crate::specs::Calls::nack, crate::specs::Calls::nack_opened))]
    fn in_flight(&self, caller: Caller, delivery: u64) -> Result<Span, DeskRefusal>
        ensures { FindsInFlight result self.now.picture caller.sub caller.link delivery }
    {
        let found = self.linked(caller)?;
        match found.out_as(delivery) {
            Some(span) => Ok(span),
            None => Err(DeskRefusal::NotInFlight),
        }
    }

    // the span that `ack` settles, or why it refuses
    #[tactic(auto, unfolding(crate::specs::Calls::ack))]
    fn to_ack(&self, caller: Caller, delivery: u64, cursor: u64) -> Result<Span, DeskRefusal>
        ensures { FindsToAck result self.now.picture caller.sub caller.link delivery cursor }
    {
        let span = self.in_flight(caller, delivery)?;
        if cursor < span.last {
            return Err(DeskRefusal::NotAccepted { cursor });
        }
        Ok(span)
    }
}
