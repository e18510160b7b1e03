//! Events of deliveries: accept, crash, acknowledge, negatively acknowledge, expire.

ghost use Rattle.std.specs.Prelude.{◌≡◌, ℕ, IfOk, IfSome, OnErr, Some};
ghost use Rattle.std.specs.Option.{option_copied};
ghost use Rattle.rb_core.specs.Outcome.{delivery_of, opened_for};
ghost use Rattle.rb_core.specs.Memory.{MayRunOut};
ghost use Rattle.rb_core.specs.Outcome as outcome;
ghost use Rattle.rb_core.specs.declared.event.Event.TheVariants as event;
ghost use Rattle.rb_core.specs.State.{IsOf, IsWorld};
ghost use Rattle.rb_sequence.specs.Items.{AreNumbered};

use crate::parts::Parts;
use crate::reply::{BrokerRefusal, Reply};
use crate::world::refused;
use rb_desk::{Delivery, DeskError};
use rb_subscriber::AcceptError;
use std::alloc::{AllocError, Global};

impl Parts {
    // the delivery with this number
    fn delivery(&self, number: u64) -> Option<&Delivery>
        requires { AreNumbered (λ d. d.number) 1 self.now.deliveries }
        ensures { option_copied result ≡ delivery_of self.now number }
    {
        let place = number.checked_sub(1)?;
        self.deliveries.get(place as usize)
    }

    // the same by value; its subscription exists, and its numbers are placed
    fn known(&self, number: u64) -> Option<Delivery>
        requires { IsWorld self.now }
        ensures value { result ≡ delivery_of self.now number }
        ensures of { IfSome result (IsOf self.now.endpoints self.now.sequence) }
    {
        self.delivery(number).copied()
    }

    /// Applies a delivery's entries to its subscription's tables.
    pub(crate) fn accept(&mut self, alloc: Global, delivery: u64) -> Result<Reply, AllocError>
        requires { IsWorld self.old }
        ensures ok { IfOk result (λ reply. outcome.accepted self.old delivery ≡ (reply, self.new)) }
        ensures err { OnErr result (self.new ≡ self.old) }
        ensures memory { OnErr result (MayRunOut self.old (event.Accept delivery)
            (outcome.accepted self.old delivery).0) }
    {
        let Some(delivery) = self.known(delivery) else {
            return refused(BrokerRefusal::NoDelivery);
        };
        let subscription = delivery.sub();
        let end = &mut self.endpoints[subscription as usize];
        let cursor = match end.accept(alloc, &self.sequence, &delivery) {
            Ok(cursor) => cursor,
            Err(AcceptError::Refused(why)) => return Ok(Reply::Refused(BrokerRefusal::Accept(why))),
            Err(AcceptError::Memory) => return Err(AllocError),
        };
        Ok(Reply::Accepted {
            subscription,
            cursor,
        })
    }

    /// Lets a delivery's subscription fall while it applies the delivery's entries.
    pub(crate) fn crash(
        &mut self,
        alloc: Global,
        delivery: u64,
        kept: bool,
    ) -> Result<Reply, AllocError>
        requires { IsWorld self.old }
        ensures ok { IfOk result (λ reply.
            outcome.crashed self.old delivery kept ≡ (reply, self.new)) }
        ensures err { OnErr result (self.new ≡ self.old) }
        ensures memory { OnErr result (MayRunOut self.old (event.Crash delivery kept)
            (outcome.crashed self.old delivery kept).0) }
    {
        let Some(delivery) = self.known(delivery) else {
            return refused(BrokerRefusal::NoDelivery);
        };
        let subscription = delivery.sub();
        let end = &mut self.endpoints[subscription as usize];
        let cursor = match end.crash(alloc, &self.sequence, &delivery, kept) {
            Ok(cursor) => cursor,
            Err(AcceptError::Refused(why)) => return Ok(Reply::Refused(BrokerRefusal::Accept(why))),
            Err(AcceptError::Memory) => return Err(AllocError),
        };
        Ok(Reply::Crashed {
            subscription,
            cursor,
        })
    }

    /// Settles a delivery's entries. Its subscription must have accepted all of them.
    pub(crate) fn ack(&mut self, delivery: u64) -> Reply
        requires { IsWorld self.old }
        ensures { outcome.acked self.old delivery ≡ (result, self.new) }
    {
        let Some(delivery) = self.known(delivery) else {
            return Reply::Refused(BrokerRefusal::NoDelivery);
        };
        let sub = delivery.sub();
        let cursor = self.endpoints[sub as usize].cursor();
        match self
            .desk
            .ack(sub, delivery.link(), delivery.number(), cursor)
        {
            Ok(floor) => Reply::Floor(floor),
            Err(why) => Reply::Refused(BrokerRefusal::Desk(why)),
        }
    }

    /// Negatively acknowledges a delivery: its entries are ready again. Does not allocate.
    pub(crate) fn nack(&mut self, delivery: u64) -> Reply
        requires { IsWorld self.old }
        ensures { outcome.nacked self.old delivery ≡ (result, self.new) }
    {
        let Some(delivery) = self.known(delivery) else {
            return Reply::Refused(BrokerRefusal::NoDelivery);
        };
        match self
            .desk
            .nack(delivery.sub(), delivery.link(), delivery.number())
        {
            Ok(()) => Reply::Returned,
            Err(why) => Reply::Refused(BrokerRefusal::Desk(why)),
        }
    }

    /// Negatively acknowledges a delivery and opens it: each of its entries is ready again, alone.
    pub(crate) fn nack_opened(&mut self, delivery: u64) -> Result<Reply, AllocError>
        requires { IsWorld self.old }
        ensures ok { IfOk result (λ reply.
            outcome.nacked_opened self.old delivery ≡ (reply, self.new)) }
        ensures err { OnErr result (self.new ≡ self.old) }
        ensures memory { OnErr result (MayRunOut self.old (event.NackOpened delivery)
            (outcome.nacked_opened self.old delivery).0) }
    {
        let Some(delivery) = self.known(delivery) else {
            return refused(BrokerRefusal::NoDelivery);
        };
        self.open(delivery)
    }

    // negatively acknowledges this delivery and opens it
    fn open(&mut self, delivery: Delivery) -> Result<Reply, AllocError>
        ensures ok { IfOk result (λ reply.
            opened_for self.old (Some delivery) ≡ (reply, self.new)) }
        ensures err { OnErr result (self.new ≡ self.old) }
        ensures memory { OnErr result ((d : ℕ) → MayRunOut self.old (event.NackOpened d)
            (opened_for self.old (Some delivery)).0) }
    {
        match self
            .desk
            .nack_opened(delivery.sub(), delivery.link(), delivery.number())
        {
            Ok(count) => Ok(Reply::Opened(count)),
            Err(DeskError::Refused(why)) => refused(BrokerRefusal::Desk(why)),
            Err(DeskError::Memory) => Err(AllocError),
        }
    }

    /// Expires every delivery that has been out for the timeout or longer. Does not allocate.
    pub(crate) fn expire(&mut self, now: u64) -> Reply
        ensures { outcome.expired self.old now ≡ (result, self.new) }
    {
        match self.desk.expire(now) {
            Ok(count) => Reply::Expired(count),
            Err(why) => Reply::Refused(BrokerRefusal::Desk(why)),
        }
    }
}
