//! Calls of a history's subscriptions.

use crate::entered::{APPLIERS, Entered};
use crate::history::{History, Said, made};
use cs_apply::Tables;
use cs_model::Schema;
use rb_broker::{Broker, BrokerBrand, RefusedSubscription, SubscribeError, TakeError};
use rb_desk::Delivery;
use rb_subscriber::{AcceptRefusal, Shown, Subscription, SubscriptionError, Workers};
use std::alloc::Global;
use std::sync::{Arc, Wait};
use std::test::Fail;
use std::thread::Threads;

impl<L: BrokerBrand> History<L> {
    /// Makes the call of this name, if it is one of these. Subscriptions and deliveries are named
    /// by how many were made before them.
    pub fn follow<R: Threads + Wait + Sync>(
        &mut self,
        rt: &R,
        alloc: Global,
        name: &str,
        a: u64,
        b: u64,
    ) -> Result<Said, Fail> {
        let (sub, delivery) = (a as usize, b as usize);
        match name {
            "subscribe" => self.subscribe(rt, alloc, a),
            "foreign" => self.foreign(rt, alloc, a),
            "take" => self.take(rt, alloc, sub, b),
            "any" => self.take_any(rt, alloc, a),
            "accept" => self.accept(rt, alloc, sub, delivery),
            "ack" => self.ack(rt, alloc, sub, delivery),
            "nack" => self.nack(rt, alloc, sub, delivery),
            "open" => self.nack_opened(rt, alloc, sub, delivery),
            "expire" => Ok(match self.broker.expire(rt, alloc, &mut self.keeper, a) {
                Ok(many) => Said::Expired(many),
                Err(error) => error.into(),
            }),
            "expires" => self.expire_often(rt, alloc, a, b),
            "reconnect" => self.reconnect(rt, alloc, sub),
            "unsubscribe" => self.unsubscribe(rt, alloc, sub),
            "durable" => self.accept_durable(rt, alloc, sub, delivery),
            "fall" => self.fall(),
            "fits" => self.fits(alloc, a, b),
            "resume" => self.resume(rt, alloc, a, b),
            _ => Ok(Said::Unknown),
        }
    }

    // after this number, with the tables of then
    fn subscribe<R: Wait>(&mut self, rt: &R, alloc: Global, start: u64) -> Result<Said, Fail> {
        self.subscriptions.reserve(1)?;
        let tables = self.tables_at(alloc, start)?;
        match self
            .broker
            .subscribe(rt, alloc, &mut self.keeper, tables, start)
        {
            Ok(subscription) => {
                self.subscriptions.push_reserved(subscription);
                Ok(Said::Made)
            }
            Err(refused) => Ok(unmade(&refused)),
        }
    }

    // with tables of another schema
    fn foreign<R: Wait>(&mut self, rt: &R, alloc: Global, start: u64) -> Result<Said, Fail> {
        let schema = Arc::new(alloc, Schema::empty(alloc))?;
        let tables = Tables::new(alloc, schema, Vec::new(alloc));
        match self
            .broker
            .subscribe(rt, alloc, &mut self.keeper, tables, start)
        {
            Ok(_) => Ok(Said::Made),
            Err(refused) => Ok(unmade(&refused)),
        }
    }

    fn take<R: Wait>(&mut self, rt: &R, alloc: Global, sub: usize, now: u64) -> Result<Said, Fail> {
        let subscription = made(self.subscriptions.get_mut(sub))?;
        match self.broker.take(rt, alloc, subscription, now) {
            Ok(delivery) => self.keep(delivery),
            Err(TakeError::Drained(told)) => Ok(Said::Drained(told.last())),
            Err(TakeError::Desk(error)) => Ok(error.into()),
        }
    }

    fn take_any<R: Wait>(&mut self, rt: &R, alloc: Global, now: u64) -> Result<Said, Fail> {
        match self.broker.take_any(rt, alloc, &mut self.keeper, now) {
            Ok(delivery) => self.keep(delivery),
            Err(error) => Ok(error.into()),
        }
    }

    fn keep(&mut self, delivery: Delivery) -> Result<Said, Fail> {
        self.deliveries.push(delivery)?;
        Ok(Said::Delivery(
            delivery.number(),
            delivery.sub(),
            delivery.first(),
            delivery.last(),
        ))
    }

    // Every second delivery that was made is applied by appliers.
    fn accept<R: Threads + Sync>(
        &mut self,
        rt: &R,
        alloc: Global,
        sub: usize,
        delivery: usize,
    ) -> Result<Said, Fail> {
        let taken = *made(self.deliveries.get(delivery))?;
        let subscription = made(self.subscriptions.get_mut(sub))?;
        if delivery % 2 == 0 {
            let sequence = self.broker.sequence();
            return accepted(subscription.accept_alone(alloc, sequence, &taken));
        }
        let entered = Entered::none();
        let workers = Workers {
            rt,
            n: APPLIERS,
            gate: &entered,
        };
        let answer = call_accept(&self.broker, subscription, &workers, alloc, &taken);
        if answer.is_ok() && !entered.have_all() {
            return Err(Fail::new("each applier has a shard"));
        }
        accepted(answer)
    }

    fn ack<R: Wait>(
        &mut self,
        rt: &R,
        alloc: Global,
        sub: usize,
        delivery: usize,
    ) -> Result<Said, Fail> {
        let delivery = *made(self.deliveries.get(delivery))?;
        let subscription = made(self.subscriptions.get_mut(sub))?;
        match self.broker.ack(rt, alloc, subscription, &delivery) {
            Ok(floor) => Ok(Said::Floor(floor)),
            Err(error) => Ok(error.into()),
        }
    }

    fn nack<R: Wait>(
        &mut self,
        rt: &R,
        alloc: Global,
        sub: usize,
        delivery: usize,
    ) -> Result<Said, Fail> {
        let delivery = *made(self.deliveries.get(delivery))?;
        let subscription = made(self.subscriptions.get_mut(sub))?;
        match self.broker.nack(rt, alloc, subscription, &delivery) {
            Ok(()) => Ok(Said::Done),
            Err(error) => Ok(error.into()),
        }
    }

    fn nack_opened<R: Wait>(
        &mut self,
        rt: &R,
        alloc: Global,
        sub: usize,
        delivery: usize,
    ) -> Result<Said, Fail> {
        let delivery = *made(self.deliveries.get(delivery))?;
        let subscription = made(self.subscriptions.get_mut(sub))?;
        match self.broker.nack_opened(rt, alloc, subscription, &delivery) {
            Ok(count) => Ok(Said::Opened(count)),
            Err(error) => Ok(error.into()),
        }
    }

    // expires at this tick so many times, which makes steps for the journal
    fn expire_often<R: Wait>(
        &mut self,
        rt: &R,
        alloc: Global,
        now: u64,
        times: u64,
    ) -> Result<Said, Fail> {
        let mut all: u64 = 0;
        for _ in 0..times {
            match self.broker.expire(rt, alloc, &mut self.keeper, now) {
                Ok(many) => all = all.wrapping_add(many),
                Err(error) => return Ok(error.into()),
            }
        }
        Ok(Said::Expired(all))
    }

    fn reconnect<R: Wait>(&mut self, rt: &R, alloc: Global, sub: usize) -> Result<Said, Fail> {
        let subscription = made(self.subscriptions.get_mut(sub))?;
        match self.broker.reconnect(rt, alloc, subscription) {
            Ok(link) => Ok(Said::Link(link)),
            Err(error) => Ok(error.into()),
        }
    }

    fn unsubscribe<R: Wait>(&mut self, rt: &R, alloc: Global, sub: usize) -> Result<Said, Fail> {
        let subscription = made(self.subscriptions.get_mut(sub))?;
        match self.broker.unsubscribe(rt, alloc, subscription) {
            Ok(()) => Ok(Said::Done),
            Err(error) => Ok(error.into()),
        }
    }
}

// a function of its own, so that refused/calls.txt can name it
#[inline(never)]
fn call_accept<L: BrokerBrand, R: Threads + Sync>(
    broker: &Broker<L>,
    subscription: &mut Subscription<L>,
    workers: &Workers<R, Entered>,
    alloc: Global,
    delivery: &Delivery,
) -> Result<u64, SubscriptionError> {
    subscription.accept(workers, alloc, broker.sequence(), delivery)
}

fn unmade(refused: &RefusedSubscription) -> Said {
    match refused.why {
        SubscribeError::Desk(error) => error.into(),
        SubscribeError::OtherSchema => Said::OtherSchema,
    }
}

/// What a subscription answered that was to accept a delivery.
pub fn accepted(answer: Result<u64, SubscriptionError>) -> Result<Said, Fail> {
    match answer {
        Ok(cursor) => Ok(Said::Accepted(cursor)),
        Err(SubscriptionError::Refused(why)) => Ok(Said::Refused(why)),
        Err(SubscriptionError::RefusedEntries { why, shown }) => refused_for(why, &shown),
        Err(SubscriptionError::Memory { .. }) => Ok(Said::Memory),
        Err(SubscriptionError::Unseen { .. }) => Err(Fail::new("the cell shows its entry")),
    }
}

// A refusal for a delivery's entries holds their tokens. A refused allocation of these is called
// once more.
fn refused_for(why: AcceptRefusal, shown: &Shown) -> Result<Said, Fail> {
    match shown {
        Shown::Held(told) if !told.is_empty() => Ok(Said::Refused(why)),
        Shown::Held(_) => Err(Fail::new("a refusal shows an entry")),
        Shown::Seen(_) => Ok(Said::Memory),
    }
}
