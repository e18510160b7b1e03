//! A subscription, and the replica that keeps its rows and its cursor, if it has one.

ghost use Rattle.std.specs.{Prelude.{◌≡◌, IfSome, true}, Coded.{codes}};
ghost use Rattle.sqlite.specs.Held.{state};
ghost use Rattle.cs_apply.specs.State.{state_code};
ghost use Rattle.rb_subscriber.specs.Subscription.{SubscriptionState};
ghost use Rattle.rb_drive.specs.{
  Ending.{HasStepped, ShowsOneConflict, settling_step},
  Kept.{KeepsSubscription, without_store},
  Owners.{beginning_of},
};

use crate::ending::Settling;
use par_apply::Open;
use rb_broker::{Broker, BrokerBrand, TakeError};
use rb_desk::Delivery;
use rb_subscriber::{AcceptRefusal, DurableError, Subscription, SubscriptionError, Workers};
use replica_store::{Replica, ReplicaError};
use sqlite::Alter;
use std::alloc::Global;
use std::marker::Model;
use std::sync::Wait;
use std::thread::Threads;

/// A subscription with its replica, if it has one. Until the subscription falls, the replica has
/// its rows and its cursor.
#[derive(Drop)]
pub struct KeptSubscription<L: BrokerBrand, S: Alter> {
    subscription: Subscription<L>,
    replica: Option<Replica<S>>,
}

impl<L: BrokerBrand, S: Alter> Model for KeptSubscription<L, S> {
    ghost Value = { SubscriptionState };

    ghost coded = { Prim.hlevel (codes, state_code) };

    ghost view = { λ k. k.subscription };

    ghost invariant = { λ k. IfSome k.replica
        (λ r. KeepsSubscription (state S.Store r.conn) k.subscription) };
}

impl<L: BrokerBrand, S: Alter> KeptSubscription<L, S> {
    /// A subscription with this replica, or without one.
    pub fn new(subscription: Subscription<L>, replica: Option<Replica<S>>) -> KeptSubscription<L, S>
        requires { IfSome replica (λ r. KeepsSubscription (state S.Store r.conn) subscription) }
        ensures { result ≡ subscription }
    {
        KeptSubscription {
            subscription,
            replica,
        }
    }

    /// The subscription and its replica.
    pub fn into_parts(self) -> (Subscription<L>, Option<Replica<S>>)
        ensures { result.0 ≡ self }
    {
        let KeptSubscription {
            subscription,
            replica,
        } = self;
        (subscription, replica)
    }

    /// Takes its next delivery.
    pub fn take<R: Wait>(
        &mut self,
        rt: &R,
        alloc: Global,
        broker: &Broker<L>,
    ) -> Result<Delivery, TakeError>
        ensures { beginning_of self.new ≡ beginning_of self.old }
    {
        // nobody expires deliveries, so the tick of a take doesn't matter
        broker.take(rt, alloc, &mut self.subscription, 0)
    }

    /// Accepts a delivery: first into the replica, if it has one.
    pub fn accept<R: Threads + Wait + Sync>(
        &mut self,
        workers: &Workers<R, Open>,
        alloc: Global,
        broker: &Broker<L>,
        delivery: &Delivery,
    ) -> Result<u64, SubscriptionError>
        requires workers { workers.now.n ≡ L.limits.appliers }
        ensures begun { beginning_of self.new ≡ beginning_of self.old }
        ensures conflict { ShowsOneConflict L.cells delivery.now result self.new }
    {
        let (subscription, replica) = (&mut self.subscription, &mut self.replica);
        accept_into(workers, alloc, broker, subscription, replica, delivery)
    }

    /// Settles a delivery in this way. False if that is refused.
    pub fn settle<R: Wait>(
        &mut self,
        rt: &R,
        alloc: Global,
        broker: &Broker<L>,
        delivery: &Delivery,
        how: Settling,
    ) -> bool
        ensures begun { beginning_of self.new ≡ beginning_of self.old }
        ensures stepped { result ≡ true
            → HasStepped (settling_step how delivery.now self.old) self.old.owner self.new.owner }
    {
        let subscription = &mut self.subscription;
        match how {
            Settling::Ack => broker.ack(rt, alloc, subscription, delivery).is_ok(),
            Settling::Nack => broker.nack(rt, alloc, subscription, delivery).is_ok(),
            Settling::NackOpened => broker
                .nack_opened(rt, alloc, subscription, delivery)
                .is_ok(),
        }
    }
}

fn accept_into<L: BrokerBrand, S: Alter, R: Threads + Wait + Sync>(
    workers: &Workers<R, Open>,
    alloc: Global,
    broker: &Broker<L>,
    subscription: &mut Subscription<L>,
    replica: &mut Option<Replica<S>>,
    delivery: &Delivery,
) -> Result<u64, SubscriptionError>
    requires workers { workers.now.n ≡ L.limits.appliers }
    requires kept { IfSome replica.old
        (λ r. KeepsSubscription (state S.Store r.conn) subscription.old) }
    ensures conflict { ShowsOneConflict L.cells delivery.now result subscription.new }
    ensures begun { beginning_of subscription.new ≡ beginning_of subscription.old }
    ensures kept { IfSome replica.new
        (λ r. KeepsSubscription (state S.Store r.conn) subscription.new) }
{
    match replica {
        Some(replica) => accept_both(workers, alloc, broker, subscription, replica, delivery),
        None => accept_tables(workers, alloc, broker, subscription, delivery),
    }
}

// accepts into the replica and the subscription's tables
fn accept_both<L: BrokerBrand, S: Alter, R: Threads + Wait + Sync>(
    workers: &Workers<R, Open>,
    alloc: Global,
    broker: &Broker<L>,
    subscription: &mut Subscription<L>,
    replica: &mut Replica<S>,
    delivery: &Delivery,
) -> Result<u64, SubscriptionError>
    requires workers { workers.now.n ≡ L.limits.appliers }
    requires kept { KeepsSubscription (state S.Store replica.old.conn) subscription.old }
    ensures conflict { ShowsOneConflict L.cells delivery.now result subscription.new }
    ensures begun { beginning_of subscription.new ≡ beginning_of subscription.old }
    ensures kept { KeepsSubscription (state S.Store replica.new.conn) subscription.new }
{
    without_store(subscription.accept_durable(workers, alloc, broker.sequence(), replica, delivery))
}

// What a subscription without a store answers; `Store`, as for each later delivery, where the store
// failed. A drive reports that it failed, and not why.
fn without_store(
    accepted: Result<u64, DurableError<ReplicaError>>,
) -> Result<u64, SubscriptionError>
    ensures { result ≡ without_store accepted }
{
    match accepted {
        Ok(cursor) => Ok(cursor),
        Err(DurableError::Accept(why)) => Err(why),
        Err(DurableError::Store(_)) => Err(SubscriptionError::Refused(AcceptRefusal::Store)),
    }
}

// accepts into the subscription's tables alone
fn accept_tables<L: BrokerBrand, R: Threads + Wait + Sync>(
    workers: &Workers<R, Open>,
    alloc: Global,
    broker: &Broker<L>,
    subscription: &mut Subscription<L>,
    delivery: &Delivery,
) -> Result<u64, SubscriptionError>
    requires workers { workers.now.n ≡ L.limits.appliers }
    ensures conflict { ShowsOneConflict L.cells delivery.now result subscription.new }
    ensures begun { beginning_of subscription.new ≡ beginning_of subscription.old }
{
    subscription.accept(workers, alloc, broker.sequence(), delivery)
}
