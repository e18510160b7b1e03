//! What a subscriber of a test does: it accepts the whole sequence, by a random course.

ghost use Rattle.std.specs.Prelude.{◌<◌, ◌≤◌};

use par_apply::Open;
use rb_broker::{Broker, BrokerBrand, TakeError};
use rb_desk::{Delivery, DeskError, DeskRefusal};
use rb_subscriber::{AcceptRefusal, Stake, Subscription, SubscriptionError, Workers};
use std::alloc::Global;
use std::sync::{Mutex, Wait};
use std::thread;
use std::thread::Threads;

/// A subscriber's random course, which its number fixes.
#[derive(Clone, Copy)]
pub(crate) struct Course {
    pub(crate) state: u64,
}

impl Course {
    // a number below 16, by a linear congruential generator
    fn next(&mut self) -> u64 {
        self.state = self
            .state
            .wrapping_mul(6_364_136_223_846_793_005)
            .wrapping_add(1_442_695_040_888_963_407);
        self.state >> 60
    }
}

// after this many turns a subscriber fails
const MOST_TURNS: u64 = 10_000_000;

/// Accepts everything up to `last`, by its course.
pub(crate) fn accept_all<L: BrokerBrand, R: Threads + Wait + Sync>(
    rt: &R,
    alloc: Global,
    broker: &Broker<L>,
    keeper: &Mutex<Stake<L>>,
    subscription: &mut Subscription<L>,
    course: &mut Course,
    last: u64,
) -> Result<(), &'static str> {
    let mut held = None;
    for now in 0..MOST_TURNS {
        if held.is_none() && subscription.cursor() >= last {
            return Ok(());
        }
        let detour = course.next();
        held = match (detour, held) {
            (0, _) => reconnect(rt, alloc, broker, subscription)?,
            (1, held) => expire(rt, alloc, broker, keeper, now, held)?,
            (2 | 3, Some(delivery)) => {
                give_back(rt, alloc, broker, subscription, &delivery, detour == 3)?
            }
            (_, None) => take(rt, alloc, broker, subscription, now)?,
            (_, Some(delivery)) => accept(rt, alloc, broker, subscription, delivery)?,
        };
    }
    Err("a subscriber never ends")
}

// what it held is stale
fn reconnect<L: BrokerBrand, R: Wait>(
    rt: &R,
    alloc: Global,
    broker: &Broker<L>,
    subscription: &mut Subscription<L>,
) -> Result<Option<Delivery>, &'static str> {
    match broker.reconnect(rt, alloc, subscription) {
        Ok(_) => Ok(None),
        Err(_) => Err("a reconnection is refused"),
    }
}

// all deliveries may expire, also the one that it holds
fn expire<L: BrokerBrand, R: Wait>(
    rt: &R,
    alloc: Global,
    broker: &Broker<L>,
    keeper: &Mutex<Stake<L>>,
    now: u64,
    held: Option<Delivery>,
) -> Result<Option<Delivery>, &'static str> {
    let mut keeper = keeper.lock(rt);
    match broker.expire(rt, alloc, &mut keeper, now) {
        Ok(_) => Ok(held),
        Err(_) => Err("nothing can expire"),
    }
}

// gives back what it held; each of its numbers is delivered alone then, if it is opened
fn give_back<L: BrokerBrand, R: Wait>(
    rt: &R,
    alloc: Global,
    broker: &Broker<L>,
    subscription: &mut Subscription<L>,
    delivery: &Delivery,
    opened: bool,
) -> Result<Option<Delivery>, &'static str> {
    let returned = if opened {
        broker.nack_opened(rt, alloc, subscription, delivery).err()
    } else {
        broker.nack(rt, alloc, subscription, delivery).err()
    };
    match returned {
        None | Some(DeskError::Refused(DeskRefusal::NotInFlight)) => Ok(None),
        Some(_) => Err("what is given back is refused"),
    }
}

fn take<L: BrokerBrand, R: Wait>(
    rt: &R,
    alloc: Global,
    broker: &Broker<L>,
    subscription: &mut Subscription<L>,
    now: u64,
) -> Result<Option<Delivery>, &'static str> {
    match broker.take(rt, alloc, subscription, now) {
        Ok(delivery) => Ok(Some(delivery)),
        Err(TakeError::Desk(DeskError::Refused(DeskRefusal::Empty { .. }))) => {
            thread::yield_now();
            Ok(None)
        }
        Err(_) => Err("nothing is delivered"),
    }
}

// how many workers apply a delivery that begins with this number
fn workers_for(first: u64) -> usize
    ensures some { 0 < result }
    ensures few { result ≤ 16 }
{
    match first % 3 {
        0 => 1,
        1 => 2,
        _ => 16,
    }
}

// Accepts what it holds, unless it has it already, and acknowledges it, unless it has expired.
fn accept<L: BrokerBrand, R: Threads + Wait + Sync>(
    rt: &R,
    alloc: Global,
    broker: &Broker<L>,
    subscription: &mut Subscription<L>,
    delivery: Delivery,
) -> Result<Option<Delivery>, &'static str> {
    let workers = Workers {
        rt,
        n: workers_for(delivery.first()),
        gate: &Open,
    };
    match subscription.accept(&workers, alloc, broker.sequence(), &delivery) {
        Ok(_) | Err(SubscriptionError::Refused(AcceptRefusal::Seen)) => {}
        Err(SubscriptionError::Unseen { .. }) => return Ok(Some(delivery)),
        Err(_) => return Err("a delivery is refused"),
    }
    match broker.ack(rt, alloc, subscription, &delivery) {
        Ok(_) | Err(DeskError::Refused(DeskRefusal::NotInFlight)) => Ok(None),
        Err(_) => Err("an acknowledgement is refused"),
    }
}
