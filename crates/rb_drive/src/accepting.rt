//! A subscriber's thread: takes, accepts and acknowledges until all is drained or an entry
//! conflicts.

ghost use Rattle.std.specs.Prelude.{◌≡◌, IfErr, OnOk};
ghost use Rattle.rb_drive.specs.Ending.{HasShownConflict, HasShownConflict-prop, IsSettled};
ghost use Rattle.rb_drive.specs.Ending.{ShowsOneConflict, settling_of};
ghost use Rattle.rb_drive.specs.Owners.{beginning_of};

use crate::ending::{Settling, SubscriberEnd};
use crate::kept::KeptSubscription;
use crate::signs::Signs;
use par_apply::Open;
use rb_broker::{Broker, BrokerBrand, TakeError};
use rb_desk::{Delivery, DeskError, DeskRefusal};
use rb_subscriber::{AcceptRefusal, Subscription, SubscriptionError, Workers};
use sqlite::Alter;
use std::alloc::Global;
use std::sync::Wait;
use std::thread::Threads;

/// A subscriber: its subscription, and how it ended. If that was a conflict, it has what the cells
/// showed of the entry that conflicts.
#[derive(Drop)]
pub struct Accepting<L: BrokerBrand, S: Alter> {
    pub subscription: KeptSubscription<L, S>,
    pub ending: SubscriberEnd,
    ghost shown: { HasShownConflict L.cells subscription
        ending } by { HasShownConflict-prop L.cells subscription ending },
}

/// A subscriber that has ended, without the replica that it had.
#[derive(Drop)]
pub struct EndedSubscriber<L: BrokerBrand> {
    pub subscription: Subscription<L>,
    pub ending: SubscriberEnd,
}

impl<L: BrokerBrand, S: Alter> Accepting<L, S> {
    /// One that has accepted nothing.
    pub fn new(subscription: KeptSubscription<L, S>) -> Accepting<L, S>
        ensures { result.subscription ≡ subscription }
    {
        Accepting {
            subscription,
            ending: SubscriberEnd::Stopped,
        }
    }

    /// Takes, accepts and acknowledges until it is drained, conflicts, or all loops end. As many
    /// workers apply a delivery as the broker's limits say. Ends all loops itself if its replica
    /// fails, if memory runs out or a call is refused that should not be.
    pub fn accept<R: Threads + Wait + Sync>(
        &mut self,
        rt: &R,
        alloc: Global,
        broker: &Broker<L>,
        signs: &Signs,
    )
        ensures { beginning_of self.new.subscription ≡ beginning_of self.old.subscription }
    {
        let workers = Workers {
            rt,
            n: broker.config().appliers() as usize,
            gate: &Open,
        };
        self.ending = accept_all(&workers, alloc, broker, signs, &mut self.subscription);
        if matches!(self.ending, SubscriberEnd::Stopped) {
            signs.stop();
        }
    }
}

fn accept_all<L: BrokerBrand, S: Alter, R: Threads + Wait + Sync>(
    workers: &Workers<R, Open>,
    alloc: Global,
    broker: &Broker<L>,
    signs: &Signs,
    subscription: &mut KeptSubscription<L, S>,
) -> SubscriberEnd
    requires workers { workers.now.n ≡ L.limits.appliers }
    ensures begun { beginning_of subscription.new ≡ beginning_of subscription.old }
    ensures shown { HasShownConflict L.cells subscription.new result }
{
    let rt = workers.rt;
    let place = signs.progress.take_place();
    let mut looks: u64 = 0;
    for _ in rt.forever() {
        let seen = signs.placed.rings();
        if signs.is_stopped() {
            return SubscriberEnd::Stopped;
        }
        match subscription.take(rt, alloc, broker) {
            Ok(delivery) => {
                looks = 0;
                let accepted = subscription.accept(workers, alloc, broker, &delivery);
                if let Ok(cursor) = &accepted {
                    signs.progress.set_cursor(place, *cursor);
                }
                let settled = settle(rt, alloc, broker, signs, subscription, &delivery, accepted);
                if let Err(ending) = settled {
                    return ending;
                }
            }
            Err(TakeError::Drained(_)) => return SubscriberEnd::Drained,
            Err(TakeError::Desk(DeskError::Refused(DeskRefusal::Empty { .. }))) => {
                signs.placed.wait(rt, seen, looks);
                looks = looks.saturating_add(1);
            }
            Err(TakeError::Desk(_)) => return SubscriberEnd::Stopped,
        }
    }
    unreachable!()
}

// Settles a delivery as the answer to its accept asks for (*settling_of*). Returns how the
// subscriber ends if the answer asks for that, or if the settling is refused.
fn settle<L: BrokerBrand, S: Alter, R: Wait>(
    rt: &R,
    alloc: Global,
    broker: &Broker<L>,
    signs: &Signs,
    subscription: &mut KeptSubscription<L, S>,
    delivery: &Delivery,
    accepted: Result<u64, SubscriptionError>,
) -> Result<(), SubscriberEnd>
    requires conflict { ShowsOneConflict L.cells delivery.now accepted subscription.old }
    ensures begun { beginning_of subscription.new ≡ beginning_of subscription.old }
    ensures shown { IfErr result (HasShownConflict L.cells subscription.new) }
    ensures settled { OnOk result
        (IsSettled delivery.now accepted subscription.old subscription.new) }
{
    let how = settling(accepted, delivery, signs)?;
    if subscription.settle(rt, alloc, broker, delivery, how) {
        Ok(())
    } else {
        Err(SubscriberEnd::Stopped)
    }
}

// How a delivery is settled after this answer to its accept, or how the subscriber ends. One whose
// entries this thread doesn't see yet goes back. One of several entries that conflicts goes back
// opened: those before the conflict are accepted alone. A conflict of one entry ends the
// subscriber.
fn settling(
    accepted: Result<u64, SubscriptionError>,
    delivery: &Delivery,
    signs: &Signs,
) -> Result<Settling, SubscriberEnd>
    ensures { result ≡ settling_of delivery.now accepted }
{
    match accepted {
        Ok(_) => Ok(Settling::Ack),
        Err(SubscriptionError::Unseen { .. }) => Ok(Settling::Nack),
        Err(
            SubscriptionError::RefusedEntries {
                why: AcceptRefusal::Conflict(conflict),
                shown,
            },
        ) => {
            if delivery.first() == delivery.last() {
                Err(SubscriberEnd::Conflict(conflict, shown))
            } else {
                Ok(Settling::NackOpened)
            }
        }
        Err(SubscriptionError::Refused(AcceptRefusal::Store)) => {
            signs.fail_store();
            Err(SubscriberEnd::Stopped)
        }
        Err(_) => Err(SubscriberEnd::Stopped),
    }
}
