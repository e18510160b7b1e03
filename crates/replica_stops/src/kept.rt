//! A subscription whose rows and cursor a replica keeps: how it begins, accepts, falls, and is
//! resumed.

ghost use Rattle.std.specs.Prelude.{◌≡◌, IfOk, IfSome, IsTrue};
ghost use Rattle.rb_subscriber.specs.Subscription.{cursor_of};
ghost use Rattle.replica_store.specs.Durable.{KeepsRows};
ghost use Rattle.replica_store.specs.Picture.{HoldsReplica};
ghost use Rattle.sqlite.specs.Held.{state};
ghost use Rattle.sqlite.specs.State.{HasCleanDisk};

use crate::rows::SECOND_CURSOR;
use crate::stand::Stand;
use cs_apply::Tables;
use par_apply::Open;
use rb_broker::{Broker, BrokerBrand, RefusedResume, ResumeError, TakeError};
use rb_desk::{DeskError, DeskRefusal};
use rb_subscriber::{DurableError, Lost, Subscription, Workers};
use replica_store::{Replica, ReplicaError};
use sqlite::{Alter, Connection};
use std::alloc::Global;
use std::io;
use std::sync::Wait;
use std::thread::Threads;

/// A replica, and the rows and the cursor that it has.
#[derive(Drop)]
pub struct Loaded<S: Alter> {
    pub replica: Replica<S>,
    pub tables: Tables,
    pub cursor: u64,
}

/// A subscription, and the replica that has its rows and its cursor.
#[derive(Drop)]
pub struct KeptReplica<L: BrokerBrand, S: Alter> {
    pub subscription: Subscription<L>,
    pub replica: Replica<S>,
}

impl<L: BrokerBrand, S: Alter + Drop> KeptReplica<L, S> {
    // a subscription with the rows of a replica, if it has its cursor too
    fn of(
        subscription: Subscription<L>,
        replica: Replica<S>,
        cursor: u64,
    ) -> Option<KeptReplica<L, S>>
        requires { KeepsRows (state S.Store replica.conn) subscription.tables.rows cursor }
        ensures { IfSome result (λ k. KeepsRows (state S.Store k.replica.conn)
            k.subscription.tables.rows (cursor_of k.subscription)) }
    {
        if subscription.cursor() != cursor {
            return None;
        }
        Some(KeptReplica {
            subscription,
            replica,
        })
    }
}

/// The rows and the cursor of a replica that was created or opened.
pub fn load<S: Alter + Drop>(
    alloc: Global,
    mut replica: Replica<S>,
) -> Result<Loaded<S>, ReplicaError>
    requires { HasCleanDisk (state S.Store replica.conn)
        → HoldsReplica (state S.Store replica.conn) }
    ensures { IfOk result (λ l.
        KeepsRows (state S.Store l.replica.conn) l.tables.rows l.cursor) }
{
    let (tables, cursor) = replica.load(alloc)?;
    Ok(Loaded {
        replica,
        tables,
        cursor,
    })
}

/// A subscription with the rows and the cursor of a replica: a new one, or the one that was lost,
/// resumed after the cursor of the other state was refused.
pub fn subscribed<L: BrokerBrand, S: Alter + Drop, R: Wait>(
    rt: &R,
    alloc: Global,
    stand: &mut Stand<L>,
    lost: Option<Lost<L>>,
    loaded: Loaded<S>,
) -> Option<KeptReplica<L, S>>
    requires { KeepsRows (state S.Store loaded.replica.conn) loaded.tables.rows loaded.cursor }
    ensures { IfSome result (λ k. KeepsRows (state S.Store k.replica.conn)
        k.subscription.tables.rows (cursor_of k.subscription)) }
{
    let Loaded {
        replica,
        tables,
        cursor,
    } = loaded;
    let Some(lost) = lost else {
        let (broker, keeper) = (&stand.broker, &mut stand.keeper);
        let Ok(subscription) = broker.subscribe(rt, alloc, keeper, tables, cursor) else {
            return None;
        };
        return KeptReplica::of(subscription, replica, cursor);
    };
    let other = if cursor == lost.before() {
        lost.after()
    } else {
        lost.before()
    };
    match stand.broker.resume(rt, alloc, lost, tables, other) {
        Err(
            RefusedResume {
                why: ResumeError::OtherState,
                lost,
                tables,
            },
        ) => {
            let Ok(subscription) = stand.broker.resume(rt, alloc, lost, tables, cursor) else {
                return None;
            };
            KeptReplica::of(subscription, replica, cursor)
        }
        _ => None,
    }
}

/// Accepts the next delivery. Returns whether it is accepted: if not, the subscription has fallen.
pub fn accept_next<L: BrokerBrand, S: Alter + Drop, R: Wait + Threads + Sync>(
    rt: &R,
    alloc: Global,
    broker: &Broker<L>,
    subscription: &mut Subscription<L>,
    replica: &mut Replica<S>,
) -> io::Result<bool>
    requires { KeepsRows (state S.Store replica.old.conn) subscription.old.tables.rows
        (cursor_of subscription.old) }
    ensures { IfOk result (λ accepted. IsTrue accepted
        → KeepsRows (state S.Store replica.new.conn) subscription.new.tables.rows
        (cursor_of subscription.new)) }
{
    let Ok(delivery) = broker.take(rt, alloc, subscription, 0) else {
        return Err(io::Error::other("nothing is delivered"));
    };
    let workers = Workers {
        rt,
        n: 1,
        gate: &Open,
    };
    match subscription.accept_durable(&workers, alloc, broker.sequence(), replica, &delivery) {
        Ok(_) => Ok(true),
        Err(DurableError::Store(_)) => Ok(false),
        Err(_) => Err(io::Error::other("a delivery is refused")),
    }
}

/// Accepts what is left, and hands the connection of the replica back, if nothing is left then.
pub fn gone_on<L: BrokerBrand, S: Alter + Drop, R: Wait + Threads + Sync>(
    rt: &R,
    alloc: Global,
    broker: &Broker<L>,
    kept: KeptReplica<L, S>,
) -> io::Result<Option<Connection<S>>>
    requires { KeepsRows (state S.Store kept.replica.conn) kept.subscription.tables.rows
        (cursor_of kept.subscription) }
{
    let KeptReplica {
        mut subscription,
        mut replica,
    } = kept;
    if subscription.cursor() < SECOND_CURSOR {
        accept_next(rt, alloc, broker, &mut subscription, &mut replica)?;
    }
    let is_over = has_nothing_left(rt, alloc, broker, &mut subscription);
    Ok(if is_over {
        Some(replica.into_connection())
    } else {
        None
    })
}

// whether it has accepted everything
fn has_nothing_left<L: BrokerBrand, R: Wait>(
    rt: &R,
    alloc: Global,
    broker: &Broker<L>,
    subscription: &mut Subscription<L>,
) -> bool {
    matches!(
        broker.take(rt, alloc, subscription, 0),
        Err(TakeError::Desk(DeskError::Refused(DeskRefusal::Empty { .. })))
    ) && subscription.cursor() == SECOND_CURSOR
}
