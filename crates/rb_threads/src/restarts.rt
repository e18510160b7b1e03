//! A process that falls, and is started again: its broker is gone, and a subscription goes on with
//! what its replica has. The publisher sends its changesets again, from the first.

ghost use Rattle.std.specs.Prelude.{◌≡◌, IfOk};
ghost use Rattle.sqlite.specs.Held.{state};
ghost use Rattle.replica_store.specs.Durable.{KeepsRows};

use crate::given::{opened, schema};
use crate::history::History;
use cs_apply::Tables;
use par_apply::Open;
use rb_broker::{Broker, BrokerBrand, Opened};
use rb_desk::Delivery;
use rb_subscriber::{Subscription, Workers};
use replica_store::Replica;
use sqlite::{Alter, Connection};
use std::alloc::Global;
use std::marker::Brand;
use std::process::Abort;
use std::sync::{Arc, Wait};
use std::test::Fail;
use std::thread::Threads;

// Each change needs the one before it of its row, and none applies twice.
const SENT: &str = "\
put 1 = Placed(1)
put 2 = Placed(2)
delete 1 = Placed(3)
put 3 = Placed(4)
delete 2 = Placed(5)
put 1 = Placed(6)
delete 3 = Placed(7)
put 2 = Placed(8)";

/// What a process does before it falls: how many deliveries of two numbers it takes, accepts and
/// acknowledges. Then the cursor that it leaves.
struct Life {
    takes: u64,
    accepts: u64,
    acknowledges: u64,
    cursor: u64,
}

const LIVES: [Life; 3] = [
    Life {
        takes: 3,
        accepts: 2,
        acknowledges: 1,
        cursor: 4,
    },
    Life {
        takes: 2,
        accepts: 1,
        acknowledges: 0,
        cursor: 6,
    },
    Life {
        takes: 1,
        accepts: 1,
        acknowledges: 1,
        cursor: 8,
    },
];

#[test]
fn a_process_falls_twice(rt: HostRuntime) -> Result<(), Fail> {
    let conn = Connection::open_in_memory(rt.alloc())?;
    all_lives(&rt, rt.alloc(), conn)
}

// each life, over the database that the one before it left
fn all_lives<S: Alter + Drop, R: Threads + Wait + Abort + Sync>(
    rt: &R,
    alloc: Global,
    conn: Connection<S>,
) -> Result<(), Fail> {
    let mut conn = created(alloc, conn)?;
    for life in &LIVES {
        let opened = opened(alloc, (2, 4, 16, 4))?;
        conn = lives::<Brand, S, R>(rt, alloc, opened, conn, life)?;
    }
    Ok(())
}

// a replica without rows
fn created<S: Alter + Drop>(alloc: Global, conn: Connection<S>) -> Result<Connection<S>, Fail> {
    let schema = Arc::new(alloc, schema(alloc)?)?;
    match Replica::create(conn, schema) {
        Ok(replica) => Ok(replica.into_connection()),
        Err(refused) => Err(refused.why.into()),
    }
}

// A broker gets all changesets, and its subscription goes on with what the replica has. Then both
// are given up.
fn lives<L: BrokerBrand, S: Alter + Drop, R: Threads + Wait + Abort + Sync>(
    rt: &R,
    alloc: Global,
    opened: Opened,
    conn: Connection<S>,
    life: &Life,
) -> Result<Connection<S>, Fail>
    requires sequence { (opened.limits ≡ L.limits) × (opened.cells ≡ L.cells) }
    requires queue { opened.queue ≡ L.queue }
    requires ledger { (opened.ledger ≡ L.name) × (L.parts ≡ 1024) × (L.all ≡ 1024) }
    requires history { opened.history ≡ L.history }
{
    let mut history = History::<L>::start(alloc, opened)?;
    history.run(rt, alloc, SENT)?;
    goes_on(rt, alloc, &mut history, conn, life)
}

fn goes_on<L: BrokerBrand, S: Alter + Drop, R: Threads + Wait + Abort + Sync>(
    rt: &R,
    alloc: Global,
    history: &mut History<L>,
    conn: Connection<S>,
    life: &Life,
) -> Result<Connection<S>, Fail> {
    let (conn, tables, cursor) = loaded(alloc, conn)?;
    let mut subscription = subscribed(rt, alloc, history, tables, cursor)?;
    let conn = works(rt, alloc, &history.broker, &mut subscription, conn, life)?;
    let (conn, tables, cursor) = loaded(alloc, conn)?;
    assert_eq!(rt; cursor, life.cursor);
    has_rows(rt, alloc, history, &subscription, &tables, cursor)?;
    Ok(conn)
}

fn subscribed<L: BrokerBrand, R: Wait>(
    rt: &R,
    alloc: Global,
    history: &mut History<L>,
    tables: Tables,
    cursor: u64,
) -> Result<Subscription<L>, Fail> {
    let (broker, keeper) = (&history.broker, &mut history.keeper);
    match broker.subscribe(rt, alloc, keeper, tables, cursor) {
        Ok(subscription) => Ok(subscription),
        Err(refused) => Err(refused.why.into()),
    }
}

// The subscription has this cursor, and both have the rows up to there.
fn has_rows<L: BrokerBrand, R: Abort>(
    rt: &R,
    alloc: Global,
    history: &History<L>,
    subscription: &Subscription<L>,
    tables: &Tables,
    cursor: u64,
) -> Result<(), Fail> {
    assert_eq!(rt; subscription.cursor(), cursor);
    let singly = history.tables_at(alloc, cursor)?;
    assert!(rt; tables.is_same(&singly) && subscription.tables().is_same(&singly));
    Ok(())
}

// the replica's rows and its cursor, once it is opened again
fn loaded<S: Alter + Drop>(
    alloc: Global,
    conn: Connection<S>,
) -> Result<(Connection<S>, Tables, u64), Fail> {
    let (replica, tables, cursor) = opened_again(alloc, conn)?;
    Ok((replica.into_connection(), tables, cursor))
}

fn opened_again<S: Alter + Drop>(
    alloc: Global,
    conn: Connection<S>,
) -> Result<(Replica<S>, Tables, u64), Fail>
    ensures { IfOk result (λ r. KeepsRows (state S.Store r.0.conn) r.1.rows r.2) }
{
    let schema = Arc::new(alloc, schema(alloc)?)?;
    let mut replica = match Replica::open(conn, schema) {
        Ok(replica) => replica,
        Err(refused) => return Err(refused.why.into()),
    };
    let (tables, cursor) = replica.load(alloc)?;
    Ok((replica, tables, cursor))
}

// takes, accepts and acknowledges as many deliveries as the life says
fn works<L: BrokerBrand, S: Alter + Drop, R: Threads + Wait + Abort + Sync>(
    rt: &R,
    alloc: Global,
    broker: &Broker<L>,
    subscription: &mut Subscription<L>,
    conn: Connection<S>,
    life: &Life,
) -> Result<Connection<S>, Fail> {
    let mut conn = conn;
    let mut next = subscription.cursor().wrapping_add(1);
    for n in 0..life.takes {
        let delivery = broker.take(rt, alloc, subscription, 0)?;
        assert_eq!(rt; delivery.first(), next);
        next = delivery.last().wrapping_add(1);
        if n < life.accepts {
            conn = accepts(rt, alloc, broker, subscription, conn, &delivery)?;
        }
        if n < life.acknowledges {
            broker.ack(rt, alloc, subscription, &delivery)?;
        }
    }
    Ok(conn)
}

// Accepts into the replica, opened again, which has the subscription's rows and its cursor.
fn accepts<L: BrokerBrand, S: Alter + Drop, R: Threads + Wait + Abort + Sync>(
    rt: &R,
    alloc: Global,
    broker: &Broker<L>,
    subscription: &mut Subscription<L>,
    conn: Connection<S>,
    delivery: &Delivery,
) -> Result<Connection<S>, Fail> {
    let (mut replica, tables, cursor) = opened_again(alloc, conn)?;
    if cursor != subscription.cursor() || !tables.is_same(subscription.tables()) {
        return Err(Fail::new("the replica has the subscription's rows"));
    }
    let workers = Workers {
        rt,
        n: 2,
        gate: &Open,
    };
    let sequence = broker.sequence();
    let cursor = subscription.accept_durable(&workers, alloc, sequence, &mut replica, delivery)?;
    assert_eq!(rt; cursor, delivery.last());
    Ok(replica.into_connection())
}
