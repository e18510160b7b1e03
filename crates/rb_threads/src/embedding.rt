//! A program that runs a broker: a publisher, the sequencer and a subscriber, each in a thread of
//! its own. docs/EMBED.md shows its lines.

ghost use Rattle.std.specs.Prelude.{◌≡◌};

use crate::given::{insert, schema};
use anyhow::{Result, bail};
use cs_apply::Tables;
use cs_model::{CopyIn, Schema};
use rb_broker::{
    Broker, BrokerBrand, Opened, Publisher, PublisherMaker, RefusedSend, StagedSet, Started,
    TakeError,
};
use rb_close::finish;
use rb_desk::{Config, Delivery, DeskError, DeskRefusal};
use rb_sequencer::{Sequencer, Turn};
use rb_subscriber::{Stake, Subscription, SubscriptionError};
use std::alloc::Global;
use std::io::Write;
use std::marker::Brand;
use std::sync::atomic::{AtomicBool, Ordering};
use std::sync::{Arc, Wait};
use std::test::Fail;
use std::thread;
use std::thread::Threads;

// after this many turns a loop gives up
const MOST_TURNS: u64 = 10_000_000;

// Sends changesets of these tables through a broker to a subscriber, and writes its rows.
fn replicate<R: Threads + Wait + Sync, W: Write>(
    rt: &R,
    alloc: Global,
    schema: Schema,
    changesets: &[&[u8]],
    out: &mut W,
) -> Result<()> {
    let kept = vec![in alloc; true; schema.tables().len()]?;
    let tables = Tables::new(alloc, Arc::new(alloc, schema.copy_in(alloc)?)?, kept);
    let opened = Opened::new(alloc, Config::standard(), schema)?;
    run::<Brand, R, W>(rt, alloc, opened, tables, changesets, out)
}

// What the threads own.
#[derive(Drop)]
struct EmbeddedOwners<L: BrokerBrand> {
    publisher: Publisher<L>,
    sequencer: Sequencer<L>,
    keeper: Stake<L>,
    subscription: Subscription<L>,
}

fn run<L: BrokerBrand + Send + Sync, R: Threads + Wait + Sync, W: Write>(
    rt: &R,
    alloc: Global,
    opened: Opened,
    tables: Tables,
    changesets: &[&[u8]],
    out: &mut W,
) -> Result<()>
    requires sequence { (opened.limits ≡ L.limits) × (opened.cells ≡ L.cells) }
    requires queue { opened.queue ≡ L.queue }
    requires ledger { (opened.ledger ≡ L.name) × (L.parts ≡ 1024) × (L.all ≡ 1024) }
    requires history { opened.history ≡ L.history }
{
    let Started {
        broker,
        sequencer,
        publishers: mut maker,
        placer,
        keeper,
        ..
    } = Broker::<L>::start(opened);
    let sequencer = Sequencer::new(alloc, sequencer, placer);
    let owners = all_owners(rt, alloc, &broker, &mut maker, keeper, sequencer, tables)?;
    let all_sent = AtomicBool::new(false);
    let owners = run_owners(rt, alloc, &broker, &all_sent, owners, changesets)?;
    let subscription = end(rt, alloc, broker, maker, owners)?;
    write_rows(alloc, &subscription, out)
}

fn all_owners<L: BrokerBrand, R: Wait>(
    rt: &R,
    alloc: Global,
    broker: &Broker<L>,
    maker: &mut PublisherMaker<L>,
    mut keeper: Stake<L>,
    sequencer: Sequencer<L>,
    tables: Tables,
) -> Result<EmbeddedOwners<L>> {
    let publisher = maker.make(alloc, broker)?;
    match broker.subscribe(rt, alloc, &mut keeper, tables, 0) {
        Ok(subscription) => Ok(EmbeddedOwners {
            publisher,
            sequencer,
            keeper,
            subscription,
        }),
        Err(refused) => Err(refused.why.into()),
    }
}

fn end<L: BrokerBrand, R: Wait>(
    rt: &R,
    alloc: Global,
    broker: Broker<L>,
    maker: PublisherMaker<L>,
    owners: EmbeddedOwners<L>,
) -> Result<Subscription<L>> {
    let EmbeddedOwners {
        publisher,
        sequencer,
        subscription,
        ..
    } = owners;
    let publishers = vec![in alloc; publisher]?;
    let closing = broker.sequence().closing();
    match finish(
        rt,
        alloc,
        closing.as_ref(),
        publishers,
        sequencer,
        maker,
        broker,
    ) {
        Ok(_finished) => Ok(subscription),
        Err(unfinished) => Err(unfinished.why.into()),
    }
}

// runs each owner in a thread of its own, the publisher in this one
fn run_owners<L: BrokerBrand + Send + Sync, R: Threads + Wait + Sync>(
    rt: &R,
    alloc: Global,
    broker: &Broker<L>,
    all_sent: &AtomicBool,
    owners: EmbeddedOwners<L>,
    changesets: &[&[u8]],
) -> Result<EmbeddedOwners<L>> {
    let EmbeddedOwners {
        mut publisher,
        sequencer,
        keeper,
        subscription,
    } = owners;
    thread::scope(thread::scope_env(), rt, |scope| {
        let placing = scope.spawn(move || place(rt, alloc, broker, all_sent, sequencer, keeper))?;
        let accepting = scope.spawn(move || accept(rt, alloc, broker, subscription));
        let sent = publish(rt, alloc, broker, &mut publisher, changesets);
        all_sent.store(true, Ordering::SeqCst);
        let (sequencer, keeper) = placing.join(rt);
        let subscription = accepting?.join(rt)?;
        sent?;
        Ok(EmbeddedOwners {
            publisher,
            sequencer,
            keeper,
            subscription,
        })
    })
}

fn publish<L: BrokerBrand, R: Wait>(
    rt: &R,
    alloc: Global,
    broker: &Broker<L>,
    publisher: &mut Publisher<L>,
    changesets: &[&[u8]],
) -> Result<()> {
    for text in changesets {
        publisher.feed(alloc, text)?;
        let set = publisher.end(alloc)?;
        send(rt, broker, publisher, set)?;
    }
    Ok(())
}

fn send<L: BrokerBrand, R: Wait>(
    rt: &R,
    broker: &Broker<L>,
    publisher: &mut Publisher<L>,
    set: StagedSet<L>,
) -> Result<()>
    requires { set.publisher ≡ publisher.old.number }
{
    let mut set = set;
    for _ in 0..MOST_TURNS {
        match publisher.send(rt, broker, set) {
            Ok(_own) => return Ok(()),
            Err(RefusedSend::Full(back)) => set = back,
            Err(RefusedSend::Closed(_last, _set)) => bail!("the sequence is closed"),
        }
        thread::yield_now();
    }
    bail!("the intake stays full")
}

// places what is sent, and closes the sequence after it
fn place<L: BrokerBrand, R: Wait>(
    rt: &R,
    alloc: Global,
    broker: &Broker<L>,
    all_sent: &AtomicBool,
    mut sequencer: Sequencer<L>,
    mut keeper: Stake<L>,
) -> (Sequencer<L>, Stake<L>) {
    for _ in 0..MOST_TURNS {
        // read before the turn: if all was sent, an idle turn is the last
        let is_last = all_sent.load(Ordering::SeqCst);
        match sequencer.turn(rt, alloc, broker) {
            Turn::Placed(_told) => {}
            Turn::Idle(_) if !is_last => thread::yield_now(),
            Turn::Idle(_) | Turn::Refused(_) => break,
        }
    }
    broker.close(rt, &mut keeper);
    (sequencer, keeper)
}

// takes until all is drained
fn accept<L: BrokerBrand, R: Wait>(
    rt: &R,
    alloc: Global,
    broker: &Broker<L>,
    mut subscription: Subscription<L>,
) -> Result<Subscription<L>> {
    for _ in 0..MOST_TURNS {
        match broker.take(rt, alloc, &mut subscription, 0) {
            Ok(delivery) => settle(rt, alloc, broker, &mut subscription, &delivery)?,
            Err(TakeError::Drained(_last)) => return Ok(subscription),
            Err(TakeError::Desk(DeskError::Refused(DeskRefusal::Empty { .. }))) => {
                thread::yield_now();
            }
            Err(why) => return Err(why.into()),
        }
    }
    bail!("nothing more comes")
}

fn settle<L: BrokerBrand, R: Wait>(
    rt: &R,
    alloc: Global,
    broker: &Broker<L>,
    subscription: &mut Subscription<L>,
    delivery: &Delivery,
) -> Result<()> {
    match subscription.accept_alone(alloc, broker.sequence(), delivery) {
        Ok(_cursor) => {
            broker.ack(rt, alloc, subscription, delivery)?;
        }
        Err(SubscriptionError::Unseen { .. }) => broker.nack(rt, alloc, subscription, delivery)?,
        Err(why) => return Err(why.into()),
    }
    Ok(())
}

fn write_rows<L: BrokerBrand, W: Write>(
    alloc: Global,
    subscription: &Subscription<L>,
    out: &mut W,
) -> Result<()> {
    for (_key, row) in &subscription.tables().rows_in_order(alloc)? {
        for field in row.fields() {
            write!(out, "{field:?} ")?;
        }
        writeln!(out)?;
    }
    Ok(())
}

const ROWS: &str = "\
Integer(1) Text([120]) \n\
Integer(2) Text([120]) \n";

#[test]
fn a_program_replicates(rt: HostRuntime) -> Result<(), Fail> {
    let alloc = rt.alloc();
    let (one, two) = (insert(1), insert(2));
    let changesets = [one.as_slice(), two.as_slice()];
    let mut out = Vec::new(alloc);
    match replicate(&rt, alloc, schema(alloc)?, &changesets, &mut out) {
        Ok(()) => {
            assert_eq!(rt; str::from_utf8(&out).ok(), Some(ROWS));
            Ok(())
        }
        Err(_why) => Err(Fail::new("the program fails")),
    }
}
