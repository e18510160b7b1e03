//! Publishers, the sequencer, subscribers and a reader, each in a thread of its own: what they have
//! once all have ended.

ghost use Rattle.std.specs.Prelude.{◌≡◌, IfOk};

use crate::courses::{Course, accept_all};
use crate::given::{empty_tables, insert, opened, publisher};
use cs_apply::Tables;
use cs_model::Origin;
use rb_broker::{
    Broker, BrokerBrand, Opened, Publisher, PublisherMaker, RefusedSend, StagedSet, Started,
    WithdrawError,
};
use rb_close::{meet, meet_sequencer};
use rb_sequence::Sequence;
use rb_sequencer::{Sequencer, Turn};
use rb_subscriber::{Auditor, RefusedAudit, Stake, Subscription};
use std::alloc::{AllocError, Global};
use std::marker::Brand;
use std::process::Abort;
use std::sync::{Mutex, Wait};
use std::test::Fail;
use std::thread;
use std::thread::Threads;

// after this many turns a loop that waits fails
const MOST_TURNS: u64 = 10_000_000;

/// What runs at once: how many items may wait, how many publishers there are, how often each of
/// them sends, which of its entries each withdraws then, and how many subscribers lag.
#[derive(Clone, Copy)]
struct Load {
    intake: u64,
    publishers: u64,
    sends: u64,
    withdrawn: &'static [u64],
    subscribers: u64,
}

impl Load {
    // the number of all entries
    fn all(&self) -> u64 {
        let each = self.sends.wrapping_add(self.withdrawn.len() as u64);
        self.publishers.wrapping_mul(each)
    }
}

#[test]
fn eight_publishers_through_an_intake_of_one(rt: HostRuntime) -> Result<(), Fail> {
    let load = Load {
        intake: 1,
        publishers: 8,
        sends: 2_000,
        withdrawn: &[],
        subscribers: 0,
    };
    runs(&rt, rt.alloc(), load)
}

#[test]
fn eight_publishers_through_an_intake_of_64(rt: HostRuntime) -> Result<(), Fail> {
    // a reader crosses the border of two segments while it is filled
    let load = Load {
        intake: 64,
        publishers: 8,
        sends: 8_500,
        withdrawn: &[],
        subscribers: 0,
    };
    runs(&rt, rt.alloc(), load)
}

#[test]
fn sixteen_subscribers_lag(rt: HostRuntime) -> Result<(), Fail> {
    let load = Load {
        intake: 8,
        publishers: 1,
        sends: 98,
        withdrawn: &[3, 60],
        subscribers: 16,
    };
    runs(&rt, rt.alloc(), load)
}

// batches of 4, a window of 4
fn runs<R: Threads + Wait + Abort + Sync>(rt: &R, alloc: Global, load: Load) -> Result<(), Fail> {
    let opened = opened(alloc, (4, 4, load.all(), load.intake))?;
    all_arrive::<Brand, R>(rt, alloc, opened, load)
}

/// What a thread does. It gives back what it owns.
#[derive(Drop)]
enum Owner<L: BrokerBrand> {
    Publishes(Publisher<L>),
    Places(Sequencer<L>),
    Reads,
    Accepts(Subscription<L>),
}

fn all_arrive<L: BrokerBrand + Send + Sync, R: Threads + Wait + Abort + Sync>(
    rt: &R,
    alloc: Global,
    opened: Opened,
    load: Load,
) -> Result<(), Fail>
    requires sequence { (opened.limits ≡ L.limits) × (opened.cells ≡ L.cells) }
    requires queue { opened.queue ≡ L.queue }
    requires ledger { (opened.ledger ≡ L.name) × (L.parts ≡ 1024) × (L.all ≡ 1024) }
    requires history { opened.history ≡ L.history }
{
    let Started {
        broker,
        sequencer,
        publishers: mut maker,
        mut auditor,
        placer,
        mut keeper,
    } = Broker::<L>::start(opened);
    let sequencer = Sequencer::new(alloc, sequencer, placer);
    let owners = all_owners(rt, alloc, &broker, &mut maker, &mut keeper, sequencer, load)?;
    all_end(
        rt,
        alloc,
        &broker,
        &Mutex::new(keeper),
        &mut auditor,
        owners,
        load,
    )
}

fn all_owners<L: BrokerBrand, R: Wait>(
    rt: &R,
    alloc: Global,
    broker: &Broker<L>,
    maker: &mut PublisherMaker<L>,
    keeper: &mut Stake<L>,
    sequencer: Sequencer<L>,
    load: Load,
) -> Result<Vec<Owner<L>>, Fail> {
    let mut owners = Vec::new(alloc);
    owners.push(Owner::Places(sequencer))?;
    owners.push(Owner::Reads)?;
    for _ in 0..load.publishers {
        owners.push(Owner::Publishes(publisher(alloc, maker, broker)?))?;
    }
    for _ in 0..load.subscribers {
        owners.push(subscriber(rt, alloc, broker, keeper)?)?;
    }
    Ok(owners)
}

// Each owner works in a thread of its own.
fn all_end<L: BrokerBrand + Send + Sync, R: Threads + Wait + Abort + Sync>(
    rt: &R,
    alloc: Global,
    broker: &Broker<L>,
    keeper: &Mutex<Stake<L>>,
    auditor: &mut Auditor<L>,
    owners: Vec<Owner<L>>,
    load: Load,
) -> Result<(), Fail> {
    let done = thread::map_vec(
        rt,
        owners,
        &|owner| work(rt, alloc, broker, keeper, load, owner),
    )?;
    let (sequencers, subscriptions) = sorted_out(alloc, done)?;
    assert_eq!(rt; subscriptions.len() as u64, load.subscribers);
    let sequence = broker.sequence();
    in_sending_order(rt, alloc, sequence, load)?;
    all_meet(rt, alloc, sequence, load, &sequencers, &subscriptions)?;
    counts(rt, broker, auditor, subscriptions)
}

// those that are needed afterwards
fn sorted_out<L: BrokerBrand>(
    alloc: Global,
    mut owners: Vec<Owner<L>>,
) -> Result<(Vec<Sequencer<L>>, Vec<Subscription<L>>), Fail> {
    let mut sequencers = Vec::new(alloc);
    let mut subscriptions = Vec::new(alloc);
    while let Some(owner) = owners.pop() {
        match owner {
            Owner::Places(sequencer) => sequencers.push(sequencer)?,
            Owner::Accepts(subscription) => subscriptions.push(subscription)?,
            Owner::Publishes(publisher) => drop(publisher),
            Owner::Reads => {}
        }
    }
    Ok((sequencers, subscriptions))
}

fn subscriber<L: BrokerBrand, R: Wait>(
    rt: &R,
    alloc: Global,
    broker: &Broker<L>,
    keeper: &mut Stake<L>,
) -> Result<Owner<L>, Fail> {
    match broker.subscribe(rt, alloc, keeper, empty_tables(alloc)?, 0) {
        Ok(subscription) => Ok(Owner::Accepts(subscription)),
        Err(_) => Err(AllocError.into()),
    }
}

// stops the test where a thread fails
fn work<L: BrokerBrand, R: Threads + Wait + Abort + Sync>(
    rt: &R,
    alloc: Global,
    broker: &Broker<L>,
    keeper: &Mutex<Stake<L>>,
    load: Load,
    owner: Owner<L>,
) -> Owner<L> {
    let mut owner = owner;
    let done = match &mut owner {
        Owner::Publishes(publisher) => publish(rt, alloc, broker, publisher, load),
        Owner::Places(sequencer) => place(rt, alloc, broker, sequencer, load.all()),
        Owner::Reads => read(broker.sequence(), load.all()),
        Owner::Accepts(subscription) => {
            let mut course = Course {
                state: subscription.sub(),
            };
            accept_all(
                rt,
                alloc,
                broker,
                keeper,
                subscription,
                &mut course,
                load.all(),
            )
        }
    };
    if let Err(why) = done {
        panic!(rt; "{why}");
    }
    owner
}

// the key of a publisher's sending, counted from 0
fn key(publisher: u64, place: u64) -> u64 {
    publisher.wrapping_mul(1_000_000).wrapping_add(place)
}

// sends an INSERT of each of its keys, then withdraws some of its entries
fn publish<L: BrokerBrand, R: Wait>(
    rt: &R,
    alloc: Global,
    broker: &Broker<L>,
    publisher: &mut Publisher<L>,
    load: Load,
) -> Result<(), &'static str> {
    for place in 0..load.sends {
        let key = key(publisher.number(), place);
        let set = stage(alloc, publisher, key)?;
        send(rt, broker, publisher, set)?;
    }
    for number in load.withdrawn {
        let set = withdraw(alloc, broker.sequence(), publisher, *number)?;
        send(rt, broker, publisher, set)?;
    }
    Ok(())
}

// stages the INSERT of a key
fn stage<L: BrokerBrand>(
    alloc: Global,
    publisher: &mut Publisher<L>,
    key: u64,
) -> Result<StagedSet<L>, &'static str>
    ensures set { IfOk result (λ set. set.publisher ≡ publisher.new.number) }
{
    if publisher.feed(alloc, &insert(key)).is_err() {
        return Err("nothing is fed");
    }
    publisher.end(alloc).or(Err("nothing is staged"))
}

// sends a set, as often as the intake is full
fn send<L: BrokerBrand, R: Wait>(
    rt: &R,
    broker: &Broker<L>,
    publisher: &mut Publisher<L>,
    set: StagedSet<L>,
) -> Result<(), &'static str>
    requires { set.publisher ≡ publisher.old.number }
{
    let mut set = set;
    for _ in 0..MOST_TURNS {
        match publisher.send(rt, broker, set) {
            Ok(_) => return Ok(()),
            Err(RefusedSend::Full(back)) => {
                set = back;
                thread::yield_now();
            }
            Err(RefusedSend::Closed(_, _)) => return Err("the sequence is closed"),
        }
    }
    Err("the intake stays full")
}

// stages the withdrawal of an entry, once it is placed
fn withdraw<L: BrokerBrand>(
    alloc: Global,
    sequence: &Sequence,
    publisher: &mut Publisher<L>,
    number: u64,
) -> Result<StagedSet<L>, &'static str>
    requires { sequence.now ≡ L.cells }
    ensures set { IfOk result (λ set. set.publisher ≡ publisher.new.number) }
{
    for _ in 0..MOST_TURNS {
        match publisher.withdraw(alloc, sequence, number) {
            Ok(set) => return Ok(set),
            Err(WithdrawError::NotPlaced) => thread::yield_now(),
            Err(_) => return Err("a withdrawal is refused"),
        }
    }
    Err("an entry is never placed")
}

fn place<L: BrokerBrand, R: Wait>(
    rt: &R,
    alloc: Global,
    broker: &Broker<L>,
    sequencer: &mut Sequencer<L>,
    all: u64,
) -> Result<(), &'static str> {
    for _ in 0..MOST_TURNS {
        if sequencer.placed() >= all {
            return Ok(());
        }
        match sequencer.turn(rt, alloc, broker) {
            Turn::Placed(_) => {}
            Turn::Idle(_) => thread::yield_now(),
            Turn::Refused(_) => return Err("an item isn't placed"),
        }
    }
    Err("the publishers send too little")
}

// reads each cell, as it is set
fn read(sequence: &Sequence, all: u64) -> Result<(), &'static str> {
    let mut next = 1;
    for _ in 0..MOST_TURNS {
        if next > all {
            return Ok(());
        }
        match sequence.get(next) {
            Some(entry) if entry.number() == next => next = next.saturating_add(1),
            Some(_) => return Err("a cell has another number"),
            None => thread::yield_now(),
        }
    }
    Err("the cells stay empty")
}

// Each number has an entry, and each publisher's entries are what it sent, in order.
fn in_sending_order<R: Abort>(
    rt: &R,
    alloc: Global,
    sequence: &Sequence,
    load: Load,
) -> Result<(), Fail> {
    let mut counts = Vec::from_elem(alloc, 0u64, load.publishers as usize)?;
    for number in 1..=load.all() {
        let Some(entry) = sequence.get(number) else {
            return Err(Fail::new("a cell is empty"));
        };
        let publisher = entry.publisher();
        let Some(count) = counts.get_mut(publisher as usize) else {
            return Err(Fail::new("there is no such publisher"));
        };
        let text: &[u8] = entry.text();
        let is_sent = entry.origin() == Origin::Sent;
        assert!(rt; is_sent == (*count < load.sends));
        assert!(rt; !is_sent || text == insert(key(publisher, *count)).as_slice());
        *count = count.wrapping_add(1);
        assert_eq!(rt; entry.own(), *count);
    }
    Ok(())
}

// Every two of them have accepted the whole sequence, and each has the tables of one thread.
fn all_meet<L: BrokerBrand, R: Abort>(
    rt: &R,
    alloc: Global,
    sequence: &Sequence,
    load: Load,
    sequencers: &[Sequencer<L>],
    subscriptions: &[Subscription<L>],
) -> Result<(), Fail> {
    let all = load.all();
    let singly = applied_singly(alloc, sequence, load)?;
    for one in subscriptions {
        for sequencer in sequencers {
            assert_eq!(rt; meet_sequencer(sequencer, one), (0, all));
        }
        for other in subscriptions {
            assert_eq!(rt; meet(one, other), (0, all));
        }
        assert!(rt; one.tables().is_same(&singly));
    }
    Ok(())
}

// the tables that all changesets leave, applied one after another
fn applied_singly(alloc: Global, sequence: &Sequence, load: Load) -> Result<Tables, Fail> {
    let mut tables = empty_tables(alloc)?;
    for number in 1..=load.all() {
        if let Some(entry) = sequence.get(number) {
            tables.apply(alloc, entry.body())?;
        }
    }
    Ok(tables)
}

// The journal has the steps of all subscriptions. An audit without the last one counts nothing.
fn counts<L: BrokerBrand, R: Wait + Abort>(
    rt: &R,
    broker: &Broker<L>,
    auditor: &mut Auditor<L>,
    subscriptions: Vec<Subscription<L>>,
) -> Result<(), Fail> {
    let mut steps: u64 = 0;
    for subscription in &subscriptions {
        steps = steps.wrapping_add(subscription.steps());
    }
    let mut given = subscriptions;
    if let Some(last) = given.pop() {
        let Err(RefusedAudit { subscriptions }) = broker.audit(rt, auditor, given) else {
            return Err(Fail::new("one subscription is missing"));
        };
        given = subscriptions;
        given.push(last)?;
    }
    assert_eq!(rt; broker.audit(rt, auditor, given).ok(), Some(steps));
    Ok(())
}
