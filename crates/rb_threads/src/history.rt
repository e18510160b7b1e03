//! A broker on one thread. Its calls are lines of text, each with its answer. Where memory runs out
//! all is as it was, and the call is made once more.

ghost use Rattle.std.specs.Prelude.{◌≡◌};

use crate::falling::FailingStore;
use crate::given::{empty_tables, publisher};
use cs_apply::Tables;
use rb_broker::{
    AddError, Broker, BrokerBrand, Opened, Publisher, PublisherMaker, ResumeError, Started,
};
use rb_desk::{Delivery, DeskError, DeskRefusal};
use rb_sequencer::Sequencer;
use rb_subscriber::{AcceptRefusal, Auditor, Lost, Stake, Subscription};
use std::alloc::Global;
use std::process::Abort;
use std::sync::Wait;
use std::test::Fail;
use std::thread::Threads;

/// What a call answers.
#[derive(Clone, Copy, Debug)]
pub enum Said {
    /// A publisher's number.
    Publisher(u64),
    NoPublisher(AddError),
    /// The changeset's number among its publisher's sendings.
    Sent(u64),
    Full,
    NotPlaced,
    /// The number of the entry that isn't withdrawn, by its token.
    NotYours(u64),
    AlreadyWithdrawn(u64),
    /// The number that is placed.
    Placed(u64),
    Idle,
    SequenceFull,
    /// The publisher and the own number of the item that the sequencer has in hand.
    Hand(Option<(u64, u64)>),
    /// The last number of a closed sequence, by a token.
    Closed(u64),
    /// The number that an entry withdraws.
    Withdraws(u64),
    Made,
    OtherSchema,
    /// A delivery's own number, its subscription's, and its first and last.
    Delivery(u64, u64, u64, u64),
    Drained(u64),
    /// The cursor.
    Accepted(u64),
    Floor(u64),
    Done,
    /// How many numbers a delivery has that is opened.
    Opened(u64),
    /// How many.
    Expired(u64),
    Link(u64),
    /// The cursors of before and after the delivery that failed, and how often the store was asked.
    Fell(u64, u64, u64),
    Fits(bool),
    NotResumed(ResumeError),
    Desk(DeskRefusal),
    Refused(AcceptRefusal),
    /// How often the store was asked that failed.
    StoreFailed(u64),
    Memory,
    /// No call has this name.
    Unknown,
}

impl From<DeskError> for Said {
    fn from(error: DeskError) -> Said {
        match error {
            DeskError::Refused(why) => Said::Desk(why),
            DeskError::Memory => Said::Memory,
        }
    }
}

/// A broker, its owners, and what its calls have made so far.
#[derive(Drop)]
pub struct History<L: BrokerBrand> {
    pub broker: Broker<L>,
    pub sequencer: Sequencer<L>,
    pub maker: PublisherMaker<L>,
    pub auditor: Auditor<L>,
    pub keeper: Stake<L>,
    pub publishers: Vec<Publisher<L>>,
    pub subscriptions: Vec<Subscription<L>>,
    pub deliveries: Vec<Delivery>,
    pub lost: Option<Lost<L>>,
    pub store: FailingStore,
}

/// What a row of a history names.
pub fn made<T>(found: Option<T>) -> Result<T, Fail> {
    match found {
        Some(found) => Ok(found),
        None => Err(Fail::new("the row names what isn't made")),
    }
}

impl<L: BrokerBrand> History<L> {
    /// The broker that was opened, with one publisher.
    pub fn start(alloc: Global, opened: Opened) -> Result<History<L>, Fail>
        requires sequence { (opened.limits ≡ L.limits) × (opened.cells ≡ L.cells) }
        requires queue { opened.queue ≡ L.queue }
        requires ledger { (opened.ledger ≡ L.name) × (L.parts ≡ 1024) × (L.all ≡ 1024) }
        requires history { opened.history ≡ L.history }
    {
        let Started {
            broker,
            sequencer,
            publishers: mut maker,
            auditor,
            placer,
            keeper,
        } = Broker::<L>::start(opened);
        let mut publishers = Vec::new(alloc);
        publishers.push(publisher(alloc, &mut maker, &broker)?)?;
        Ok(History {
            broker,
            sequencer: Sequencer::new(alloc, sequencer, placer),
            maker,
            auditor,
            keeper,
            publishers,
            subscriptions: Vec::new(alloc),
            deliveries: Vec::new(alloc),
            lost: None,
            store: FailingStore { commits: 0 },
        })
    }

    /// Makes the calls of these lines one after another, and compares their answers.
    pub fn run<R: Threads + Wait + Abort + Sync>(
        &mut self,
        rt: &R,
        alloc: Global,
        lines: &str,
    ) -> Result<(), Fail> {
        for line in lines.lines() {
            let (call, answer) = made(line.split_once(" = "))?;
            let said = match call.strip_prefix("text ") {
                Some(number) => self.text(alloc, made(number.parse().ok())?)?,
                None => {
                    let said = self.answer(rt, alloc, call)?;
                    format!(in alloc; "{said:?}")?
                }
            };
            assert_eq!(rt; said.as_str(), answer);
        }
        Ok(())
    }

    // the text of an entry, in hexadecimal
    fn text(&self, alloc: Global, number: u64) -> Result<String, Fail> {
        let entry = made(self.broker.sequence().get(number))?;
        Ok(hex::encode(alloc, entry.text())?)
    }

    // Makes a call. Out of memory changes nothing: the same call goes on from there.
    fn answer<R: Threads + Wait + Abort + Sync>(
        &mut self,
        rt: &R,
        alloc: Global,
        call: &str,
    ) -> Result<Said, Fail> {
        let before = self.shown();
        let said = self.call(rt, alloc, call)?;
        if !matches!(said, Said::Memory) {
            return Ok(said);
        }
        assert_eq!(rt; self.shown(), before);
        self.call(rt, alloc, call)
    }

    // makes the call of a line: its name, then its numbers
    fn call<R: Threads + Wait + Abort + Sync>(
        &mut self,
        rt: &R,
        alloc: Global,
        call: &str,
    ) -> Result<Said, Fail> {
        let mut words = call.split_ascii_whitespace();
        let name = made(words.next())?;
        let mut numbers = [0_u64; 2];
        for (number, word) in numbers.iter_mut().zip(words) {
            *number = made(word.parse().ok())?;
        }
        let [a, b] = numbers;
        match self.publish(rt, alloc, name, a, b)? {
            Said::Unknown => self.follow(rt, alloc, name, a, b),
            said => Ok(said),
        }
    }

    // What its objects show: how many changesets were sent and placed, how many subscriptions and
    // deliveries were made, how often the store was asked, and the sums of what the subscriptions
    // show.
    fn shown(&self) -> [u64; 8] {
        let mut sent: u64 = 0;
        for publisher in &self.publishers {
            sent = sent.wrapping_add(publisher.sent());
        }
        let (mut links, mut cursors, mut steps) = (0_u64, 0_u64, 0_u64);
        for subscription in &self.subscriptions {
            links = links.wrapping_add(subscription.link());
            cursors = cursors.wrapping_add(subscription.cursor());
            steps = steps.wrapping_add(subscription.steps());
        }
        [
            sent,
            self.sequencer.placed(),
            self.subscriptions.len() as u64,
            self.deliveries.len() as u64,
            self.store.commits,
            links,
            cursors,
            steps,
        ]
    }

    /// The tables after the entries up to this number, applied one after another.
    pub fn tables_at(&self, alloc: Global, number: u64) -> Result<Tables, Fail> {
        let mut tables = empty_tables(alloc)?;
        for at in 1..=number {
            let Some(entry) = self.broker.sequence().get(at) else {
                break;
            };
            tables.apply(alloc, entry.body())?;
        }
        Ok(tables)
    }
}
