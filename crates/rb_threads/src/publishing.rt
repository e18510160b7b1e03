//! Calls of a history's publishers and of its sequencer.

ghost use Rattle.std.specs.Prelude.{◌≡◌, []};

use crate::given::{delete, insert, insert_and_update, opened, publisher};
use crate::history::{History, Said, made};
use cs_model::Origin;
use cs_parse::ParseError;
use rb_broker::{
    AddError, Broker, BrokerBrand, Occupied, Opened, PlaceError, RefusedItem, RefusedSend, Started,
    WithdrawError,
};
use rb_intake::SequencerPass;
use rb_sequencer::Turn;
use rb_subscriber::Stake;
use std::alloc::{AllocError, Global};
use std::marker::Brand;
use std::process::Abort;
use std::sync::Wait;
use std::test::Fail;

impl<L: BrokerBrand> History<L> {
    /// Makes the call of this name, if it is one of these.
    pub fn publish<R: Wait>(
        &mut self,
        rt: &R,
        alloc: Global,
        name: &str,
        a: u64,
        b: u64,
    ) -> Result<Said, Fail> {
        match name {
            "publisher" => self.publisher(alloc),
            "send" => self.send(rt, alloc, a, &insert(b)),
            "change" => self.send(rt, alloc, a, &insert_and_update(b)),
            "withdraw" => self.withdraw(rt, alloc, a, b),
            "turn" => Ok(self.turn(rt, alloc)),
            "put" => self.put(rt, alloc, &insert(a)),
            "delete" => self.put(rt, alloc, &delete(a)),
            "hand" => Ok(self.hand()),
            "entry" => self.entry(a),
            "close" => self.close(rt),
            _ => Ok(Said::Unknown),
        }
    }

    // makes one publisher more
    fn publisher(&mut self, alloc: Global) -> Result<Said, Fail> {
        self.publishers.reserve(1)?;
        match self.maker.make(alloc, &self.broker) {
            Ok(publisher) => {
                let number = publisher.number();
                self.publishers.push_reserved(publisher);
                Ok(Said::Publisher(number))
            }
            Err(AddError::Memory) => Ok(Said::Memory),
            Err(why) => Ok(Said::NoPublisher(why)),
        }
    }

    // Sends a changeset by this publisher. If memory runs out, its stream is as it was.
    fn send<R: Wait>(&mut self, rt: &R, alloc: Global, p: u64, text: &[u8]) -> Result<Said, Fail> {
        let publisher = made(self.publishers.get_mut(p as usize))?;
        match publisher.feed(alloc, text) {
            Ok(()) => {}
            Err(ParseError::Memory) => return Ok(Said::Memory),
            Err(why) => return Err(why.into()),
        }
        let set = publisher.end(alloc)?;
        Ok(sent(publisher.send(rt, &self.broker, set)))
    }

    // sends the withdrawal of an entry by this publisher
    fn withdraw<R: Wait>(
        &mut self,
        rt: &R,
        alloc: Global,
        p: u64,
        number: u64,
    ) -> Result<Said, Fail> {
        let publisher = made(self.publishers.get_mut(p as usize))?;
        match publisher.withdraw(alloc, self.broker.sequence(), number) {
            Ok(set) => Ok(sent(publisher.send(rt, &self.broker, set))),
            Err(why) => Ok(not_withdrawn(&why)),
        }
    }

    // If memory runs out, the item is in hand, and the next turn tries it again.
    fn turn<R: Wait>(&mut self, rt: &R, alloc: Global) -> Said {
        match self.sequencer.turn(rt, alloc, &self.broker) {
            Turn::Placed(told) => Said::Placed(told.number()),
            Turn::Idle(_) => Said::Idle,
            Turn::Refused(PlaceError::SequenceFull) => Said::SequenceFull,
            Turn::Refused(PlaceError::Closed(last)) => Said::Closed(last.last()),
            Turn::Refused(PlaceError::Memory) => Said::Memory,
            Turn::Refused(PlaceError::JournalFull | PlaceError::Occupied(_)) => Said::Unknown,
        }
    }

    /// Sends a changeset by the first publisher, and places it.
    pub fn put<R: Wait>(&mut self, rt: &R, alloc: Global, text: &[u8]) -> Result<Said, Fail> {
        match self.send(rt, alloc, 0, text)? {
            Said::Sent(_) => {}
            said => return Ok(said),
        }
        match self.turn(rt, alloc) {
            Said::Memory => Ok(self.turn(rt, alloc)),
            said => Ok(said),
        }
    }

    fn hand(&self) -> Said {
        Said::Hand(
            self.sequencer
                .hand()
                .map(|item| (item.publisher(), item.own())),
        )
    }

    fn entry(&self, number: u64) -> Result<Said, Fail> {
        let entry = made(self.broker.sequence().get(number))?;
        Ok(match entry.origin() {
            Origin::Sent => Said::Sent(entry.own()),
            Origin::Withdraws(number) => Said::Withdraws(number),
        })
    }

    fn close<R: Wait>(&mut self, rt: &R) -> Result<Said, Fail> {
        let told = made(self.broker.close(rt, &mut self.keeper))?;
        Ok(Said::Closed(told.last()))
    }
}

fn sent<L: BrokerBrand>(answer: Result<u64, RefusedSend<L>>) -> Said {
    match answer {
        Ok(own) => Said::Sent(own),
        Err(RefusedSend::Full(_)) => Said::Full,
        Err(RefusedSend::Closed(last, _)) => Said::Closed(last.last()),
    }
}

fn not_withdrawn(why: &WithdrawError) -> Said {
    match why {
        WithdrawError::NotPlaced => Said::NotPlaced,
        WithdrawError::NotYours(told) => Said::NotYours(told.number()),
        WithdrawError::AlreadyWithdrawn(told) => Said::AlreadyWithdrawn(told.number()),
        WithdrawError::Memory(_) => Said::Memory,
    }
}

#[test]
fn items_are_placed_in_order(rt: HostRuntime) -> Result<(), Fail> {
    second_first(&rt, rt.alloc())
}

fn second_first<R: Wait + Abort>(rt: &R, alloc: Global) -> Result<(), Fail> {
    let opened = opened(alloc, (16, 4, 16, 4))?;
    pulls_two::<Brand, R>(rt, alloc, opened)
}

// Two are pulled. The second isn't placed as long as the first isn't.
fn pulls_two<L: BrokerBrand, R: Wait + Abort>(
    rt: &R,
    alloc: Global,
    opened: Opened,
) -> Result<(), Fail>
    requires sequence { (opened.limits ≡ L.limits) × (opened.cells ≡ L.cells) }
    requires queue { opened.queue ≡ L.queue }
    requires ledger { (opened.ledger ≡ L.name) × (L.parts ≡ 1024) × (L.all ≡ 1024) }
    requires history { opened.history ≡ L.history }
{
    let Started {
        broker,
        sequencer: mut pass,
        publishers: mut maker,
        mut placer,
        ..
    } = Broker::<L>::start(opened);
    let mut publisher = publisher(alloc, &mut maker, &broker)?;
    for _ in 0..2_usize {
        let set = publisher.end(alloc)?;
        if publisher.send(rt, &broker, set).is_err() {
            return Err(Fail::new("four may wait"));
        }
    }
    assert_eq!(rt; next_number(rt, alloc, &broker, &mut pass, &mut placer)?, 1);
    Ok(())
}

// the number that the desk places next, where the second item is to be placed
fn next_number<L: BrokerBrand, R: Wait>(
    rt: &R,
    alloc: Global,
    broker: &Broker<L>,
    pass: &mut SequencerPass,
    placer: &mut Stake<L>,
) -> Result<u64, Fail>
    requires { pass.old ≡ record { queue = L.queue; pulled = []; ended = [] } }
{
    let first = broker.pull(rt, pass).ok();
    let (Some(_), Ok(second)) = (first, broker.pull(rt, pass)) else {
        return Err(Fail::new("two wait"));
    };
    match broker.place_next(rt, alloc, pass, placer, second, 2) {
        Err(
            RefusedItem {
                why: PlaceError::Occupied(Occupied::Next(next)),
                ..
            },
        ) => Ok(next),
        Err(
            RefusedItem {
                why: PlaceError::Memory,
                ..
            },
        ) => Err(AllocError.into()),
        _ => Err(Fail::new("the first isn't placed")),
    }
}
