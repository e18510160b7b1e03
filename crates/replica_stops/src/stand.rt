//! A broker on one thread, and what is sent through it.

ghost use Rattle.std.specs.Prelude.{◌≡◌, [], IfOk};

use rb_broker::{Broker, BrokerBrand, Publisher, StagedSet, Started};
use rb_desk::Config;
use rb_sequencer::{Sequencer, Turn};
use rb_subscriber::Stake;
use std::alloc::Global;
use std::io;
use std::sync::Wait;

/// A broker with its owners but for its subscriber.
#[derive(Drop)]
pub struct Stand<L: BrokerBrand> {
    pub broker: Broker<L>,
    pub keeper: Stake<L>,
    publisher: Publisher<L>,
    sequencer: Sequencer<L>,
}

/// The limits of the broker: each delivery has all that is placed.
pub fn limits() -> io::Result<Config> {
    match Config::new(256, 4, 10, 256, 1, 1) {
        Ok(config) => Ok(config),
        Err(_) => Err(io::Error::other("the limits are in their ranges")),
    }
}

impl<L: BrokerBrand> Stand<L> {
    /// A broker that was started, with its sequencer and one publisher.
    pub fn of(alloc: Global, started: Started<L>) -> io::Result<Stand<L>>
        requires { started.sequencer ≡ record { queue = L.queue; pulled = []; ended = [] } }
    {
        let Started {
            broker,
            sequencer,
            mut publishers,
            placer,
            keeper,
            ..
        } = started;
        let Ok(publisher) = publishers.make(alloc, &broker) else {
            return Err(io::Error::other("no publisher is made"));
        };
        Ok(Stand {
            broker,
            keeper,
            publisher,
            sequencer: Sequencer::new(alloc, sequencer, placer),
        })
    }

    /// Places as many entries as lead from one number to another: the last of them with this
    /// changeset, and empty ones before it.
    pub fn place_up_to<R: Wait>(
        &mut self,
        rt: &R,
        alloc: Global,
        from: u64,
        to: u64,
        text: &[u8],
    ) -> io::Result<()> {
        for number in from..to {
            let body: &[u8] = if number + 1 == to { text } else { &[] };
            self.place(rt, alloc, body)?;
        }
        Ok(())
    }

    // sends a changeset, and places it
    fn place<R: Wait>(&mut self, rt: &R, alloc: Global, text: &[u8]) -> io::Result<()> {
        let set = staged(alloc, &mut self.publisher, text)?;
        if self.publisher.send(rt, &self.broker, set).is_err() {
            return Err(io::Error::other("a changeset isn't sent"));
        }
        match self.sequencer.turn(rt, alloc, &self.broker) {
            Turn::Placed(_) => Ok(()),
            Turn::Idle(_) | Turn::Refused(_) => Err(io::Error::other("a changeset isn't placed")),
        }
    }
}

// stages a changeset
fn staged<L: BrokerBrand>(
    alloc: Global,
    publisher: &mut Publisher<L>,
    text: &[u8],
) -> io::Result<StagedSet<L>>
    ensures { IfOk result (λ set. set.publisher ≡ publisher.new.number) }
{
    if publisher.feed(alloc, text).is_err() {
        return Err(io::Error::other("a changeset has a fault"));
    }
    match publisher.end(alloc) {
        Ok(set) => Ok(set),
        Err(_) => Err(io::Error::other("a changeset isn't staged")),
    }
}
