//! The calls for publishers and for the sequence.
//!
//! Every call returns the code of its reply: 0, or a negative one. It returns -1 if the handle is
//! shut, -6 if another call is in it, and -2 if memory runs out. A call with a negative code sets
//! no output. A stream keeps its fault, and a refused turn may change the world (`BrokerRefusal`).

ghost use Rattle.rb_core.specs.declared.event.Event.TheVariants as event;
ghost use Rattle.broker_c.specs.Serving.{ServesAlone, ServesFeed, ServesNumber};

use crate::codes::{BUSY, NO_MEMORY, SHUT};
use crate::handle::Handle;
use crate::serving::{serve, serve_number};
use cs_model::Seq;
use rb_core::Event;
use std::alloc::Global;

/// Adds a publisher. Sets `publisher` to its number. Returns 0, or -11 if there are 64 publishers.
#[unsafe(no_mangle)]
pub extern "C" fn broker_publisher(alloc: Global, broker: &mut Handle, publisher: &mut u64) -> i32
    ensures { ServesNumber result event.Publisher broker.old broker.new publisher.old
        publisher.new }
{
    serve_number(alloc, broker, &Event::Publisher, publisher)
}

/// Feeds a publisher's stream the next bytes, of which it keeps a copy. Returns 0, -10 for an
/// unknown publisher, or -3 for a fault, which the stream then keeps. The bytes are copied before
/// anything else, so that -2 says only that nothing changed.
#[unsafe(no_mangle)]
pub extern "C" fn broker_feed(
    alloc: Global,
    broker: &mut Handle,
    publisher: u64,
    bytes: &[u8],
) -> i32
    ensures { ServesFeed result publisher bytes.now broker.old broker.new }
{
    if !broker.is_open() {
        if broker.is_busy() {
            return BUSY;
        }
        return SHUT;
    }
    let Ok(bytes) = Seq::from_slice(alloc, bytes) else {
        return NO_MEMORY;
    };
    serve(alloc, broker, &Event::Feed { publisher, bytes })
}

/// Drops a publisher's stream, with its fault if it has one, and begins a new one. What is staged
/// stays. Returns 0, or -10 for an unknown publisher.
#[unsafe(no_mangle)]
pub extern "C" fn broker_reset(alloc: Global, broker: &mut Handle, publisher: u64) -> i32
    ensures { ServesAlone result (event.Reset publisher) broker.old broker.new }
{
    serve(alloc, broker, &Event::Reset { publisher })
}

/// Ends a publisher's stream and stages the changeset that it spells. Returns 0, -10 for an unknown
/// publisher, -12 if one is staged already, -3 for a fault, or -20 or -21 for the first section
/// that the tables refuse. The stream stays as it is unless the result is 0.
#[unsafe(no_mangle)]
pub extern "C" fn broker_end(alloc: Global, broker: &mut Handle, publisher: u64) -> i32
    ensures { ServesAlone result (event.End publisher) broker.old broker.new }
{
    serve(alloc, broker, &Event::End { publisher })
}

/// Sends what a publisher has staged. Sets `own` to its number among the publisher's sendings, from
/// 1. Returns 0, -10 for an unknown publisher, -13 if nothing is staged, -14 if the sequence is
/// closed, or -15 if the intake is full.
#[unsafe(no_mangle)]
pub extern "C" fn broker_send(
    alloc: Global,
    broker: &mut Handle,
    publisher: u64,
    own: &mut u64,
) -> i32
    ensures { ServesNumber result (event.Send publisher) broker.old broker.new own.old own.new }
{
    serve_number(alloc, broker, &Event::Send { publisher }, own)
}

/// Stages the withdrawal of an entry that the publisher sent. Returns 0, -10 for an unknown
/// publisher, -12 if something is staged already, -16 if no entry has this number, -17 if another
/// publisher sent it, or -18 if it is withdrawn already.
#[unsafe(no_mangle)]
pub extern "C" fn broker_withdraw(
    alloc: Global,
    broker: &mut Handle,
    publisher: u64,
    entry: u64,
) -> i32
    ensures { ServesAlone result (event.Withdraw publisher entry) broker.old broker.new }
{
    let number = entry;
    serve(alloc, broker, &Event::Withdraw { publisher, number })
}

/// Places the changeset that was sent first. Sets `entry` to its number in the sequence. Returns 0,
/// 1 if nothing waits, -22 if the journal is full, -14 if the sequence is closed, or -19 if it is
/// full. A turn that is refused may have taken a changeset out of the intake; the next turn tries
/// that one first.
#[unsafe(no_mangle)]
pub extern "C" fn broker_turn(alloc: Global, broker: &mut Handle, entry: &mut u64) -> i32
    ensures { ServesNumber result event.Turn broker.old broker.new entry.old entry.new }
{
    serve_number(alloc, broker, &Event::Turn, entry)
}

/// Closes the sequence: nothing more is sent or placed. Sets `last` to its last number. Returns 0,
/// also if it is closed already.
#[unsafe(no_mangle)]
pub extern "C" fn broker_close(alloc: Global, broker: &mut Handle, last: &mut u64) -> i32
    ensures { ServesNumber result event.Close broker.old broker.new last.old last.new }
{
    serve_number(alloc, broker, &Event::Close, last)
}
