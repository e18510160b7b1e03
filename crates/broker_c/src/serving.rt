//! Serves an event to the world behind a handle, and sets a call's outputs.

ghost use Rattle.std.specs.Prelude.{◌≡◌};
ghost use Rattle.broker_c.specs.Serving.{ServesAlone, ServesLink, ServesNumber, ServesTaken};
ghost use Rattle.broker_c.specs.Serving as serving;

use crate::codes::{BUSY, NO_MEMORY, SHUT, code};
use crate::handle::Handle;
use rb_core::{Event, Reply};
use std::alloc::Global;

/// A delivery, as C gets one: its number, its subscription's, and those of its entries.
#[derive(Clone, Copy)]
#[repr(C)]
pub struct DeliveryFields {
    pub number: u64,
    pub subscription: u64,
    pub first: u64,
    pub last: u64,
}

// The code of an event's reply, after which `$set` sets the outputs; -1 if the handle is shut, -6
// if another call is in it, or -2 if memory runs out.
macro_rules! served {
    ($alloc:ident, $broker:ident, $event:ident, |$reply:ident| $set:block) => {{
        if !$broker.is_open() {
            if $broker.is_busy() {
                return BUSY;
            }
            return SHUT;
        }
        match $broker.serve($alloc, $event) {
            Ok($reply) => {
                $set
                code(&$reply)
            }
            Err(_) => NO_MEMORY,
        }
    }};
}

/// Serves an event whose call has no outputs. Returns the reply's code, -1 if the handle is shut,
/// -6 if another call is in it, or -2 if memory runs out.
pub fn serve(alloc: Global, broker: &mut Handle, event: &Event) -> i32
    ensures { ServesAlone result event.now broker.old broker.new }
{
    served!(alloc, broker, event, |reply| {})
}

/// As `serve`, and sets `number` to the number that the reply gives, if it gives one.
pub fn serve_number(alloc: Global, broker: &mut Handle, event: &Event, number: &mut u64) -> i32
    ensures { ServesNumber result event.now broker.old broker.new number.old number.new }
{
    served!(alloc, broker, event, |reply| {
        *number = number_after(&reply, *number);
    })
}

/// As `serve`, and sets `number` and `link` to the new subscription's, if the reply gives one.
pub fn serve_link(
    alloc: Global,
    broker: &mut Handle,
    event: &Event,
    number: &mut u64,
    link: &mut u64,
) -> i32
    ensures { ServesLink result event.now broker.old broker.new number.old number.new link.old
        link.new }
{
    served!(alloc, broker, event, |reply| {
        *number = number_after(&reply, *number);
        *link = link_after(&reply, *link);
    })
}

/// As `serve`, and sets `taken` to the delivery that the reply gives, if it gives one.
pub fn serve_taken(
    alloc: Global,
    broker: &mut Handle,
    event: &Event,
    taken: &mut DeliveryFields,
) -> i32
    ensures { ServesTaken result event.now broker.old broker.new taken.old taken.new }
{
    served!(alloc, broker, event, |reply| {
        *taken = taken_after(&reply, *taken);
    })
}

fn number_after(reply: &Reply, before: u64) -> u64
    ensures { result ≡ serving.number_after reply.now before }
{
    match reply {
        Reply::Publisher(number)
        | Reply::Sent(number)
        | Reply::Placed(number)
        | Reply::Closed(number)
        | Reply::Floor(number)
        | Reply::Opened(number)
        | Reply::Expired(number)
        | Reply::Link(number) => *number,
        Reply::Subscriber { subscription, .. } => *subscription,
        Reply::Accepted { cursor, .. } | Reply::Crashed { cursor, .. } => *cursor,
        _ => before,
    }
}

fn link_after(reply: &Reply, before: u64) -> u64
    ensures { result ≡ serving.link_after reply.now before }
{
    match reply {
        Reply::Subscriber { link, .. } => *link,
        _ => before,
    }
}

fn taken_after(reply: &Reply, before: DeliveryFields) -> DeliveryFields
    ensures { result ≡ serving.taken_after reply.now before }
{
    match reply {
        Reply::Delivery(delivery) => DeliveryFields {
            number: delivery.number(),
            subscription: delivery.sub(),
            first: delivery.first(),
            last: delivery.last(),
        },
        _ => before,
    }
}
