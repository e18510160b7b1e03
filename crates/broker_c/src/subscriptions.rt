//! The calls for subscriptions and their deliveries. A `now` is any tick of the caller's clock.
//!
//! Every call returns the code of its reply: 0, or a negative one. It returns -1 if the handle is
//! shut, -6 if another call is in it, and -2 if memory runs out. A call with a negative code sets
//! no output, and changes nothing but the numbers that `broker_why` returns. All but
//! `broker_accept` and `broker_crash` return -22 where the journal is full.

ghost use Rattle.rb_core.specs.declared.event.Event.TheVariants as event;
ghost use Rattle.broker_c.specs.Serving.{ServesAlone, ServesLink, ServesNumber, ServesTaken};

use crate::handle::Handle;
use crate::serving::{DeliveryFields, serve, serve_link, serve_number, serve_taken};
use rb_core::Event;
use std::alloc::Global;

/// Adds a subscription to the entries after `start`, with empty tables. Sets `subscription` to its
/// number, and `link` to its link. Returns 0, -40 if `start` is after the last number placed, or
/// -11 if there are 1,024 subscriptions.
#[unsafe(no_mangle)]
pub extern "C" fn broker_subscribe(
    alloc: Global,
    broker: &mut Handle,
    start: u64,
    subscription: &mut u64,
    link: &mut u64,
) -> i32
    ensures { ServesLink result (event.Subscribe start) broker.old broker.new subscription.old
        subscription.new link.old link.new }
{
    serve_link(
        alloc,
        broker,
        &Event::Subscribe { start },
        subscription,
        link,
    )
}

/// Adds a subscription to the entries after `start` that keeps no rows: no change is applied, so
/// nothing that it accepts conflicts, and `start` may be any number that is placed. Sets
/// `subscription` and `link`, and returns what `broker_subscribe` does.
#[unsafe(no_mangle)]
pub extern "C" fn broker_subscribe_bare(
    alloc: Global,
    broker: &mut Handle,
    start: u64,
    subscription: &mut u64,
    link: &mut u64,
) -> i32
    ensures { ServesLink result (event.SubscribeBare start) broker.old broker.new subscription.old
        subscription.new link.old link.new }
{
    serve_link(
        alloc,
        broker,
        &Event::SubscribeBare { start },
        subscription,
        link,
    )
}

/// Delivers a subscription's next ready entries. Sets `taken` to the delivery. Returns 0, -30 for
/// an unknown subscription, -14 for a closed one, -32 if its window is full, -36 if it has settled
/// all there will be, or -37 if nothing is ready.
#[unsafe(no_mangle)]
pub extern "C" fn broker_take(
    alloc: Global,
    broker: &mut Handle,
    subscription: u64,
    now: u64,
    taken: &mut DeliveryFields,
) -> i32
    ensures { ServesTaken result (event.Take subscription now) broker.old broker.new taken.old
        taken.new }
{
    serve_taken(alloc, broker, &Event::Take { subscription, now }, taken)
}

/// Delivers the entries that have been ready the longest, of any subscription with room in its
/// window. Sets `taken` to the delivery. Returns 0, or -37 if nothing is ready.
#[unsafe(no_mangle)]
pub extern "C" fn broker_take_any(
    alloc: Global,
    broker: &mut Handle,
    now: u64,
    taken: &mut DeliveryFields,
) -> i32
    ensures { ServesTaken result (event.TakeAny now) broker.old broker.new taken.old taken.new }
{
    serve_taken(alloc, broker, &Event::TakeAny { now }, taken)
}

/// Accepts a delivery: its subscription's tables get all changes of its entries, or none. Sets
/// `cursor` to the last number that the subscription has accepted. Returns 0, -33 for an unknown
/// delivery, -45 if the subscription has fallen, -14 if it is closed, -31 under an old link, -35 if
/// it is accepted already, -41 if others come first, -42 for other tables, or -43 for a conflict.
#[unsafe(no_mangle)]
pub extern "C" fn broker_accept(
    alloc: Global,
    broker: &mut Handle,
    delivery: u64,
    cursor: &mut u64,
) -> i32
    ensures { ServesNumber result (event.Accept delivery) broker.old broker.new cursor.old
        cursor.new }
{
    serve_number(alloc, broker, &Event::Accept { delivery }, cursor)
}

/// Lets the delivery's subscription fall while it accepts the delivery. If its store has `kept` the
/// accept, it is as after it, else as before it. It accepts nothing until `broker_resume`. Sets
/// `cursor` to the last number that it has accepted. Returns what `broker_accept` does.
#[unsafe(no_mangle)]
pub extern "C" fn broker_crash(
    alloc: Global,
    broker: &mut Handle,
    delivery: u64,
    kept: bool,
    cursor: &mut u64,
) -> i32
    ensures { ServesNumber result (event.Crash delivery kept) broker.old broker.new cursor.old
        cursor.new }
{
    serve_number(alloc, broker, &Event::Crash { delivery, kept }, cursor)
}

/// Acknowledges a delivery: its entries are settled. Sets `floor` to the number up to which the
/// subscription has settled all. Returns 0, -33 for an unknown delivery, -31 under an old link, -34
/// if it isn't in flight, or -38 if not all of it is accepted.
#[unsafe(no_mangle)]
pub extern "C" fn broker_ack(
    alloc: Global,
    broker: &mut Handle,
    delivery: u64,
    floor: &mut u64,
) -> i32
    ensures { ServesNumber result (event.Ack delivery) broker.old broker.new floor.old floor.new }
{
    serve_number(alloc, broker, &Event::Ack { delivery }, floor)
}

/// Gives a delivery back: its entries are ready again. Returns 0, -33 for an unknown delivery, -31
/// under an old link, or -34 if it isn't in flight.
#[unsafe(no_mangle)]
pub extern "C" fn broker_nack(alloc: Global, broker: &mut Handle, delivery: u64) -> i32
    ensures { ServesAlone result (event.Nack delivery) broker.old broker.new }
{
    serve(alloc, broker, &Event::Nack { delivery })
}

/// Gives a delivery back and opens it: each of its entries is ready again, alone. Sets `count` to
/// how many they are. Returns what `broker_nack` does.
#[unsafe(no_mangle)]
pub extern "C" fn broker_nack_opened(
    alloc: Global,
    broker: &mut Handle,
    delivery: u64,
    count: &mut u64,
) -> i32
    ensures { ServesNumber result (event.NackOpened delivery) broker.old broker.new count.old
        count.new }
{
    serve_number(alloc, broker, &Event::NackOpened { delivery }, count)
}

/// Gives back every delivery that has been out for the timeout or longer. Sets `count` to how many
/// they are. Returns 0.
#[unsafe(no_mangle)]
pub extern "C" fn broker_expire(
    alloc: Global,
    broker: &mut Handle,
    now: u64,
    count: &mut u64,
) -> i32
    ensures { ServesNumber result (event.Expire now) broker.old broker.new count.old count.new }
{
    serve_number(alloc, broker, &Event::Expire { now }, count)
}

/// Lets a subscription go on after number `cursor`, under a new link, to which `link` is set. Its
/// deliveries from before are stale. Returns 0, -30 for an unknown subscription, -14 for a closed
/// one, or -39 if the number isn't between the floor and the last one offered.
#[unsafe(no_mangle)]
pub extern "C" fn broker_reconnect(
    alloc: Global,
    broker: &mut Handle,
    subscription: u64,
    cursor: u64,
    link: &mut u64,
) -> i32
    ensures { ServesNumber result (event.Reconnect subscription cursor) broker.old broker.new
        link.old link.new }
{
    let event = Event::Reconnect {
        subscription,
        cursor,
    };
    serve_number(alloc, broker, &event, link)
}

/// Lets a subscription that has fallen go on after its own cursor, under a new link, to which
/// `link` is set. Returns 0, -30 for an unknown subscription, -44 if it hasn't fallen, -14 for a
/// closed one, or -39 as `broker_reconnect`.
#[unsafe(no_mangle)]
pub extern "C" fn broker_resume(
    alloc: Global,
    broker: &mut Handle,
    subscription: u64,
    link: &mut u64,
) -> i32
    ensures { ServesNumber result (event.Resume subscription) broker.old broker.new link.old
        link.new }
{
    serve_number(alloc, broker, &Event::Resume { subscription }, link)
}

/// Closes a subscription. Returns 0, -30 for an unknown one, or -14 if it is closed already.
#[unsafe(no_mangle)]
pub extern "C" fn broker_unsubscribe(alloc: Global, broker: &mut Handle, subscription: u64) -> i32
    ensures { ServesAlone result (event.Unsubscribe subscription) broker.old broker.new }
{
    serve(alloc, broker, &Event::Unsubscribe { subscription })
}
