//! Replies: what a world returns for an event, and why it refuses one.

use cs_parse::ParseFault;
use rb_desk::{Delivery, DeskRefusal};
use rb_subscriber::AcceptRefusal;
use std::fmt;
use thiserror::Error;

/// The reply to an event, returned by `World::step` and `World::serve`.
#[derive(Clone, Copy, Debug, PartialEq, Eq)]
pub enum Reply {
    /// The new publisher's number.
    Publisher(u64),
    /// The bytes are appended to the stream.
    Fed,
    /// The stream is empty again.
    Reset,
    /// A changeset is staged. After `End`, the stream is empty.
    Staged,
    /// The changeset is sent: its number among its publisher's sendings, from 1.
    Sent(u64),
    /// A changeset is placed in the sequence under this number.
    Placed(u64),
    /// Nothing waits to be placed. Nothing changes.
    Idle,
    /// The sequence is closed; this is its last number.
    Closed(u64),
    /// The new subscription's number and link.
    Subscriber { subscription: u64, link: u64 },
    /// Entries are delivered to a subscription.
    Delivery(Delivery),
    /// The delivery's entries are applied. Its subscription has accepted up to `cursor`.
    Accepted { subscription: u64, cursor: u64 },
    /// The delivery's subscription has fallen. It has accepted up to `cursor`.
    Crashed { subscription: u64, cursor: u64 },
    /// The delivery is settled. Its subscription has settled all entries up to this number.
    Floor(u64),
    /// The delivery is returned.
    Returned,
    /// The delivery is returned, and opened: how many entries it has.
    Opened(u64),
    /// How many deliveries expired and were returned.
    Expired(u64),
    /// The subscription's new link.
    Link(u64),
    /// The subscription is closed.
    Unsubscribed,
    /// The stream isn't a changeset: its first fault. The `Feed` that finds it keeps the bytes.
    /// Every later `Feed` returns it again and keeps nothing. An `End` does not change the stream.
    Fault(ParseFault),
    /// The event is refused.
    Refused(BrokerRefusal),
}

/// Why `World::step` and `World::serve` refuse an event. A refused event does not change the world.
/// One exception: a `Turn` that the desk refuses moves the next item from the intake into the hand.
/// If several apply, the reply is the first in this order.
#[derive(Clone, Copy, Debug, PartialEq, Eq, Error)]
pub enum BrokerRefusal {
    /// `Feed`, `Reset`, `End`, `Send`, `Withdraw`: no publisher has this number.
    #[error("there is no such publisher")]
    NoPublisher,
    /// `Accept`, `Crash`, `Ack`, `Nack`, `NackOpened`: no delivery has this number.
    #[error("there is no such delivery")]
    NoDelivery,
    /// `Publisher`: there are 64 publishers.
    #[error("there are 64 publishers")]
    TooMany,
    /// `End`, `Withdraw`: the publisher has a changeset staged already.
    #[error("a changeset is staged already")]
    Holding,
    /// `Send`: the publisher has nothing staged.
    #[error("nothing is staged")]
    NothingStaged,
    /// `Send`: the sequence is closed.
    #[error("the sequence is closed")]
    Closed,
    /// `Send`: the intake is full.
    #[error("the intake is full")]
    Full,
    /// `Withdraw`: no entry has this number.
    #[error("there is no such entry")]
    NotPlaced,
    /// `Withdraw`: another publisher sent the entry.
    #[error("the entry is another publisher's")]
    NotYours,
    /// `Withdraw`: the entry is withdrawn already.
    #[error("the entry is withdrawn already")]
    AlreadyWithdrawn,
    /// `End`: the first refused section, at this index, is of a table that isn't in the schema.
    #[error("section {0} is of an unknown table")]
    UnknownTable(u64),
    /// `End`: the first refused section, at this index, has another shape than its table.
    #[error("section {0} has another shape than its table")]
    ShapeDiffers(u64),
    /// `Resume`: the subscription hasn't fallen.
    #[error("the subscription has not fallen")]
    NotFallen,
    /// `Turn`, `Subscribe`, `Take`, `TakeAny`, `Ack`, `Nack`, `NackOpened`, `Expire`, `Reconnect`,
    /// `Resume`, `Unsubscribe`: the desk refuses the call.
    #[error(transparent)]
    Desk(DeskRefusal),
    /// `Accept`, `Crash`: the subscription's endpoint refuses the delivery.
    #[error(transparent)]
    Accept(AcceptRefusal),
}

impl fmt::Display for Reply {
    fn fmt<W: fmt::Write>(&self, f: &mut fmt::Formatter<W>) -> fmt::Result {
        match self {
            Reply::Publisher(number) => write!(f, "publisher {number}"),
            Reply::Fed => f.write_str("the bytes are fed"),
            Reply::Reset => f.write_str("the stream is empty"),
            Reply::Staged => f.write_str("a changeset is staged"),
            Reply::Sent(own) => write!(f, "sending {own}"),
            Reply::Placed(number) => write!(f, "entry {number}"),
            Reply::Idle => f.write_str("nothing waits to be placed"),
            Reply::Closed(last) => write!(f, "the sequence is closed at {last}"),
            Reply::Subscriber { subscription, link } => {
                write!(f, "subscription {subscription} under link {link}")
            }
            Reply::Delivery(delivery) => delivery.fmt(f),
            Reply::Accepted {
                subscription,
                cursor,
            } => { write!(f, "subscription {subscription} has accepted up to {cursor}") }
            Reply::Crashed {
                subscription,
                cursor,
            } => { write!(f, "subscription {subscription} has fallen at {cursor}") }
            Reply::Floor(floor) => write!(f, "settled up to {floor}"),
            Reply::Returned => f.write_str("the delivery is returned"),
            Reply::Opened(count) => write!(f, "the delivery of {count} entries is opened"),
            Reply::Expired(count) => write!(f, "{count} deliveries expired"),
            Reply::Link(link) => write!(f, "a new link, {link}"),
            Reply::Unsubscribed => f.write_str("the subscription is closed"),
            Reply::Fault(fault) => fault.fmt(f),
            Reply::Refused(why) => why.fmt(f),
        }
    }
}
