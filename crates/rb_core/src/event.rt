//! Events: everything that can happen to a world, as values.

use cs_model::Octets;

/// An event with its operands. Publishers and subscriptions are numbered from 0, entries and
/// deliveries from 1. `now` is any tick of the caller's clock; the world's clock is the greatest
/// one so far.
#[derive(Debug, Drop)]
pub enum Event {
    /// Adds a publisher.
    Publisher,
    /// Feeds a publisher the next bytes of its stream.
    Feed { publisher: u64, bytes: Octets },
    /// Drops a publisher's stream and begins a new one.
    Reset { publisher: u64 },
    /// Ends a publisher's stream and stages the changeset that it spells.
    End { publisher: u64 },
    /// Sends what a publisher has staged.
    Send { publisher: u64 },
    /// Stages the withdrawal of an entry that the publisher sent.
    Withdraw { publisher: u64, number: u64 },
    /// Places the changeset that was sent first: it gets the next number.
    Turn,
    /// Closes the sequence: nothing more is sent or placed.
    Close,
    /// Adds a subscription that begins after number `start`, with empty tables.
    Subscribe { start: u64 },
    /// The same of a subscription that keeps no rows: no change of its tables is applied, so
    /// nothing that it accepts conflicts.
    SubscribeBare { start: u64 },
    /// Delivers a subscription's next entries, at tick `now`.
    Take { subscription: u64, now: u64 },
    /// Delivers the entries that have been ready the longest, of any subscription with room, at
    /// tick `now`.
    TakeAny { now: u64 },
    /// Accepts a delivery: its subscription applies the entries.
    Accept { delivery: u64 },
    /// The delivery's subscription falls while it accepts the delivery. If its durable store has
    /// `kept` the accept, it is as after it, else as before it. It accepts nothing more until it is
    /// resumed.
    Crash { delivery: u64, kept: bool },
    /// Acknowledges a delivery: its entries are settled.
    Ack { delivery: u64 },
    /// Negatively acknowledges a delivery: its entries are ready again.
    Nack { delivery: u64 },
    /// Negatively acknowledges a delivery and opens it: each of its entries is ready again, alone.
    NackOpened { delivery: u64 },
    /// Expires every delivery that has been out for the timeout or longer, at tick `now`.
    Expire { now: u64 },
    /// Continues a subscription after number `cursor`, under a new link.
    Reconnect { subscription: u64, cursor: u64 },
    /// Continues a subscription that has fallen, after its own cursor and under a new link.
    Resume { subscription: u64 },
    /// Closes a subscription.
    Unsubscribe { subscription: u64 },
}
