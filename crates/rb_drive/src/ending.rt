//! How a delivery is settled, and how a subscriber ends.

use cs_apply::Conflict;
use rb_subscriber::Shown;

/// How a delivery that was taken is settled.
#[derive(Clone, Copy)]
pub enum Settling {
    /// It is acknowledged: the subscription has accepted it.
    Ack,
    /// It is given back.
    Nack,
    /// It is given back and opened.
    NackOpened,
}

/// How a subscriber ended.
#[derive(Debug, Drop)]
pub enum SubscriberEnd {
    /// It has accepted everything up to the last number.
    Drained,
    /// The entry after its cursor, which the cells showed so, conflicts with its rows. It has
    /// accepted all entries before it.
    Conflict(Conflict, Shown),
    /// All loops were ended first.
    Stopped,
}
