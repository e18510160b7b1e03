//! Calls as values, so that a list of them can be replayed.

/// A call of a desk with its operands: those of the call of this name in [`Desk`](crate::Desk). The
/// limits and a list of calls determine the desk's picture (*replay*). `prepare` has no variant
/// because it changes nothing.
#[derive(Clone, Copy, Debug, PartialEq, Eq)]
pub enum Step {
    Subscribe {
        start: u64,
    },
    Take {
        sub: u64,
        link: u64,
        cursor: u64,
        now: u64,
    },
    TakeAny {
        now: u64,
    },
    Ack {
        sub: u64,
        link: u64,
        delivery: u64,
        cursor: u64,
    },
    Nack {
        sub: u64,
        link: u64,
        delivery: u64,
    },
    NackOpened {
        sub: u64,
        link: u64,
        delivery: u64,
    },
    Expire {
        now: u64,
    },
    Reconnect {
        sub: u64,
        cursor: u64,
    },
    Unsubscribe {
        sub: u64,
        link: u64,
    },
    Place,
    Close,
}
