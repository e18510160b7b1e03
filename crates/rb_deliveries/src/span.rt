//! Spans: numbers of the sequence that are delivered to a subscription together. A number that is
//! acknowledged is in no span.

ghost use Rattle.std.specs.Prelude.{◌≡◌};
ghost use Rattle.rb_deliveries.specs.Spans.{is_ready, is_out, is_out_as, is_due};
ghost use Rattle.rb_deliveries.specs.Waiting.{moment_of};

use crate::rank::Rank;

/// The numbers from `first` to `last`, and their status.
#[derive(Clone, Copy, Debug, PartialEq, Eq)]
pub struct Span {
    /// The first number.
    pub first: u64,
    /// The last number, at least `first`.
    pub last: u64,
    /// Their status.
    pub status: Status,
}

/// The status of a span's numbers.
#[derive(Clone, Copy, Debug, PartialEq, Eq)]
pub enum Status {
    /// They wait to be taken. `taken` says whether they were taken before; such a span never grows.
    Ready { taken: bool },
    /// They are in flight as delivery `number`, taken at tick `moment`.
    InFlight { number: u64, moment: u64 },
}

impl Status {
    /// Whether they wait to be taken.
    pub(crate) fn is_ready(self) -> bool
        ensures { result ≡ is_ready self }
    {
        match self {
            Status::Ready { taken: _ } => true,
            Status::InFlight {
                number: _,
                moment: _,
            } => false,
        }
    }

    /// Whether they are in flight.
    pub(crate) fn is_out(self) -> bool
        ensures { result ≡ is_out self }
    {
        !self.is_ready()
    }

    /// Whether they are in flight as this delivery.
    pub(crate) fn is_out_as(self, delivery: u64) -> bool
        ensures { result ≡ is_out_as delivery self }
    {
        match self {
            Status::Ready { taken: _ } => false,
            Status::InFlight { number, moment: _ } => number == delivery,
        }
    }

    /// The moment at which they were taken, if they are in flight, as a place in an order.
    pub(crate) fn moment(self) -> Option<Rank>
        ensures { result ≡ moment_of self }
    {
        match self {
            Status::Ready { taken: _ } => None,
            Status::InFlight { number: _, moment } => Some(Rank {
                front: moment,
                turn: 0,
            }),
        }
    }

    /// Whether they are in flight and were taken `timeout` ticks or more before `clock`.
    pub(crate) fn is_due(self, timeout: u64, clock: u64) -> bool
        ensures { result ≡ is_due timeout clock self }
    {
        match self {
            Status::Ready { taken: _ } => false,
            Status::InFlight { number: _, moment } => timeout <= clock.saturating_sub(moment),
        }
    }
}
