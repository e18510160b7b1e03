//! `Delivery`: numbers of the sequence on their way to a subscription.

ghost use Rattle.std.specs.Prelude.{◌≡◌};

use rb_deliveries::Span;
use std::fmt;

/// The numbers `first` to `last` of the sequence, delivered to a subscription. Only a desk makes
/// one.
#[derive(Clone, Copy, Debug, PartialEq, Eq)]
pub struct Delivery {
    pub(crate) number: u64,
    pub(crate) sub: u64,
    pub(crate) link: u64,
    pub(crate) first: u64,
    pub(crate) last: u64,
}

impl Delivery {
    pub(crate) fn of(number: u64, sub: u64, link: u64, span: Span) -> Delivery
        ensures { result ≡ record {
          number = number;
          sub = sub;
          link = link;
          first = span.first;
          last = span.last;
        } }
    {
        Delivery {
            number,
            sub,
            link,
            first: span.first,
            last: span.last,
        }
    }

    /// Its own number, unique among the desk's deliveries.
    pub fn number(&self) -> u64
        ensures { result ≡ self.now.number }
    {
        self.number
    }

    /// The number of its subscription.
    pub fn sub(&self) -> u64
        ensures { result ≡ self.now.sub }
    {
        self.sub
    }

    /// The subscription's link when this was delivered. Once the subscription has another link,
    /// this delivery is stale.
    pub fn link(&self) -> u64
        ensures { result ≡ self.now.link }
    {
        self.link
    }

    /// The first number of the sequence that it delivers.
    pub fn first(&self) -> u64
        ensures { result ≡ self.now.first }
    {
        self.first
    }

    /// The last number of the sequence that it delivers.
    pub fn last(&self) -> u64
        ensures { result ≡ self.now.last }
    {
        self.last
    }
}

impl fmt::Display for Delivery {
    fn fmt<W: fmt::Write>(&self, f: &mut fmt::Formatter<W>) -> fmt::Result {
        write!(
            f,
            "delivery {} to subscription {}: {} to {}",
            self.number, self.sub, self.first, self.last
        )
    }
}
