//! `SubscriptionRef`: a subscription, borrowed, and what is known of it.

ghost use Rattle.std.specs.Prelude.{◌≡◌};
ghost use Rattle.rb_deliveries.specs.Changes.{has_no_spans};
ghost use Rattle.rb_deliveries.specs.Queues.{AreLimited};
ghost use Rattle.rb_deliveries.specs.Pictured.{pictured_sub};
ghost use Rattle.rb_deliveries.specs.Spans.{first_ready, how_many_out, how_many_ready, out_as};

use crate::span::Span;
use crate::sub::Sub;
use std::marker::Model;

/// A subscription, borrowed. Contracts see the subscription.
#[derive(Debug, Drop)]
pub struct SubscriptionRef<'a> {
    sub: &'a Sub,
    batch: u64,
    front: u64,
}

impl<'a> Model for SubscriptionRef<'a> {
    ghost use Rattle.rb_deliveries.specs.Queues.{AreLimited};
    ghost use Rattle.rb_deliveries.specs.Picture.{Subscription};
    ghost use Rattle.rb_deliveries.specs.Pictured.{pictured_sub};

    ghost Value = { Subscription };

    ghost view = { λ q. pictured_sub q.batch q.front q.sub.now };

    ghost invariant = { λ q. AreLimited q.batch q.front };
}

impl<'a> SubscriptionRef<'a> {
    /// What is stored of a subscription. A delivery has up to `batch` numbers, and `front` is the
    /// last number placed.
    pub(crate) fn of(sub: &'a Sub, batch: u64, front: u64) -> SubscriptionRef<'a>
        requires { AreLimited batch front }
        ensures { result ≡ pictured_sub batch front sub.now }
    {
        SubscriptionRef { sub, batch, front }
    }

    /// The number after which it began.
    pub fn start(&self) -> u64
        ensures { result ≡ self.now.start }
    {
        self.sub.start
    }

    /// Its current link.
    pub fn link(&self) -> u64
        ensures { result ≡ self.now.link }
    {
        self.sub.link
    }

    /// Whether it is closed.
    pub fn closed(&self) -> bool
        ensures { result ≡ self.now.closed }
    {
        self.sub.closed
    }

    /// The greatest number delivered to it.
    pub fn offered(&self) -> u64
        ensures { result ≡ self.now.offered }
    {
        self.sub.offered
    }

    /// The number up to which everything is settled.
    pub fn floor(&self) -> u64
        ensures { result ≡ self.now.floor }
    {
        self.sub.floor()
    }

    /// How many deliveries are in flight to it.
    pub fn in_flight(&self) -> u64
        ensures { result ≡ how_many_out self.now.spans }
    {
        if self.sub.closed {
            return 0;
        }
        self.sub.out()
    }

    /// How many spans are ready.
    pub fn ready(&self) -> u64
        ensures { result ≡ how_many_ready self.now.spans }
    {
        if self.sub.closed {
            return 0;
        }
        self.sub.ready(self.batch, self.front)
    }

    /// Whether it has no spans.
    pub fn is_empty(&self) -> bool
        ensures { result ≡ has_no_spans self.now.spans }
    {
        self.sub.closed || self.sub.is_empty(self.front)
    }

    /// The ready span with the lowest numbers.
    pub fn first_ready(&self) -> Option<Span>
        ensures { result ≡ first_ready self.now.spans }
    {
        if self.sub.closed {
            return None;
        }
        self.sub.first_ready(self.batch, self.front)
    }

    /// The span that is in flight to it as this delivery.
    pub fn out_as(&self, delivery: u64) -> Option<Span>
        ensures { result ≡ out_as delivery self.now.spans }
    {
        self.sub.out_as(delivery)
    }
}
