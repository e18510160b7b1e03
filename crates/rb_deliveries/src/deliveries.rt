//! `Deliveries`: what waits for each subscription and what is in flight to it, as a picture.

ghost use Rattle.std.specs.Prelude.{◌≡◌, ◌≤◌, ◌<◌, ◌+◌, suc, length, slice_get, Some, OnOk, OnErr};
ghost use Rattle.std.specs.Prelude.{IfOk, IfSome, true, false};
ghost use Rattle.rb_deliveries.specs.Changes.{IsOutTo, MayContinue, MayDeliver, acked_to};
ghost use Rattle.rb_deliveries.specs.Changes.{all_expired, delivered_to, first_of_all};
ghost use Rattle.rb_deliveries.specs.Changes.{grown_picture, how_many_expire, nacked_to};
ghost use Rattle.rb_deliveries.specs.Changes.{opened_to, reconnected_spans, subscribed_spans};
ghost use Rattle.rb_deliveries.specs.Changes.{unsubscribed_from};
ghost use Rattle.rb_deliveries.specs.Queues.{most_numbers};
ghost use Rattle.rb_deliveries.specs.Picture.{Subscription, no_deliveries};
ghost use Rattle.rb_deliveries.specs.Spans.{SpansRise, cut_spans, floor_of, is_fresh};
ghost use Rattle.rb_deliveries.specs.Spans.{span_length, without_first};

use crate::kept::Subs;
use crate::rank::Rank;
use crate::span::Span;
use crate::subscription::SubscriptionRef;
use std::alloc::{AllocError, Global};
use std::marker::Model;

/// The deliveries of a sequence: which numbers wait for which subscription, and which are in flight
/// to it. Contracts see the picture, and how many turns were drawn.
#[derive(Debug, Drop)]
pub struct Deliveries {
    batch: u64,
    front: u64,
    next_delivery: u64,
    // how many turns were drawn: a span's rank has the front and the turn in which it got ready
    turn: u64,
    subs: Subs,
}

impl Model for Deliveries {
    ghost use Rattle.rb_deliveries.specs.Picture.{DeliveriesSeen};
    ghost use Rattle.rb_deliveries.specs.Pictured.{DeliveriesAgree, pictured};

    ghost Value = { DeliveriesSeen };

    ghost view = { λ d. record {
      picture = pictured d.batch d.subs.window d.front d.next_delivery d.subs.subs;
      turns = d.turn;
    } };

    ghost invariant = { λ d. DeliveriesAgree d.batch d.front d.turn d.next_delivery d.subs.subs };
}

impl Deliveries {
    /// No subscriptions. A delivery has up to `batch` numbers, and up to `window` deliveries may be
    /// in flight to a subscription. Does not allocate.
    pub fn new(alloc: Global, batch: u64, window: u64) -> Deliveries
        requires { (1 ≤ batch) × (batch ≤ 256) }
        ensures { result ≡ record { picture = no_deliveries batch window; turns = 0 } }
    {
        Deliveries {
            batch,
            front: 0,
            next_delivery: 1,
            turn: 0,
            subs: Subs::new(alloc, window),
        }
    }

    /// How many subscriptions there are, closed ones included.
    pub fn len(&self) -> u64
        ensures { result ≡ length self.now.picture.subscriptions }
    {
        self.subs.len()
    }

    /// The last number placed, 0 before the first.
    pub fn front(&self) -> u64
        ensures { result ≡ self.now.picture.front }
    {
        self.front
    }

    /// The subscription with this number. If it is open, its spans rise from the floor to the
    /// front.
    pub fn get(&self, s: u64) -> Option<SubscriptionRef<'_>>
        ensures found { result ≡ slice_get self.now.picture.subscriptions s }
        ensures rising { IfSome result (λ q. q.closed ≡ false
            → SpansRise (suc q.floor) q.spans self.now.picture.front) }
    {
        self.subs.rise();
        let sub = self.subs.get(s)?;
        Some(SubscriptionRef::of(sub, self.batch, self.front))
    }

    /// The first span in the ready order whose subscription has room in its window, with that
    /// subscription's number.
    pub fn first_of_all(&self) -> Option<(u64, Span)>
        ensures { result ≡ first_of_all self.now.picture }
    {
        self.subs.rise();
        self.subs.first_to_deliver(self.batch, self.front)
    }
}

impl Deliveries {
    /// Adds a subscription to the numbers after `start`, under this link. An `Err` changes nothing.
    pub fn subscribe(&mut self, alloc: Global, start: u64, link: u64) -> Result<(), AllocError>
        requires start { start ≤ self.old.picture.front }
        requires few { length self.old.picture.subscriptions < 1024 }
        requires turns { suc self.old.turns < 18446744073709551616 }
        ensures ok { OnOk result (self.new ≡ record {
          picture = subscribed_spans self.old.picture start
              (cut_spans self.old.picture.batch (suc start) self.old.picture.front) link;
          turns = suc self.old.turns;
        }) }
        ensures err { OnErr result (self.new ≡ self.old) }
    {
        let rank = self.next_rank();
        self.subs.add_subscriber(alloc, start, link, rank)?;
        self.turn += 1;
        Ok(())
    }

    /// Delivers a span that may be delivered: it is in flight as the next delivery, taken at this
    /// tick. Returns the delivery's number. Allocates only for a span that was never delivered
    /// before. An `Err` changes nothing.
    pub fn deliver(&mut self, s: u64, span: Span, tick: u64) -> Result<u64, AllocError>
        requires may { MayDeliver self.old.picture s span }
        requires number { suc self.old.picture.next_delivery < 18446744073709551616 }
        ensures ok { OnOk result ((q : Subscription)
            → slice_get self.old.picture.subscriptions s ≡ Some q
            → self.new ≡ record {
              picture = delivered_to self.old.picture s q span tick;
              turns = self.old.turns;
            }) }
        ensures number { IfOk result (λ number. number ≡ self.old.picture.next_delivery) }
        ensures err { OnErr result (self.new ≡ self.old) }
        ensures memory { OnErr result (is_fresh span.status ≡ true) }
    {
        self.subs.rise();
        let number = self.next_delivery;
        self.subs.deliver(s, span, number, tick)?;
        self.next_delivery = number + 1;
        Ok(number)
    }

    /// Acknowledges a span in flight: its numbers are settled. Returns the floor.
    pub fn ack(&mut self, s: u64, span: Span) -> u64
        requires out { IsOutTo self.old.picture s span }
        ensures new { (q : Subscription) → slice_get self.old.picture.subscriptions s ≡ Some q
            → self.new ≡ record {
              picture = acked_to self.old.picture s q span.first
                  (without_first span.first q.spans);
              turns = self.old.turns;
            } }
        ensures floor { (q : Subscription) → slice_get self.old.picture.subscriptions s ≡ Some q
            → result ≡ floor_of (without_first span.first q.spans) self.old.picture.front }
    {
        self.subs.rise();
        self.subs.settle(s, span.first)
    }

    /// Negatively acknowledges a span in flight: it is ready again, after all that are ready.
    pub fn nack(&mut self, s: u64, span: Span)
        requires out { IsOutTo self.old.picture s span }
        requires turns { suc self.old.turns < 18446744073709551616 }
        ensures { (q : Subscription) → slice_get self.old.picture.subscriptions s ≡ Some q
            → self.new ≡ record {
              picture = nacked_to self.old.picture s q span;
              turns = suc self.old.turns;
            } }
    {
        self.subs.rise();
        let rank = self.next_rank();
        self.subs.give_back(s, span.first, rank);
        self.turn += 1;
    }

    /// Opens a span in flight: each of its numbers is a ready span of its own, after all that are
    /// ready, by rising number. Returns how many there are. An `Err` changes nothing.
    pub fn nack_opened(&mut self, s: u64, span: Span) -> Result<u64, AllocError>
        requires out { IsOutTo self.old.picture s span }
        requires turns { self.old.turns + self.old.picture.front < 18446744073709551616 }
        ensures ok { OnOk result ((q : Subscription)
            → slice_get self.old.picture.subscriptions s ≡ Some q
            → self.new ≡ record {
              picture = opened_to self.old.picture s q span;
              turns = self.old.turns + self.old.picture.front;
            }) }
        ensures many { IfOk result (λ many. many ≡ span_length span) }
        ensures err { OnErr result (self.new ≡ self.old) }
    {
        self.subs.rise();
        let latest = self.latest_rank();
        self.subs.open_up(s, span.first, latest)?;
        self.turn += self.front;
        Ok(span.last - span.first + 1)
    }

    /// Makes each span in flight that was taken `timeout` ticks before `clock`, or earlier, ready
    /// again, in the order they were taken. Returns how many there are.
    pub fn expire(&mut self, timeout: u64, clock: u64) -> u64
        requires turns { self.old.turns + self.old.picture.next_delivery < 18446744073709551616 }
        ensures many { result ≡ how_many_expire self.old.picture timeout clock }
        ensures picture { self.new.picture ≡ all_expired self.old.picture timeout clock }
        ensures turns { self.new.turns ≤ self.old.turns + self.old.picture.next_delivery }
    {
        self.subs.rise();
        let latest = self.latest_rank();
        let many = self.subs.expire(timeout, clock, latest, self.next_delivery);
        self.turn += self.next_delivery;
        many
    }

    /// Continues a subscription after `cursor`, under this link. Its spans are removed, and the
    /// numbers after the cursor are cut anew.
    pub fn reconnect(&mut self, s: u64, cursor: u64, link: u64)
        requires may { MayContinue self.old.picture s cursor }
        requires turns { suc self.old.turns < 18446744073709551616 }
        ensures { (q : Subscription) → slice_get self.old.picture.subscriptions s ≡ Some q
            → self.new ≡ record {
              picture = reconnected_spans self.old.picture s q cursor
                  (cut_spans self.old.picture.batch (suc cursor) self.old.picture.front) link;
              turns = suc self.old.turns;
            } }
    {
        let rank = self.next_rank();
        self.subs.reconnect(s, cursor, link, rank);
        self.turn += 1;
    }

    /// Closes a subscription and removes all its spans.
    pub fn unsubscribe(&mut self, s: u64)
        requires there { s < length self.old.picture.subscriptions }
        ensures { (q : Subscription) → slice_get self.old.picture.subscriptions s ≡ Some q
            → self.new ≡ record {
              picture = unsubscribed_from self.old.picture s q;
              turns = self.old.turns;
            } }
    {
        self.subs.rise();
        self.subs.close(s);
    }

    /// Places the next number. Every open subscription has it from now on.
    pub fn place(&mut self)
        requires room { suc self.old.picture.front ≤ most_numbers }
        ensures { self.new ≡ record {
          picture = grown_picture self.old.picture;
          turns = self.old.turns;
        } }
    {
        self.front += 1;
    }
}

impl Deliveries {
    // the rank of the last turn drawn
    fn latest_rank(&self) -> Rank
        ensures { result ≡ record { front = self.now.picture.front; turn = self.now.turns } }
    {
        Rank {
            front: self.front,
            turn: self.turn,
        }
    }

    // the rank of the next turn
    fn next_rank(&self) -> Rank
        requires { suc self.now.turns < 18446744073709551616 }
        ensures { result ≡ record { front = self.now.picture.front; turn = suc self.now.turns } }
    {
        Rank {
            front: self.front,
            turn: self.turn + 1,
        }
    }
}
