//! One subscription: its numbers, its link and its queue.

ghost use Rattle.std.specs.Prelude.{◌≡◌, ◌≤◌, OnOk, OnErr};
ghost use Rattle.std.specs.List.{AllByRecursion};
ghost use Rattle.rb_deliveries.specs.Queues.{AreRising, AreLimited, HasNumbers, is_none_left};
ghost use Rattle.rb_deliveries.specs.Queues.{queue_floor, queue_spans, most_numbers, settled_queue};
ghost use Rattle.rb_deliveries.specs.Queues.{spans_of};
ghost use Rattle.rb_deliveries.specs.Spans.{first_ready, how_many_out, how_many_ready};

use crate::queue::Queue;
use crate::rank::Rank;
use crate::span::{Span, Status};
use std::alloc::{AllocError, Global};

/// The most numbers that can be placed.
pub const MOST_NUMBERS: u64 = 16_777_216;

/// A subscription: the number after which it began, the greatest number delivered, its current
/// link, whether it is closed, and its spans.
#[derive(Debug, Drop)]
pub(crate) struct Sub {
    pub(crate) start: u64,
    pub(crate) offered: u64,
    pub(crate) link: u64,
    pub(crate) closed: bool,
    pub(crate) queue: Queue,
}

impl Sub {
    ghost use Rattle.rb_deliveries.specs.Expiry.{due_in, expired_sub, by_number, turns_from};
    ghost use Rattle.rb_deliveries.specs.Opening.{IsLatest, opened_sub};
    ghost use Rattle.rb_deliveries.specs.Subs.{AreGiven, ComesLast, IsDrawn, IsNewest};
    ghost use Rattle.rb_deliveries.specs.Subs.{new_sub, sub_out_as, delivered_sub};
    ghost use Rattle.rb_deliveries.specs.Subs.{returned_sub, settled_sub, reconnected_sub};
    ghost use Rattle.rb_deliveries.specs.Subs.{closed_sub};
    ghost use Rattle.rb_deliveries.specs.Waiting.{sub_moment, sub_rank};

    /// A subscription after this number, under this link. The numbers after it are cut with this
    /// rank.
    pub(crate) fn after(start: u64, link: u64, rank: Rank) -> Sub
        requires { start ≤ most_numbers }
        ensures { result ≡ new_sub start link rank }
    {
        Sub {
            start,
            offered: start,
            link,
            closed: false,
            queue: Queue::after(start, rank),
        }
    }

    /// Delivers a span: it is in flight as this delivery, whose number is the greatest, taken at
    /// this tick.
    pub(crate) fn deliver(
        &mut self,
        alloc: Global,
        span: Span,
        number: u64,
        tick: u64,
    ) -> Result<(), AllocError>
        requires span { HasNumbers span }
        requires last { IsNewest number self.old.queue.held }
        ensures ok { OnOk result (self.new ≡ delivered_sub self.old span number tick) }
        ensures err { OnErr result (self.new ≡ self.old) }
        ensures memory { OnErr result (span.first ≡ self.old.queue.next) }
    {
        let status = Status::InFlight {
            number,
            moment: tick,
        };
        self.queue.deliver(alloc, span, status)?;
        self.offered = self.offered.max(span.last);
        Ok(())
    }

    /// Makes a span ready again, in line with this rank, which comes after all others.
    pub(crate) fn give_back(&mut self, first: u64, rank: Rank)
        requires { ComesLast rank self.old.queue.held }
        ensures { self.new ≡ returned_sub self.old first rank }
    {
        self.queue.give_back(first, rank);
    }

    /// Opens a span: each of its numbers is a ready span of its own. Their ranks come after
    /// `latest`. An `Err` changes nothing.
    pub(crate) fn open(&mut self, first: u64, latest: Rank) -> Result<(), AllocError>
        requires { IsLatest latest self.old.queue }
        ensures ok { OnOk result (self.new ≡ opened_sub self.old first latest) }
        ensures err { OnErr result (self.new ≡ self.old) }
    {
        self.queue.open(first, latest)
    }

    /// Settles a span. Returns the floor, up to which everything is settled now.
    pub(crate) fn settle(&mut self, first: u64) -> u64
        ensures sub { self.new ≡ settled_sub self.old first }
        ensures floor { result ≡ queue_floor (settled_queue self.old.queue first) }
    {
        self.queue.settle(first);
        self.queue.floor()
    }

    /// The span that is in flight as this delivery.
    pub(crate) fn out_as(&self, delivery: u64) -> Option<Span>
        ensures { result ≡ sub_out_as delivery self.now }
    {
        if self.closed {
            return None;
        }
        self.queue.out_as(delivery)
    }

    /// The number up to which everything is settled.
    pub(crate) fn floor(&self) -> u64
        ensures { result ≡ queue_floor self.now.queue }
    {
        self.queue.floor()
    }

    /// How many spans are in flight.
    pub(crate) fn out(&self) -> u64
        ensures { result ≡ how_many_out (spans_of self.now.queue.held) }
    {
        self.queue.out()
    }

    /// How many spans are ready.
    pub(crate) fn ready(&self, batch: u64, front: u64) -> u64
        requires { AreLimited batch front }
        ensures { result ≡ how_many_ready (queue_spans batch front self.now.queue) }
    {
        self.queue.ready(batch, front)
    }

    /// Whether all its numbers up to `front`, the last one placed, are settled.
    pub(crate) fn is_empty(&self, front: u64) -> bool
        ensures { result ≡ is_none_left self.now.queue front }
    {
        self.queue.is_empty(front)
    }

    /// The ready span with the lowest numbers, up to `batch` of them.
    pub(crate) fn first_ready(&self, batch: u64, front: u64) -> Option<Span>
        requires { AreLimited batch front }
        ensures { result ≡ first_ready (queue_spans batch front self.now.queue) }
    {
        self.queue.first_ready(batch, front)
    }

    /// Its rank among the subscriptions, if it is open and its window has room: that of the span
    /// that is first in line, or would be once the next number is placed.
    pub(crate) fn rank(&self, window: u64) -> Option<Rank>
        ensures { result ≡ sub_rank window self.now }
    {
        if self.closed || self.queue.out() >= window {
            return None;
        }
        Some(self.queue.rank())
    }

    /// The earliest moment at which a span in flight was taken, if it is open.
    pub(crate) fn moment(&self) -> Option<Rank>
        ensures value { result ≡ sub_moment self.now }
        ensures rising { AreRising self.now.queue }
    {
        let moment = self.queue.earliest();
        if self.closed {
            return None;
        }
        moment
    }

    /// How many spans are due.
    pub(crate) fn how_many_due(&self, timeout: u64, clock: u64) -> u64
        ensures { result ≡ due_in timeout clock self.now }
    {
        if self.closed {
            return 0;
        }
        self.queue.how_many_due(timeout, clock)
    }

    /// Makes the spans that are due ready again, if it is open. Their ranks come after `latest`,
    /// in the order of their deliveries' numbers, which are below `next`.
    pub(crate) fn expire(&mut self, timeout: u64, clock: u64, latest: Rank, next: u64)
        requires given { AreGiven next latest.turn self.old.queue.held }
        requires drawn { AllByRecursion (λ h. IsDrawn latest.front latest.turn h.rank)
            self.old.queue.held }
        ensures { self.new ≡ expired_sub timeout clock
            (by_number (turns_from latest.front latest.turn)) self.old }
    {
        if !self.closed {
            self.queue.expire(timeout, clock, latest, next);
        }
    }

    /// Continues after this number, under this link. The numbers after it are cut with this rank.
    pub(crate) fn reconnect(&mut self, cursor: u64, link: u64, rank: Rank)
        requires { cursor ≤ most_numbers }
        ensures { self.new ≡ reconnected_sub self.old cursor link rank }
    {
        self.link = link;
        self.queue.restart(cursor, rank);
    }

    /// Closes it and removes all its spans.
    pub(crate) fn close(&mut self)
        ensures { self.new ≡ closed_sub self.old }
    {
        self.closed = true;
        self.queue.clear();
    }
}
