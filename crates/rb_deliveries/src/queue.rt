//! The spans of one subscription. Only those that were taken before and are not settled are stored.
//! Those that were never taken follow from the number where they begin.

ghost use Rattle.std.specs.Prelude.{◌≡◌, ◌<◌, ◌≤◌, slice_get, OnOk, OnErr};
ghost use Rattle.std.specs.List.{AllByRecursion};
ghost use Rattle.rb_deliveries.specs.Spans.{cut_spans, first_ready, out_as, how_many_out};
ghost use Rattle.rb_deliveries.specs.Spans.{how_many_ready};
ghost use Rattle.rb_deliveries.specs.Queues.{AreRising, AreLimited, HasNumbers, spans_of};
ghost use Rattle.rb_deliveries.specs.Queues.{queue_held, queue_spans, is_none_left, queue_floor};
ghost use Rattle.rb_deliveries.specs.Queues.{least, cut_queue, delivered_queue, returned_queue};
ghost use Rattle.rb_deliveries.specs.Queues.{pushed_queue, settled_queue};
ghost use Rattle.rb_deliveries.specs.Opening.{IsLatest, opened_queue};
ghost use Rattle.rb_deliveries.specs.Taken.{GoesLast};
ghost use Rattle.rb_deliveries.specs.Waiting.{earliest, queue_rank};

use crate::rank::{Held, Rank, sooner};
use crate::span::{Span, Status};
use crate::taken::Taken;
use std::alloc::{AllocError, Global};
use std::marker::Model;

/// What is stored of a subscription's spans. Contracts see the spans that were taken before, where
/// the others begin, and the rank of their cutting.
#[derive(Debug, Drop)]
pub(crate) struct Queue {
    held: Taken,
    next: u64,
    cutting: Rank,
}

impl Model for Queue {
    ghost use Rattle.rb_deliveries.specs.Queues.{Queue, HeldRise};

    ghost Value = { Queue };

    ghost view = { λ l. record {
      held = l.held;
      next = l.next;
      cutting = l.cutting;
    } };

    ghost invariant = { λ l. HeldRise 1 l.held l.next };
}

impl Queue {
    ghost use Rattle.rb_deliveries.specs.Subs.{AreGiven, ComesLast, IsDrawn};
    ghost use Rattle.rb_deliveries.specs.Expiry.{due_held, expired_queue};

    /// The queue of a subscription that begins, or continues, after this number.
    pub(crate) fn after(cursor: u64, cutting: Rank) -> Queue
        requires { cursor < 18446744073709551615 }
        ensures { result ≡ cut_queue cursor cutting }
    {
        Queue {
            held: Taken::new(),
            next: cursor + 1,
            cutting,
        }
    }

    /// The number up to which everything is settled.
    pub(crate) fn floor(&self) -> u64
        ensures { result ≡ queue_floor self.now }
    {
        match self.held.first() {
            Some(span) => span.first - 1,
            None => self.next - 1,
        }
    }

    /// How many spans are in flight.
    pub(crate) fn out(&self) -> u64
        ensures { result ≡ how_many_out (spans_of self.now.held) }
    {
        self.held.in_flight()
    }

    /// How many spans are ready.
    pub(crate) fn ready(&self, batch: u64, front: u64) -> u64
        requires { AreLimited batch front }
        ensures { result ≡ how_many_ready (queue_spans batch front self.now) }
    {
        let fresh = (front + 1).saturating_sub(self.next);
        self.held.ready() + fresh.div_ceil(batch)
    }

    /// Whether it has no span.
    pub(crate) fn is_empty(&self, front: u64) -> bool
        ensures { result ≡ is_none_left self.now front }
    {
        self.held.is_empty() && front < self.next
    }

    /// The ready span with the lowest numbers.
    pub(crate) fn first_ready(&self, batch: u64, front: u64) -> Option<Span>
        requires { AreLimited batch front }
        ensures { result ≡ first_ready (queue_spans batch front self.now) }
    {
        match self.held.first_ready() {
            Some(span) => Some(span),
            None => self.first_fresh(batch, front),
        }
    }

    // the first span that was never taken
    fn first_fresh(&self, batch: u64, front: u64) -> Option<Span>
        requires { AreLimited batch front }
        ensures { result ≡ slice_get (cut_spans batch self.now.next front) 0 }
    {
        if front < self.next {
            return None;
        }
        Some(Span {
            first: self.next,
            last: (self.next + (batch - 1)).min(front),
            status: Status::Ready { taken: false },
        })
    }

    /// The ready span that is first in line, with its rank.
    pub(crate) fn first_in_line(&self, batch: u64, front: u64) -> Option<Held>
        requires { AreLimited batch front }
        ensures { result ≡ least (queue_held batch front self.now) }
    {
        let fresh = self.cutting.given_to(self.first_fresh(batch, front));
        sooner(self.held.first_in_line(), fresh)
    }

    /// The rank of the span that is first in line, or would be once the next number is placed.
    pub(crate) fn rank(&self) -> Rank
        ensures { result ≡ queue_rank self.now }
    {
        let fresh = self.cutting.of_span(self.next);
        match self.held.first_in_line() {
            Some(held) if !fresh.is_before(held.rank) => held.rank,
            _ => fresh,
        }
    }

    /// The earliest moment at which a span in flight was taken.
    pub(crate) fn earliest(&self) -> Option<Rank>
        ensures value { result ≡ earliest self.now.held }
        ensures rising { AreRising self.now }
    {
        self.held.earliest()
    }

    /// The span that is in flight as this delivery.
    pub(crate) fn out_as(&self, number: u64) -> Option<Span>
        ensures { result ≡ out_as number (spans_of self.now.held) }
    {
        self.held.out_as(number)
    }

    /// Delivers a ready span: it gets this status, in flight as the delivery with the greatest
    /// number.
    pub(crate) fn deliver(
        &mut self,
        alloc: Global,
        span: Span,
        status: Status,
    ) -> Result<(), AllocError>
        requires span { HasNumbers span }
        requires last { GoesLast status self.old.held }
        ensures ok { OnOk result (self.new ≡ delivered_queue self.old span status) }
        ensures err { OnErr result (self.new ≡ self.old) }
        ensures memory { OnErr result (span.first ≡ self.old.next) }
    {
        if span.first == self.next {
            return self.push(alloc, span, status);
        }
        self.held.restate(span.first, status, self.cutting);
        Ok(())
    }

    // stores the first span that was never taken, now in flight
    fn push(&mut self, alloc: Global, span: Span, status: Status) -> Result<(), AllocError>
        requires span { HasNumbers span }
        requires first { span.first ≡ self.old.next }
        requires last { GoesLast status self.old.held }
        ensures ok { OnOk result (self.new ≡ pushed_queue self.old span status) }
        ensures err { OnErr result (self.new ≡ self.old) }
    {
        let held = Held {
            span: Span { status, ..span },
            rank: self.cutting,
        };
        self.held.push(alloc, held)?;
        self.next = span.last + 1;
        Ok(())
    }

    /// Makes a span ready again, in line with this rank, which comes after all others.
    pub(crate) fn give_back(&mut self, first: u64, rank: Rank)
        requires { ComesLast rank self.old.held }
        ensures { self.new ≡ returned_queue self.old first rank }
    {
        let status = Status::Ready { taken: true };
        self.held.restate(first, status, rank);
    }

    /// Opens a span: each of its numbers is a ready span of its own. Their ranks come after
    /// `latest`. An `Err` changes nothing.
    pub(crate) fn open(&mut self, first: u64, latest: Rank) -> Result<(), AllocError>
        requires { IsLatest latest self.old }
        ensures ok { OnOk result (self.new ≡ opened_queue self.old first latest) }
        ensures err { OnErr result (self.new ≡ self.old) }
    {
        self.held.open(first, latest)
    }

    /// Settles a span: it is removed.
    pub(crate) fn settle(&mut self, first: u64)
        ensures { self.new ≡ settled_queue self.old first }
    {
        self.held.remove(first);
    }

    /// How many spans are due.
    pub(crate) fn how_many_due(&self, timeout: u64, clock: u64) -> u64
        ensures { result ≡ due_held timeout clock self.now.held }
    {
        self.held.how_many_due(timeout, clock)
    }

    /// Makes the spans that are due ready again. Their ranks come after `latest`, in the order of
    /// their deliveries' numbers, which are below `next`.
    pub(crate) fn expire(&mut self, timeout: u64, clock: u64, latest: Rank, next: u64)
        requires given { AreGiven next latest.turn self.old.held }
        requires drawn { AllByRecursion (λ h. IsDrawn latest.front latest.turn h.rank)
            self.old.held }
        ensures { self.new ≡ expired_queue timeout clock latest self.old }
    {
        self.held.expire(timeout, clock, latest, next);
    }

    /// Continues after this number: removes all spans. The numbers after it are cut with this
    /// rank.
    pub(crate) fn restart(&mut self, cursor: u64, cutting: Rank)
        requires { cursor < 18446744073709551615 }
        ensures { self.new ≡ cut_queue cursor cutting }
    {
        self.held.clear();
        self.next = cursor + 1;
        self.cutting = cutting;
    }

    /// Removes all spans; the floor stays.
    pub(crate) fn clear(&mut self)
        ensures { self.new ≡ cut_queue (queue_floor self.old) self.old.cutting }
    {
        let floor = self.floor();
        self.held.clear();
        self.next = floor + 1;
    }
}
