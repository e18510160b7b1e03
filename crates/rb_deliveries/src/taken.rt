//! The spans of a subscription that were taken before and are not settled: the ready ones by their
//! ranks, those in flight by their deliveries' numbers, and all by their own numbers.

ghost use Rattle.std.specs.Prelude.{◌≡◌, ◌<◌, ◌^◌, ◌++◌, ◌∷◌, ◌==◌, [], map, length, slice_get};
ghost use Rattle.std.specs.Prelude.{◌-◌, ◌+◌, OnOk, OnErr};
ghost use Rattle.std.specs.List.{AllByRecursion};
ghost use Rattle.std.specs.Option.{option_map};
ghost use Rattle.rb_deliveries.specs.Expiry.{due_held, expired_by};
ghost use Rattle.rb_deliveries.specs.Queues.{spans_of, least, restated, without_held, RiseSome};
ghost use Rattle.rb_deliveries.specs.Opening.{opened_held, RiseFromOne};
ghost use Rattle.rb_deliveries.specs.Spans as spans;
ghost use Rattle.rb_deliveries.specs.Subs.{AreGiven, IsDrawn};
ghost use Rattle.rb_deliveries.specs.Taken.{GoesLast, StandsLast};
ghost use Rattle.rb_deliveries.specs.Waiting.{earliest};

use crate::rank::{Held, Rank};
use crate::span::{Span, Status};
use crate::{opening, records, steps};
use link_lists::Woven;
use std::alloc::{AllocError, Global};
use std::marker::Model;

/// Spans in order of their numbers.
#[derive(Debug, Drop)]
pub(crate) struct Taken {
    // there are no lists before the first span
    records: Option<Woven<Held>>,
    // how many are in flight
    flying: u64,
}

impl Model for Taken {
    ghost use Rattle.std.specs.Prelude.{List};
    ghost use Rattle.std.specs.Coded.{coded_list};
    ghost use Rattle.rb_deliveries.specs.declared.rank.Held.{Held};
    ghost use Rattle.rb_deliveries.specs.contracts.rank.Held as held;
    ghost use Rattle.rb_deliveries.specs.Taken.{AreKept, taken_seen};

    ghost Value = { List Held };

    ghost coded = { coded_list held.the_row.coded };

    ghost view = { λ t. taken_seen t.records };

    ghost invariant = { λ t. AreKept t.records t.flying };
}

impl Taken {
    /// No spans.
    pub(crate) fn new() -> Taken
        ensures { result ≡ [] }
    {
        Taken {
            records: None,
            flying: 0,
        }
    }

    /// Whether there is none.
    pub(crate) fn is_empty(&self) -> bool
        ensures { result ≡ (length self.now == 0) }
    {
        self.first().is_none()
    }

    /// The first of all.
    pub(crate) fn first(&self) -> Option<Span>
        ensures { result ≡ option_map (λ h. h.span) (slice_get self.now 0) }
    {
        records::first(self.records.as_ref()?)
    }

    /// How many are in flight.
    pub(crate) fn in_flight(&self) -> u64
        ensures { result ≡ spans.how_many_out (spans_of self.now) }
    {
        match &self.records {
            Some(records) => records::in_flight(records, self.flying),
            None => 0,
        }
    }

    /// How many are ready.
    pub(crate) fn ready(&self) -> u64
        ensures { result ≡ spans.how_many_ready (spans_of self.now) }
    {
        match &self.records {
            Some(records) => records::ready(records, self.flying),
            None => 0,
        }
    }

    /// The first that is ready. Looks at one span more than are in flight.
    pub(crate) fn first_ready(&self) -> Option<Span>
        ensures { result ≡ spans.first_ready (spans_of self.now) }
    {
        records::first_ready(self.records.as_ref()?, self.flying)
    }

    /// The ready one that is first in line.
    pub(crate) fn first_in_line(&self) -> Option<Held>
        ensures { result ≡ least self.now }
    {
        records::first_in_line(self.records.as_ref()?)
    }

    /// The one that is in flight as this delivery.
    pub(crate) fn out_as(&self, delivery: u64) -> Option<Span>
        ensures { result ≡ spans.out_as delivery (spans_of self.now) }
    {
        records::out_as(self.records.as_ref()?, self.flying, delivery)
    }

    /// The earliest moment at which one in flight was taken.
    pub(crate) fn earliest(&self) -> Option<Rank>
        ensures { result ≡ earliest self.now }
    {
        records::earliest(self.records.as_ref()?, self.flying)
    }

    /// How many are due.
    pub(crate) fn how_many_due(&self, timeout: u64, clock: u64) -> u64
        ensures { result ≡ due_held timeout clock self.now }
    {
        match &self.records {
            Some(records) => records::how_many_due(records, self.flying, timeout, clock),
            None => 0,
        }
    }
}

impl Taken {
    /// Adds a span in flight. Its numbers follow those of the others, and its delivery's number is
    /// the greatest.
    pub(crate) fn push(&mut self, alloc: Global, held: Held) -> Result<(), AllocError>
        requires few { length self.old < 2 ^ 64 - 1 }
        requires last { GoesLast held.span.status self.old }
        ensures ok { OnOk result (self.new ≡ self.old ++ held ∷ []) }
        ensures err { OnErr result (self.new ≡ self.old) }
    {
        if self.records.is_none() {
            self.records = Some(records::no_records(alloc)?);
        }
        if let Some(records) = &mut self.records {
            records.reserve(1)?;
            self.flying = steps::push(records, self.flying, held);
        }
        Ok(())
    }

    /// Sets the status and the rank of the span that begins with this number, if there is one. It
    /// stands after all others then: among those in flight by its delivery's number, or in line by
    /// its rank.
    pub(crate) fn restate(&mut self, first: u64, status: Status, rank: Rank)
        requires rising { RiseSome self.old }
        requires few { length self.old < 2 ^ 64 - 1 }
        requires last { StandsLast status rank self.old }
        ensures { self.new ≡ restated first status rank self.old }
    {
        let Some(records) = &mut self.records else {
            return;
        };
        self.flying = steps::restate(records, self.flying, first, status, rank);
    }

    /// Opens the span that begins with this number, if there is one: each of its numbers is a ready
    /// span of its own. Their ranks come after `latest`, which comes after all others. An `Err`
    /// changes nothing.
    pub(crate) fn open(&mut self, first: u64, latest: Rank) -> Result<(), AllocError>
        requires rising { RiseFromOne self.old }
        requires few { length self.old < 2 ^ 64 - 1 }
        requires drawn { AllByRecursion (λ h. IsDrawn latest.front latest.turn h.rank) self.old }
        requires turns { AllByRecursion (λ h. latest.turn + h.span.last < 18446744073709551616)
            self.old }
        ensures ok { OnOk result (self.new ≡ opened_held first latest self.old) }
        ensures err { OnErr result (self.new ≡ self.old) }
    {
        let Some(records) = &mut self.records else {
            return Ok(());
        };
        self.flying = opening::open(records, self.flying, first, latest)?;
        Ok(())
    }

    /// Removes the span that begins with this number, if there is one.
    pub(crate) fn remove(&mut self, first: u64)
        requires rising { RiseSome self.old }
        requires few { length self.old < 2 ^ 64 - 1 }
        ensures { self.new ≡ without_held first self.old }
    {
        let Some(records) = &mut self.records else {
            return;
        };
        self.flying = steps::remove(records, self.flying, first);
    }

    /// Makes those that are due ready again. Their ranks come after `latest`, in the order of
    /// their deliveries' numbers, which are below `next`.
    pub(crate) fn expire(&mut self, timeout: u64, clock: u64, latest: Rank, next: u64)
        requires given { AreGiven next latest.turn self.old }
        requires drawn { AllByRecursion (λ h. IsDrawn latest.front latest.turn h.rank) self.old }
        ensures { self.new ≡ map (expired_by timeout clock latest) self.old }
    {
        let Some(records) = &mut self.records else {
            return;
        };
        self.flying = steps::expire(records, self.flying, timeout, clock, latest, next);
    }

    /// Removes all. The room for them stays.
    pub(crate) fn clear(&mut self)
        ensures { self.new ≡ [] }
    {
        if let Some(records) = &mut self.records {
            steps::clear(records);
        }
        self.flying = 0;
    }
}
