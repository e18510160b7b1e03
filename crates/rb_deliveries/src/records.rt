//! The lists of a subscription's spans, and searches along them. List 0 of the first lane has the
//! ready ones, list 1 those in flight, and the second lane has all.

ghost use Rattle.std.specs.Prelude.{◌≡◌, [], slice_get, IfOk, IfSome, Some};
ghost use Rattle.std.specs.Option.{option_map};
ghost use Rattle.link_lists.specs.Lanes.{value_under};
ghost use Rattle.rb_deliveries.specs.Expiry.{due_held};
ghost use Rattle.rb_deliveries.specs.Queues.{spans_of, least};
ghost use Rattle.rb_deliveries.specs.Spans as spans;
ghost use Rattle.rb_deliveries.specs.Taken.{AreWoven, AreKept, held_in, slot_passes};
ghost use Rattle.rb_deliveries.specs.Waiting as waiting;

use crate::rank::{Held, Rank, first_rank};
use crate::span::Span;
use link_lists::{Lane, Woven};
use std::alloc::{AllocError, Global};

/// The lists, without spans.
pub(crate) fn no_records(alloc: Global) -> Result<Woven<Held>, AllocError>
    ensures { IfOk result (λ records. AreKept (Some records) 0 × (held_in records ≡ [])) }
{
    let mut records = Woven::new(alloc);
    records.add_list(Lane::First)?;
    records.add_list(Lane::First)?;
    records.add_list(Lane::Second)?;
    Ok(records)
}

/// The first span.
pub(crate) fn first(records: &Woven<Held>) -> Option<Span>
    requires { AreWoven records.now }
    ensures { result ≡ option_map (λ h. h.span) (slice_get (held_in records.now) 0) }
{
    records.valid();
    let key = records.front(Lane::Second, 0)?;
    span_at(records, key)
}

/// How many are in flight.
pub(crate) fn in_flight(records: &Woven<Held>, flying: u64) -> u64
    requires { AreKept (Some records.now) flying }
    ensures { result ≡ spans.how_many_out (spans_of (held_in records.now)) }
{
    records.valid();
    flying
}

/// How many are ready.
pub(crate) fn ready(records: &Woven<Held>, flying: u64) -> u64
    requires { AreKept (Some records.now) flying }
    ensures { result ≡ spans.how_many_ready (spans_of (held_in records.now)) }
{
    records.valid();
    records.len() as u64 - flying
}

/// The first that is ready, if there is one. Looks at one more than are in flight.
pub(crate) fn first_ready(records: &Woven<Held>, flying: u64) -> Option<Span>
    requires { AreKept (Some records.now) flying }
    ensures { result ≡ spans.first_ready (spans_of (held_in records.now)) }
{
    records.valid();
    // with none in line there is no need to look
    let _line = records.front(Lane::First, 0)?;
    let mut at = records.front(Lane::Second, 0);
    for _ in 0..flying {
        let key = at?;
        if is_ready_at(records, key) {
            return span_at(records, key);
        }
        at = records.next(Lane::Second, key);
    }
    // those that were passed are all that are in flight
    span_at(records, at?)
}

/// The ready one that is first in line.
pub(crate) fn first_in_line(records: &Woven<Held>) -> Option<Held>
    requires { AreWoven records.now }
    ensures { result ≡ least (held_in records.now) }
{
    let key = records.front(Lane::First, 0)?;
    records.get(key).copied()
}

/// The one that is in flight as this delivery.
pub(crate) fn out_as(records: &Woven<Held>, flying: u64, delivery: u64) -> Option<Span>
    requires { AreKept (Some records.now) flying }
    ensures { result ≡ spans.out_as delivery (spans_of (held_in records.now)) }
{
    records.valid();
    let mut at = records.front(Lane::First, 1);
    for _ in 0..flying {
        let key = at?;
        if is_out_as_at(records, key, delivery) {
            return span_at(records, key);
        }
        at = records.next(Lane::First, key);
    }
    None
}

/// The earliest moment at which one in flight was taken.
pub(crate) fn earliest(records: &Woven<Held>, flying: u64) -> Option<Rank>
    requires { AreKept (Some records.now) flying }
    ensures { result ≡ waiting.earliest (held_in records.now) }
{
    records.valid();
    let mut first = None;
    let mut at = records.front(Lane::First, 1);
    for _ in 0..flying {
        let Some(key) = at else {
            return first;
        };
        first = first_rank(first, moment_at(records, key));
        at = records.next(Lane::First, key);
    }
    first
}

/// How many are due.
pub(crate) fn how_many_due(records: &Woven<Held>, flying: u64, timeout: u64, clock: u64) -> u64
    requires { AreKept (Some records.now) flying }
    ensures { result ≡ due_held timeout clock (held_in records.now) }
{
    records.valid();
    let mut count = 0;
    let mut at = records.front(Lane::First, 1);
    for _ in 0..flying {
        let Some(key) = at else {
            return count;
        };
        if is_due_at(records, key, timeout, clock) {
            count += 1;
        }
        at = records.next(Lane::First, key);
    }
    count
}

// the span under this key
fn span_at(records: &Woven<Held>, key: usize) -> Option<Span>
    ensures { result ≡ option_map (λ h. h.span) (value_under records.now key) }
{
    let held = records.get(key)?;
    Some(held.span)
}

// the moment at which the span under this key was taken, if it is in flight
fn moment_at(records: &Woven<Held>, key: usize) -> Option<Rank>
    ensures { IfSome (value_under records.now key)
        (λ h. result ≡ waiting.moment_of h.span.status) }
{
    let held = records.get(key)?;
    held.span.status.moment()
}

// whether the span under this key is ready
fn is_ready_at(records: &Woven<Held>, key: usize) -> bool
    ensures { result ≡ slot_passes spans.is_ready records.now.slots key }
{
    match records.get(key) {
        Some(held) => held.span.status.is_ready(),
        None => false,
    }
}

/// Whether the span under this key is in flight.
pub(crate) fn is_out_at(records: &Woven<Held>, key: usize) -> bool
    ensures { result ≡ slot_passes spans.is_out records.now.slots key }
{
    match records.get(key) {
        Some(held) => held.span.status.is_out(),
        None => false,
    }
}

// whether the span under this key is in flight as this delivery
fn is_out_as_at(records: &Woven<Held>, key: usize, delivery: u64) -> bool
    ensures { result ≡ slot_passes (spans.is_out_as delivery) records.now.slots key }
{
    match records.get(key) {
        Some(held) => held.span.status.is_out_as(delivery),
        None => false,
    }
}

/// Whether the span under this key is due.
pub(crate) fn is_due_at(records: &Woven<Held>, key: usize, timeout: u64, clock: u64) -> bool
    ensures { result ≡ slot_passes (spans.is_due timeout clock) records.now.slots key }
{
    match records.get(key) {
        Some(held) => held.span.status.is_due(timeout, clock),
        None => false,
    }
}
