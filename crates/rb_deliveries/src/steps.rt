//! The steps that change the lists of a subscription's spans.

ghost use Rattle.std.specs.Prelude.{◌≡◌, ◌<◌, ◌^◌, ◌-◌, ◌+◌, ◌++◌, ◌∷◌, ◌==◌, true, [], map};
ghost use Rattle.std.specs.Prelude.{length, slice_set, IfSome, IsSome, MatchOption, Some};
ghost use Rattle.std.specs.List.{AllByRecursion};
ghost use Rattle.link_lists.specs.declared.lane.Lane.TheVariants.{First};
ghost use Rattle.link_lists.specs.Lanes.{value_under, with_lane, without_key};
ghost use Rattle.rb_deliveries.specs.Expiry.{HasTurn, expired_by};
ghost use Rattle.rb_deliveries.specs.Queues.{restated, without_held, RiseSome};
ghost use Rattle.rb_deliveries.specs.Subs.{AreGiven, IsDrawn};
ghost use Rattle.rb_deliveries.specs.Taken.{AreWoven, AreKept, GoesLast, IsKeyOf, NoSpanBegins};
ghost use Rattle.rb_deliveries.specs.Taken.{StandsLast, expired_key, held_in, held_under};
ghost use Rattle.rb_deliveries.specs.Taken.{lists_key, nth_list, with_state};

use crate::rank::{Held, Rank};
use crate::records::{is_due_at, is_out_at};
use crate::span::{Span, Status};
use link_lists::{Lane, Woven};

/// Adds one in flight after all others. Returns how many are in flight then.
pub(crate) fn push(records: &mut Woven<Held>, flying: u64, held: Held) -> u64
    requires room { 0 < records.old.spare }
    requires lists { AreKept (Some records.old) flying }
    requires few { length (held_in records.old) < 2 ^ 64 - 1 }
    requires last { GoesLast held.span.status (held_in records.old) }
    ensures lists { AreKept (Some records.new) result }
    ensures spans { held_in records.new ≡ held_in records.old ++ held ∷ [] }
{
    let key = records.insert(held);
    records.push_back(Lane::First, 1, key);
    records.push_back(Lane::Second, 0, key);
    flying + 1
}

/// Sets the status and the rank of the one that begins with this number, if there is one, and
/// moves it to the end of its list. Returns how many are in flight then.
pub(crate) fn restate(
    records: &mut Woven<Held>,
    flying: u64,
    first: u64,
    status: Status,
    rank: Rank,
) -> u64
    requires lists { AreKept (Some records.old) flying }
    requires rising { RiseSome (held_in records.old) }
    requires few { length (held_in records.old) < 2 ^ 64 - 1 }
    requires last { StandsLast status rank (held_in records.old) }
    ensures lists { AreKept (Some records.new) result }
    ensures spans { held_in records.new ≡ restated first status rank (held_in records.old) }
{
    let Some(key) = key_beginning(records, flying, first) else {
        return flying;
    };
    let rest = without(records, flying, key);
    set(records, key, status, rank);
    if status.is_out() {
        records.push_back(Lane::First, 1, key);
        rest + 1
    } else {
        records.push_back(Lane::First, 0, key);
        rest
    }
}

/// Removes the one that begins with this number, if there is one. Returns how many are in flight
/// then.
pub(crate) fn remove(records: &mut Woven<Held>, flying: u64, first: u64) -> u64
    requires lists { AreKept (Some records.old) flying }
    requires rising { RiseSome (held_in records.old) }
    requires few { length (held_in records.old) < 2 ^ 64 - 1 }
    ensures lists { AreKept (Some records.new) result }
    ensures spans { held_in records.new ≡ without_held first (held_in records.old) }
{
    let Some(key) = key_beginning(records, flying, first) else {
        return flying;
    };
    let rest = without(records, flying, key);
    records.unlink(Lane::Second, key);
    let _held = records.remove(key);
    rest
}

/// Removes all. The room for them stays.
pub(crate) fn clear(records: &mut Woven<Held>)
    requires { AreWoven records.old }
    ensures { AreKept (Some records.new) 0 × (held_in records.new ≡ []) }
{
    records.clear();
}

/// Makes those that are due ready again. Their ranks have turns after `latest`, in the order of
/// their deliveries' numbers, which are below `next`. Returns how many are in flight then.
pub(crate) fn expire(
    records: &mut Woven<Held>,
    flying: u64,
    timeout: u64,
    clock: u64,
    latest: Rank,
    next: u64,
) -> u64
    requires lists { AreKept (Some records.old) flying }
    requires given { AreGiven next latest.turn (held_in records.old) }
    requires drawn { AllByRecursion (λ h. IsDrawn latest.front latest.turn h.rank)
        (held_in records.old) }
    ensures lists { AreKept (Some records.new) result }
    ensures spans { held_in records.new
        ≡ map (expired_by timeout clock latest) (held_in records.old) }
{
    records.valid();
    let mut rest = flying;
    let mut at = records.front(Lane::First, 1);
    for _ in 0..flying {
        let Some(key) = at else {
            return rest;
        };
        at = records.next(Lane::First, key);
        rest = expire_key(records, rest, key, timeout, clock, latest);
    }
    rest
}

/// The key of the span that begins with this number. What a call names is in flight, first in line,
/// or among the first of all, after as many as are in flight.
pub(crate) fn key_beginning(records: &Woven<Held>, flying: u64, first: u64) -> Option<usize>
    requires lists { AreKept (Some records.now) flying }
    requires few { length (held_in records.now) < 2 ^ 64 - 1 }
    ensures { MatchOption result (NoSpanBegins first (held_in records.now))
        (IsKeyOf records.now first) }
{
    if let Some(key) = key_in_flight(records, flying, first) {
        return Some(key);
    }
    match records.front(Lane::First, 0) {
        Some(key) if begins_at(records, key, first) => Some(key),
        _ => key_in_order(records, first),
    }
}

// the key of the span in flight that begins with this number
fn key_in_flight(records: &Woven<Held>, flying: u64, first: u64) -> Option<usize>
    requires { AreKept (Some records.now) flying }
    ensures { IfSome result (IsKeyOf records.now first) }
{
    let mut at = records.front(Lane::First, 1);
    for _ in 0..flying {
        let key = at?;
        if begins_at(records, key, first) {
            return Some(key);
        }
        at = records.next(Lane::First, key);
    }
    None
}

// the key of the first of all that begins with this number
fn key_in_order(records: &Woven<Held>, first: u64) -> Option<usize>
    requires lists { AreWoven records.now }
    requires few { length (held_in records.now) < 2 ^ 64 - 1 }
    ensures { MatchOption result (NoSpanBegins first (held_in records.now))
        (IsKeyOf records.now first) }
{
    records.valid();
    let mut at = records.front(Lane::Second, 0);
    for _ in 0..u64::MAX {
        let key = at?;
        if begins_at(records, key, first) {
            return Some(key);
        }
        at = records.next(Lane::Second, key);
    }
    None
}

/// Takes the key out of the line, or from those in flight. Returns how many are in flight then.
pub(crate) fn without(records: &mut Woven<Held>, flying: u64, key: usize) -> u64
    requires lists { AreKept (Some records.old) flying }
    requires there { lists_key key (nth_list 0 records.old.second) ≡ true }
    requires kept { IsSome (value_under records.old key) }
    ensures lane { records.new
        ≡ with_lane First (without_key key records.old.first) records.old }
    ensures flying { result ≡ length (nth_list 1 records.new.first) }
{
    let is_out = is_out_at(records, key);
    records.unlink(Lane::First, key);
    if is_out { flying - 1 } else { flying }
}

// whether the span under this key begins with this number
fn begins_at(records: &Woven<Held>, key: usize, first: u64) -> bool
    ensures { IfSome (value_under records.now key) (λ h. result ≡ (h.span.first == first)) }
{
    match records.get(key) {
        Some(held) => held.span.first == first,
        None => false,
    }
}

// sets the status and the rank of the span under this key
fn set(records: &mut Woven<Held>, key: usize, status: Status, rank: Rank)
    requires { IsSome (value_under records.old key) }
    ensures { records.new ≡ record records.old {
      slots = slice_set records.old.slots key
          (Some (with_state status rank (held_under records.old.slots key)));
    } }
{
    if let Some(held) = records.get_mut(key) {
        held.span.status = status;
        held.rank = rank;
    }
}

// Makes the span under this key ready again, at the end of the line, if it is due. Returns how many
// are in flight then.
fn expire_key(
    records: &mut Woven<Held>,
    flying: u64,
    key: usize,
    timeout: u64,
    clock: u64,
    latest: Rank,
) -> u64
    requires lists { AreKept (Some records.old) flying }
    requires out { lists_key key (nth_list 1 records.old.first) ≡ true }
    requires turn { HasTurn latest.turn (held_under records.old.slots key).span.status }
    ensures lanes { records.new ≡ expired_key timeout clock latest key records.old }
    ensures flying { result ≡ length (nth_list 1 records.new.first) }
{
    if !is_due_at(records, key, timeout, clock) {
        return flying;
    }
    records.unlink(Lane::First, key);
    expire_at(records, key, timeout, clock, latest);
    records.push_back(Lane::First, 0, key);
    flying - 1
}

// makes the span under this key ready again if it is due
fn expire_at(records: &mut Woven<Held>, key: usize, timeout: u64, clock: u64, latest: Rank)
    requires kept { IsSome (value_under records.old key) }
    requires turn { HasTurn latest.turn (held_under records.old.slots key).span.status }
    ensures { records.new ≡ record records.old {
      slots = slice_set records.old.slots key
          (Some (expired_by timeout clock latest (held_under records.old.slots key)));
    } }
{
    if let Some(held) = records.get_mut(key) {
        *held = expired(*held, timeout, clock, latest);
    }
}

fn expired(held: Held, timeout: u64, clock: u64, latest: Rank) -> Held
    requires { HasTurn latest.turn held.span.status }
    ensures { result ≡ expired_by timeout clock latest held }
{
    if let Status::InFlight { number, moment } = held.span.status {
        if timeout <= clock.saturating_sub(moment) {
            return Held {
                span: Span {
                    status: Status::Ready { taken: true },
                    ..held.span
                },
                rank: Rank {
                    front: latest.front,
                    turn: latest.turn + 1 + number,
                },
            };
        }
    }
    held
}
