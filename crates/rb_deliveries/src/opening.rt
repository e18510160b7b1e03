//! Opens a span: each of its numbers becomes a ready span of its own, in its place.

ghost use Rattle.std.specs.Prelude.{◌≡◌, ◌<◌, ◌^◌, ◌-◌, ◌+◌, IfOk, OnOk, OnErr, Some, IsSome};
ghost use Rattle.std.specs.Prelude.{length, slice_set, true};
ghost use Rattle.std.specs.List.{AllByRecursion};
ghost use Rattle.link_lists.specs.Lanes.{value_under};
ghost use Rattle.rb_deliveries.specs.Opening.{opened_held, single_held, RiseFromOne};
ghost use Rattle.rb_deliveries.specs.Subs.{IsDrawn};
ghost use Rattle.rb_deliveries.specs.Taken.{AddsAfter, AreKept, AreWoven, held_in, held_under};
ghost use Rattle.rb_deliveries.specs.Taken.{lists_key, nth_list};

use crate::rank::{Held, Rank};
use crate::span::{Span, Status};
use crate::steps::{key_beginning, without};
use link_lists::{Lane, Woven};
use std::alloc::AllocError;

/// Opens the one that begins with this number, if there is one. The ranks of its numbers come
/// after `latest`, which comes after all others. Returns how many are in flight then. All memory is
/// taken first: an `Err` changes no span.
pub(crate) fn open(
    records: &mut Woven<Held>,
    flying: u64,
    first: u64,
    latest: Rank,
) -> Result<u64, AllocError>
    requires lists { AreKept (Some records.old) flying }
    requires rising { RiseFromOne (held_in records.old) }
    requires few { length (held_in records.old) < 2 ^ 64 - 1 }
    requires drawn { AllByRecursion (λ h. IsDrawn latest.front latest.turn h.rank)
        (held_in records.old) }
    requires turns { AllByRecursion (λ h. latest.turn + h.span.last < 18446744073709551616)
        (held_in records.old) }
    ensures lists { IfOk result (λ rest. AreKept (Some records.new) rest) }
    ensures spans { OnOk result (held_in records.new
        ≡ opened_held first latest (held_in records.old)) }
    ensures err { OnErr result
        (records.new ≡ record records.old { spare = records.new.spare }) }
{
    let Some(key) = key_beginning(records, flying, first) else {
        return Ok(flying);
    };
    let last = last_at(records, key);
    records.reserve((last - first) as usize)?;
    let rest = without(records, flying, key);
    set_single(records, key, first, latest);
    records.push_back(Lane::First, 0, key);
    let mut at = key;
    for n in first..last {
        at = add_after(records, at, n + 1, latest);
    }
    Ok(rest)
}

// the last number of the span under this key
fn last_at(records: &Woven<Held>, key: usize) -> u64
    ensures { result ≡ (held_under records.now.slots key).span.last }
{
    match records.get(key) {
        Some(held) => held.span.last,
        None => 0,
    }
}

// makes the span under this key one of this number alone
fn set_single(records: &mut Woven<Held>, key: usize, n: u64, latest: Rank)
    requires kept { IsSome (value_under records.old key) }
    requires fits { latest.turn + n < 18446744073709551616 }
    ensures { records.new ≡ record records.old {
      slots = slice_set records.old.slots key (Some (single_held latest n));
    } }
{
    if let Some(held) = records.get_mut(key) {
        *held = single(n, latest);
    }
}

// Adds this number after the span under key `at`, as a ready span of its own. Returns its key.
fn add_after(records: &mut Woven<Held>, at: usize, n: u64, latest: Rank) -> usize
    requires room { 0 < records.old.spare }
    requires lists { AreWoven records.old }
    requires there { lists_key at (nth_list 0 records.old.second) ≡ true }
    requires fits { latest.turn + n < 18446744073709551616 }
    ensures { AddsAfter records.old records.new at result (single_held latest n) }
{
    let key = records.insert(single(n, latest));
    records.push_back(Lane::First, 0, key);
    records.insert_after(Lane::Second, at, key);
    key
}

// a number as a ready span of its own, with its rank
fn single(n: u64, latest: Rank) -> Held
    requires { latest.turn + n < 18446744073709551616 }
    ensures { result ≡ single_held latest n }
{
    Held {
        span: Span {
            first: n,
            last: n,
            status: Status::Ready { taken: true },
        },
        rank: Rank {
            front: latest.front,
            turn: latest.turn + n,
        },
    }
}
