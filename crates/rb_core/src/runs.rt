//! Whole runs: a list of events, served from an empty world.

ghost use Rattle.std.specs.Prelude.{◌≡◌, ℕ, true, List, Some, IfOk, map, slice_get, take};
ghost use Rattle.std.specs.List.{AllByRecursion};
ghost use Rattle.cs_model.specs.Bytes.{AreBytes};
ghost use Rattle.rb_core.specs.Headline.{HasTakenFed};
ghost use Rattle.rb_core.specs.Moves.{HasRun, StaysClosed, items_of};
ghost use Rattle.rb_sequence.specs.Items.{own_of};
ghost use Rattle.rb_core.specs.Moves.{AreAllOf, IsFront, IsSending};
ghost use Rattle.rb_core.specs.Run.{FeedsBytes, Run, RunsOutWhereItMay};
ghost use Rattle.rb_core.specs.State.{empty_world};
ghost use Rattle.rb_core.specs.Told.{Paired, all_tables_asked, world_told};
ghost use Rattle.rb_core.specs.World.{Sender, Subscriber, endpoint_of};
ghost use Rattle.rb_sequence.specs.Entry.{Entry};
ghost use Rattle.rb_subscriber.specs.Accept.{HasSingleTables};
ghost use Rattle.rb_subscriber.specs.Batches.{HasBatchTables};
ghost use Rattle.rb_subscriber.specs.Endpoint.{Endpoint};

use crate::event::Event;
use crate::laws::runs_keep_the_headline;
use crate::reply::Reply;
use crate::world::World;
use cs_model::Schema;
use rb_desk::Config;
use std::alloc::{AllocError, Global};

/// Serves events one after another from an empty world. Returns the world and, for each event, its
/// reply or that memory ran out for it. Returns `AllocError` if memory runs out for the empty world
/// or for the list of replies.
///
/// The clauses after the first are the laws, stated for this run. They speak of publishers and
/// subscriptions as events and replies report them (*world_told*), without a look at the world.
/// Every call meets the conditions of the laws: limits are in their ranges, and events feed bytes.
pub fn run(
    alloc: Global,
    config: Config,
    schema: Schema,
    events: &[Event],
) -> Result<(World, Vec<Result<Reply, AllocError>>), AllocError>
    // The replies and the world are those of a run of the events.
    ensures run { IfOk result (λ r. Run (empty_world config schema) events.now r.1.items r.0) }
    // Memory ran out only for events that may run out of it.
    ensures memory { IfOk result (λ r.
        RunsOutWhereItMay (empty_world config schema) events.now r.1.items) }
    // A subscription has accepted one contiguous run of the sequence after its start, and its
    // endpoint is in the same state.
    ensures gapless { IfOk result (λ r. (s : ℕ) (subscriber : Subscriber)
        → slice_get (world_told schema events.now r.1.items).subscribers s ≡ Some subscriber
        → HasRun r.0.sequence subscriber
        × (slice_get r.0.endpoints s ≡ Some (endpoint_of subscriber))) }
    // There are no other endpoints.
    ensures endpoints { IfOk result (λ r.
        map endpoint_of (world_told schema events.now r.1.items).subscribers ≡ r.0.endpoints) }
    // A publisher's entries in the sequence are a prefix of what it sent, in that order.
    ensures in_order { IfOk result (λ r. (p : ℕ) (sender : Sender)
        → slice_get (world_told schema events.now r.1.items).senders p ≡ Some sender
        → IsFront (own_of p (items_of r.0.sequence)) sender.sent) }
    // The rest of what it sent is in hand or in the intake.
    ensures kept { IfOk result (λ r. (p : ℕ) (sender : Sender)
        → slice_get (world_told schema events.now r.1.items).senders p ≡ Some sender
        → AreAllOf p r.0.sequence r.0.hand r.0.intake sender) }
    // No sending is in the sequence twice.
    ensures once { IfOk result (λ r. (i j : ℕ) (a b : Entry) → slice_get r.0.sequence i ≡ Some a
        → slice_get r.0.sequence j ≡ Some b → a.item.publisher ≡ b.item.publisher
        → a.item.own ≡ b.item.own → i ≡ j) }
    // Each entry is what an added publisher sent under the entry's own number.
    ensures sent { IfOk result (λ r. (i : ℕ) (entry : Entry) → slice_get r.0.sequence i ≡ Some entry
        → (sender : Sender) × (slice_get (world_told schema events.now r.1.items).senders
        entry.item.publisher ≡ Some sender) × IsSending sender entry.item) }
    // Each publisher's stream has taken what the publisher was fed.
    ensures streams { IfOk result (λ r. Paired HasTakenFed r.0.publishers
        (world_told schema events.now r.1.items).senders) }
    // If the first n events close the sequence, it stays closed and nothing more is placed.
    ensures closed { IfOk result (λ r. (n last : ℕ)
        → (world_told schema (take n events.now) (take n r.1.items)).closing ≡ Some last
        → (r.0.desk.closing ≡ Some last)
        × (r.0.sequence ≡ (world_told schema (take n events.now) (take n r.1.items)).sequence)) }
    // If they close a subscription, it stays closed and accepts nothing more.
    ensures left { IfOk result (λ r. (n s : ℕ) (subscriber : Subscriber)
        → slice_get (world_told schema (take n events.now) (take n r.1.items)).subscribers s
        ≡ Some subscriber
        → subscriber.closed ≡ true
        → (after : Subscriber) × (slice_get (world_told schema events.now r.1.items).subscribers s
        ≡ Some after) × StaysClosed subscriber after) }
    // Where what a subscription accepted applies singly, without conflict, to the tables that it
    // began with, the tables of its endpoint are what one thread gets that applies it so.
    ensures tables { IfOk result (λ r. (s : ℕ) (subscriber : Subscriber)
        → slice_get (world_told schema events.now r.1.items).subscribers s ≡ Some subscriber
        → (end : Endpoint) × (slice_get r.0.endpoints s ≡ Some end)
        × HasSingleTables subscriber.base subscriber.accepted end.tables) }
    // The tables that the subscriptions began with are those asked for, in order: without rows, all
    // of the schema kept where it was `Subscribe`, none where it was `SubscribeBare`.
    ensures begun { IfOk result (λ r.
        map (λ q. q.base) (world_told schema events.now r.1.items).subscribers
        ≡ all_tables_asked schema events.now r.1.items) }
    // Whether or not it applies singly: the batches that a subscription accepted are its accepted
    // entries, in order, and the tables of its endpoint are what the groups of the batches leave.
    ensures batches { IfOk result (λ r. (s : ℕ) (subscriber : Subscriber)
        → slice_get (world_told schema events.now r.1.items).subscribers s ≡ Some subscriber
        → (end : Endpoint) × (slice_get r.0.endpoints s ≡ Some end)
        × HasBatchTables subscriber.base subscriber.batches subscriber.accepted end.tables) }
{
    runs_keep_the_headline();
    served(alloc, config, schema, events)
}

// Serves the events, with the clauses from which all others follow: it is a run, the events feed
// bytes, and memory runs out only where it may.
fn served(
    alloc: Global,
    config: Config,
    schema: Schema,
    events: &[Event],
) -> Result<(World, Vec<Result<Reply, AllocError>>), AllocError>
    ensures { IfOk result (λ r. Run (empty_world config schema) events.now r.1.items r.0
        × AllByRecursion FeedsBytes events.now
        × RunsOutWhereItMay (empty_world config schema) events.now r.1.items) }
{
    let mut world = World::new(alloc, config, schema)?;
    let mut answers = Vec::with_capacity(alloc, events.len())?;
    for event in events {
        feeds_bytes(event);
        answers.reserve(1)?;
        let answer = world.serve(alloc, event);
        answers.push(answer)?;
    }
    Ok((world, answers))
}

// The types say that these are bytes and that an event feeds bytes. These functions only read.
fn are_bytes(bytes: &[u8])
    ensures { AreBytes bytes.now }
{}

fn feeds_bytes(event: &Event)
    ensures { FeedsBytes event.now }
{
    if let Event::Feed {
        publisher: _,
        bytes,
    } = event
    {
        return are_bytes(bytes);
    }
}
