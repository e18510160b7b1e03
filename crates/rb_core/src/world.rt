//! `World`, the public interface of the crate: events go in, replies come out.

ghost use Rattle.std.specs.Prelude.{◌≡◌, ◌+◌, length, IfOk, IsSome, OnErr, MatchOption, slice_get};
ghost use Rattle.std.specs.Prelude.{Option};
ghost use Rattle.std.specs.List.{AllByRecursion};
ghost use Rattle.std.specs.Option.{option_map, option_copied};
ghost use Rattle.std.specs.FinMap as map;
ghost use Rattle.cs_apply.specs.Seen.{listed};
ghost use Rattle.rb_core.specs.Memory.{MayRunOut};
ghost use Rattle.rb_core.specs.Outcome.{outcome, entry_of};
ghost use Rattle.rb_core.specs.Placing.{AnswersPlacing};
ghost use Rattle.rb_core.specs.State.{empty_world, IsWorld, how_many_wait};
ghost use Rattle.rb_core.specs.Status.{subscription_status};
ghost use Rattle.rb_subscriber.specs.Accept.{IsAdmitted};

use crate::event::Event;
use crate::laws::{events_keep_worlds, placings_keep_worlds};
use crate::parts::Parts;
use crate::placing::PlacingError;
use crate::reply::{BrokerRefusal, Reply};
use crate::status::SubscriptionStatus;
use cs_apply::Tables;
use cs_model::{Row, RowKey, Schema};
use rb_desk::Config;
use rb_sequence::Entry;
use std::alloc::{AllocError, Global};
use std::marker::Model;
use std::sync::Arc;

/// The publishers, the sequence and the subscriptions of one schema, as one value.
#[derive(Debug, Drop)]
pub struct World {
    parts: Parts,
}

impl Model for World {
    ghost use Rattle.std.specs.Coded.{codes};
    ghost use Rattle.cs_apply.specs.State.{state_code};
    ghost use Rattle.rb_core.specs.State.{State, IsWorld};

    ghost Value = { State };

    ghost coded = { Prim.hlevel (codes, state_code) };

    ghost view = { λ w. w.parts };

    ghost invariant = { λ w. IsWorld w.parts };
}

impl World {
    /// A world without publishers, entries and subscriptions. Returns `AllocError` if memory runs
    /// out.
    pub fn new(alloc: Global, config: Config, schema: Schema) -> Result<World, AllocError>
        ensures { IfOk result (λ world. world ≡ empty_world config schema) }
    {
        let schema = Arc::new(alloc, schema)?;
        Ok(World {
            parts: Parts::new(alloc, config, schema),
        })
    }

    /// Applies one event to the world and returns the reply; a refusal is a reply. Returns
    /// `AllocError` if memory runs out, and does not change the world then. Memory never runs out
    /// for a refused event, unless a delivery is refused for a conflict, nor for a piece of a
    /// stream that has its fault.
    pub fn step(&mut self, alloc: Global, event: Event) -> Result<Reply, AllocError>
        ensures ok { IfOk result (λ reply. outcome self.old event ≡ (reply, self.new)) }
        ensures err { OnErr result (self.new ≡ self.old) }
        ensures memory { OnErr result (MayRunOut self.old event (outcome self.old event).0) }
    {
        self.serve(alloc, &event)
    }

    /// The same as `step`, for an event that the caller keeps.
    pub fn serve(&mut self, alloc: Global, event: &Event) -> Result<Reply, AllocError>
        ensures ok { IfOk result (λ reply. outcome self.old event.now ≡ (reply, self.new)) }
        ensures err { OnErr result (self.new ≡ self.old) }
        ensures memory { OnErr result (MayRunOut self.old event.now
            (outcome self.old event.now).0) }
    {
        events_keep_worlds();
        self.parts.moved_by(alloc, event)
    }

    /// Places a whole changeset in one call, and returns its number. `text` is its bytes. The call
    /// does what the events `Reset`, `Feed`, `End`, `Send` and `Turn` do one after another, or only
    /// `Reset` where one of them is refused, or where another changeset waits to be placed. If
    /// memory runs out, it changes nothing.
    pub fn place(&mut self, alloc: Global, publisher: u64, text: &[u8]) -> Result<u64, PlacingError>
        ensures { AnswersPlacing result self.old publisher text.now self.new }
    {
        placings_keep_worlds();
        self.parts.place(alloc, publisher, text)
    }

    /// The schema of its tables.
    pub(crate) fn schema(&self) -> &Schema
        ensures { result.now ≡ self.now.schema }
    {
        &self.parts.schema
    }

    /// The entries, in order. The schema admits their bodies.
    pub(crate) fn sequence(&self) -> &[Entry]
        ensures entries { result.now ≡ self.now.sequence }
        ensures admitted { AllByRecursion (IsAdmitted self.now.schema) self.now.sequence }
    {
        &self.parts.sequence
    }

    /// The entry with this number, if it is placed.
    pub fn entry(&self, number: u64) -> Option<&Entry>
        ensures { option_copied result ≡ entry_of self.now number }
    {
        let entries = &self.parts.sequence;
        let place = number.checked_sub(1)?;
        entries.get(place as usize)
    }

    /// The last number placed, or 0.
    pub fn front(&self) -> u64
        ensures { result ≡ length self.now.sequence }
    {
        self.parts.sequence.len() as u64
    }

    /// The last number that a subscription has accepted. Returns `None` if there is no such
    /// subscription.
    pub fn cursor(&self, subscription: u64) -> Option<u64>
        ensures { result
            ≡ option_map (λ end. end.cursor) (slice_get self.now.endpoints subscription) }
    {
        let end = self.parts.endpoints.get(subscription as usize)?;
        Some(end.cursor())
    }

    /// What is known of a subscription: how far it has come, and what waits for it. Changes
    /// nothing, and does not allocate. Returns `None` if there is no such subscription.
    pub fn status(&self, subscription: u64) -> Option<SubscriptionStatus>
        ensures { result ≡ subscription_status self.now subscription }
    {
        self.parts.status(subscription)
    }

    /// The tables of a subscription. Returns `None` if there is no such subscription.
    pub fn tables(&self, subscription: u64) -> Option<&Tables>
        ensures { option_copied result
            ≡ option_map (λ end. end.tables) (slice_get self.now.endpoints subscription) }
    {
        match self.parts.endpoints.get(subscription as usize) {
            None => None,
            Some(end) => Some(end.tables()),
        }
    }

    /// The rows of a subscription with their keys, sorted by table, then by the key's bytes.
    /// Returns `None` if there is no such subscription, and otherwise `AllocError` if memory runs
    /// out.
    pub fn rows(
        &self,
        alloc: Global,
        subscription: u64,
    ) -> Result<Option<Vec<(&RowKey, &Row)>>, AllocError>
        ensures rows { IfOk result (λ rows. option_map (λ v. listed v.items) rows
            ≡ option_map (λ end. map.entries end.tables.rows)
            (slice_get self.now.endpoints subscription)) }
        ensures memory { OnErr result (IsSome (slice_get self.now.endpoints subscription)) }
    {
        match self.tables(subscription) {
            None => Ok(None),
            Some(tables) => Ok(Some(tables.rows_in_order(alloc)?)),
        }
    }

    /// How many changesets are sent and not placed: the item in hand and the intake.
    pub fn left(&self) -> u64
        ensures { result ≡ how_many_wait self.now }
    {
        self.parts.left()
    }
}

impl Parts {
    // `outcome`, event by event
    #[tactic(auto, unfolding(crate::specs::Outcome::outcome))]
    fn moved_by(&mut self, alloc: Global, event: &Event) -> Result<Reply, AllocError>
        requires { IsWorld self.old }
        ensures ok { IfOk result (λ reply. outcome self.old event.now ≡ (reply, self.new)) }
        ensures err { OnErr result (self.new ≡ self.old) }
        ensures memory { OnErr result (MayRunOut self.old event.now
            (outcome self.old event.now).0) }
    {
        match event {
            Event::Publisher => self.publisher(alloc),
            Event::Feed { publisher, bytes } => self.feed(alloc, *publisher, bytes),
            Event::Reset { publisher } => Ok(self.reset(alloc, *publisher)),
            Event::End { publisher } => Ok(self.end(alloc, *publisher)),
            Event::Send { publisher } => self.send(*publisher),
            Event::Withdraw { publisher, number } => self.withdraw(alloc, *publisher, *number),
            Event::Turn => self.turn(alloc),
            Event::Close => Ok(self.close()),
            Event::Subscribe { start } => self.subscribe(alloc, *start, true),
            Event::SubscribeBare { start } => self.subscribe(alloc, *start, false),
            Event::Take { subscription, now } => self.take(*subscription, *now),
            Event::TakeAny { now } => self.take_any(*now),
            Event::Accept { delivery } => self.accept(alloc, *delivery),
            Event::Crash { delivery, kept } => self.crash(alloc, *delivery, *kept),
            Event::Ack { delivery } => Ok(self.ack(*delivery)),
            Event::Nack { delivery } => Ok(self.nack(*delivery)),
            Event::NackOpened { delivery } => self.nack_opened(*delivery),
            Event::Expire { now } => Ok(self.expire(*now)),
            Event::Reconnect {
                subscription,
                cursor,
            } => Ok(self.reconnect(*subscription, *cursor)),
            Event::Resume { subscription } => Ok(self.resume(*subscription)),
            Event::Unsubscribe { subscription } => Ok(self.unsubscribe(*subscription)),
        }
    }
}

pub(crate) fn refused(why: BrokerRefusal) -> Result<Reply, AllocError>
    ensures { result ≡ Ok (Reply.Refused why) }
{
    Ok(Reply::Refused(why))
}
