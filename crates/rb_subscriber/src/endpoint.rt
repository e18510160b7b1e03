//! `Endpoint`: accepts deliveries and holds the subscriber's tables.

ghost use Rattle.std.specs.Prelude.{◌≡◌, ◌≤◌, ◌<◌, ◌-◌, suc, true, false, length, IfNone, IfSome};
ghost use Rattle.std.specs.Prelude.{IfOk, None, Err, OnOk};
ghost use Rattle.std.specs.List.{AllByRecursion};
ghost use Rattle.std.specs.Coded.{codes};
ghost use Rattle.cs_apply.specs.Columns.{HaveColumns};
ghost use Rattle.cs_apply.specs.State.{state_code};
ghost use Rattle.rb_subscriber.specs.Accept.{accept, accept_brought, AcceptAnswers, AppliesSingly};
ghost use Rattle.rb_subscriber.specs.Accept.{AreChangesets, AsksNoEntries, AsksNoTables};
ghost use Rattle.rb_subscriber.specs.Accept.{IsAdmitted, first_outside_entry, refusal_before};
ghost use Rattle.rb_subscriber.specs.Accept.{brought, ConflictsSingly, HasSingleTables, OnConflict};
ghost use Rattle.rb_subscriber.specs.Accept.{crash, part, LeavesSingly};
ghost use Rattle.rb_subscriber.specs.Applier.{Applies, IsApplied};
ghost use Rattle.rb_subscriber.specs.Endpoint.{Endpoint, new_endpoint};

use crate::apply::{apply, outside};
use crate::brought::Brought;
use crate::laws::{accepted_apply_singly, conflicts_are_single};
use crate::refusal::{AcceptError, AcceptRefusal};
use cs_apply::{ApplyError, Tables};
use cs_model::{Changeset, CopyIn};
use rb_desk::Delivery;
use rb_sequence::Entry;
use std::alloc::{AllocError, Global};
use std::marker::Model;

/// A subscriber's endpoint of a subscription: its cursor, its current link, and its tables. The
/// cursor is the last number that it accepted; only `accept` moves it.
#[derive(Debug, Drop)]
pub struct Endpoint {
    pub(crate) start: u64,
    pub(crate) cursor: u64,
    pub(crate) link: u64,
    pub(crate) closed: bool,
    pub(crate) fallen: bool,
    pub(crate) tables: Tables,
}

impl Model for Endpoint {
    ghost Value = { Endpoint };

    ghost coded = { Prim.hlevel (codes, state_code) };

    ghost view = { λ e. record {
      start = e.start;
      cursor = e.cursor;
      link = e.link;
      closed = e.closed;
      fallen = e.fallen;
      tables = e.tables;
    } };

    ghost invariant = { λ e. e.start ≤ e.cursor };
}

impl Endpoint {
    /// An endpoint that begins after number `start`, under this link and with these tables, and has
    /// accepted nothing.
    pub fn new(start: u64, link: u64, tables: Tables) -> Endpoint
        ensures { result ≡ new_endpoint start link tables }
    {
        Endpoint {
            start,
            cursor: start,
            link,
            closed: false,
            fallen: false,
            tables,
        }
    }

    /// Accepts a delivery: applies the group of its changesets, and moves the cursor to its last
    /// number, which it returns. `sequence` is all entries placed so far, at least up to the
    /// delivery's last one. If the changesets apply one after another without conflict, their group
    /// leaves the same tables.
    ///
    /// Refuses, in this order, `Store`, `Closed`, `StaleLink`, `Seen`, `Gap`, `Shape`, `Conflict`.
    /// `Memory` may replace a conflict, but no other refusal. An error does not change the
    /// endpoint. A conflict comes only if the changesets conflict too when they are applied one
    /// after another.
    #[tactic(auto, unfolding(crate::specs::Accept::accept_brought))]
    pub fn accept(
        &mut self,
        alloc: Global,
        sequence: &[Entry],
        delivery: &Delivery,
    ) -> Result<u64, AcceptError>
        requires { delivery.now.last ≤ length sequence.now }
        ensures answers { AcceptAnswers result (accept self.old sequence.now delivery.now) self.old
            self.new }
        ensures singly { OnOk result (HasSingleTables self.old.tables
            (brought sequence.now delivery.now) self.new.tables) }
        ensures conflicts { OnConflict result (ConflictsSingly self.old.tables
            (brought sequence.now delivery.now)) }
    {
        if let Some(why) = self.refuses(delivery) {
            return Err(why.into());
        }
        let entries = between(sequence, delivery.first() - 1, delivery.last());
        self.accept_brought(
            &|tables: &mut Tables, changeset: &Changeset| -> Result<(), ApplyError>
                ensures { IsApplied tables.entry.now changeset.entry.now result tables.exit.now }
            { tables.apply(alloc, changeset) },
            alloc,
            &entries,
            delivery,
        )
    }

    /// Why a delivery is refused whatever its entries are, if it is: `Store`, `Closed`,
    /// `StaleLink`, `Seen`, `Gap`. If it isn't, it begins right after the cursor.
    #[tactic(auto, unfolding(crate::specs::Accept::refusal_before))]
    pub fn refuses(&self, delivery: &Delivery) -> Option<AcceptRefusal>
        ensures why { result ≡ refusal_before self.now delivery.now }
        ensures early { IfSome result AsksNoEntries }
        ensures next { IfNone result ((delivery.now.first ≡ suc self.now.cursor)
            × (self.now.cursor < delivery.now.last)) }
    {
        if self.fallen {
            return Some(AcceptRefusal::Store);
        }
        if self.closed {
            return Some(AcceptRefusal::Closed);
        }
        if delivery.link() != self.link {
            return Some(AcceptRefusal::StaleLink);
        }
        if delivery.last() <= self.cursor {
            return Some(AcceptRefusal::Seen);
        }
        // the cursor is below the delivery's last number
        let expected = self.cursor + 1;
        if delivery.first() != expected {
            return Some(AcceptRefusal::Gap { expected });
        }
        None
    }

    /// Falls while it accepts a delivery, as one does that keeps its tables and its cursor in a
    /// durable store when the machine stops or the store fails. If the store has `kept` the accept,
    /// tables and cursor are those after it, else those before it. It accepts nothing more until it
    /// is resumed. Returns the cursor.
    ///
    /// Refuses what `accept` refuses, in the same order. An error does not change the endpoint, and
    /// it does not fall then.
    #[tactic(auto, unfolding(crate::specs::Accept::accept_brought))]
    pub fn crash(
        &mut self,
        alloc: Global,
        sequence: &[Entry],
        delivery: &Delivery,
        kept: bool,
    ) -> Result<u64, AcceptError>
        requires { delivery.now.last ≤ length sequence.now }
        ensures answers { AcceptAnswers result (crash self.old sequence.now delivery.now kept)
            self.old self.new }
        ensures singly { kept ≡ true → OnOk result (HasSingleTables self.old.tables
            (brought sequence.now delivery.now) self.new.tables) }
        ensures conflicts { OnConflict result (ConflictsSingly self.old.tables
            (brought sequence.now delivery.now)) }
    {
        if kept {
            match self.accept(alloc, sequence, delivery) {
                Ok(cursor) => {
                    self.fallen = true;
                    return Ok(cursor);
                }
                Err(error) => return Err(error),
            }
        }
        if let Some(why) = self.refuses(delivery) {
            return Err(why.into());
        }
        let entries = between(sequence, delivery.first() - 1, delivery.last());
        if let Some(why) = self.refuses_entries(&entries, delivery) {
            return Err(why.into());
        }
        // only a copy accepts
        let mut copy = self.copy(alloc)?;
        match copy.accept(alloc, sequence, delivery) {
            Ok(_) => {
                self.fallen = true;
                Ok(self.cursor)
            }
            Err(error) => Err(error),
        }
    }

    // a copy of it, with tables of its own
    fn copy(&self, alloc: Global) -> Result<Endpoint, AllocError>
        ensures { IfOk result (λ copy. copy ≡ self.now) }
    {
        let tables = self.tables.copy_in(alloc)?;
        Ok(Endpoint {
            start: self.start,
            cursor: self.cursor,
            link: self.link,
            closed: self.closed,
            fallen: self.fallen,
            tables,
        })
    }

    /// Why a delivery that brings these entries is refused before the tables are asked, if it is:
    /// as `refuses` says, or `Shape`. If it isn't, the call reaches the tables.
    #[tactic(auto, unfolding(crate::specs::Accept::accept_brought))]
    pub(crate) fn refuses_entries<E: Brought>(
        &self,
        entries: &E,
        delivery: &Delivery,
    ) -> Option<AcceptRefusal>
        ensures why { IfSome result (λ why.
            accept_brought self.now (E.entries entries.now) delivery.now ≡ Err why) }
        ensures early { IfSome result AsksNoTables }
        ensures free { IfNone result (refusal_before self.now delivery.now ≡ None) }
        ensures none { IfNone result
            (first_outside_entry self.now.tables.schema (E.entries entries.now) ≡ None) }
        ensures known { IfNone result (AreChangesets (E.entries entries.now)
            × HaveColumns self.now.tables) }
        ensures admitted { IfNone result
            (AllByRecursion (IsAdmitted self.now.tables.schema) (E.entries entries.now)) }
        ensures order { IfNone result (self.now.cursor < delivery.now.last) }
    {
        if let Some(why) = self.refuses(delivery) {
            return Some(why);
        }
        if let Some(entry) = outside(self.tables.schema(), entries) {
            let number = entry.number();
            return Some(AcceptRefusal::Shape { number });
        }
        None
    }

    /// Accepts a delivery that brings these entries: `accept`, wherever the entries stand, and
    /// whoever applies them.
    #[tactic(auto, unfolding(crate::specs::Accept::accept_brought))]
    pub(crate) fn accept_brought<
        E: Brought,
        F: Fn(&mut Tables, &Changeset) -> Result<(), ApplyError>,
    >(
        &mut self,
        applier: &F,
        alloc: Global,
        entries: &E,
        delivery: &Delivery,
    ) -> Result<u64, AcceptError>
        requires { Applies F.Fn applier.now }
        ensures answers { AcceptAnswers result
            (accept_brought self.old (E.entries entries.now) delivery.now) self.old self.new }
        ensures singly { LeavesSingly result self.old (E.entries entries.now) self.new }
        ensures conflicts { OnConflict result
            (ConflictsSingly self.old.tables (E.entries entries.now)) }
    {
        accepted_apply_singly();
        conflicts_are_single();
        if let Some(why) = self.refuses_entries(entries, delivery) {
            return Err(why.into());
        }
        match apply(applier, alloc, &mut self.tables, entries) {
            Ok(()) => {}
            Err(ApplyError::Conflict(conflict)) => {
                return Err(AcceptRefusal::Conflict(conflict).into());
            }
            Err(ApplyError::Memory) => return Err(AcceptError::Memory),
        }
        self.cursor = delivery.last();
        Ok(self.cursor)
    }

    /// Changes the link: deliveries under the old one are stale. Cursor and tables stay.
    pub fn reconnect(&mut self, link: u64)
        ensures { self.new ≡ record self.old { link = link } }
    {
        self.link = link;
    }

    /// Continues after a fall, under a new link. Cursor and tables stay.
    pub fn resume(&mut self, link: u64)
        ensures { self.new ≡ record self.old { link = link; fallen = false } }
    {
        self.link = link;
        self.fallen = false;
    }

    /// Closes it permanently: it accepts nothing more.
    pub fn close(&mut self)
        ensures { self.new ≡ record self.old { closed = true } }
    {
        self.closed = true;
    }

    /// The number after which it began.
    pub fn start(&self) -> u64
        ensures value { result ≡ self.now.start }
        ensures order { self.now.start ≤ self.now.cursor }
    {
        self.start
    }

    /// The last number that it accepted; at first, its start.
    pub fn cursor(&self) -> u64
        ensures value { result ≡ self.now.cursor }
        ensures order { self.now.start ≤ self.now.cursor }
    {
        self.cursor
    }

    /// Its current link.
    pub fn link(&self) -> u64
        ensures { result ≡ self.now.link }
    {
        self.link
    }

    /// Whether it is closed.
    pub fn is_closed(&self) -> bool
        ensures { result ≡ self.now.closed }
    {
        self.closed
    }

    /// Whether it has fallen, and wasn't resumed.
    pub fn is_fallen(&self) -> bool
        ensures { result ≡ self.now.fallen }
    {
        self.fallen
    }

    /// Its tables.
    pub fn tables(&self) -> &Tables
        ensures { result.now ≡ self.now.tables }
    {
        &self.tables
    }
}

// the entries after number `after`, up to number `last`
fn between(sequence: &[Entry], after: u64, last: u64) -> &[Entry]
    requires order { after ≤ last }
    requires within { last ≤ length sequence.now }
    ensures { result.now ≡ part sequence.now after (last - after) }
{
    let (_, rest) = sequence.split_at(after as usize);
    let (entries, _) = rest.split_at((last - after) as usize);
    entries
}
