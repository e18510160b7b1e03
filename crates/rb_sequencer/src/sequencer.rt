//! `Sequencer`: the item in hand, and the tokens of what is placed.

ghost use Rattle.std.specs.Prelude.{◌≡◌, ◌++◌, ◌∷◌, [], ℕ, suc, length, Some, None, IsSome};
ghost use Rattle.std.specs.Option.{option_copied};
ghost use Rattle.rb_sequence.specs.Cells.{AreInCells, IsTokenOf};
ghost use Rattle.rb_sequence.specs.Items.{CountsUp};
ghost use Rattle.rb_sequencer.specs.Turns.{IsTurn, PlacesHand, FillsHand, in_hand};
ghost use Rattle.rb_sequencer.specs.Turns.{items_placed, token_of};

use crate::turn::Turn;
use rb_broker::{Broker, BrokerBrand, PlaceError, RefusedItem};
use rb_intake::{NothingWaits, SequencerPass};
use rb_sequence::{Item, Told};
use rb_subscriber::Stake;
use std::alloc::Global;
use std::marker::Model;
use std::sync::Wait;

/// The sequencer of a broker. It is of one thread. A broker has one: there is one pass for it.
#[derive(Drop)]
pub struct Sequencer<L: BrokerBrand> {
    pass: SequencerPass,
    hand: Option<Item>,
    told: Vec<Told>,
    stake: Stake<L>,
}

impl<L: BrokerBrand> Model for Sequencer<L> {
    ghost use Rattle.std.specs.Prelude.{◌≡◌, ◌++◌, [], ℕ};
    ghost use Rattle.rb_sequence.specs.Items.{CountsUp};
    ghost use Rattle.rb_sequence.specs.Cells.{AreInCells};
    ghost use Rattle.rb_sequencer.specs.Turns.{SequencerState, in_hand, items_placed};

    ghost Value = { SequencerState };

    ghost view = { λ s. record {
      pulled = s.pass.pulled;
      placed = s.told.items;
      hand = s.hand;
      owner = s.stake;
    } };

    ghost invariant = { λ s. (s.pass.queue ≡ L.queue)
        × (s.pass.pulled ≡ items_placed s.told.items ++ in_hand s.hand)
        × AreInCells L.cells 1 s.told.items
        × ((p : ℕ) → CountsUp p s.pass.pulled)
        × (s.pass.ended ≡ []) };
}

impl<L: BrokerBrand> Sequencer<L> {
    /// The sequencer of the broker that `Broker::start` made with this pass and this stake.
    pub fn new(alloc: Global, pass: SequencerPass, stake: Stake<L>) -> Sequencer<L>
        requires { pass ≡ record { queue = L.queue; pulled = []; ended = [] } }
        ensures { result ≡ record { pulled = []; placed = []; hand = None; owner = stake } }
    {
        Sequencer {
            pass,
            hand: None,
            told: Vec::new(alloc),
            stake,
        }
    }

    /// The item in hand: pulled, and not placed yet. What was pulled is what was placed, then this.
    pub fn hand(&self) -> Option<&Item>
        ensures hand { option_copied result ≡ self.now.hand }
        ensures pulled { self.now.pulled ≡ items_placed self.now.placed ++ in_hand self.now.hand }
    {
        self.hand.as_ref()
    }

    /// How many items it placed: the entries with the numbers from 1 to this one. Each stands in
    /// its cell, and each publisher's own numbers count from 1.
    pub fn placed(&self) -> u64
        ensures count { result ≡ length self.now.placed }
        ensures cells { AreInCells L.cells 1 self.now.placed }
        ensures numbered { (p : ℕ) → CountsUp p self.now.pulled }
    {
        self.told.len() as u64
    }

    /// The token of the entry with this number, if it is placed.
    pub fn told(&self, number: u64) -> Option<&Told>
        ensures { option_copied result ≡ token_of self.now.placed number }
    {
        let place = number.checked_sub(1)?;
        self.told.get(place as usize)
    }

    /// Its part in the history.
    pub fn stake(&self) -> &Stake<L>
        ensures { result.now ≡ self.now.owner }
    {
        &self.stake
    }

    /// Takes one turn. If the hand is empty, pulls the next item. Then places the item in hand.
    ///
    /// Returns `Idle` if nothing waits. `Refused` leaves the item in hand: the journal is full, the
    /// sequence is closed or full, its cell is set, or memory ran out.
    pub fn turn<R: Wait>(&mut self, rt: &R, alloc: Global, broker: &Broker<L>) -> Turn
        ensures { IsTurn L.limits L.cells L.queue self.old self.new result }
    {
        match self.take_up(rt, broker) {
            Ok(()) => self.place(rt, alloc, broker),
            Err(nothing) => Turn::Idle(nothing),
        }
    }

    /// Its pass, the item in hand and the tokens of what it placed, for the end of the broker. What
    /// the pass pulled is what was placed, then the item in hand.
    pub fn into_parts(self) -> (SequencerPass, Option<Item>, Vec<Told>)
        ensures pass { result.0 ≡ record { queue = L.queue; pulled = self.pulled; ended = [] } }
        ensures hand { result.1 ≡ self.hand }
        ensures placed { result.2.items ≡ self.placed }
        ensures pulled { self.pulled ≡ items_placed self.placed ++ in_hand self.hand }
    {
        (self.pass, self.hand, self.told)
    }

    // fills an empty hand from the intake
    fn take_up<R: Wait>(&mut self, rt: &R, broker: &Broker<L>) -> Result<(), NothingWaits>
        ensures { FillsHand L.queue self.old self.new result }
    {
        if self.hand.is_none() {
            self.hand = Some(broker.pull(rt, &mut self.pass)?);
        }
        Ok(())
    }

    // places the item in hand
    fn place<R: Wait>(&mut self, rt: &R, alloc: Global, broker: &Broker<L>) -> Turn
        requires { IsSome self.old.hand }
        ensures { PlacesHand L.limits L.cells self.old self.new result }
    {
        if self.told.reserve(1).is_err() {
            return Turn::Refused(PlaceError::Memory);
        }
        let number = self.told.len() as u64 + 1;
        let item = self.hand.take().unwrap();
        match broker.place_next(rt, alloc, &mut self.pass, &mut self.stake, item, number) {
            Ok(told) => {
                let shown = told.again();
                self.told.push_reserved(told);
                Turn::Placed(shown)
            }
            Err(RefusedItem { why, item }) => {
                self.hand = Some(item);
                Turn::Refused(why)
            }
        }
    }
}
