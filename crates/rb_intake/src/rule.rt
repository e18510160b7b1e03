//! The rule of the intake's queue, and the kinds of step that keep it.

use crate::known::Known;
use crossbeam_queue::protocol::{Join, Lesson, Outcome, Protocol, Split};
use crossbeam_queue::{Pass, RuledArrayQueue};
use rb_sequence::Item;

/// What was sent is what was pulled and what waits, and each pass knows its part of it.
pub(crate) struct InOrder;

impl Protocol<Item, Known> for InOrder {
    ghost use Rattle.rb_intake.specs.Rule.{KeepsOrder};
    ghost use Rattle.rb_intake.specs.declared.known.Known.TheVariants.{Starts};

    ghost holds = { KeepsOrder };

    ghost first = { Starts };
}

/// A pass makes another: the first becomes the sequencer's and makes the maker's, and the maker's
/// makes a publisher's.
pub(crate) struct Make;

impl Split<Known> for Make {
    ghost use Rattle.rb_intake.specs.Rule.{after_making, newcomer};

    ghost left = { after_making };

    ghost right = { newcomer };
}

/// The sequencer's pass takes in a publisher's, or the maker's: no publisher is made any more then.
pub(crate) struct TakeIn;

impl Join<Known> for TakeIn {
    ghost use Rattle.rb_intake.specs.Rule.{taken_in};
    ghost use Rattle.rb_intake.specs.declared.known.Known.TheVariants.{Spent};

    ghost both = { taken_in };

    ghost spent = { Spent };
}

/// A publisher pushes an item, or finds the queue full.
pub(crate) struct Push;

impl Outcome<Item, Known> for Push {
    ghost use Rattle.std.specs.Prelude.{◌≡◌};
    ghost use Rattle.rb_intake.specs.Rule.{sent_one};

    ghost then = { λ v item w. w ≡ sent_one v item };
}

impl Lesson<Item, Known> for Push {
    ghost use Rattle.std.specs.Prelude.{⊤};

    ghost fact = { λ v items. ⊤ };
}

/// The sequencer pops an item, or finds the queue empty. Each publisher's own numbers count from 1
/// in what it pulled, and what the joined publishers sent was pulled or waits.
pub(crate) struct Pop;

impl Outcome<Item, Known> for Pop {
    ghost use Rattle.std.specs.Prelude.{◌≡◌, ℕ};
    ghost use Rattle.rb_sequence.specs.Items.{CountsUp};
    ghost use Rattle.rb_intake.specs.Rule.{pulled_one, pulled_in};

    ghost then = { λ v item w. (w ≡ pulled_one v item)
        × ((p : ℕ) → CountsUp p (pulled_in w)) };
}

impl Lesson<Item, Known> for Pop {
    ghost use Rattle.std.specs.List.{AllByRecursion};
    ghost use Rattle.rb_intake.specs.Rule.{pulled_in, ended_in, IsPulledOr};

    ghost fact = { λ v items. AllByRecursion (IsPulledOr (pulled_in v) items) (ended_in v) };
}

/// The last pass pops an item, or finds the queue empty. What was pulled of a joined publisher is
/// the front of what it sent, and nothing was pulled of one that was never made.
pub(crate) struct PopLast;

impl Outcome<Item, Known> for PopLast {
    ghost use Rattle.std.specs.Prelude.{◌≡◌};
    ghost use Rattle.rb_intake.specs.Rule.{pulled_one, AreFronts};

    ghost then = { λ v item w. (w ≡ pulled_one v item) × AreFronts w };
}

impl Lesson<Item, Known> for PopLast {
    ghost use Rattle.rb_intake.specs.Rule.{AreWhole};

    ghost fact = { AreWhole };
}

/// The queue under the rule, and its passes.
pub(crate) type Queue = RuledArrayQueue<Item, Known, InOrder>;

pub(crate) type Seat = Pass<Item, Known>;
