//! `Stake`: an owner's part in the history of its broker's steps.

ghost use Rattle.std.specs.Prelude.{◌≡◌, ◌≤◌, ◌++◌, ◌∷◌, [], length};
ghost use mathlib.Core.List.{IsPrefix};
ghost use Rattle.rb_history.specs.Kept.{count_under};
ghost use Rattle.rb_subscriber.specs.Owner.{OthersSince, has_seen};
ghost use Rattle.rb_subscriber.specs.Subscription.{with_owner};

use crate::lost::Lost;
use crate::step_ledger::StepLedger;
use crate::subscription::Subscription;
use rb_desk::Step;
use rb_history::{Chronicle, Front, Hand};
use std::marker::{Model, PhantomData};

/// What an owner holds of its broker's history: the right to make steps under its own number, and
/// what it has seen. Contracts relate the calls of threads by it. It takes no memory, and its calls
/// do nothing when the program runs. Only a broker's lock has the history, so only it adds steps.
#[derive(Drop)]
pub struct Stake<L: StepLedger> {
    hand: Hand<Step>,
    seen: Front<Step>,
    of: PhantomData<L>,
}

impl<L: StepLedger> Model for Stake<L> {
    ghost use Rattle.std.specs.Prelude.{◌≡◌};
    ghost use Rattle.rb_history.specs.Kept.{count_under};
    ghost use Rattle.rb_subscriber.specs.Owner.{Owner};

    ghost Value = { Owner };

    ghost view = { λ s. record { number = s.hand.number; seen = s.seen.log } };

    ghost invariant = { λ s. (s.hand.name ≡ L.history) × (s.seen.name ≡ L.history)
        × (count_under s.hand.number s.seen.log ≡ s.hand.made) };
}

impl<L: StepLedger> Stake<L> {
    /// The stake of a hand that has added nothing yet.
    pub fn new(all: &mut Chronicle<Step>, hand: Hand<Step>) -> Stake<L>
        requires name { (all.old.name ≡ L.history) × (hand.name ≡ L.history) }
        requires none { (hand.made ≡ 0) × (all.old.log ≡ []) }
        ensures same { all.new ≡ all.old }
        ensures new { result ≡ record { number = hand.number; seen = [] } }
    {
        Stake {
            hand,
            seen: all.front(),
            of: PhantomData,
        }
    }

    /// Of two owners of one broker, what the one has seen is a beginning of what the other has.
    /// By it laws of two moments hold of what two calls have shown, in whichever threads.
    pub fn compare(&self, other: &Stake<L>)
        ensures less { length self.now.seen ≤ length other.now.seen
            → IsPrefix self.now.seen other.now.seen }
        ensures more { length other.now.seen ≤ length self.now.seen
            → IsPrefix other.now.seen self.now.seen }
    {
        self.seen.compare(&other.seen);
    }

    // the same of a front and what its owner has seen
    pub(crate) fn compare_front(&self, front: &Front<Step>)
        requires name { front.now.name ≡ L.history }
        ensures less { length front.now.log ≤ length self.now.seen
            → IsPrefix front.now.log self.now.seen }
        ensures more { length self.now.seen ≤ length front.now.log
            → IsPrefix self.now.seen front.now.log }
    {
        self.seen.compare(front);
    }

    /// Shows its owner the whole history. Since it looked last, others alone have made steps.
    pub fn catch_up(&mut self, all: &mut Chronicle<Step>)
        requires name { all.old.name ≡ L.history }
        ensures same { all.new ≡ all.old }
        ensures others { OthersSince self.old all.old.log }
        ensures seen { self.new ≡ has_seen self.old all.old.log }
    {
        all.admit(&self.seen);
        all.audit(&mut self.hand);
        self.seen = all.front();
    }

    /// Adds a step of its owner, which has seen the whole history.
    pub fn append(&mut self, all: &mut Chronicle<Step>, step: &Step)
        requires name { all.old.name ≡ L.history }
        requires seen { self.old.seen ≡ all.old.log }
        ensures name { all.new.name ≡ all.old.name }
        ensures log { all.new.log ≡ all.old.log ++ (self.old.number, step.now) ∷ [] }
        ensures seen { self.new ≡ has_seen self.old all.new.log }
    {
        all.append(&mut self.hand, step);
        self.seen = all.front();
    }

    /// Adds a step of its owner, which has seen the whole history, and makes a new owner, which has
    /// seen it too and has made no step.
    pub fn enroll(&mut self, all: &mut Chronicle<Step>, step: &Step) -> Stake<L>
        requires name { all.old.name ≡ L.history }
        requires seen { self.old.seen ≡ all.old.log }
        ensures name { all.new.name ≡ all.old.name }
        ensures log { all.new.log ≡ all.old.log ++ (self.old.number, step.now) ∷ [] }
        ensures seen { self.new ≡ has_seen self.old all.new.log }
        ensures new { result.seen ≡ all.new.log }
        ensures none { count_under result.number all.new.log ≡ 0 }
    {
        let hand = all.enroll(&mut self.hand, step);
        self.seen = all.front();
        Stake {
            hand,
            seen: all.front(),
            of: PhantomData,
        }
    }
}

impl<L: StepLedger> Subscription<L> {
    /// Its part in the history.
    pub fn stake(&self) -> &Stake<L>
        ensures { result.now ≡ self.now.owner }
    {
        &self.stake
    }

    /// Shows it the whole history. Since it looked last, others alone have made steps.
    pub fn catch_up(&mut self, all: &mut Chronicle<Step>)
        requires name { all.old.name ≡ L.history }
        ensures same { all.new ≡ all.old }
        ensures others { OthersSince self.old.owner all.old.log }
        ensures seen { self.new ≡ with_owner self.old (has_seen self.old.owner all.old.log) }
    {
        self.stake.catch_up(all);
    }

    /// Adds a step of its own to the history, all of which it has seen.
    pub fn append(&mut self, all: &mut Chronicle<Step>, step: &Step)
        requires name { all.old.name ≡ L.history }
        requires seen { self.old.owner.seen ≡ all.old.log }
        ensures name { all.new.name ≡ all.old.name }
        ensures log { all.new.log ≡ all.old.log ++ (self.old.owner.number, step.now) ∷ [] }
        ensures seen { self.new ≡ with_owner self.old (has_seen self.old.owner all.new.log) }
    {
        self.stake.append(all, step);
    }
}

impl<L: StepLedger> Lost<L> {
    /// Its part in the history.
    pub fn stake(&self) -> &Stake<L>
        ensures { result.now ≡ self.now.owner }
    {
        self.subscription.stake()
    }

    /// Shows it the whole history, as `Subscription::catch_up` does.
    pub fn catch_up(&mut self, all: &mut Chronicle<Step>)
        requires name { all.old.name ≡ L.history }
        ensures same { all.new ≡ all.old }
        ensures others { OthersSince self.old.owner all.old.log }
        ensures seen { self.new ≡ with_owner self.old (has_seen self.old.owner all.old.log) }
    {
        self.subscription.catch_up(all);
    }
}
