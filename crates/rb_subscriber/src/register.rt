//! `Register`: what only a broker's lock holds. It makes subscriptions, counts their steps and sets
//! their links.

ghost use Rattle.std.specs.Prelude.{◌≡◌, ◌+◌, ◌<◌, ◌≤◌, ◌^◌, [], length, IfErr, IfOk, OnErr, OnOk};
ghost use mathlib.Core.List.{IsPrefix};
ghost use Rattle.rb_subscriber.specs.Lost.{FitsLost, gone_on};
ghost use Rattle.rb_subscriber.specs.Owner.{OthersSince};
ghost use Rattle.rb_subscriber.specs.Register.{AuditorState, HaveSeenTheirs, RegisterState};
ghost use Rattle.rb_subscriber.specs.Register.{all_steps};
ghost use Rattle.rb_subscriber.specs.Subscription.{new_subscription};

use crate::batches::Batches;
use crate::beginning::Beginning;
use crate::endpoint::Endpoint;
use crate::lost::Lost;
use crate::stake::Stake;
use crate::step_ledger::StepLedger;
use crate::subscription::Subscription;
use cs_apply::Tables;
use rb_desk::Step;
use rb_history::{Chronicle, Front};
use std::alloc::Global;
use std::marker::Model;
use std::sync::ledger::{Blank, Book, Share};

/// The most subscriptions that are ever made.
pub const MOST_SUBSCRIPTIONS: u64 = 1_024;

/// The register of a broker's subscriptions: the book of the ledger of their steps, and the parts
/// of the ledger that no subscription has yet. Each ledger has one. Only its owner can make a
/// subscription, count a step or set a link.
#[derive(Drop)]
pub struct Register<L: StepLedger> {
    book: Book<L>,
    rest: Share<L>,
    made: u64,
}

impl<L: StepLedger> Model for Register<L> {
    ghost use Rattle.std.specs.Prelude.{◌≡◌, ◌+◌, ◌<◌, ◌^◌};
    ghost use Rattle.rb_subscriber.specs.Register.{RegisterState};

    ghost Value = { RegisterState };

    ghost view = { λ r. record { total = r.book.total; made = r.made } };

    ghost invariant = { λ r. (r.rest.parts + r.made ≡ L.all) × (L.all ≡ L.parts)
        × (r.rest.amount ≡ 0) × (r.book.total < 2 ^ 64) };
}

/// Hears the subscriptions of a register, and adds up their steps. One that was heard is gone. The
/// auditor has seen the history of the broker's steps as it was at its last audit.
#[derive(Drop)]
pub struct Auditor<L: StepLedger> {
    sum: u64,
    heard: u64,
    share: Share<L>,
    seen: Front<Step>,
}

impl<L: StepLedger> Model for Auditor<L> {
    ghost use Rattle.std.specs.Prelude.{◌≡◌};
    ghost use Rattle.rb_subscriber.specs.Register.{AuditorState};

    ghost Value = { AuditorState };

    ghost view = { λ a. record { sum = a.sum; heard = a.heard; seen = a.seen.log } };

    ghost invariant = { λ a. (a.share.parts ≡ a.heard) × (a.share.amount ≡ a.sum)
        × (a.seen.name ≡ L.history) };
}

/// Why `Register::audit` counts nothing: a subscription is missing. These come back as they were.
#[derive(Drop)]
pub struct RefusedAudit<L: StepLedger> {
    pub subscriptions: Vec<Subscription<L>>,
}

impl<L: StepLedger> Register<L> {
    /// The register of a new ledger, with no subscription and no step, and its auditor.
    pub fn open(blank: Blank, all: &mut Chronicle<Step>) -> (Register<L>, Auditor<L>)
        requires name { blank.name ≡ L.name }
        requires parts { (blank.parts ≡ L.parts) × (L.all ≡ L.parts) }
        requires history { (all.old.name ≡ L.history) × (all.old.log ≡ []) }
        ensures register { result.0 ≡ record { total = 0; made = 0 } }
        ensures auditor { result.1 ≡ record { sum = 0; heard = 0; seen = [] } }
        ensures same { all.new ≡ all.old }
    {
        let (book, mut rest) = blank.open::<L>();
        let share = rest.empty();
        let register = Register {
            book,
            rest,
            made: 0,
        };
        let auditor = Auditor {
            sum: 0,
            heard: 0,
            share,
            seen: all.front(),
        };
        (register, auditor)
    }

    /// How many subscriptions it made.
    pub fn made(&self) -> u64
        ensures { result ≡ self.now.made }
    {
        self.made
    }

    /// Makes a subscription that has accepted nothing: under the desk's number and link, after
    /// number `start`, with these tables. It has seen what its stake has.
    pub fn subscribe(
        &mut self,
        alloc: Global,
        sub: u64,
        link: u64,
        start: u64,
        tables: Tables,
        stake: Stake<L>,
    ) -> Subscription<L>
        requires { (self.old.made < 1024) × (L.all ≡ 1024) }
        ensures new { result ≡ new_subscription sub start link tables stake }
        ensures made { self.new ≡ record self.old { made = self.old.made + 1 } }
    {
        let share = self.rest.split_off(1, 0);
        let base = Beginning::of(&tables);
        self.made += 1;
        Subscription {
            sub,
            end: Endpoint::new(start, link, tables),
            base,
            told: Vec::new(alloc),
            batches: Batches::none(),
            pending: None,
            steps: 0,
            share,
            stake,
        }
    }

    /// Counts a step of a subscription.
    pub fn count(&mut self, subscription: &mut Subscription<L>)
        requires { self.old.total + 1 < 2 ^ 64 }
        ensures subscription { subscription.new
            ≡ record subscription.old { steps = subscription.old.steps + 1 } }
        ensures total { self.new ≡ record self.old { total = self.old.total + 1 } }
    {
        self.book.audit(&mut subscription.share);
        self.book.add(&mut subscription.share, 1);
        subscription.steps += 1;
    }

    /// Sets a subscription's link: deliveries under the old one are stale.
    pub fn relink(&self, subscription: &mut Subscription<L>, link: u64)
        ensures { subscription.new ≡ record subscription.old { link = link } }
    {
        subscription.end.reconnect(link);
    }

    /// Makes one that fell a subscription again, with these tables, after this cursor and under
    /// this link. It counts no step.
    pub fn resume(&self, lost: Lost<L>, tables: Tables, cursor: u64, link: u64) -> Subscription<L>
        requires { FitsLost lost tables cursor }
        ensures { result ≡ gone_on lost tables cursor link }
    {
        lost.resumed(tables, cursor, link)
    }

    /// Hears these subscriptions, which are gone then. Returns how many steps were counted in all:
    /// it is the sum of the steps of all subscriptions that the auditor heard. Each had seen all of
    /// its own steps in this history, which the auditor has seen then.
    ///
    /// Returns `RefusedAudit` if the auditor has not heard all that were made, with these. Nothing
    /// is heard then, but the auditor has seen the history.
    pub fn audit(
        &mut self,
        auditor: &mut Auditor<L>,
        subscriptions: Vec<Subscription<L>>,
        all: &mut Chronicle<Step>,
    ) -> Result<u64, RefusedAudit<L>>
        requires all { L.all ≡ 1024 }
        requires name { all.old.name ≡ L.history }
        ensures total { IfOk result (λ sum. (sum ≡ self.old.total)
            × (sum ≡ auditor.old.sum + all_steps subscriptions.items)) }
        ensures heard { IfOk result (λ sum.
            (auditor.new ≡ record { sum = sum; heard = self.old.made; seen = all.old.log })
            × (auditor.old.heard + length subscriptions.items ≡ self.old.made)) }
        ensures own { OnOk result (HaveSeenTheirs subscriptions.items all.old.log) }
        ensures seen { IsPrefix auditor.old.seen all.old.log }
        ensures missing { IfErr result (λ missing.
            (missing.subscriptions.items ≡ subscriptions.items)
            × (auditor.old.heard + length subscriptions.items ≡ self.old.made → ⊥)) }
        ensures err { OnErr result (auditor.new ≡ record auditor.old { seen = all.old.log }) }
        ensures same { (self.new ≡ self.old) × (all.new ≡ all.old) }
    {
        all.admit(&auditor.seen);
        auditor.seen = all.front();
        let given = subscriptions.len() as u64;
        if self.made.checked_sub(auditor.heard) != Some(given) {
            return Err(RefusedAudit { subscriptions });
        }
        for subscription in subscriptions {
            self.hear(auditor, subscription, all);
        }
        self.compare(auditor);
        Ok(auditor.sum)
    }

    // adds the steps of a subscription, which are all in this history, to the auditor's sum
    fn hear(
        &mut self,
        auditor: &mut Auditor<L>,
        subscription: Subscription<L>,
        all: &mut Chronicle<Step>,
    )
        requires more { auditor.old.heard < self.old.made }
        requires name { all.old.name ≡ L.history }
        ensures auditor { auditor.new ≡ record auditor.old {
          sum = auditor.old.sum + subscription.steps;
          heard = auditor.old.heard + 1;
        } }
        ensures own { OthersSince subscription.owner all.old.log }
        ensures same { (self.new ≡ self.old) × (all.new ≡ all.old) }
    {
        let mut subscription = subscription;
        subscription.catch_up(all);
        let Subscription { steps, share, .. } = subscription;
        auditor.share.merge(share);
        self.book.audit(&mut auditor.share);
        auditor.sum += steps;
        auditor.heard += 1;
    }

    // Once all are heard, the parts of the ledger are together, so the sum is the total. Changes
    // nothing.
    fn compare(&mut self, auditor: &mut Auditor<L>)
        requires all { L.all ≡ 1024 }
        requires heard { auditor.old.heard ≡ self.old.made }
        ensures sum { auditor.old.sum ≡ self.old.total }
        ensures same { (auditor.new ≡ auditor.old) × (self.new ≡ self.old) }
    {
        let made = self.made;
        let Register { book, rest, .. } = self;
        book.audit(&mut auditor.share);
        rest.give(&mut auditor.share, MOST_SUBSCRIPTIONS - made, 0);
        book.audit(&mut auditor.share);
        auditor.share.give(rest, MOST_SUBSCRIPTIONS - made, 0);
    }
}

impl<L: StepLedger> Auditor<L> {
    /// Of an auditor and an owner of one broker, what the one has seen is a beginning of what the
    /// other has (`Stake::compare`).
    pub fn compare(&self, owner: &Stake<L>)
        ensures less { length self.now.seen ≤ length owner.now.seen
            → IsPrefix self.now.seen owner.now.seen }
        ensures more { length owner.now.seen ≤ length self.now.seen
            → IsPrefix owner.now.seen self.now.seen }
    {
        owner.compare_front(&self.seen);
    }

    /// The sum of the steps of the subscriptions that it heard.
    pub fn sum(&self) -> u64
        ensures { result ≡ self.now.sum }
    {
        self.sum
    }

    /// How many subscriptions it heard.
    pub fn heard(&self) -> u64
        ensures { result ≡ self.now.heard }
    {
        self.heard
    }
}
