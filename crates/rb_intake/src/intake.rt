//! `Intake`: the queue between publishers and the sequencer.

ghost use Rattle.std.specs.Prelude.{◌≡◌, ◌<◌, ◌++◌, ◌∷◌, [], ℕ, suc, length, IfOk, IfErr, OnOk};
ghost use Rattle.std.specs.Prelude.{OnErr, MatchResult};
ghost use Rattle.rb_sequence.specs.Items.{CountsUp};
ghost use Rattle.std.specs.Prelude.{◌+◌, ◌≤◌, vec_len, vec_capacity};
ghost use Rattle.rb_intake.specs.Passes.{IsAllPulled, total_sent, Drains};
ghost use Rattle.rb_intake.specs.Joined.{HasEndedAs};
ghost use Rattle.rb_intake.specs.Draining.{PopsLast};

use crate::passes::{LastPass, MakerPass, PublisherPass, SequencerPass};
use crate::rule::{Make, Pop, PopLast, Push, Queue, TakeIn};
use crate::waiting::NothingWaits;
use rb_sequence::Item;
use std::alloc::{AllocError, Global};
use std::marker::Model;
use std::sync::Wait;

/// A queue of items on their way from publishers to the sequencer, shared by all threads. Passes
/// say who may do what with it.
#[derive(Drop)]
pub struct Intake {
    queue: Queue,
}

impl Model for Intake {
    ghost use Rattle.crossbeam_queue.specs.Passes.{ruled_capacity};
    ghost use Rattle.rb_intake.specs.Passes.{IntakeSeen};

    ghost Value = { IntakeSeen };

    ghost view = { λ i. record {
      queue = i.queue.table.shared.table_id;
      capacity = ruled_capacity i.queue;
    } };
}

impl Intake {
    /// An intake in which at most `capacity` items wait, with the passes of the sequencer and of
    /// the maker of publishers. Returns `AllocError` if memory runs out.
    pub fn new(
        alloc: Global,
        capacity: usize,
    ) -> Result<(Intake, SequencerPass, MakerPass), AllocError>
        requires { 0 < capacity }
        ensures intake { IfOk result (λ r. r.0.capacity ≡ capacity) }
        ensures sequencer { IfOk result (λ r. r.1
            ≡ record { queue = r.0.queue; pulled = []; ended = [] }) }
        ensures maker { IfOk result (λ r. r.2 ≡ record { queue = r.0.queue; made = 0 }) }
    {
        let (queue, mut seat) = Queue::ruled(alloc, capacity)?;
        let maker = queue.another::<Make>(&mut seat);
        let intake = Intake { queue };
        Ok((
            intake,
            SequencerPass { seat },
            MakerPass {
                made: 0,
                seat: maker,
            },
        ))
    }

    /// A pass for one more publisher, which has sent nothing.
    pub fn publisher(&self, maker: &mut MakerPass) -> PublisherPass
        requires queue { maker.old.queue ≡ self.now.queue }
        requires few { suc maker.old.made < 18446744073709551616 }
        ensures pass { result ≡ record {
          queue = self.now.queue;
          publisher = maker.old.made;
          sent = [];
        } }
        ensures maker { maker.new ≡ record maker.old { made = suc maker.old.made } }
    {
        let publisher = maker.made;
        let seat = self.queue.another::<Make>(&mut maker.seat);
        maker.made += 1;
        PublisherPass {
            publisher,
            count: 0,
            seat,
        }
    }

    /// Sends an item: it waits after those that wait.
    ///
    /// Returns the item if the intake was full at one moment of the call.
    pub fn push<R: Wait>(&self, rt: &R, pass: &mut PublisherPass, item: Item) -> Result<(), Item>
        requires queue { pass.old.queue ≡ self.now.queue }
        requires publisher { item.publisher ≡ pass.old.publisher }
        requires own { item.own ≡ suc (length pass.old.sent) }
        ensures ok { OnOk result (pass.new
            ≡ record pass.old { sent = pass.old.sent ++ item ∷ [] }) }
        ensures err { OnErr result (pass.new ≡ pass.old) }
        ensures full { IfErr result (λ back. back ≡ item) }
    {
        let own = item.own();
        self.queue.push_as::<Push, R>(rt, &mut pass.seat, item)?;
        pass.count = own;
        Ok(())
    }

    /// Pulls the item that waits first. Each publisher's own numbers count from 1 in what was
    /// pulled.
    ///
    /// Returns `NothingWaits` if the intake was empty at one moment of the call. What the
    /// publishers sent whose passes were joined is all pulled then.
    pub fn pop<R: Wait>(&self, rt: &R, pass: &mut SequencerPass) -> Result<Item, NothingWaits>
        requires queue { pass.old.queue ≡ self.now.queue }
        ensures item { MatchResult result
            (λ item. pass.new ≡ record pass.old { pulled = pass.old.pulled ++ item ∷ [] })
            (λ nothing. (pass.new ≡ pass.old) × IsAllPulled pass.new
            × (nothing.seen ≡ pass.new)) }
        ensures numbered { (p : ℕ) → CountsUp p pass.new.pulled }
    {
        match self.queue.pop_as::<Pop, R>(rt, &mut pass.seat) {
            Some(item) => Ok(item),
            None => Err(NothingWaits::seen_by(pass)),
        }
    }

    /// Takes in the pass of a publisher that sends nothing more.
    pub fn join(&self, pass: &mut SequencerPass, publisher: PublisherPass)
        requires queue { pass.old.queue ≡ self.now.queue }
        requires publisher { publisher.queue ≡ self.now.queue }
        ensures { pass.new ≡ record pass.old {
          ended = pass.old.ended ++ (publisher.publisher, publisher.sent) ∷ [];
        } }
    {
        self.queue.absorb::<TakeIn>(&mut pass.seat, publisher.seat);
    }

    /// Takes in the pass of the maker: no publisher is made any more.
    pub fn end(&self, pass: SequencerPass, maker: MakerPass) -> LastPass
        requires queue { pass.queue ≡ self.now.queue }
        requires maker { maker.queue ≡ self.now.queue }
        ensures { result ≡ record {
          queue = pass.queue;
          pulled = pass.pulled;
          ended = pass.ended;
          made = maker.made;
        } }
    {
        let mut seat = pass.seat;
        self.queue.absorb::<TakeIn>(&mut seat, maker.seat);
        LastPass { seat }
    }

    // pulls the item that waits first
    fn pop_last<R: Wait>(&self, rt: &R, pass: &mut LastPass) -> Option<Item>
        requires queue { pass.old.queue ≡ self.now.queue }
        ensures { PopsLast result pass.old pass.new }
    {
        self.queue.pop_as::<PopLast, R>(rt, &mut pass.seat)
    }

    /// Pulls all items that wait, and appends them to `left` in their order. All publishers that
    /// were made have been joined, and there is room for what they sent and nobody pulled. The pass
    /// that comes back shows everything that was pulled.
    pub fn drain<R: Wait>(&self, rt: &R, pass: LastPass, left: &mut Vec<Item>) -> LastPass
        requires queue { pass.queue ≡ self.now.queue }
        requires all { (p : ℕ) → p < pass.made → HasEndedAs p pass.ended }
        requires room { total_sent pass.ended + vec_len left.old
            ≤ length pass.pulled + vec_capacity left.old }
        ensures { Drains pass left.old.items left.new.items result }
    {
        let mut pass = pass;
        while let Some(item) = self.pop_last(rt, &mut pass) {
            left.push_reserved(item);
        }
        pass
    }
}
