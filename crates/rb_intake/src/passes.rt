//! The passes of an intake: who may make publishers, who may send, and who may pull. A pass goes
//! with its owner, also to another thread, and nobody else can do what it allows.

ghost use Rattle.std.specs.Prelude.{◌≡◌, length};

use crate::rule::Seat;
use std::marker::Model;

/// Lets its owner make publishers' passes. An intake has one.
#[derive(Drop)]
pub struct MakerPass {
    pub(crate) made: u64,
    pub(crate) seat: Seat,
}

impl Model for MakerPass {
    ghost use Rattle.std.specs.Prelude.{◌≡◌, []};
    ghost use Rattle.crossbeam_queue.specs.Passes.{view as known};
    ghost use Rattle.rb_intake.specs.Passes.{MakerKnows};
    ghost use Rattle.rb_intake.specs.declared.known.Known.TheVariants.{Makes};

    ghost Value = { MakerKnows };

    ghost view = { λ p. record { queue = p.seat.table_id; made = p.made } };

    ghost invariant = { λ p. (p.seat.me.1 ≡ []) × (known p.seat ≡ Makes p.made) };
}

impl MakerPass {
    /// How many publishers' passes it made. Their numbers are those below it.
    pub fn made(&self) -> u64
        ensures { result ≡ self.now.made }
    {
        self.made
    }
}

/// Lets its owner send items under one publisher's number. No other pass has that number.
#[derive(Drop)]
pub struct PublisherPass {
    pub(crate) publisher: u64,
    pub(crate) count: u64,
    pub(crate) seat: Seat,
}

impl Model for PublisherPass {
    ghost use Rattle.std.specs.Prelude.{◌≡◌, length, []};
    ghost use Rattle.crossbeam_queue.specs.Passes.{view as known};
    ghost use Rattle.rb_intake.specs.Passes.{PublisherKnows};
    ghost use Rattle.rb_intake.specs.Rule.{sent_in};
    ghost use Rattle.rb_intake.specs.declared.known.Known.TheVariants.{Sends};

    ghost Value = { PublisherKnows };

    ghost view = { λ p. record {
      queue = p.seat.table_id;
      publisher = p.publisher;
      sent = sent_in (known p.seat);
    } };

    ghost invariant = { λ p. (p.seat.me.1 ≡ [])
        × (known p.seat ≡ Sends p.publisher (sent_in (known p.seat)))
        × (p.count ≡ length (sent_in (known p.seat))) };
}

impl PublisherPass {
    /// The publisher's number, from 0.
    pub fn publisher(&self) -> u64
        ensures { result ≡ self.now.publisher }
    {
        self.publisher
    }

    /// How many items were sent with it.
    pub fn sent(&self) -> u64
        ensures { result ≡ length self.now.sent }
    {
        self.count
    }
}

/// Lets its owner pull items. An intake has one.
#[derive(Drop)]
pub struct SequencerPass {
    pub(crate) seat: Seat,
}

impl Model for SequencerPass {
    ghost use Rattle.std.specs.Prelude.{◌≡◌, ℕ, []};
    ghost use Rattle.crossbeam_queue.specs.Passes.{view as known};
    ghost use Rattle.rb_intake.specs.Passes.{SequencerKnows};
    ghost use Rattle.rb_intake.specs.Rule.{pulled_in, ended_in};
    ghost use Rattle.rb_intake.specs.declared.known.Known.TheVariants.{Pulls};
    ghost use Rattle.rb_sequence.specs.Items.{CountsUp};

    ghost Value = { SequencerKnows };

    ghost view = { λ p. record {
      queue = p.seat.table_id;
      pulled = pulled_in (known p.seat);
      ended = ended_in (known p.seat);
    } };

    ghost invariant = { λ p. (p.seat.me.1 ≡ [])
        × (known p.seat ≡ Pulls (pulled_in (known p.seat)) (ended_in (known p.seat)))
        × ((q : ℕ) → CountsUp q (pulled_in (known p.seat))) };
}

/// Lets its owner pull what is left, when no publisher is made any more. It is what a sequencer's
/// pass becomes.
#[derive(Drop)]
pub struct LastPass {
    pub(crate) seat: Seat,
}

impl Model for LastPass {
    ghost use Rattle.std.specs.Prelude.{◌≡◌, []};
    ghost use Rattle.crossbeam_queue.specs.Passes.{view as known};
    ghost use Rattle.rb_intake.specs.Passes.{LastKnows};
    ghost use Rattle.rb_intake.specs.Rule.{pulled_in, ended_in, made_in};
    ghost use Rattle.rb_intake.specs.declared.known.Known.TheVariants.{Ends};

    ghost Value = { LastKnows };

    ghost view = { λ p. record {
      queue = p.seat.table_id;
      pulled = pulled_in (known p.seat);
      ended = ended_in (known p.seat);
      made = made_in (known p.seat);
    } };

    ghost invariant = { λ p. (p.seat.me.1 ≡ [])
        × (known p.seat
        ≡ Ends (pulled_in (known p.seat)) (ended_in (known p.seat)) (made_in (known p.seat))) };
}
