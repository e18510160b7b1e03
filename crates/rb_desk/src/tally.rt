//! `TalliedBoard`: a board that counts its steps, and makes no more than a journal holds.

ghost use Rattle.std.specs.Prelude.{◌≡◌, ◌≤◌, ◌+◌, ℕ, length, Ok, IsOk, OnOk, OnErr};
ghost use Rattle.std.specs.Prelude.{slice_get};
ghost use Rattle.rb_desk.specs.Answers.{call_refusal};
ghost use Rattle.rb_desk.specs.Calls.{subscribe, take, take_any, ack, nack, expire, reconnect};
ghost use Rattle.rb_desk.specs.Calls.{unsubscribe, prepare, place, close, nack_opened};
ghost use Rattle.rb_desk.specs.Journaled.{TallyAnswers, answer_after, closing_steps, is_full};
ghost use Rattle.rb_desk.specs.Journaled.{tallied};
ghost use Rattle.rb_desk.specs.Picture.{empty_picture};

use crate::board::{Board, Caller};
use crate::config::Config;
use crate::delivery::Delivery;
use crate::refusal::{DeskError, DeskRefusal};
use rb_deliveries::SubscriptionRef;
use std::alloc::Global;
use std::marker::Model;

/// The most steps of a journal. One more is kept for a closing.
pub const MOST_STEPS: u64 = 268_435_455;

/// A desk without a journal: it counts its steps, and does not keep them. Each call returns, and
/// leaves, what the call of the same name does in [`Desk`](crate::Desk), but needs no memory for
/// its step.
#[derive(Debug, Drop)]
pub struct TalliedBoard {
    board: Board,
    steps: u64,
}

impl Model for TalliedBoard {
    ghost use Rattle.rb_desk.specs.Journaled.{TalliedPicture};
    ghost use Rattle.rb_desk.specs.Shown.{IsTallied};

    ghost Value = { TalliedPicture };

    ghost view = { λ b. record { picture = b.board.picture; steps = b.steps } };

    ghost invariant = { λ b. IsTallied b.board b.steps };
}

impl TalliedBoard {
    /// A new board, before any call.
    pub fn new(alloc: Global, config: Config) -> TalliedBoard
        ensures { result ≡ record { picture = empty_picture config; steps = 0 } }
    {
        TalliedBoard {
            board: Board::new(alloc, config),
            steps: 0,
        }
    }

    /// Its limits.
    pub fn config(&self) -> Config
        ensures { result ≡ self.now.picture.limits }
    {
        self.board.config()
    }

    /// How many steps were made.
    pub fn steps(&self) -> u64
        ensures value { result ≡ self.now.steps }
        ensures few { self.now.steps ≤ 268435456 }
    {
        self.steps
    }

    /// The last number placed, 0 before the first.
    pub fn front(&self) -> u64
        ensures { result ≡ self.now.picture.front }
    {
        self.board.front()
    }

    /// The closing number, if the sequence is closed.
    pub fn closing(&self) -> Option<u64>
        ensures { result ≡ self.now.picture.closing }
    {
        self.board.closing()
    }

    /// How many subscriptions were made, closed ones included.
    pub fn made(&self) -> u64
        ensures { result ≡ length self.now.picture.subscriptions }
    {
        self.board.made()
    }

    /// What is known of a subscription, if there is one with this number.
    pub fn subscription(&self, sub: u64) -> Option<SubscriptionRef<'_>>
        ensures { result ≡ slice_get self.now.picture.subscriptions sub }
    {
        self.board.subscription(sub)
    }

    /// The number that `place` would place now.
    pub fn prepare(&self) -> Result<u64, DeskRefusal>
        ensures { result ≡ answer_after self.now.steps (prepare self.now.picture) }
    {
        self.begin()?;
        self.board.prepare()
    }

    /// Places the next number. Requires that `prepare` would return Ok.
    pub fn place(&mut self) -> u64
        requires { IsOk (answer_after self.old.steps (prepare self.old.picture)) }
        ensures number { prepare self.old.picture ≡ Ok result }
        ensures new { self.new ≡ tallied self.old (place self.old.picture) }
    {
        let number = self.board.place();
        self.steps += 1;
        number
    }

    /// Closes the sequence. A second call is no step.
    #[tactic(auto, unfolding(crate::specs::Calls::close))]
    pub fn close(&mut self) -> u64
        ensures answer { close self.old.picture ≡ (result, self.new.picture) }
        ensures steps { self.new.steps
            ≡ self.old.steps + length (closing_steps self.old.picture.closing) }
    {
        if let Some(last) = self.board.closing() {
            return last;
        }
        let last = self.board.close();
        self.steps += 1;
        last
    }

    /// Adds a subscription to the numbers after `start`.
    pub fn subscribe(&mut self, alloc: Global, start: u64) -> Result<(u64, u64), DeskError>
        ensures { TallyAnswers result (subscribe self.old.picture start) self.old self.new }
    {
        self.begin()?;
        let made = self.board.subscribe(alloc, start)?;
        self.steps += 1;
        Ok(made)
    }

    /// Why `subscribe` would refuse this start, or `None` where it would not.
    pub fn refuses_subscribe(&self, start: u64) -> Option<DeskRefusal>
        ensures { result
            ≡ call_refusal (answer_after self.now.steps (subscribe self.now.picture start).0) }
    {
        if self.is_full() {
            return Some(DeskRefusal::JournalFull);
        }
        self.board.refuses_subscribe(start)
    }

    /// Delivers a subscription's ready span with the lowest numbers.
    pub fn take(
        &mut self,
        sub: u64,
        link: u64,
        cursor: u64,
        now: u64,
    ) -> Result<Delivery, DeskError>
        ensures { TallyAnswers result (take self.old.picture sub link cursor now)
            self.old self.new }
    {
        self.begin()?;
        let delivery = self.board.take(Caller { sub, link }, cursor, now)?;
        self.steps += 1;
        Ok(delivery)
    }

    /// Why `take` would refuse these numbers, or `None` where it would not.
    pub fn refuses_take(&self, sub: u64, link: u64, cursor: u64) -> Option<DeskRefusal>
        ensures { (now : ℕ) → result ≡ call_refusal
            (answer_after self.now.steps (take self.now.picture sub link cursor now).0) }
    {
        if self.is_full() {
            return Some(DeskRefusal::JournalFull);
        }
        self.board.refuses_take(Caller { sub, link }, cursor)
    }

    /// Delivers the first span in the ready order whose subscription has room in its window.
    pub fn take_any(&mut self, now: u64) -> Result<Delivery, DeskError>
        ensures { TallyAnswers result (take_any self.old.picture now) self.old self.new }
    {
        self.begin()?;
        let delivery = self.board.take_any(now)?;
        self.steps += 1;
        Ok(delivery)
    }

    /// Why `take_any` would refuse, or `None` where it would not.
    pub fn refuses_take_any(&self) -> Option<DeskRefusal>
        ensures { (now : ℕ) → result ≡ call_refusal
            (answer_after self.now.steps (take_any self.now.picture now).0) }
    {
        if self.is_full() {
            return Some(DeskRefusal::JournalFull);
        }
        self.board.refuses_take_any()
    }

    /// Settles a delivery's numbers.
    pub fn ack(
        &mut self,
        sub: u64,
        link: u64,
        delivery: u64,
        cursor: u64,
    ) -> Result<u64, DeskRefusal>
        ensures answer { result
            ≡ answer_after self.old.steps (ack self.old.picture sub link delivery cursor).0 }
        ensures ok { OnOk result (self.new
            ≡ tallied self.old (ack self.old.picture sub link delivery cursor).1) }
        ensures err { OnErr result (self.new ≡ self.old) }
    {
        self.begin()?;
        let floor = self.board.ack(Caller { sub, link }, delivery, cursor)?;
        self.steps += 1;
        Ok(floor)
    }

    /// Why `ack` would refuse these numbers, or `None` where it would not.
    pub fn refuses_ack(
        &self,
        sub: u64,
        link: u64,
        delivery: u64,
        cursor: u64,
    ) -> Option<DeskRefusal>
        ensures { result ≡ call_refusal (answer_after self.now.steps
            (ack self.now.picture sub link delivery cursor).0) }
    {
        if self.is_full() {
            return Some(DeskRefusal::JournalFull);
        }
        self.board
            .refuses_ack(Caller { sub, link }, delivery, cursor)
    }

    /// Negatively acknowledges a delivery. Does not allocate.
    pub fn nack(&mut self, sub: u64, link: u64, delivery: u64) -> Result<(), DeskRefusal>
        ensures answer { result
            ≡ answer_after self.old.steps (nack self.old.picture sub link delivery).0 }
        ensures ok { OnOk result (self.new
            ≡ tallied self.old (nack self.old.picture sub link delivery).1) }
        ensures err { OnErr result (self.new ≡ self.old) }
    {
        self.begin()?;
        self.board.nack(Caller { sub, link }, delivery)?;
        self.steps += 1;
        Ok(())
    }

    /// Why `nack` would refuse these numbers, or `None` where it would not.
    pub fn refuses_nack(&self, sub: u64, link: u64, delivery: u64) -> Option<DeskRefusal>
        ensures { result ≡ call_refusal (answer_after self.now.steps
            (nack self.now.picture sub link delivery).0) }
    {
        if self.is_full() {
            return Some(DeskRefusal::JournalFull);
        }
        self.board.refuses_nack(Caller { sub, link }, delivery)
    }

    /// Negatively acknowledges a delivery and opens it.
    pub fn nack_opened(&mut self, sub: u64, link: u64, delivery: u64) -> Result<u64, DeskError>
        ensures { TallyAnswers result (nack_opened self.old.picture sub link delivery)
            self.old self.new }
    {
        self.begin()?;
        let count = self.board.nack_opened(Caller { sub, link }, delivery)?;
        self.steps += 1;
        Ok(count)
    }

    /// Why `nack_opened` would refuse these numbers, or `None` where it would not.
    pub fn refuses_nack_opened(&self, sub: u64, link: u64, delivery: u64) -> Option<DeskRefusal>
        ensures { result ≡ call_refusal (answer_after self.now.steps
            (nack_opened self.now.picture sub link delivery).0) }
    {
        if self.is_full() {
            return Some(DeskRefusal::JournalFull);
        }
        self.board
            .refuses_nack_opened(Caller { sub, link }, delivery)
    }

    /// Expires every delivery that has been out for the timeout or longer. Does not allocate.
    pub fn expire(&mut self, now: u64) -> Result<u64, DeskRefusal>
        ensures answer { result
            ≡ answer_after self.old.steps (Ok (expire self.old.picture now).0) }
        ensures ok { OnOk result (self.new
            ≡ tallied self.old (expire self.old.picture now).1) }
        ensures err { OnErr result (self.new ≡ self.old) }
    {
        self.begin()?;
        let many = self.board.expire(now);
        self.steps += 1;
        Ok(many)
    }

    /// Continues a subscription after `cursor`, under a new link. Does not allocate.
    pub fn reconnect(&mut self, sub: u64, cursor: u64) -> Result<u64, DeskRefusal>
        ensures answer { result
            ≡ answer_after self.old.steps (reconnect self.old.picture sub cursor).0 }
        ensures ok { OnOk result (self.new
            ≡ tallied self.old (reconnect self.old.picture sub cursor).1) }
        ensures err { OnErr result (self.new ≡ self.old) }
    {
        self.begin()?;
        let link = self.board.reconnect(sub, cursor)?;
        self.steps += 1;
        Ok(link)
    }

    /// Why `reconnect` would refuse this cursor, or `None` where it would not.
    pub fn refuses_reconnect(&self, sub: u64, cursor: u64) -> Option<DeskRefusal>
        ensures { result ≡ call_refusal
            (answer_after self.now.steps (reconnect self.now.picture sub cursor).0) }
    {
        if self.is_full() {
            return Some(DeskRefusal::JournalFull);
        }
        self.board.refuses_reconnect(sub, cursor)
    }

    /// Closes a subscription.
    pub fn unsubscribe(&mut self, sub: u64, link: u64) -> Result<(), DeskRefusal>
        ensures answer { result
            ≡ answer_after self.old.steps (unsubscribe self.old.picture sub link).0 }
        ensures ok { OnOk result (self.new
            ≡ tallied self.old (unsubscribe self.old.picture sub link).1) }
        ensures err { OnErr result (self.new ≡ self.old) }
    {
        self.begin()?;
        self.board.unsubscribe(Caller { sub, link })?;
        self.steps += 1;
        Ok(())
    }

    /// Why `unsubscribe` would refuse this link, or `None` where it would not.
    pub fn refuses_unsubscribe(&self, sub: u64, link: u64) -> Option<DeskRefusal>
        ensures { result ≡ call_refusal
            (answer_after self.now.steps (unsubscribe self.now.picture sub link).0) }
    {
        if self.is_full() {
            return Some(DeskRefusal::JournalFull);
        }
        self.board.refuses_unsubscribe(Caller { sub, link })
    }

    /// Whether no step but a closing may come.
    pub fn is_full(&self) -> bool
        ensures { result ≡ is_full self.now.steps }
    {
        self.steps >= MOST_STEPS
    }

    // refuses `JournalFull`, before anything else
    fn begin(&self) -> Result<(), DeskRefusal>
        ensures { result ≡ answer_after self.now.steps (Ok tt) }
    {
        if self.is_full() {
            return Err(DeskRefusal::JournalFull);
        }
        Ok(())
    }
}
