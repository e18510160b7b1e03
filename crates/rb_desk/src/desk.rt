//! `Desk`, the public interface of the crate: a board, and the journal of all its steps.

ghost use Rattle.std.specs.Prelude.{◌≡◌, ◌≤◌, ◌++◌, [], length, Ok, IsOk, IfOk};
ghost use Rattle.rb_desk.specs.Calls.{subscribe, take, take_any, ack, nack, expire, reconnect};
ghost use Rattle.rb_desk.specs.Calls.{unsubscribe, prepare, place, close, nack_opened};
ghost use Rattle.rb_desk.specs.Journaled.{JournalAnswers, IsReplay, answer_after, closing_steps};
ghost use Rattle.rb_desk.specs.Journaled.{error_of, journaled};
ghost use Rattle.rb_desk.specs.Picture.{empty_picture};
ghost use Rattle.rb_desk.specs.declared.step.Step.TheVariants as step;

use crate::config::Config;
use crate::delivery::Delivery;
use crate::journal::Journal;
use crate::laws::calls_keep_limits;
use crate::refusal::{DeskError, DeskRefusal};
use crate::step::Step;
use crate::tally::TalliedBoard;
use std::alloc::{AllocError, Global};
use std::marker::Model;

/// A desk: which numbers wait for which subscriptions, and which are in flight. Contracts see its
/// picture, and the journal: each call that isn't refused is one step of it, other than `prepare`
/// and a second `close`. The picture is always what the journal's steps lead to.
///
/// Every call but `close` refuses `JournalFull` first of all, after 268,435,455 steps. A refused
/// call changes nothing. `DeskError::Memory` comes only from a call that isn't refused, and changes
/// nothing.
#[derive(Debug, Drop)]
pub struct Desk {
    board: TalliedBoard,
    journal: Journal,
}

impl Model for Desk {
    ghost use Rattle.rb_desk.specs.Journaled.{JournalAgrees, JournaledPicture};

    ghost Value = { JournaledPicture };

    ghost view = { λ d. record { picture = d.board.picture; steps = d.journal.steps } };

    ghost invariant = { λ d. JournalAgrees d.board d.journal };
}

impl Desk {
    /// A new desk, before any call. Returns `AllocError` if memory runs out.
    pub fn new(alloc: Global, config: Config) -> Result<Desk, AllocError>
        ensures { IfOk result (λ desk. desk
            ≡ record { picture = empty_picture config; steps = [] }) }
    {
        Ok(Desk {
            board: TalliedBoard::new(alloc, config),
            journal: Journal::new(alloc)?,
        })
    }

    /// How many steps the journal has. They lead to the picture.
    pub fn steps(&self) -> u64
        ensures value { result ≡ length self.now.steps }
        ensures replay { IsReplay self.now }
        ensures few { length self.now.steps ≤ 268435456 }
    {
        self.board.steps()
    }

    /// Its limits.
    pub fn config(&self) -> Config
        ensures { result ≡ self.now.picture.limits }
    {
        self.board.config()
    }

    /// The last number placed, 0 before the first.
    pub fn front(&self) -> u64
        ensures { result ≡ self.now.picture.front }
    {
        self.board.front()
    }

    /// The closing number, if the sequence is closed: the last number placed.
    pub fn closing(&self) -> Option<u64>
        ensures { result ≡ self.now.picture.closing }
    {
        self.board.closing()
    }

    /// How many subscriptions were made, closed ones included.
    pub fn made(&self) -> u64
        ensures { result ≡ length self.now.picture.subscriptions }
    {
        self.board.made()
    }

    /// The number that `place` would place now. Does not change the desk.
    ///
    /// Refuses `Closed` if the sequence is closed, and `SequenceFull` if it has reached its
    /// capacity.
    pub fn prepare(&self) -> Result<u64, DeskRefusal>
        ensures { result ≡ answer_after (length self.now.steps) (prepare self.now.picture) }
    {
        self.board.prepare()
    }

    /// Places the next number and returns it: every open subscription has it from now on. Does not
    /// allocate. Requires that `prepare` would return Ok, as it does right after a `prepare` that
    /// returned Ok.
    pub fn place(&mut self) -> u64
        requires { IsOk (answer_after (length self.old.steps) (prepare self.old.picture)) }
        ensures number { prepare self.old.picture ≡ Ok result }
        ensures new { self.new ≡ journaled self.old step.Place (place self.old.picture) }
    {
        calls_keep_limits();
        let number = self.board.place();
        self.journal.place();
        number
    }

    /// Closes the sequence and returns its last number. A second call returns the same number, and
    /// is no step. All calls but placing go on. Does not allocate, and a full journal has room for
    /// it.
    pub fn close(&mut self) -> u64
        ensures answer { close self.old.picture ≡ (result, self.new.picture) }
        ensures steps { self.new.steps
            ≡ self.old.steps ++ closing_steps self.old.picture.closing }
    {
        calls_keep_limits();
        if let Some(last) = self.board.closing() {
            return last;
        }
        let last = self.board.close();
        self.journal.push(Step::Close);
        last
    }

    /// Adds a subscription to the numbers after `start`. Returns its number, from 0, and its link.
    ///
    /// Refuses `StartAhead` if `start` isn't placed yet, and `TooMany` if 1,024 subscriptions were
    /// made.
    pub fn subscribe(&mut self, alloc: Global, start: u64) -> Result<(u64, u64), DeskError>
        ensures { JournalAnswers result (subscribe self.old.picture start) (step.Subscribe start)
            self.old self.new }
    {
        calls_keep_limits();
        if self.journal.reserve(alloc).is_err() {
            return Err(stopped(self.board.refuses_subscribe(start)));
        }
        let made = self.board.subscribe(alloc, start)?;
        self.journal.push(Step::Subscribe { start });
        Ok(made)
    }

    /// Delivers a subscription's ready span with the lowest numbers; it is in flight from now on.
    /// `cursor` is the last number that the subscriber has accepted. `now` is a tick of the
    /// caller's clock; the desk's clock is the greatest tick so far.
    ///
    /// Refuses `NoSuch`, `StaleLink`, `Closed`, `WindowFull`. If nothing is ready, refuses
    /// `Drained` if the sequence is closed and all of it is settled, else `Empty`.
    pub fn take(
        &mut self,
        alloc: Global,
        sub: u64,
        link: u64,
        cursor: u64,
        now: u64,
    ) -> Result<Delivery, DeskError>
        ensures { JournalAnswers result (take self.old.picture sub link cursor now)
            (step.Take sub link cursor now) self.old self.new }
    {
        calls_keep_limits();
        if self.journal.reserve(alloc).is_err() {
            return Err(stopped(self.board.refuses_take(sub, link, cursor)));
        }
        let delivery = self.board.take(sub, link, cursor, now)?;
        self.journal.push(Step::Take {
            sub,
            link,
            cursor,
            now,
        });
        Ok(delivery)
    }

    /// Delivers the first span in the ready order whose subscription has room in its window. `now`
    /// is as in `take`.
    ///
    /// Refuses `Empty` if there is none.
    pub fn take_any(&mut self, alloc: Global, now: u64) -> Result<Delivery, DeskError>
        ensures { JournalAnswers result (take_any self.old.picture now) (step.TakeAny now)
            self.old self.new }
    {
        calls_keep_limits();
        if self.journal.reserve(alloc).is_err() {
            return Err(stopped(self.board.refuses_take_any()));
        }
        let delivery = self.board.take_any(now)?;
        self.journal.push(Step::TakeAny { now });
        Ok(delivery)
    }

    /// Settles a delivery's numbers. The subscriber must have accepted all of them; `cursor` is the
    /// last number that it accepted. Returns the floor, up to which everything is settled now.
    ///
    /// Refuses `NoSuch`, `StaleLink`, `NotInFlight`, `NotAccepted`.
    pub fn ack(
        &mut self,
        alloc: Global,
        sub: u64,
        link: u64,
        delivery: u64,
        cursor: u64,
    ) -> Result<u64, DeskError>
        ensures { JournalAnswers result (ack self.old.picture sub link delivery cursor)
            (step.Ack sub link delivery cursor) self.old self.new }
    {
        calls_keep_limits();
        if self.journal.reserve(alloc).is_err() {
            return Err(stopped(self.board.refuses_ack(sub, link, delivery, cursor)));
        }
        let floor = self.board.ack(sub, link, delivery, cursor)?;
        self.journal.push(Step::Ack {
            sub,
            link,
            delivery,
            cursor,
        });
        Ok(floor)
    }

    /// Negatively acknowledges a delivery: its numbers are ready again, after all that are ready.
    ///
    /// Refuses `NoSuch`, `StaleLink`, `NotInFlight`.
    pub fn nack(
        &mut self,
        alloc: Global,
        sub: u64,
        link: u64,
        delivery: u64,
    ) -> Result<(), DeskError>
        ensures { JournalAnswers result (nack self.old.picture sub link delivery)
            (step.Nack sub link delivery) self.old self.new }
    {
        calls_keep_limits();
        if self.journal.reserve(alloc).is_err() {
            return Err(stopped(self.board.refuses_nack(sub, link, delivery)));
        }
        self.board.nack(sub, link, delivery)?;
        self.journal.push(Step::Nack {
            sub,
            link,
            delivery,
        });
        Ok(())
    }

    /// Negatively acknowledges a delivery and opens it: each of its numbers is ready again, alone,
    /// after all that are ready, by rising number. So a later delivery has one of them. Returns how
    /// many numbers it has. A `reconnect` cuts them as all others.
    ///
    /// Refuses `NoSuch`, `StaleLink`, `NotInFlight`.
    pub fn nack_opened(
        &mut self,
        alloc: Global,
        sub: u64,
        link: u64,
        delivery: u64,
    ) -> Result<u64, DeskError>
        ensures { JournalAnswers result (nack_opened self.old.picture sub link delivery)
            (step.NackOpened sub link delivery) self.old self.new }
    {
        calls_keep_limits();
        if self.journal.reserve(alloc).is_err() {
            return Err(stopped(self.board.refuses_nack_opened(sub, link, delivery)));
        }
        let count = self.board.nack_opened(sub, link, delivery)?;
        self.journal.push(Step::NackOpened {
            sub,
            link,
            delivery,
        });
        Ok(count)
    }

    /// Expires every delivery that has been out for `timeout` ticks or longer, in the order they
    /// were taken: its numbers are ready again. `now` is a tick of the caller's clock; the desk's
    /// clock is the greatest tick so far. Returns how many deliveries expired.
    pub fn expire(&mut self, alloc: Global, now: u64) -> Result<u64, DeskError>
        ensures { JournalAnswers result
            (Ok (expire self.old.picture now).0, (expire self.old.picture now).1)
            (step.Expire now) self.old self.new }
    {
        calls_keep_limits();
        if self.journal.reserve(alloc).is_err() {
            return Err(if self.board.is_full() {
                DeskRefusal::JournalFull.into()
            } else {
                DeskError::Memory
            });
        }
        let many = self.board.expire(now)?;
        self.journal.push(Step::Expire { now });
        Ok(many)
    }

    /// Continues a subscription after `cursor`, the last number that it has accepted. The numbers
    /// that were in flight or waited are cut anew. Returns its new link; deliveries under the old
    /// one are stale.
    ///
    /// Refuses `NoSuch`, `Closed`, and `BadCursor` if the cursor isn't between the floor and the
    /// last number delivered.
    pub fn reconnect(&mut self, alloc: Global, sub: u64, cursor: u64) -> Result<u64, DeskError>
        ensures { JournalAnswers result (reconnect self.old.picture sub cursor)
            (step.Reconnect sub cursor) self.old self.new }
    {
        calls_keep_limits();
        if self.journal.reserve(alloc).is_err() {
            return Err(stopped(self.board.refuses_reconnect(sub, cursor)));
        }
        let link = self.board.reconnect(sub, cursor)?;
        self.journal.push(Step::Reconnect { sub, cursor });
        Ok(link)
    }

    /// Closes a subscription: removes its spans, and no call delivers to it again.
    ///
    /// Refuses `NoSuch`, `StaleLink`, `Closed`.
    pub fn unsubscribe(&mut self, alloc: Global, sub: u64, link: u64) -> Result<(), DeskError>
        ensures { JournalAnswers result (unsubscribe self.old.picture sub link)
            (step.Unsubscribe sub link) self.old self.new }
    {
        calls_keep_limits();
        if self.journal.reserve(alloc).is_err() {
            return Err(stopped(self.board.refuses_unsubscribe(sub, link)));
        }
        self.board.unsubscribe(sub, link)?;
        self.journal.push(Step::Unsubscribe { sub, link });
        Ok(())
    }
}

// what stops a call that has no room for its step: its refusal, or else out of memory
fn stopped(refusal: Option<DeskRefusal>) -> DeskError
    ensures { result ≡ error_of refusal }
{
    match refusal {
        Some(why) => DeskError::Refused(why),
        None => DeskError::Memory,
    }
}
