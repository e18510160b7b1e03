//! `Subs`: what is stored of all subscriptions' deliveries, and which of them comes first.

ghost use Rattle.std.specs.Prelude.{◌≡◌, ◌≤◌, ◌<◌, ◌+◌, ◌++◌, ◌∷◌, [], length, map, slice_get};
ghost use Rattle.std.specs.Prelude.{Some, OnOk, OnErr};
ghost use Rattle.std.specs.List.{AllByRecursion};
ghost use Rattle.std.specs.Option.{option_copied, option_map};
ghost use Rattle.rb_deliveries.specs.declared.sub.Sub.{Sub};
ghost use Rattle.rb_deliveries.specs.Expiry.{all_due, expired_sub, by_number, turns_from};
ghost use Rattle.rb_deliveries.specs.KeptSubs.{with_sub};
ghost use Rattle.rb_deliveries.specs.Queues.{AreRising, AreLimited, HasNumbers, queue_floor};
ghost use Rattle.rb_deliveries.specs.Queues.{most_numbers, settled_queue};
ghost use Rattle.rb_deliveries.specs.Opening.{IsLatestAt, opened_sub};
ghost use Rattle.rb_deliveries.specs.Subs.{AreGiven, Belongs, ComesLastAt, IsDrawn, IsNewestAt};
ghost use Rattle.rb_deliveries.specs.Subs.{new_sub, delivered_sub};
ghost use Rattle.rb_deliveries.specs.Subs.{returned_sub, settled_sub, reconnected_sub, closed_sub};
ghost use Rattle.rb_deliveries.specs.Subs.{first_to_deliver, span_to_deliver};
ghost use Rattle.rb_deliveries.specs.Waiting.{AreWaiting, BelongAll, FirstPast, StandsAgain};

use crate::rank::Rank;
use crate::span::Span;
use crate::sub::Sub;
use crate::tournament::Tournament;
use std::alloc::{AllocError, Global};
use std::marker::Model;

/// The subscriptions by their numbers, from 0, with what finds the one that is delivered to first,
/// and the one whose delivery was taken first. Contracts see the window and the subscriptions.
#[derive(Debug, Drop)]
pub(crate) struct Subs {
    // how many deliveries may be in flight to a subscription
    window: u64,
    subs: Vec<Sub>,
    // follows from `subs`
    waiting: Waiting,
}

impl Model for Subs {
    ghost use Rattle.rb_deliveries.specs.KeptSubs.{KeptSubs};
    ghost use Rattle.rb_deliveries.specs.Waiting.{AreWaiting};

    ghost Value = { KeptSubs };

    ghost view = { λ d. record { window = d.window; subs = d.subs.items } };

    ghost invariant = { λ d. AreWaiting d.window d.subs.items d.waiting.line d.waiting.moments };
}

/// Which subscription's span is delivered first, and whose delivery was taken first: the ranks of
/// all subscriptions, and their earliest moments.
#[derive(Debug, Drop)]
pub(crate) struct Waiting {
    pub(crate) line: Tournament,
    pub(crate) moments: Tournament,
}

impl Waiting {
    /// Gives a subscription that changed its rank and its moment among the others.
    fn stand(&mut self, subs: &[Sub], window: u64, s: usize)
        requires here { s < length subs.now }
        requires line { length self.old.line ≡ length subs.now }
        requires moments { length self.old.moments ≡ length subs.now }
        ensures { (sub : Sub) → slice_get subs.now s ≡ Some sub
            → StandsAgain window s sub self.old.line self.old.moments self.new.line
            self.new.moments }
    {
        self.line.set(s, subs[s].rank(window));
        self.moments.set(s, subs[s].moment());
    }

    /// Adds a place to both, or to none.
    fn push(
        &mut self,
        alloc: Global,
        rank: Option<Rank>,
        moment: Option<Rank>,
    ) -> Result<(), AllocError>
        ensures ok { OnOk result ((self.new.line ≡ self.old.line ++ rank ∷ [])
            × (self.new.moments ≡ self.old.moments ++ moment ∷ [])) }
        ensures err { OnErr result ((self.new.line ≡ self.old.line)
            × (self.new.moments ≡ self.old.moments)) }
    {
        self.line.push(alloc, rank)?;
        if let Err(e) = self.moments.push(alloc, moment) {
            self.line.pop();
            return Err(e);
        }
        Ok(())
    }
}

impl Subs {
    /// No subscriptions. Up to `window` deliveries may be in flight to each. Does not allocate.
    pub(crate) fn new(alloc: Global, window: u64) -> Subs
        ensures { result ≡ record { window = window; subs = [] } }
    {
        Subs {
            window,
            subs: Vec::new(alloc),
            waiting: Waiting {
                line: Tournament::new(alloc),
                moments: Tournament::new(alloc),
            },
        }
    }

    /// How many subscriptions there are.
    pub(crate) fn len(&self) -> u64
        ensures { result ≡ length self.now.subs }
    {
        self.subs.len() as u64
    }

    /// The subscription with this number.
    pub(crate) fn get(&self, s: u64) -> Option<&Sub>
        ensures { option_copied result ≡ slice_get self.now.subs s }
    {
        self.subs.get(s as usize)
    }

    /// Does nothing. Its contract is a law: the spans of each subscription rise.
    pub(crate) fn rise(&self)
        ensures { AllByRecursion (λ sub. AreRising sub.queue) self.now.subs }
    {
        let _window = self.window;
    }

    /// Adds a subscription to the numbers after `start`, under this link. They are cut with this
    /// rank.
    pub(crate) fn add_subscriber(
        &mut self,
        alloc: Global,
        start: u64,
        link: u64,
        rank: Rank,
    ) -> Result<(), AllocError>
        requires { start ≤ most_numbers }
        ensures ok { OnOk result (self.new ≡ record {
          window = self.old.window;
          subs = self.old.subs ++ new_sub start link rank ∷ [];
        }) }
        ensures err { OnErr result (self.new ≡ self.old) }
    {
        self.subs.reserve(1)?;
        let made = Sub::after(start, link, rank);
        let first = made.rank(self.window);
        let moment = made.moment();
        self.waiting.push(alloc, first, moment)?;
        self.subs.push_reserved(made);
        Ok(())
    }
}

impl Subs {
    /// Delivers a span of a subscription: it is in flight as this delivery, whose number is the
    /// greatest, taken at this tick.
    pub(crate) fn deliver(
        &mut self,
        s: u64,
        span: Span,
        number: u64,
        tick: u64,
    ) -> Result<(), AllocError>
        requires there { s < length self.old.subs }
        requires span { HasNumbers span }
        requires last { IsNewestAt self.old.subs s number }
        ensures ok { OnOk result ((sub : Sub) → slice_get self.old.subs s ≡ Some sub
            → self.new ≡ with_sub self.old s (delivered_sub sub span number tick)) }
        ensures err { OnErr result (self.new ≡ self.old) }
        ensures memory { OnErr result ((sub : Sub) → slice_get self.old.subs s ≡ Some sub
            → span.first ≡ sub.queue.next) }
    {
        let s = s as usize;
        let alloc = *self.subs.allocator();
        self.subs[s].deliver(alloc, span, number, tick)?;
        self.waiting.stand(&self.subs, self.window, s);
        Ok(())
    }

    /// Makes a span of a subscription ready again, in line with this rank, which comes after
    /// those of its other spans.
    pub(crate) fn give_back(&mut self, s: u64, first: u64, rank: Rank)
        requires there { s < length self.old.subs }
        requires last { ComesLastAt self.old.subs s rank }
        ensures { (sub : Sub) → slice_get self.old.subs s ≡ Some sub
            → self.new ≡ with_sub self.old s (returned_sub sub first rank) }
    {
        let s = s as usize;
        self.subs[s].give_back(first, rank);
        self.waiting.stand(&self.subs, self.window, s);
    }

    /// Opens a span of a subscription: each of its numbers is a ready span of its own, in its
    /// place. They are in line after all other spans, by rising number: their ranks come after
    /// `latest`, which no rank of that subscription comes after. An `Err` changes nothing.
    pub(crate) fn open_up(&mut self, s: u64, first: u64, latest: Rank) -> Result<(), AllocError>
        requires there { s < length self.old.subs }
        requires latest { IsLatestAt self.old.subs s latest }
        ensures ok { OnOk result ((sub : Sub) → slice_get self.old.subs s ≡ Some sub
            → self.new ≡ with_sub self.old s (opened_sub sub first latest)) }
        ensures err { OnErr result (self.new ≡ self.old) }
    {
        let s = s as usize;
        self.subs[s].open(first, latest)?;
        self.waiting.stand(&self.subs, self.window, s);
        Ok(())
    }

    /// Settles a span of a subscription. Returns the floor, up to which everything is settled now.
    pub(crate) fn settle(&mut self, s: u64, first: u64) -> u64
        requires { s < length self.old.subs }
        ensures kept { (sub : Sub) → slice_get self.old.subs s ≡ Some sub
            → self.new ≡ with_sub self.old s (settled_sub sub first) }
        ensures floor { (sub : Sub) → slice_get self.old.subs s ≡ Some sub
            → result ≡ queue_floor (settled_queue sub.queue first) }
    {
        let s = s as usize;
        let floor = self.subs[s].settle(first);
        self.waiting.stand(&self.subs, self.window, s);
        floor
    }

    /// Continues a subscription after `cursor`, under this link. The numbers after it are cut with
    /// this rank.
    pub(crate) fn reconnect(&mut self, s: u64, cursor: u64, link: u64, rank: Rank)
        requires there { s < length self.old.subs }
        requires cursor { cursor ≤ most_numbers }
        ensures { (sub : Sub) → slice_get self.old.subs s ≡ Some sub
            → self.new ≡ with_sub self.old s (reconnected_sub sub cursor link rank) }
    {
        let s = s as usize;
        self.subs[s].reconnect(cursor, link, rank);
        self.waiting.stand(&self.subs, self.window, s);
    }

    /// Closes a subscription and removes all its spans.
    pub(crate) fn close(&mut self, s: u64)
        requires { s < length self.old.subs }
        ensures { (sub : Sub) → slice_get self.old.subs s ≡ Some sub
            → self.new ≡ with_sub self.old s (closed_sub sub) }
    {
        let s = s as usize;
        self.subs[s].close();
        self.waiting.stand(&self.subs, self.window, s);
    }
}

impl Subs {
    /// The span to deliver before all others, with its subscription's number: the first in line of
    /// those whose subscription is open and has room in its window. `front` is the last number
    /// placed, and a delivery has up to `batch` numbers.
    pub(crate) fn first_to_deliver(&self, batch: u64, front: u64) -> Option<(u64, Span)>
        requires limits { AreLimited batch front }
        requires belong { BelongAll front self.now.subs }
        ensures { result ≡ option_map span_to_deliver
            (first_to_deliver self.now.window batch front 0 self.now.subs) }
    {
        let winner = self.waiting.line.winner()?;
        // the rank of numbers that aren't placed yet
        if front < winner.rank.front {
            return None;
        }
        let held = self.subs[winner.place].queue.first_in_line(batch, front)?;
        Some((winner.place as u64, held.span))
    }

    /// Makes the spans that are due ready again, and returns how many there are. Their ranks come
    /// after `latest`, in the order of their deliveries' numbers, which are below `next`.
    pub(crate) fn expire(&mut self, timeout: u64, clock: u64, latest: Rank, next: u64) -> u64
        requires belong { AllByRecursion (Belongs latest.front latest.turn next) self.old.subs }
        requires few { (latest.front ≤ most_numbers) × (length self.old.subs ≤ 1024) }
        requires turns { latest.turn + next < 18446744073709551616 }
        ensures many { result ≡ all_due timeout clock self.old.subs }
        ensures kept { self.new ≡ record {
          window = self.old.window;
          subs =
              map (expired_sub timeout clock (by_number (turns_from latest.front latest.turn)))
              self.old.subs;
        } }
    {
        expire_due(
            &mut self.subs,
            &mut self.waiting,
            self.window,
            timeout,
            clock,
            latest,
            next,
        )
    }
}

// Makes the spans that are due ready again, and returns how many there are. It goes to the
// subscription whose delivery was taken first, as long as that one is due.
fn expire_due(
    subs: &mut Vec<Sub>,
    waiting: &mut Waiting,
    window: u64,
    timeout: u64,
    clock: u64,
    latest: Rank,
    next: u64,
) -> u64
    requires waiting { AreWaiting window subs.old.items waiting.old.line waiting.old.moments }
    requires given { AllByRecursion (λ sub. AreGiven next latest.turn sub.queue.held)
        subs.old.items }
    requires drawn { AllByRecursion (λ sub. AllByRecursion
        (λ h. IsDrawn latest.front latest.turn h.rank) sub.queue.held) subs.old.items }
    requires few { all_due timeout clock subs.old.items < 18446744073709551616 }
    ensures many { result ≡ all_due timeout clock subs.old.items }
    ensures subs { subs.new.items
        ≡ map (expired_sub timeout clock (by_number (turns_from latest.front latest.turn)))
        subs.old.items }
    ensures waiting { AreWaiting window subs.new.items waiting.new.line waiting.new.moments }
{
    let mut many = 0;
    let mut past = first_past(&waiting.moments, timeout, clock);
    while let Some(s) = past {
        many += subs[s].how_many_due(timeout, clock);
        subs[s].expire(timeout, clock, latest, next);
        waiting.stand(subs, window, s);
        past = first_past(&waiting.moments, timeout, clock);
    }
    many
}

// the place whose moment is the earliest, if that is past
fn first_past(moments: &Tournament, timeout: u64, clock: u64) -> Option<usize>
    ensures { FirstPast timeout clock moments.now result }
{
    let winner = moments.winner()?;
    if timeout <= clock.saturating_sub(winner.rank.front) {
        return Some(winner.place);
    }
    None
}
