//! Events of the sequence: place the next item, close.

ghost use Rattle.std.specs.Prelude.{◌≡◌, ◌<◌, None, IfOk, OnErr, OnOk, vec_capacity, vec_len};
ghost use Rattle.std.specs.Option.{option_copied};
ghost use Rattle.rb_core.specs.Outcome.{hand_of, rest_of};
ghost use Rattle.rb_core.specs.Memory.{MayRunOut};
ghost use Rattle.rb_core.specs.State.{how_many_wait};
ghost use Rattle.rb_core.specs.Outcome as outcome;
ghost use Rattle.rb_core.specs.declared.event.Event.TheVariants as event;

use crate::parts::Parts;
use crate::reply::{BrokerRefusal, Reply};
use crate::world::refused;
use rb_sequence::{Entry, Item};
use std::alloc::{AllocError, Global};
use std::collections::VecDeque;

impl Parts {
    /// Places the next item at the end of the sequence, and returns its number, from 1. The next
    /// item is the one in hand or, if there is none, the first of the intake. If the desk refuses
    /// the number, the item stays in hand.
    pub(crate) fn turn(&mut self, alloc: Global) -> Result<Reply, AllocError>
        ensures ok { IfOk result (λ reply. outcome.turned self.old ≡ (reply, self.new)) }
        ensures err { OnErr result (self.new ≡ self.old) }
        ensures memory { OnErr result (MayRunOut self.old event.Turn (outcome.turned self.old).0) }
    {
        let Some(item) = self.next_item() else {
            return Ok(Reply::Idle);
        };
        if let Err(why) = self.desk.prepare() {
            self.pull();
            return refused(BrokerRefusal::Desk(why));
        }
        let form = item.form(alloc)?;
        make_room(&mut self.sequence)?;
        let item = take_next(&mut self.hand, &mut self.intake).unwrap();
        let number = self.desk.place();
        self.sequence
            .push_reserved(Entry::new(alloc, number, item, form));
        Ok(Reply::Placed(number))
    }

    /// How many changesets are sent and not placed: the item in hand and the intake.
    pub(crate) fn left(&self) -> u64
        ensures { result ≡ how_many_wait self.now }
    {
        let in_hand = match &self.hand {
            None => 0,
            Some(_) => 1,
        };
        in_hand + self.intake.len() as u64
    }

    // the item that a turn places next
    fn next_item(&self) -> Option<&Item>
        ensures { option_copied result ≡ hand_of self.now.hand self.now.intake }
    {
        match &self.hand {
            Some(item) => Some(item),
            None => self.intake.front(),
        }
    }

    // fills an empty hand from the intake
    fn pull(&mut self)
        ensures { self.new ≡ outcome.pulled self.old }
    {
        if self.hand.is_none() {
            self.hand = self.intake.pop_front();
        }
    }

    /// Closes the sequence, and returns its last number.
    pub(crate) fn close(&mut self) -> Reply
        ensures { outcome.closed self.old ≡ (result, self.new) }
    {
        Reply::Closed(self.desk.close())
    }
}

/// Makes room for one more entry. The array grows by a quarter, since one that doubles would be
/// half empty, and entries take most of a broker's memory.
pub(crate) fn make_room(sequence: &mut Vec<Entry>) -> Result<(), AllocError>
    ensures entries { sequence.new.items ≡ sequence.old.items }
    ensures room { OnOk result (vec_len sequence.new < vec_capacity sequence.new) }
{
    let len = sequence.len();
    if len < sequence.capacity() {
        return Ok(());
    }
    sequence.reserve_exact(len / 4 + 16)
}

// takes the item that a turn places next, from the hand or from the intake
fn take_next(hand: &mut Option<Item>, intake: &mut VecDeque<Item>) -> Option<Item>
    ensures item { result ≡ hand_of hand.old intake.old.items }
    ensures hand { hand.new ≡ None }
    ensures rest { intake.new.items ≡ rest_of hand.old intake.old.items }
{
    if hand.is_none() {
        return intake.pop_front();
    }
    hand.take()
}
