//! Withdrawals of entries.

ghost use Rattle.std.specs.Prelude.{◌≡◌, ◌<◌, ◌≤◌, length, slice_get, Some, IfOk, OnErr, OnOk};
ghost use Rattle.std.specs.{Prelude.{IsSome}, Option.{option_copied}, Vec.{vec_capacity}};
ghost use Rattle.rb_core.specs.{Memory.{MayRunOut}, Outcome.{entry_of}};
ghost use Rattle.rb_core.specs.declared.publisher.PublisherState.{PublisherState};
ghost use Rattle.rb_core.specs.State.{IsWorld, is_withdrawn, with_mark};
ghost use Rattle.rb_sequence.specs.{Entry.{Entry}, Items.{AreNumbered}};
ghost use Rattle.rb_core.specs.Outcome as outcome;
ghost use Rattle.rb_core.specs.declared.event.Event.TheVariants as event;

use crate::parts::Parts;
use crate::publisher::Staged;
use crate::reply::{BrokerRefusal, Reply};
use crate::world::refused;
use cs_invert::withdrawal_agreeing;
use cs_model::Origin;
use rb_sequence::Entry;
use std::alloc::{AllocError, Global};

impl Parts {
    /// Stages the withdrawal of an entry that the publisher sent, and marks the entry as withdrawn.
    pub(crate) fn withdraw(
        &mut self,
        alloc: Global,
        publisher: u64,
        number: u64,
    ) -> Result<Reply, AllocError>
        requires { IsWorld self.old }
        ensures ok { IfOk result (λ reply.
            outcome.withdrawn self.old publisher number ≡ (reply, self.new)) }
        ensures err { OnErr result (self.new ≡ self.old) }
        ensures memory { OnErr result (MayRunOut self.old (event.Withdraw publisher number)
            (outcome.withdrawn self.old publisher number).0) }
    {
        let p = publisher as usize;
        if p >= self.publishers.len() {
            return refused(BrokerRefusal::NoPublisher);
        }
        if self.publishers[p].staged.is_some() {
            return refused(BrokerRefusal::Holding);
        }
        let Some(entry) = self.placed(number) else {
            return refused(BrokerRefusal::NotPlaced);
        };
        if entry.publisher() != publisher {
            return refused(BrokerRefusal::NotYours);
        }
        if self.has_mark(number) {
            return refused(BrokerRefusal::AlreadyWithdrawn);
        }
        self.stage_withdrawal(alloc, publisher, number)
    }

    // stages the withdrawal of this entry, and marks it
    fn stage_withdrawal(
        &mut self,
        alloc: Global,
        publisher: u64,
        number: u64,
    ) -> Result<Reply, AllocError>
        requires numbered { AreNumbered (λ entry. entry.number) 1 self.old.sequence }
        requires publisher { publisher < length self.old.publishers }
        requires placed { IsSome (entry_of self.old number) }
        ensures ok { IfOk result (λ reply. (found : PublisherState) (entry : Entry)
            → slice_get self.old.publishers publisher ≡ Some found
            → entry_of self.old number ≡ Some entry
            → outcome.withdrawn_entry self.old publisher found number entry ≡ (reply, self.new)) }
        ensures err { OnErr result (self.new ≡ self.old) }
    {
        let body = withdrawal_agreeing(alloc, self.placed(number).unwrap().body())?;
        set_mark(&mut self.withdrawn, number.saturating_sub(1) as usize)?;
        let found = &mut self.publishers[publisher as usize];
        found.staged = Some(Staged {
            origin: Origin::Withdraws(number),
            body,
        });
        Ok(Reply::Staged)
    }

    // the entry with this number
    fn placed(&self, number: u64) -> Option<&Entry>
        requires { AreNumbered (λ entry. entry.number) 1 self.now.sequence }
        ensures { option_copied result ≡ entry_of self.now number }
    {
        let place = number.checked_sub(1)?;
        self.sequence.get(place as usize)
    }

    // whether the entry with this number is withdrawn
    fn has_mark(&self, number: u64) -> bool
        ensures { result ≡ is_withdrawn self.now number }
    {
        let place = number.saturating_sub(1) as usize;
        place < self.withdrawn.len() && self.withdrawn[place]
    }
}

// Marks the entry at this place. Does not change the marks if memory runs out.
fn set_mark(marks: &mut Vec<bool>, place: usize) -> Result<(), AllocError>
    ensures ok { OnOk result (marks.new.items ≡ with_mark place marks.old.items) }
    ensures err { OnErr result (marks.new.items ≡ marks.old.items) }
{
    if place < marks.len() {
        marks[place] = true;
        return Ok(());
    }
    add_mark(marks, place)
}

// the same for a place without a mark
fn add_mark(marks: &mut Vec<bool>, place: usize) -> Result<(), AllocError>
    requires { length marks.old.items ≤ place }
    ensures ok { OnOk result (marks.new.items ≡ with_mark place marks.old.items) }
    ensures err { OnErr result (marks.new.items ≡ marks.old.items) }
{
    let more = (place - marks.len()).checked_add(1).ok_or(AllocError)?;
    marks.reserve(more)?;
    fill(marks, place);
    marks.push_reserved(true);
    Ok(())
}

// appends marks of entries that aren't withdrawn, up to this place
fn fill(marks: &mut Vec<bool>, place: usize)
    requires few { length marks.old.items ≤ place }
    requires capacity { place < vec_capacity marks.old }
    ensures same { with_mark place marks.new.items ≡ with_mark place marks.old.items }
    ensures len { length marks.new.items ≡ place }
    ensures capacity { vec_capacity marks.new ≡ vec_capacity marks.old }
{
    while marks.len() < place {
        marks.push_reserved(false);
    }
}
