//! `finish`: the end of a broker, when its threads have ended.

ghost use Rattle.std.specs.Prelude.{◌≡◌, ◌+◌, ◌<◌, ◌≤◌, ℕ, [], length, IfErr, IfNone, IfOk};
ghost use Rattle.std.specs.Prelude.{IfSome, OnOk, Some};
ghost use Rattle.std.specs.{Bool.{Decides}, Option.{option_copied}, Prelude.{vec_capacity}};
ghost use Rattle.rb_close.specs.Finishing.{AreAllPresent, Finishes, IsPresent, JoinsPasses};
ghost use Rattle.rb_close.specs.Finishing.{PullsInOrder, RefusesFinish, all_sent, closing_shown};
ghost use Rattle.rb_sequence.specs.Cells.{IsLastToken};
ghost use Rattle.rb_sequencer.specs.Turns.{in_hand};

use crate::refusal::{FinishError, RefusedFinish};
use rb_broker::{Broker, BrokerBrand, Publisher, PublisherMaker};
use rb_intake::{Intake, LastPass, SequencerPass};
use rb_sequence::{Item, Sequence, ToldLast};
use rb_sequencer::Sequencer;
use std::alloc::Global;
use std::sync::Wait;

/// A broker that is finished.
#[derive(Drop)]
pub struct Finished {
    /// How many items were placed.
    pub placed: u64,
    /// What was sent and isn't placed: the item in hand, then those that waited in the intake, in
    /// their order.
    pub left: Vec<Item>,
    /// The pass that pulled them. It shows all items in the order in which they left the intake.
    pub pass: LastPass,
    /// The sequence.
    pub sequence: Sequence,
    /// Shows that the sequence is closed after the last placed number.
    pub closing: ToldLast,
}

/// Finishes a broker whose sequence is closed. Takes all its publishers, in any order, their maker
/// and its sequencer. `closing` is what the closing cell shows, as `Sequence::closing` returns it.
/// What was placed, and then what is left, is all that left the intake, in its order. What each
/// publisher sent is then what was placed of it, then what is left of it; each item is there once,
/// and nothing else is.
///
/// Refuses, in this order, `NotClosed` if `closing` isn't the number of items placed, `Missing` if
/// a publisher isn't given, and `Memory`. All that was given comes back.
pub fn finish<L: BrokerBrand, R: Wait>(
    rt: &R,
    alloc: Global,
    closing: Option<&ToldLast>,
    publishers: Vec<Publisher<L>>,
    sequencer: Sequencer<L>,
    maker: PublisherMaker<L>,
    broker: Broker<L>,
) -> Result<Finished, RefusedFinish<L>>
    requires { IfSome (option_copied closing) (IsLastToken L.cells) }
    ensures ok { IfOk result (λ f.
        Finishes L.cells publishers.items sequencer f.placed f.left.items f.closing) }
    ensures order { IfOk result (λ f.
        PullsInOrder L.queue sequencer.placed f.left.items f.pass) }
    ensures sequence { IfOk result (λ f. f.sequence ≡ L.cells) }
    ensures closing { IfOk result (λ f. option_copied closing.entry ≡ Some f.closing) }
    ensures all { OnOk result (AreAllPresent maker publishers.items) }
    ensures why { IfErr result (λ u. RefusesFinish maker (length sequencer.placed)
        (closing_shown (option_copied closing.entry)) publishers.items u.why) }
    ensures back { IfErr result (λ u. (u.publishers.items ≡ publishers.items)
        × (u.sequencer ≡ sequencer) × (u.maker ≡ maker)) }
{
    match prepare(alloc, closing, &publishers, &sequencer, &maker) {
        Ok((left, closing)) => Ok(end(rt, publishers, sequencer, maker, broker, left, closing)),
        Err(why) => Err(RefusedFinish {
            why,
            publishers,
            sequencer,
            maker,
            broker,
        }),
    }
}

// Whether the broker can be finished: room for what is left, and the token of the closing cell.
fn prepare<L: BrokerBrand>(
    alloc: Global,
    closing: Option<&ToldLast>,
    publishers: &[Publisher<L>],
    sequencer: &Sequencer<L>,
    maker: &PublisherMaker<L>,
) -> Result<(Vec<Item>, ToldLast), FinishError>
    ensures given { IfOk result (λ r. AreAllPresent maker.now publishers.now) }
    ensures empty { IfOk result (λ r. r.0.items ≡ []) }
    ensures hand { IfOk result (λ r. 1 ≤ vec_capacity r.0) }
    ensures room { IfOk result (λ r.
        all_sent publishers.now ≤ length sequencer.now.placed + vec_capacity r.0) }
    ensures closing { IfOk result (λ r. (option_copied closing.entry ≡ Some r.1)
        × (r.1.last ≡ length sequencer.now.placed)) }
    ensures err { IfErr result (RefusesFinish maker.now (length sequencer.now.placed)
        (closing_shown (option_copied closing.entry)) publishers.now) }
{
    let placed = sequencer.placed();
    let Some(closing) = closing_at(closing, placed) else {
        return Err(FinishError::NotClosed);
    };
    match missing(publishers, maker.made()) {
        Some(_) => Err(FinishError::Missing),
        None => match room_for(alloc, publishers, placed) {
            Some(left) => Ok((left, closing)),
            None => Err(FinishError::Memory),
        },
    }
}

// the closing cell's token, if it shows this number
fn closing_at(closing: Option<&ToldLast>, placed: u64) -> Option<ToldLast>
    ensures some { IfSome result (λ told. (option_copied closing.entry ≡ Some told)
        × (told.last ≡ placed)) }
    ensures none { IfNone result (closing_shown (option_copied closing.entry) ≡ Some placed → ⊥) }
{
    let told = closing?;
    if told.last() == placed {
        Some(told.again())
    } else {
        None
    }
}

// a number below `made` whose publisher isn't given
fn missing<L: BrokerBrand>(publishers: &[Publisher<L>], made: u64) -> Option<u64>
    ensures some { IfSome result (λ n. (n < made) × (IsPresent n publishers.now → ⊥)) }
    ensures none { IfNone result (AreAllPresent made publishers.now) }
{
    for number in 0..made {
        if !is_given(publishers, number) {
            return Some(number);
        }
    }
    None
}

fn is_given<L: BrokerBrand>(publishers: &[Publisher<L>], number: u64) -> bool
    ensures { Decides result (IsPresent number publishers.now) }
{
    for publisher in publishers {
        if publisher.number() == number {
            return true;
        }
    }
    false
}

// Room for the item in hand and for what waits: what was sent, less what is placed. Returns `None`
// if memory runs out.
fn room_for<L: BrokerBrand>(
    alloc: Global,
    publishers: &[Publisher<L>],
    placed: u64,
) -> Option<Vec<Item>>
    ensures empty { IfSome result (λ left. left.items ≡ []) }
    ensures hand { IfSome result (λ left. 1 ≤ vec_capacity left) }
    ensures room { IfSome result (λ left. all_sent publishers.now ≤ placed + vec_capacity left) }
{
    let sent = sent_by(publishers)?;
    let waiting = sent.saturating_sub(placed).max(1);
    Vec::with_capacity(alloc, waiting as usize).ok()
}

// how many items were sent, if 64 bits hold it
fn sent_by<L: BrokerBrand>(publishers: &[Publisher<L>]) -> Option<u64>
    ensures { IfSome result (λ n. n ≡ all_sent publishers.now) }
{
    let mut sent: u64 = 0;
    for publisher in publishers {
        sent = sent.checked_add(publisher.sent())?;
    }
    Some(sent)
}

// Takes all apart. Nothing is refused any more.
fn end<L: BrokerBrand, R: Wait>(
    rt: &R,
    publishers: Vec<Publisher<L>>,
    sequencer: Sequencer<L>,
    maker: PublisherMaker<L>,
    broker: Broker<L>,
    left: Vec<Item>,
    closing: ToldLast,
) -> Finished
    requires given { AreAllPresent maker publishers.items }
    requires empty { left.items ≡ [] }
    requires hand { 1 ≤ vec_capacity left }
    requires room { all_sent publishers.items ≤ length sequencer.placed + vec_capacity left }
    requires closing { IsLastToken L.cells closing × (closing.last ≡ length sequencer.placed) }
    ensures finishes { Finishes L.cells publishers.items sequencer result.placed
        result.left.items result.closing }
    ensures order { PullsInOrder L.queue sequencer.placed result.left.items result.pass }
    ensures sequence { result.sequence ≡ L.cells }
    ensures closing { result.closing ≡ closing }
{
    let placed = sequencer.placed();
    let (sequence, intake) = broker.into_parts();
    let (mut pass, hand, _told) = sequencer.into_parts();
    join_all(&intake, &mut pass, publishers);
    let last = intake.end(pass, maker.into_pass());
    let mut left = with_hand(left, hand);
    let pass = intake.drain(rt, last, &mut left);
    Finished {
        placed,
        left,
        pass,
        sequence,
        closing,
    }
}

// the item in hand stands before what waits
fn with_hand(left: Vec<Item>, hand: Option<Item>) -> Vec<Item>
    requires empty { left.items ≡ [] }
    requires hand { 1 ≤ vec_capacity left }
    ensures items { result.items ≡ in_hand hand }
    ensures capacity { vec_capacity result ≡ vec_capacity left }
{
    let mut left = left;
    if let Some(item) = hand {
        left.push_reserved(item);
    }
    left
}

// joins the passes of all publishers
fn join_all<L: BrokerBrand>(
    intake: &Intake,
    pass: &mut SequencerPass,
    publishers: Vec<Publisher<L>>,
)
    requires queue { intake.now.queue ≡ L.queue }
    requires pass { pass.old.queue ≡ L.queue }
    ensures { JoinsPasses publishers.items pass.old pass.new }
{
    for publisher in publishers {
        intake.join(pass, publisher.into_pass());
    }
}
