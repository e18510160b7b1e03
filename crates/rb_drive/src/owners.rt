//! The owners of a drive: each goes into a thread of its own, and comes back when it has ended.

ghost use Rattle.std.specs.Prelude.{◌≡◌, map, IfSome};
ghost use Rattle.std.specs.Thread.{IsSend, IsSync};
ghost use Rattle.rb_drive.specs.Owners.{beginning_of, publisher_lines};

use crate::accepting::Accepting;
use crate::placing::place;
use crate::publishing::Publishing;
use crate::signs::Signs;
use rb_broker::{Broker, BrokerBrand};
use rb_sequencer::Sequencer;
use rb_subscriber::Stake;
use sqlite::Alter;
use std::alloc::Global;
use std::snapshot::Snapshot;
use std::sync::Wait;
use std::thread;
use std::thread::{Promise, PromisedHandle, Threads};

/// The owners: the publishers in the order of their numbers, the sequencer, with the stake of who
/// closes the sequence, and the subscribers.
#[derive(Drop)]
pub struct Owners<L: BrokerBrand, S: Alter> {
    pub publishing: Vec<Publishing<L>>,
    pub sequencer: Sequencer<L>,
    pub keeper: Stake<L>,
    pub accepting: Vec<Accepting<L, S>>,
}

// a publisher comes back with its number, its tables and its lines
#[derive(Drop)]
struct SameLines<L: BrokerBrand>(Snapshot<Publishing<L>>);

impl<L: BrokerBrand> Promise<Publishing<L>> for SameLines<L> {
    ghost use Rattle.std.specs.Prelude.{◌≡◌};
    ghost use Rattle.rb_drive.specs.Owners.{publisher_lines};

    ghost kept_by = { λ p r. publisher_lines r.publisher r.lines.items
        ≡ publisher_lines p.0.value.publisher p.0.value.lines.items };
}

// a subscription comes back that began as it did
#[derive(Drop)]
struct SameBeginning<L: BrokerBrand, S: Alter>(Snapshot<Accepting<L, S>>);

impl<L: BrokerBrand, S: Alter> Promise<Accepting<L, S>> for SameBeginning<L, S> {
    ghost use Rattle.std.specs.Prelude.{◌≡◌};
    ghost use Rattle.rb_drive.specs.Owners.{beginning_of};

    ghost kept_by = { λ p r. beginning_of r.subscription ≡ beginning_of p.0.value.subscription };
}

/// Starts a thread for each owner, and gives all back once they have ended. Returns `None` if they
/// were stopped, because a thread can't be made or memory ran out.
pub fn run_all<L: BrokerBrand + Send + Sync, S: Alter + Drop + Send, R: Threads + Wait + Sync>(
    rt: &R,
    alloc: Global,
    broker: &Broker<L>,
    signs: &Signs,
    owners: Owners<L, S>,
) -> Option<Owners<L, S>>
    ensures lines { IfSome result (λ back.
        map (λ one. publisher_lines one.publisher one.lines.items) back.publishing.items
        ≡ map (λ one. publisher_lines one.publisher one.lines.items) owners.publishing.items) }
    ensures begun { IfSome result (λ back.
        map (λ one. beginning_of one.subscription) back.accepting.items
        ≡ map (λ one. beginning_of one.subscription) owners.accepting.items) }
{
    let Owners {
        publishing,
        sequencer,
        keeper,
        accepting,
    } = owners;
    let back = thread::scope(
        thread::scope_env(),
        rt,
        |scope| -> Option<Owners<L, S>>
            requires { IsSend L.row × IsSend S.row × IsSync L.row × IsSync R.row }
            ensures lines { IfSome result (λ back.
                map (λ one. publisher_lines one.publisher one.lines.items) back.publishing.items
                ≡ map (λ one. publisher_lines one.publisher one.lines.items) publishing.items) }
            ensures begun { IfSome result (λ back.
                map (λ one. beginning_of one.subscription) back.accepting.items
                ≡ map (λ one. beginning_of one.subscription) accepting.items) }
        {
            let Ok(placer) = scope.spawn(move || placed(
                rt, alloc, broker, signs, sequencer, keeper,
            )) else {
                signs.stop();
                return None;
            };
            let mut publishers = Vec::new(alloc);
            for sender in publishing {
                let promise = SameLines(Snapshot::of(&sender));
                let Ok(handle) = scope.spawn_with(
                    promise,
                    move || published(rt, alloc, broker, signs, sender),
                ) else {
                    signs.stop();
                    return None;
                };
                if publishers.push(handle).is_err() {
                    signs.stop();
                    return None;
                }
            }
            let mut subscribers = Vec::new(alloc);
            for reader in accepting {
                let promise = SameBeginning(Snapshot::of(&reader));
                let Ok(handle) = scope.spawn_with(
                    promise,
                    move || accepted(rt, alloc, broker, signs, reader),
                ) else {
                    signs.stop();
                    return None;
                };
                if subscribers.push(handle).is_err() {
                    signs.stop();
                    return None;
                }
            }
            let (sequencer, keeper) = placer.join(rt);
            let publishing = join_publishers(rt, alloc, publishers)?;
            let accepting = join_subscribers(rt, alloc, subscribers)?;
            Some(Owners {
                publishing,
                sequencer,
                keeper,
                accepting,
            })
        },
    );
    if signs.is_stopped() { None } else { back }
}

// the publishers, in order, once their threads have ended
fn join_publishers<L: BrokerBrand, R: Threads>(
    rt: &R,
    alloc: Global,
    handles: Vec<PromisedHandle<Publishing<L>, SameLines<L>>>,
) -> Option<Vec<Publishing<L>>>
    ensures { IfSome result (λ back.
        map (λ one. publisher_lines one.publisher one.lines.items) back.items
        ≡ map (λ h. publisher_lines h.promise.0.value.publisher h.promise.0.value.lines.items)
        handles.items) }
{
    let mut back = Vec::new(alloc);
    for handle in handles {
        back.push(handle.join(rt)).ok()?;
    }
    Some(back)
}

// the subscribers, in order, once their threads have ended
fn join_subscribers<L: BrokerBrand, S: Alter + Drop, R: Threads>(
    rt: &R,
    alloc: Global,
    handles: Vec<PromisedHandle<Accepting<L, S>, SameBeginning<L, S>>>,
) -> Option<Vec<Accepting<L, S>>>
    ensures { IfSome result (λ back.
        map (λ one. beginning_of one.subscription) back.items
        ≡ map (λ h. beginning_of h.promise.0.value.subscription) handles.items) }
{
    let mut back = Vec::new(alloc);
    for handle in handles {
        back.push(handle.join(rt)).ok()?;
    }
    Some(back)
}

// what a publisher's thread does
fn published<L: BrokerBrand, R: Wait>(
    rt: &R,
    alloc: Global,
    broker: &Broker<L>,
    signs: &Signs,
    publishing: Publishing<L>,
) -> Publishing<L>
    ensures { publisher_lines result.publisher result.lines.items
        ≡ publisher_lines publishing.publisher publishing.lines.items }
{
    let mut publishing = publishing;
    if publishing.publish(rt, alloc, broker, signs).is_err() {
        signs.stop();
    }
    signs.end_sending();
    publishing
}

// what the sequencer's thread does
fn placed<L: BrokerBrand, R: Wait>(
    rt: &R,
    alloc: Global,
    broker: &Broker<L>,
    signs: &Signs,
    sequencer: Sequencer<L>,
    keeper: Stake<L>,
) -> (Sequencer<L>, Stake<L>) {
    let (mut sequencer, mut keeper) = (sequencer, keeper);
    if place(rt, alloc, broker, signs, &mut sequencer, &mut keeper).is_err() {
        signs.stop();
    }
    (sequencer, keeper)
}

// what a subscriber's thread does
fn accepted<L: BrokerBrand, S: Alter, R: Threads + Wait + Sync>(
    rt: &R,
    alloc: Global,
    broker: &Broker<L>,
    signs: &Signs,
    accepting: Accepting<L, S>,
) -> Accepting<L, S>
    ensures { beginning_of result.subscription ≡ beginning_of accepting.subscription }
{
    let mut accepting = accepting;
    accepting.accept(rt, alloc, broker, signs);
    accepting
}
