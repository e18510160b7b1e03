//! Runs a broker with its owners in threads, until all is drained.

ghost use Rattle.std.specs.Prelude.{◌≡◌, ◌+◌, ℕ, List, [], length, map, replicate, IfErr};
ghost use Rattle.std.specs.Prelude.{IfOk, IsTrue, Err, IfSome, IsSome};
ghost use Rattle.std.specs.{Arc.{arc_value}, List.{AllByRecursion, flat_map}};
ghost use Rattle.std.specs.FinMap as map;
ghost use Rattle.cs_model.specs.declared.shape.Shape.{Shape};
ghost use Rattle.replica_store.specs.Durable.{KeepsRows};
ghost use Rattle.sqlite.specs.Held.{state};
ghost use Rattle.rb_core.specs.State.{empty_tables};
ghost use Rattle.rb_drive.specs.declared.input.Given.{Given as Line};
ghost use Rattle.rb_drive.specs.Outcome.{HasMetAndEnded, IsDriven, IsEndAt, reported};
ghost use Rattle.rb_drive.specs.Owners.{beginning_of, publisher_lines, numbered_lines};
ghost use Rattle.rb_drive.specs.Published.{AreByNumber, unsent_lines};
ghost use Rattle.rb_drive.specs.{Ending.{HasShownConflict}, Run.{IsOfThreads}};
ghost use Rattle.rb_drive.specs.declared.fault.DriveError.TheVariants.{Store};

use crate::accepting::EndedSubscriber;
use crate::beginning::all_owners;
use crate::closing::{Closable, all_closed};
use crate::ending::SubscriberEnd;
use crate::fault::DriveError;
use crate::input::Given;
use crate::owners::{Owners, run_all};
use crate::progress::Progress;
use crate::publishing::{FaultyLine, Publishing};
use crate::signs::Signs;
use cs_model::Schema;
use rb_broker::{Broker, BrokerBrand, Opened, Publisher, PublisherMaker, Started};
use rb_close::laws::finished_keeps_headline;
use rb_close::{FinishError, Finished, finish, meet_sequencer};
use rb_sequencer::Sequencer;
use replica_store::Replica;
use sqlite::Alter;
use std::alloc::Global;
use std::sync::{Arc, Wait};
use std::thread::Threads;

/// What a drive came to, when all its threads have ended.
#[derive(Drop)]
pub struct Outcome<L: BrokerBrand> {
    /// How many changesets were placed, how many were sent and not placed, and how many lines were
    /// neither sent nor found faulty.
    pub placed: u64,
    pub left: u64,
    pub unsent: u64,
    /// The faulty lines, by rising number.
    pub faulty: Vec<FaultyLine>,
    pub accepting: Vec<EndedSubscriber<L>>,
}

/// What a broker is driven with: its tables, the lines of each publisher, how many subscribers it
/// has, and a new replica for the first of them, if it has one.
#[derive(Drop)]
pub struct Plan<S: Alter> {
    pub schema: Arc<Schema>,
    pub lines: Vec<Vec<Given>>,
    pub subscribers: u64,
    pub replica: Option<Replica<S>>,
}

/// Starts the broker, runs its publishers, its sequencer and its subscribers in threads of their
/// own until all have ended, and finishes it. Closes the replica.
///
/// Returns `Stopped` if the threads were stopped, `Store` if there is a replica and it failed, and
/// `Memory` if memory ran out before or after.
pub fn drive<L: BrokerBrand + Send + Sync, S: Closable + Drop + Send, R: Threads + Wait + Sync>(
    rt: &R,
    alloc: Global,
    opened: Opened,
    plan: Plan<S>,
    progress: &Progress,
) -> Result<Outcome<L>, DriveError>
    requires sequence { (opened.limits ≡ L.limits) × (opened.cells ≡ L.cells) }
    requires queue { opened.queue ≡ L.queue }
    requires ledger { (opened.ledger ≡ L.name) × (L.parts ≡ 1024) × (L.all ≡ 1024) }
    requires history { opened.history ≡ L.history }
    requires schema { arc_value plan.schema ≡ opened.schema }
    requires replica { IfSome plan.replica (λ r. KeepsRows (state S.Store r.conn) map.empty 0) }
    ensures ok { IfOk result (λ o. IsDriven L.cells (arc_value plan.schema)
        (map (λ v. v.items) plan.lines.items) (reported o)
        × (length o.accepting.items ≡ plan.subscribers)) }
    ensures err { IfErr result IsOfThreads }
    ensures stored { result ≡ Err Store → IsSome plan.replica }
{
    let is_durable = plan.replica.is_some();
    match drive_owners::<L, S, R>(rt, alloc, opened, plan, progress) {
        Ok(outcome) => Ok(outcome),
        Err(why) => Err(fault_of(why, is_durable)),
    }
}

// the fault of a drive with a replica, or of one without: that has no store that could fail
fn fault_of(why: DriveError, is_durable: bool) -> DriveError
    requires { IsOfThreads why }
    ensures threads { IsOfThreads result }
    ensures stored { result ≡ Store → IsTrue is_durable }
    ensures same { IsTrue is_durable → result ≡ why }
{
    if is_durable {
        return why;
    }
    match why {
        DriveError::Store => DriveError::Stopped,
        other => other,
    }
}

// `drive`, with the fault that the threads report
fn drive_owners<L: BrokerBrand + Send + Sync, S: Closable + Drop + Send, R: Threads + Wait + Sync>(
    rt: &R,
    alloc: Global,
    opened: Opened,
    plan: Plan<S>,
    progress: &Progress,
) -> Result<Outcome<L>, DriveError>
    requires sequence { (opened.limits ≡ L.limits) × (opened.cells ≡ L.cells) }
    requires queue { opened.queue ≡ L.queue }
    requires ledger { (opened.ledger ≡ L.name) × (L.parts ≡ 1024) × (L.all ≡ 1024) }
    requires history { opened.history ≡ L.history }
    requires schema { arc_value plan.schema ≡ opened.schema }
    requires replica { IfSome plan.replica (λ r. KeepsRows (state S.Store r.conn) map.empty 0) }
    ensures ok { IfOk result (λ o. IsDriven L.cells (arc_value plan.schema)
        (map (λ v. v.items) plan.lines.items) (reported o)
        × (length o.accepting.items ≡ plan.subscribers)) }
    ensures err { IfErr result IsOfThreads }
{
    let Started {
        broker,
        sequencer,
        publishers: mut maker,
        auditor: _auditor,
        placer,
        keeper,
    } = Broker::<L>::start(opened);
    let sequencer = Sequencer::new(alloc, sequencer, placer);
    let signs = Signs::new(plan.lines.len() as u64, progress);
    let Ok(owners) = all_owners(rt, alloc, &broker, &mut maker, sequencer, keeper, plan) else {
        return Err(DriveError::Memory);
    };
    match run_all(rt, alloc, &broker, &signs, owners) {
        Some(back) => end(rt, alloc, broker, maker, back),
        None => Err(why_stopped(&signs)),
    }
}

// why the threads were stopped
fn why_stopped(signs: &Signs) -> DriveError
    ensures { IsOfThreads result }
{
    if signs.has_store_failed() {
        DriveError::Store
    } else {
        DriveError::Stopped
    }
}

// closes the replica and finishes the broker, when all owners are back
fn end<L: BrokerBrand, S: Closable + Drop, R: Wait>(
    rt: &R,
    alloc: Global,
    broker: Broker<L>,
    maker: PublisherMaker<L>,
    back: Owners<L, S>,
) -> Result<Outcome<L>, DriveError>
    ensures ok { IfOk result (λ o. (schema : List Shape) (lines : List (List Line)) (count : ℕ)
        → map (λ one. publisher_lines one.publisher one.lines.items) back.publishing.items
        ≡ numbered_lines 0 schema lines
        → map (λ one. beginning_of one.subscription) back.accepting.items
        ≡ replicate count (0, empty_tables schema)
        → IsDriven L.cells schema lines (reported o) × (length o.accepting.items ≡ count)) }
    ensures err { IfErr result IsOfThreads }
{
    finished_keeps_headline();
    let Owners {
        publishing,
        sequencer,
        accepting,
        ..
    } = back;
    let accepting = all_closed(alloc, accepting)?;
    if !all_ended(&sequencer, &accepting) {
        return Err(DriveError::Stopped);
    }
    let (publishers, unsent, faulty) = taken_apart(alloc, publishing)?;
    // for what their clauses say
    let _placed = sequencer.placed();
    let _hand = sequencer.hand();
    let closing = broker.sequence().closing();
    match finish(
        rt,
        alloc,
        closing.as_ref(),
        publishers,
        sequencer,
        maker,
        broker,
    ) {
        Ok(Finished { placed, left, .. }) => Ok(Outcome {
            placed,
            left: left.len() as u64,
            unsent,
            faulty,
            accepting,
        }),
        Err(unfinished) => Err(why_unfinished(unfinished.why)),
    }
}

// why the broker isn't finished
fn why_unfinished(why: FinishError) -> DriveError
    ensures { IsOfThreads result }
{
    match why {
        FinishError::Memory => DriveError::Memory,
        FinishError::NotClosed | FinishError::Missing => DriveError::Stopped,
    }
}

// whether each subscriber has met the sequencer up to its cursor, and all that are drained have
// accepted everything
fn all_ended<L: BrokerBrand>(sequencer: &Sequencer<L>, accepting: &[EndedSubscriber<L>]) -> bool
    requires { AllByRecursion
        (λ one. HasShownConflict L.cells one.subscription one.ending) accepting.now }
    ensures { IsTrue result → AllByRecursion
        (λ one. HasMetAndEnded L.cells sequencer.now one.subscription one.ending) accepting.now }
{
    for one in accepting {
        if !has_ended(sequencer, one) {
            return false;
        }
    }
    true
}

fn has_ended<L: BrokerBrand>(sequencer: &Sequencer<L>, one: &EndedSubscriber<L>) -> bool
    requires { HasShownConflict L.cells one.now.subscription one.now.ending }
    ensures { IsTrue result
        → HasMetAndEnded L.cells sequencer.now one.now.subscription one.now.ending }
{
    let subscription = &one.subscription;
    let cursor = subscription.cursor();
    // for its clause
    let _tables = subscription.tables();
    let (_start, last) = meet_sequencer(sequencer, subscription);
    last == cursor && is_at_end(one, sequencer.placed())
}

// whether a subscriber may have ended so, where so many entries were placed
fn is_at_end<L: BrokerBrand>(one: &EndedSubscriber<L>, placed: u64) -> bool
    requires { HasShownConflict L.cells one.now.subscription one.now.ending }
    ensures { IsTrue result → IsEndAt L.cells placed one.now.subscription one.now.ending }
{
    match one.ending {
        SubscriberEnd::Drained => one.subscription.cursor() == placed,
        SubscriberEnd::Conflict(..) => true,
        SubscriberEnd::Stopped => false,
    }
}

// the publishers, how many of their lines were neither sent nor found faulty, and the faulty ones
fn taken_apart<L: BrokerBrand>(
    alloc: Global,
    publishing: Vec<Publishing<L>>,
) -> Result<(Vec<Publisher<L>>, u64, Vec<FaultyLine>), DriveError>
    ensures publishers { IfOk result (λ r. r.0.items
        ≡ map (λ one. one.publisher) publishing.items) }
    ensures unsent { IfOk result (λ r. r.1 ≡ unsent_lines
        (map (λ one. one.lines.items) publishing.items)
        (map (λ one. one.done) publishing.items)) }
    ensures faulty { IfOk result (λ r. AreByNumber
        (flat_map (λ one. one.faulty.items) publishing.items) r.2.items) }
    ensures err { IfErr result IsOfThreads }
{
    let mut publishers = Vec::with_capacity(alloc, publishing.len())?;
    let mut unsent: u64 = 0;
    let mut faulty = Vec::new(alloc);
    for one in publishing {
        let Publishing {
            publisher,
            lines,
            done,
            faulty: some,
        } = one;
        publishers.push(publisher)?;
        // 2^64 lines are in no memory
        let rest = lines.len().saturating_sub(done) as u64;
        unsent = unsent.checked_add(rest).ok_or(DriveError::Stopped)?;
        faulty.extend_from_slice(&some)?;
    }
    faulty.sort_unstable_by_key(|one| one.line);
    Ok((publishers, unsent, faulty))
}
