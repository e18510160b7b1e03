//! A drive from a reader to a writer.

ghost use Rattle.std.specs.Prelude.{◌≡◌, ◌<◌, is_some, map, Err, IfErr, IfOk, IfSome, IsOk};
ghost use Rattle.std.specs.Prelude.{IsSome, OnOk};
ghost use Rattle.std.specs.Arc.{arc_value};
ghost use Rattle.std.specs.FinMap as map;
ghost use Rattle.replica_store.specs.{Durable.{KeepsRows}, Layout.{empty_schema}};
ghost use Rattle.sqlite.specs.Held.{state};
ghost use Rattle.rb_drive.specs.Run.{DriveEnds, IsOfThreads, IsStatus, ReportEnds};
ghost use Rattle.rb_drive.specs.declared.fault.DriveError.TheVariants.{Store, Subscribers};

use crate::accepting::EndedSubscriber;
use crate::closing::Closable;
use crate::drive::{Plan, drive};
use crate::ending::SubscriberEnd;
use crate::fault::DriveError;
use crate::input::{Input, read_input};
use crate::lines::by_publisher;
use crate::progress::Progress;
use crate::report::write_report;
use cs_model::{CopyIn, Schema};
use rb_broker::{BrokerBrand, Opened};
use rb_desk::Config;
use rb_subscriber::MOST_SUBSCRIPTIONS;
use replica_store::{Replica, ReplicaError};
use sqlite::{Alter, Connection, Error, ErrorCode, MemStore};
use std::alloc::Global;
use std::io::{Read, Write};
use std::marker::Brand;
use std::sync::{Arc, Wait};
use std::thread::Threads;

/// Reads tables and changesets from `reader`, drives a broker with them, with so many subscribers
/// and under these limits, and writes what it came to to `writer`, which should be buffered. Each
/// publisher, the sequencer and each subscriber has a thread of its own. `progress` counts how far
/// it is, for a thread that shows it meanwhile.
///
/// Returns 0, or 3 if a subscriber ended by a conflict.
///
/// Returns `Subscribers` first of all, for more than 1,024 subscribers: nothing is read then.
/// Returns `Line` with the first line that is none of an input, `Read` if the reader fails,
/// `Stopped` if the threads were stopped, and `Memory`. Nothing is written then. Returns `Write` if the writer
/// fails, or if memory runs out while the report is written. A prefix of it may be written then.
pub fn run_drive<I: Read, W: Write, R: Threads + Wait + Sync>(
    rt: &R,
    alloc: Global,
    reader: &mut I,
    writer: &mut W,
    config: Config,
    subscribers: u64,
    progress: &Progress,
) -> Result<u8, DriveError>
    ensures ends { DriveEnds config subscribers result (I.remaining reader.old)
        (I.remaining reader.new) (W.contents writer.old) (W.contents writer.new) }
    ensures many { 1024 < subscribers → result ≡ Err Subscribers }
    ensures unstored { result ≡ Err Store → ⊥ }
{
    run_over::<MemStore, I, W, R>(
        rt,
        alloc,
        reader,
        writer,
        config,
        subscribers,
        None,
        progress,
    )
}

/// Does as `run_drive`, and the first subscriber keeps its rows and its cursor in a database:
/// each delivery that it accepts is there before it is acknowledged. `file` is what opening the
/// database gave. It must be empty, and is closed at the end.
///
/// Returns what `run_drive` does, and `Store` if the database can't be opened, has anything in it,
/// or fails. Nothing is written to `writer` then. An input with a bad line leaves the database as
/// it was.
pub fn run_durable_drive<S, I, W, R>(
    rt: &R,
    alloc: Global,
    reader: &mut I,
    writer: &mut W,
    config: Config,
    subscribers: u64,
    file: Result<Connection<S>, Error>,
    progress: &Progress,
) -> Result<u8, DriveError>
where
    S: Closable + Drop + Send,
    I: Read,
    W: Write,
    R: Threads + Wait + Sync,
    ensures ends { DriveEnds config subscribers result (I.remaining reader.old)
        (I.remaining reader.new) (W.contents writer.old) (W.contents writer.new) }
    ensures many { 1024 < subscribers → result ≡ Err Subscribers }
    ensures opened { OnOk result (IsOk file) }
    ensures blank { OnOk result (IfOk file (λ conn. conn.schema ≡ empty_schema)) }
{
    run_over(
        rt,
        alloc,
        reader,
        writer,
        config,
        subscribers,
        Some(file),
        progress,
    )
}

// a drive whose first subscriber keeps its rows in this database, if there is one
fn run_over<S: Closable + Drop + Send, I: Read, W: Write, R: Threads + Wait + Sync>(
    rt: &R,
    alloc: Global,
    reader: &mut I,
    writer: &mut W,
    config: Config,
    subscribers: u64,
    file: Option<Result<Connection<S>, Error>>,
    progress: &Progress,
) -> Result<u8, DriveError>
    ensures ends { DriveEnds config subscribers result (I.remaining reader.old)
        (I.remaining reader.new) (W.contents writer.old) (W.contents writer.new) }
    ensures many { 1024 < subscribers → result ≡ Err Subscribers }
    ensures opened { OnOk result (IfSome file IsOk) }
    ensures blank { OnOk result (IfSome file (λ f.
        IfOk f (λ conn. conn.schema ≡ empty_schema))) }
    ensures stored { result ≡ Err Store → IsSome file }
{
    if subscribers > MOST_SUBSCRIPTIONS {
        return Err(DriveError::Subscribers);
    }
    let Input { schema, givens } = read_input(alloc, reader, progress)?;
    let shared = Arc::new(alloc, schema.copy_in(alloc)?)?;
    let lines = by_publisher(alloc, givens)?;
    let opened = Opened::new(alloc, config, schema)?;
    let replica = new_replica(file, Arc::try_clone(&shared)?)?;
    let plan = Plan {
        schema: shared,
        lines,
        subscribers,
        replica,
    };
    report::<Brand, S, W, R>(rt, alloc, writer, opened, plan, progress)
}

// a new replica in this database, if there is one
fn new_replica<S: Alter + Drop>(
    file: Option<Result<Connection<S>, Error>>,
    schema: Arc<Schema>,
) -> Result<Option<Replica<S>>, DriveError>
    ensures keeps { IfOk result (λ replica.
        IfSome replica (λ r. KeepsRows (state S.Store r.conn) map.empty 0)) }
    ensures given { IfOk result (λ replica. is_some replica ≡ is_some file) }
    ensures opened { OnOk result (IfSome file IsOk) }
    ensures blank { OnOk result (IfSome file (λ f.
        IfOk f (λ conn. conn.schema ≡ empty_schema))) }
    ensures err { IfErr result IsOfThreads }
    ensures stored { result ≡ Err Store → IsSome file }
{
    match file {
        None => Ok(None),
        Some(Err(Error::SqliteFailure(ErrorCode::OutOfMemory))) => Err(DriveError::Memory),
        Some(Err(_)) => Err(DriveError::Store),
        Some(Ok(conn)) => match Replica::create(conn, schema) {
            Ok(replica) => Ok(Some(replica)),
            Err(refused) => match refused.why {
                ReplicaError::Memory => Err(DriveError::Memory),
                ReplicaError::Store | ReplicaError::Unusable => Err(DriveError::Store),
            },
        },
    }
}

// drives the broker, and writes what it came to
fn report<L, S, W, R>(
    rt: &R,
    alloc: Global,
    writer: &mut W,
    opened: Opened,
    plan: Plan<S>,
    progress: &Progress,
) -> Result<u8, DriveError>
where
    L: BrokerBrand + Send + Sync,
    S: Closable + Drop + Send,
    W: Write,
    R: Threads + Wait + Sync,
    requires sequence { (opened.limits ≡ L.limits) × (opened.cells ≡ L.cells) }
    requires queue { opened.queue ≡ L.queue }
    requires ledger { (opened.ledger ≡ L.name) × (L.parts ≡ 1024) × (L.all ≡ 1024) }
    requires history { opened.history ≡ L.history }
    requires schema { arc_value plan.schema ≡ opened.schema }
    requires replica { IfSome plan.replica (λ r. KeepsRows (state S.Store r.conn) map.empty 0) }
    ensures ends { ReportEnds L.cells plan.subscribers (arc_value plan.schema)
        (map (λ v. v.items) plan.lines.items) result (W.contents writer.old)
        (W.contents writer.new) }
    ensures stored { result ≡ Err Store → IsSome plan.replica }
{
    let outcome = drive::<L, S, R>(rt, alloc, opened, plan, progress)?;
    match write_report(alloc, writer, &outcome) {
        Ok(()) => Ok(status(&outcome.accepting)),
        Err(why) => Err(DriveError::Write(why)),
    }
}

// 3 if a subscriber ended by a conflict, else 0
fn status<L: BrokerBrand>(accepting: &[EndedSubscriber<L>]) -> u8
    ensures { IsStatus (map (λ a. a.ending) accepting.now) result }
{
    for one in accepting {
        match one.ending {
            SubscriberEnd::Conflict(..) => return 3,
            SubscriberEnd::Drained => {}
            SubscriberEnd::Stopped => {}
        }
    }
    0
}
