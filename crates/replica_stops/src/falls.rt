//! Stops a file after each number of operations of an accept, and resumes the subscription that
//! falls.

ghost use Rattle.std.specs.Prelude.{◌≡◌};
ghost use Rattle.rb_subscriber.specs.Subscription.{cursor_of};
ghost use Rattle.replica_store.specs.Durable.{KeepsRows};
ghost use Rattle.sqlite.specs.Held.{state};

use crate::disks::{Loss, TestDisk, Wreck, connected, stopping};
use crate::kept::{KeptReplica, accept_next, gone_on, load, subscribed};
use crate::reading::Found;
use crate::rows::{Commits, FIRST_CURSOR, SECOND_CURSOR, one_table};
use crate::stand::{Stand, limits};
use crate::stops::{TOO_MANY, Trial};
use cs_model::CopyIn;
use rb_broker::{Broker, BrokerBrand, Opened};
use rb_subscriber::{Lost, Subscription};
use replica_store::Replica;
use sqlite::{Alter, Connection, FileStore, Options};
use std::alloc::Global;
use std::marker::Brand;
use std::sync::Wait;
use std::thread::Threads;
use std::{fmt, io};

/// What became of a subscription over a file that stops.
#[derive(Clone, Copy)]
enum Fate {
    /// The file stopped before the second delivery.
    Early,
    /// It accepted the second delivery.
    Accepted,
    /// It fell, was resumed in this state, and went on to the state after.
    Resumed(Found),
    /// It fell, and anything else happened.
    Wrong,
}

/// What an accept into a replica left.
#[derive(Drop)]
enum FallOutcome<L: BrokerBrand, S: Alter> {
    Early,
    Accepted,
    Fell(Lost<L>, Connection<S>),
}

/// What became of the subscriptions that fell.
#[derive(Clone, Copy)]
pub struct Falls {
    trial: Trial,
    stops: u64,
    before: u64,
    after: u64,
    wrong: u64,
}

impl Falls {
    /// Stops the file after each number of operations, until the accept goes through. After each
    /// stop the subscription falls once for each loss.
    pub fn of<R: Wait + Threads + Sync>(
        rt: &R,
        alloc: Global,
        trial: Trial,
        commits: &Commits,
    ) -> io::Result<Falls> {
        let mut falls = Falls {
            trial,
            stops: 0,
            before: 0,
            after: 0,
            wrong: 0,
        };
        for operations in 0..TOO_MANY {
            if falls.goes_through(rt, alloc, operations, commits)? {
                return Ok(falls);
            }
        }
        Err(io::Error::other("no accept goes through"))
    }

    // Tries an accept for each loss, and counts what became of it. Returns whether it goes through.
    fn goes_through<R: Wait + Threads + Sync>(
        &mut self,
        rt: &R,
        alloc: Global,
        operations: u64,
        commits: &Commits,
    ) -> io::Result<bool> {
        for loss in Loss::ALL {
            match tried(rt, alloc, self.trial, operations, loss, commits)? {
                Fate::Early => return Ok(false),
                Fate::Accepted => return Ok(true),
                fell => self.add(fell),
            }
        }
        self.stops = self.stops.saturating_add(1);
        Ok(false)
    }

    fn add(&mut self, fate: Fate) {
        match fate {
            Fate::Resumed(Found::Before) => self.before = self.before.saturating_add(1),
            Fate::Resumed(Found::After) => self.after = self.after.saturating_add(1),
            _ => self.wrong = self.wrong.saturating_add(1),
        }
    }

    /// Whether each subscription was resumed.
    pub fn are_right(&self) -> bool {
        self.wrong == 0
    }
}

impl fmt::Display for Falls {
    fn fmt<W: fmt::Write>(&self, f: &mut fmt::Formatter<W>) -> fmt::Result {
        write!(
            f,
            "an accept that {} stops {} times; ",
            self.trial, self.stops
        )?;
        write!(
            f,
            "{} resumed before it, {} after it, {} wrong",
            self.before, self.after, self.wrong
        )
    }
}

// what becomes of a subscription of a new broker, over new files of which one stops
fn tried<R: Wait + Threads + Sync>(
    rt: &R,
    alloc: Global,
    trial: Trial,
    operations: u64,
    loss: Loss,
    commits: &Commits,
) -> io::Result<Fate> {
    let opened = opened_broker(alloc)?;
    tried_at::<Brand, R>(rt, alloc, opened, trial, operations, loss, commits)
}

fn opened_broker(alloc: Global) -> io::Result<Opened> {
    let schema = one_table(alloc)?;
    let schema = schema.copy_in(alloc)?;
    Ok(Opened::new(alloc, limits()?, schema)?)
}

fn tried_at<L: BrokerBrand, R: Wait + Threads + Sync>(
    rt: &R,
    alloc: Global,
    opened: Opened,
    trial: Trial,
    operations: u64,
    loss: Loss,
    commits: &Commits,
) -> io::Result<Fate>
    requires sequence { (opened.limits ≡ L.limits) × (opened.cells ≡ L.cells) }
    requires queue { opened.queue ≡ L.queue }
    requires ledger { (opened.ledger ≡ L.name) × (L.parts ≡ 1024) × (L.all ≡ 1024) }
    requires history { opened.history ≡ L.history }
{
    let mut stand = Stand::of(alloc, Broker::<L>::start(opened))?;
    tried_over(rt, alloc, &mut stand, trial, operations, loss, commits)
}

fn tried_over<L: BrokerBrand, R: Wait + Threads + Sync>(
    rt: &R,
    alloc: Global,
    stand: &mut Stand<L>,
    trial: Trial,
    operations: u64,
    loss: Loss,
    commits: &Commits,
) -> io::Result<Fate> {
    let files = stopping(alloc, trial.file, operations);
    let Ok(conn) = connected(alloc, files, trial.options()) else {
        return Ok(Fate::Early);
    };
    match accept_both(rt, alloc, stand, conn, commits)? {
        FallOutcome::Early => Ok(Fate::Early),
        FallOutcome::Accepted => Ok(Fate::Accepted),
        FallOutcome::Fell(lost, conn) => {
            let Some(conn) = crashed(alloc, conn, loss, trial.options())? else {
                return Ok(Fate::Wrong);
            };
            resume(rt, alloc, stand, lost, conn, commits)
        }
    }
}

// The database after a crash. Nothing is left of files that can't be opened.
fn crashed(
    alloc: Global,
    conn: Connection<FileStore<TestDisk>>,
    loss: Loss,
    options: Options,
) -> io::Result<Option<Connection<FileStore<TestDisk>>>> {
    let wreck = Wreck::of(alloc, conn)?;
    let files = wreck.after(alloc, loss)?;
    Ok(connected(alloc, files, options).ok())
}

// Accepts two deliveries into a new replica.
fn accept_both<L: BrokerBrand, S: Alter + Drop, R: Wait + Threads + Sync>(
    rt: &R,
    alloc: Global,
    stand: &mut Stand<L>,
    conn: Connection<S>,
    commits: &Commits,
) -> io::Result<FallOutcome<L, S>> {
    let Ok(replica) = Replica::create(conn, one_table(alloc)?) else {
        return Ok(FallOutcome::Early);
    };
    let Ok(loaded) = load(alloc, replica) else {
        return Ok(FallOutcome::Early);
    };
    let Some(kept) = subscribed(rt, alloc, stand, None, loaded) else {
        return Err(io::Error::other("there is no subscription"));
    };
    let KeptReplica {
        mut subscription,
        mut replica,
    } = kept;
    match accept_in_turn(rt, alloc, stand, &mut subscription, &mut replica, commits)? {
        0 => Ok(FallOutcome::Early),
        1 => fall(subscription, replica),
        _ => Ok(FallOutcome::Accepted),
    }
}

// Returns how many of the two deliveries are accepted.
fn accept_in_turn<L: BrokerBrand, S: Alter + Drop, R: Wait + Threads + Sync>(
    rt: &R,
    alloc: Global,
    stand: &mut Stand<L>,
    subscription: &mut Subscription<L>,
    replica: &mut Replica<S>,
    commits: &Commits,
) -> io::Result<u32>
    requires { KeepsRows (state S.Store replica.old.conn) subscription.old.tables.rows
        (cursor_of subscription.old) }
{
    stand.place_up_to(rt, alloc, 0, FIRST_CURSOR, &commits.first_text)?;
    if !accept_next(rt, alloc, &stand.broker, subscription, replica)? {
        return Ok(0);
    }
    stand.place_up_to(rt, alloc, FIRST_CURSOR, SECOND_CURSOR, &commits.second_text)?;
    let accepted = accept_next(rt, alloc, &stand.broker, subscription, replica)?;
    Ok(if accepted { 2 } else { 1 })
}

fn fall<L: BrokerBrand, S: Alter + Drop>(
    subscription: Subscription<L>,
    replica: Replica<S>,
) -> io::Result<FallOutcome<L, S>> {
    if !subscription.is_fallen() {
        return Err(io::Error::other("the subscription has not fallen"));
    }
    Ok(FallOutcome::Fell(subscription.fall(), replica.into_connection()))
}

// Resumes a subscription with what its replica has, and lets it accept what is left.
fn resume<L: BrokerBrand, S: Alter + Drop, R: Wait + Threads + Sync>(
    rt: &R,
    alloc: Global,
    stand: &mut Stand<L>,
    lost: Lost<L>,
    conn: Connection<S>,
    commits: &Commits,
) -> io::Result<Fate> {
    let Ok(replica) = Replica::open(conn, one_table(alloc)?) else {
        return Ok(Fate::Wrong);
    };
    let Ok(loaded) = load(alloc, replica) else {
        return Ok(Fate::Wrong);
    };
    let found = Found::of(alloc, &loaded.tables, loaded.cursor, commits)?;
    let Some(kept) = subscribed(rt, alloc, stand, Some(lost), loaded) else {
        return Ok(Fate::Wrong);
    };
    let Some(conn) = gone_on(rt, alloc, &stand.broker, kept)? else {
        return Ok(Fate::Wrong);
    };
    match Found::by(alloc, conn, commits)? {
        Found::After => Ok(Fate::Resumed(found)),
        Found::Before | Found::Neither => Ok(Fate::Wrong),
    }
}
