//! Stops a file after each number of operations of a commit, and opens the replica again.

use crate::disks::{Loss, StoppedFile, TestDisk, Wreck, connected, stopping};
use crate::reading::Found;
use crate::rows::{Commits, FIRST_CURSOR, SECOND_CURSOR, one_table};
use cs_model::Schema;
use replica_store::{Replica, ReplicaError};
use sqlite::{Alter, Connection, Files, Options};
use std::alloc::Global;
use std::sync::Arc;
use std::{fmt, io};

/// More operations than a commit has.
pub const TOO_MANY: u64 = 10_000_000;

/// What a commit does with the log before it writes to it.
#[derive(Clone, Copy)]
pub enum LogUse {
    /// It copies the log into the database file, and begins it anew.
    Copies,
    /// It keeps what is in the log, and appends to it.
    Keeps,
}

impl LogUse {
    fn text(self) -> &'static str {
        match self {
            LogUse::Copies => "copies the log into the database file first",
            LogUse::Keeps => "appends to the log",
        }
    }
}

/// A commit in which a file stops.
#[derive(Clone, Copy)]
pub struct Trial {
    log: LogUse,
    pub file: StoppedFile,
    // how many pages stay in memory: of few, a larger commit writes some before its end, and reads
    // them again
    pages: usize,
}

impl Trial {
    /// Each of them. A commit that only appends to the log leaves the database file alone.
    pub fn all(pages: usize) -> [Trial; 3] {
        [
            Trial {
                log: LogUse::Copies,
                file: StoppedFile::Database,
                pages,
            },
            Trial {
                log: LogUse::Copies,
                file: StoppedFile::Log,
                pages,
            },
            Trial {
                log: LogUse::Keeps,
                file: StoppedFile::Log,
                pages,
            },
        ]
    }

    /// How its database is kept.
    pub fn options(self) -> Options {
        let checkpoint_frames = match self.log {
            LogUse::Copies => 1,
            LogUse::Keeps => usize::MAX,
        };
        Options {
            cache_pages: self.pages,
            spill_pages: self.pages,
            checkpoint_frames,
            seed: 7,
        }
    }

    /// Stops the file after each number of operations, until the commit goes through.
    pub fn stops(self, alloc: Global, commits: &Commits) -> io::Result<Stops> {
        let mut stops = Stops::none(alloc, self)?;
        for operations in 0..TOO_MANY {
            if stops.goes_through(alloc, operations, commits)? {
                return Ok(stops);
            }
        }
        Err(io::Error::other("no commit goes through"))
    }

    // Makes both commits over new files. Nothing is left if one stops before the second begins.
    fn left(
        self,
        alloc: Global,
        operations: u64,
        commits: &Commits,
    ) -> io::Result<Option<LeftFile>> {
        let schema = one_table(alloc)?;
        let files = stopping(alloc, self.file, operations);
        let Ok(conn) = connected(alloc, files, self.options()) else {
            return Ok(None);
        };
        let Ok((conn, committed)) = commit_both(conn, schema, commits) else {
            return Ok(None);
        };
        Ok(Some(LeftFile {
            wreck: Wreck::of(alloc, conn)?,
            committed,
        }))
    }
}

impl fmt::Display for Trial {
    fn fmt<W: fmt::Write>(&self, f: &mut fmt::Formatter<W>) -> fmt::Result {
        write!(f, "{}: {}", self.log.text(), self.file.text())
    }
}

/// What a commit leaves.
#[derive(Drop)]
struct LeftFile {
    wreck: Wreck,
    // whether it went through
    committed: bool,
}

/// What was found after the stops of a file, for each loss.
#[derive(Drop)]
pub struct Stops {
    trial: Trial,
    count: u64,
    pub counts: Vec<Counts>,
}

impl Stops {
    fn none(alloc: Global, trial: Trial) -> io::Result<Stops> {
        let mut counts = Vec::new(alloc);
        for loss in Loss::ALL {
            counts.push(Counts::none(loss))?;
        }
        Ok(Stops {
            trial,
            count: 0,
            counts,
        })
    }

    // Tries a commit, and counts what it leaves. Returns whether it goes through.
    fn goes_through(
        &mut self,
        alloc: Global,
        operations: u64,
        commits: &Commits,
    ) -> io::Result<bool> {
        let Some(left) = self.trial.left(alloc, operations, commits)? else {
            return Ok(false);
        };
        let options = self.trial.options();
        for counts in &mut self.counts {
            let files = left.wreck.after(alloc, counts.loss)?;
            counts.add(left.committed, found_in(alloc, files, options, commits)?);
        }
        if !left.committed {
            self.count = self.count.saturating_add(1);
        }
        Ok(left.committed)
    }

    /// Whether each loss left what it must.
    pub fn are_right(&self) -> bool {
        self.counts
            .iter()
            .all(|counts| counts.wrong == 0 && counts.lasts)
    }
}

impl fmt::Display for Stops {
    fn fmt<W: fmt::Write>(&self, f: &mut fmt::Formatter<W>) -> fmt::Result {
        write!(f, "a commit that {} stops {} times", self.trial, self.count)
    }
}

/// How often each state was found after a loss.
#[derive(Clone, Copy)]
pub struct Counts {
    loss: Loss,
    before: u64,
    after: u64,
    wrong: u64,
    // whether a commit that meets no stop is there after the loss
    lasts: bool,
}

impl Counts {
    fn none(loss: Loss) -> Counts {
        Counts {
            loss,
            before: 0,
            after: 0,
            wrong: 0,
            lasts: false,
        }
    }

    fn add(&mut self, committed: bool, found: Found) {
        if committed {
            self.lasts = found == Found::After;
            return;
        }
        match found {
            Found::Before => self.before = self.before.saturating_add(1),
            Found::After => self.after = self.after.saturating_add(1),
            Found::Neither => self.wrong = self.wrong.saturating_add(1),
        }
    }
}

impl fmt::Display for Counts {
    fn fmt<W: fmt::Write>(&self, f: &mut fmt::Formatter<W>) -> fmt::Result {
        write!(
            f,
            "{}: {} before, {} after, ",
            self.loss.text(),
            self.before,
            self.after
        )?;
        let end = if self.lasts { "lasts" } else { "is lost" };
        write!(f, "{} wrong; a whole commit {end}", self.wrong)
    }
}

/// Makes both commits over a new replica. Returns the connection, and whether the second commit
/// went through.
pub fn commit_both<S: Alter + Drop>(
    conn: Connection<S>,
    schema: Arc<Schema>,
    commits: &Commits,
) -> Result<(Connection<S>, bool), ReplicaError> {
    let mut replica = Replica::create(conn, schema)?;
    replica.commit(&commits.first, FIRST_CURSOR)?;
    let committed = replica.commit(&commits.second, SECOND_CURSOR).is_ok();
    Ok((replica.into_connection(), committed))
}

// the state that the files have, which is neither if they can't be opened
fn found_in(
    alloc: Global,
    files: Files<TestDisk>,
    options: Options,
    commits: &Commits,
) -> io::Result<Found> {
    match connected(alloc, files, options) {
        Ok(conn) => Found::by(alloc, conn, commits),
        Err(_) => Ok(Found::Neither),
    }
}
