//! What creating, opening and loading a replica answers, and which state it is in.

use crate::rows::{Commits, one_table};
use cs_apply::Tables;
use replica_store::{Replica, ReplicaError};
use sqlite::{Alter, Connection};
use std::alloc::Global;
use std::{fmt, io};

/// The state of a replica.
#[derive(Clone, Copy, PartialEq, Eq)]
pub enum Found {
    /// The rows and the cursor of before the commit.
    Before,
    /// The rows and the cursor of after it.
    After,
    /// Anything else.
    Neither,
}

impl Found {
    /// The state of the replica that the connection is open to.
    pub fn by<S: Alter + Drop>(
        alloc: Global,
        conn: Connection<S>,
        commits: &Commits,
    ) -> io::Result<Found> {
        match Answer::of(alloc, conn)? {
            Answer::Loaded(tables, cursor) => Found::of(alloc, &tables, cursor, commits),
            _ => Ok(Found::Neither),
        }
    }

    /// The state with these rows and this cursor.
    pub fn of(alloc: Global, tables: &Tables, cursor: u64, commits: &Commits) -> io::Result<Found> {
        if commits.before.is(alloc, tables, cursor)? {
            return Ok(Found::Before);
        }
        if commits.after.is(alloc, tables, cursor)? {
            return Ok(Found::After);
        }
        Ok(Found::Neither)
    }

    /// Which state it is.
    pub fn text(self) -> &'static str {
        match self {
            Found::Before => "the state before",
            Found::After => "the state after",
            Found::Neither => "another state",
        }
    }
}

/// What creating a replica answers, or opening and loading one.
#[derive(Drop)]
pub enum Answer {
    /// The error of `create`.
    Creating(ReplicaError),
    Created,
    /// The error of `open`.
    Opening(ReplicaError),
    /// The error of `load`.
    Loading(ReplicaError),
    /// The rows and the cursor.
    Loaded(Tables, u64),
}

impl Answer {
    /// Opens and loads a replica of one table.
    pub fn of<S: Alter + Drop>(alloc: Global, conn: Connection<S>) -> io::Result<Answer> {
        let mut replica = match Replica::open(conn, one_table(alloc)?) {
            Ok(replica) => replica,
            Err(refused) => return Ok(Answer::Opening(refused.why)),
        };
        Ok(match replica.load(alloc) {
            Ok((tables, cursor)) => Answer::Loaded(tables, cursor),
            Err(error) => Answer::Loading(error),
        })
    }
}

impl fmt::Display for Answer {
    fn fmt<W: fmt::Write>(&self, f: &mut fmt::Formatter<W>) -> fmt::Result {
        match self {
            Answer::Creating(error) => write!(f, "create answers {error:?}"),
            Answer::Created => write!(f, "created"),
            Answer::Opening(error) => write!(f, "open answers {error:?}"),
            Answer::Loading(error) => write!(f, "load answers {error:?}"),
            Answer::Loaded(_, cursor) => write!(f, "loaded, cursor {cursor}"),
        }
    }
}
