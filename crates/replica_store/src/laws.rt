//! What holds of a replica over a restart.

ghost use Rattle.std.specs.Prelude.{ℕ, ◌≢◌, ◌<◌, ◌^◌, IfErr, IfSome, OnOk};
ghost use Rattle.std.specs.{List.{IsDistinct}, Map.{keys_of}};
ghost use Rattle.cs_apply.specs.{SameKey.{same_key}, State.{Rows}};
ghost use Rattle.par_apply.specs.RowChanges.{RowChanges, overlaid};
ghost use Rattle.sqlite.specs.{Held.{state}, State.{HasCleanDisk}, Tree.{Trees}};
ghost use Rattle.replica_store.specs.{
  Changes.{Commits},
  Loading.{TableBodies},
  Picture.{AreSameRows, HoldsReplica, Stores},
  Steps.{WhereClean, HoldsCommit, HoldsOneOf},
  declared.error.ReplicaError.TheVariants.{Unusable},
};

use crate::error::ReplicaError;
use crate::replica::Replica;
use cs_model::Schema;
use par_apply::RowChange;
use sqlite::{Alter, Connection};
use sqlite_trees::store::Reopen;
use std::alloc::Global;
use std::sync::Arc;

/// A commit of one change for each key does to the stored rows what the changes do to tables with
/// these rows: `par_apply` leaves tables with the rows `overlaid`.
pub fn tables_follow()
    ensures { (changes : RowChanges) (cursor : ℕ) (rows : Rows) (old new : Trees)
        → IsDistinct same_key (keys_of changes) → Commits changes cursor old new
        → AreSameRows (Stores old) (TableBodies rows)
        → AreSameRows (Stores new) (TableBodies (overlaid rows changes)) }
{}

/// Commits, loses the machine, and opens the replica again. Its rows and its cursor are those from
/// before the commit, or those after it, both together; after `Ok`, those after it. Returns what
/// `commit` returned, too.
pub fn commit_and_crash<S: Alter + Reopen + Drop>(
    alloc: Global,
    mut replica: Replica<S>,
    changes: &[RowChange],
    cursor: u64,
) -> (Result<(), ReplicaError>, Option<Replica<S>>)
    requires held { WhereClean HoldsReplica (state S.Store replica.conn) }
    requires below { cursor < 2 ^ 63 }
    ensures either { IfSome result.1 (λ again. WhereClean
        (HoldsOneOf changes.now cursor (state S.Store replica.conn)) (state S.Store again.conn)) }
    ensures stands { OnOk result.0 (IfSome result.1 (λ again. WhereClean
        (HoldsCommit changes.now cursor (state S.Store replica.conn)) (state S.Store again.conn))) }
    ensures named { IfErr result.0 (λ e. e ≢ Unusable) }
{
    let answer = replica.commit(changes, cursor);
    (answer, crash_and_open(alloc, replica))
}

/// Loses the machine, and opens the replica again. What it has then is what a crash may leave.
pub fn crash_and_open<S: Alter + Reopen + Drop>(
    alloc: Global,
    replica: Replica<S>,
) -> Option<Replica<S>>
    ensures { IfSome result (λ again. HasCleanDisk (state S.Store again.conn)
        → HoldsReplica (state S.Store again.conn) × HasCleanDisk (state S.Store replica.conn)
        × (state S.Store replica.conn).may_leave (state S.Store again.conn).committed.trees) }
{
    let (conn, schema) = replica.into_parts();
    match Replica::open(crash_and_reopen(alloc, conn)?, schema) {
        Ok(again) => Some(again),
        Err(_) => None,
    }
}

// The next open after a crash finds what the crash may leave.
fn crash_and_reopen<S: Alter + Reopen + Drop>(
    alloc: Global,
    conn: Connection<S>,
) -> Option<Connection<S>>
    ensures { IfSome result (λ again. HasCleanDisk (state S.Store again)
        → HasCleanDisk (state S.Store conn)
        × (state S.Store conn).may_leave (state S.Store again).committed.trees) }
{
    let mut store = conn.into_store();
    if store.crash_and_reopen().is_err() {
        return None;
    }
    match Connection::over(alloc, store) {
        Ok(again) => Some(again),
        Err(_) => None,
    }
}

/// Commits, and opens the replica again, without a crash. Its rows and its cursor are those from
/// before the commit, or those after it, both together; after `Ok`, those after it. Returns what
/// `commit` returned, too.
pub fn commit_and_open<S: Alter + Drop>(
    mut replica: Replica<S>,
    changes: &[RowChange],
    cursor: u64,
) -> (Result<(), ReplicaError>, Option<Replica<S>>)
    requires held { WhereClean HoldsReplica (state S.Store replica.conn) }
    requires below { cursor < 2 ^ 63 }
    ensures either { IfSome result.1 (λ again. WhereClean
        (HoldsOneOf changes.now cursor (state S.Store replica.conn)) (state S.Store again.conn)) }
    ensures stands { OnOk result.0 (IfSome result.1 (λ again. WhereClean
        (HoldsCommit changes.now cursor (state S.Store replica.conn)) (state S.Store again.conn))) }
    ensures named { IfErr result.0 (λ e. e ≢ Unusable) }
{
    let answer = replica.commit(changes, cursor);
    let (conn, schema) = replica.into_parts();
    (answer, open_again(conn, schema))
}

// What is committed over an open connection is what a crash leaves.
fn open_again<S: Alter + Drop>(conn: Connection<S>, schema: Arc<Schema>) -> Option<Replica<S>>
    ensures { IfSome result (λ again. HasCleanDisk (state S.Store again.conn)
        → HoldsReplica (state S.Store again.conn) × HasCleanDisk (state S.Store conn)
        × (state S.Store conn).may_leave (state S.Store again.conn).committed.trees) }
{
    match Replica::open(conn, schema) {
        Ok(again) => Some(again),
        Err(_) => None,
    }
}
