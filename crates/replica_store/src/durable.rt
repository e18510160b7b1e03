//! A replica keeps a subscription's rows and cursor over a crash.

ghost use Rattle.sqlite.specs.Held.{state};
ghost use Rattle.replica_store.specs.Durable.{FailsToKeep, KeepsRows, LeavesEither};

use crate::error::ReplicaError;
use crate::laws::tables_follow;
use crate::replica::Replica;
use par_apply::{DurableRows, RowChange};
use sqlite::Alter;

impl<S: Alter> DurableRows for Replica<S> {
    ghost keeps = { λ r rows place. KeepsRows (state S.Store r.conn) rows place };

    ghost leaves = { λ r first at second later.
        LeavesEither (state S.Store r.conn) first at second later };

    ghost failed = { λ old changes cursor new why.
        FailsToKeep (state S.Store old.conn) changes cursor (state S.Store new.conn) why };

    type Error = ReplicaError;

    /// `Replica::commit`. Answers `Store` for a cursor that SQLite can't store, of 2^63 or more.
    fn commit(&mut self, changes: &[RowChange], cursor: u64) -> Result<(), ReplicaError> {
        tables_follow();
        if i64::try_from(cursor).is_err() {
            return Err(ReplicaError::Store);
        }
        Replica::commit(self, changes, cursor)
    }
}
