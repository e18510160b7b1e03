//! `Replica`: a connection to a replica's database.

ghost use Rattle.std.specs.Prelude.{◌≡◌, ◌≢◌, ◌⊎◌, ◌<◌, ◌^◌, IfOk, IfErr, OnOk, Err};
ghost use Rattle.std.specs.Arc.{arc_value};
ghost use Rattle.std.specs.FinMap as map;
ghost use Rattle.sqlite.specs.{
  Held.{state},
  State.{HasCleanDisk, IsUnchanged, Survives},
  Tree.{Trees},
};
ghost use Rattle.replica_store.specs.{
  Causes.{CannotBegin, CannotCommit, CannotCreate, HasStoreCause, StoreHasCause},
  Changes.{Commits},
  Layout.{empty_schema, replica_schema},
  Durable.{KeepsRows},
  Loading.{LoadsRows, AreSchemaRows},
  Picture.{HasCursor, HoldsReplica, IsNewReplica, IsReplica, Stores},
  Steps.{
    WhereClean,
    Reaches,
    Makes,
    AfterError,
    AddsNone,
    LeavesCommitted,
    HoldsCommit,
    HoldsNew,
    IsHandedBack,
    ReadsReplica,
    StillHolds,
  },
  declared.error.ReplicaError.TheVariants.{Store, Unusable},
};

use crate::commit::commit_once;
use crate::create::create_once;
use crate::error::{ReplicaError, reported};
use crate::load::tables_of;
use crate::open::{check, with_columns};
use crate::read::{only_mark, stored_marks, stored_rows};
use cs_apply::Tables;
use cs_model::Schema;
use par_apply::RowChange;
use sqlite::{Alter, Connection};
use std::alloc::Global;
use std::sync::Arc;

/// A connection that `Replica::create` or `Replica::open` hands back, and why.
#[derive(Drop)]
pub struct RefusedConnection<S: Alter> {
    pub why: ReplicaError,
    pub conn: Connection<S>,
}

impl<S: Alter + Drop> From<RefusedConnection<S>> for ReplicaError {
    ghost from_gives = { λ refused e. e ≡ refused.why };

    fn from(refused: RefusedConnection<S>) -> ReplicaError {
        refused.why
    }
}

/// A subscriber's rows and its cursor in a database. What its contracts say of the database holds
/// where nobody else writes it and the disk returns what was written.
#[derive(Drop)]
pub struct Replica<S: Alter> {
    conn: Connection<S>,
    schema: Arc<Schema>,
}

impl<S: Alter + Drop> Replica<S> {
    /// Makes a replica without rows, with cursor 0, in a database without tables. It is one
    /// transaction: a crash leaves the database as it was, or the whole replica, after an error
    /// too. Answers `Store` if anything is in the database's schema, or a transaction is open; then
    /// a crash leaves what it left before the call. The connection comes back with the tables and
    /// in the mode that it had.
    pub fn create(
        mut conn: Connection<S>,
        schema: Arc<Schema>,
    ) -> Result<Replica<S>, RefusedConnection<S>>
        ensures blank { IfOk result (λ r. (conn.schema ≡ empty_schema) × (r.schema ≡ schema)) }
        ensures made { IfOk result (λ r. WhereClean HoldsNew (state S.Store r.conn)) }
        ensures stands { IfOk result (λ r. WhereClean LeavesCommitted (state S.Store r.conn)) }
        ensures survives { IfOk result (λ r.
            Survives (state S.Store conn) (state S.Store r.conn) IsNewReplica) }
        ensures keeps { IfOk result (λ r. KeepsRows (state S.Store r.conn) map.empty 0) }
        ensures named { IfErr result (λ refused. refused.why ≢ Unusable) }
        ensures refused { IfErr result (λ refused.
            Survives (state S.Store conn) (state S.Store refused.conn) IsNewReplica) }
        ensures kept { IfErr result (λ refused. (conn.schema ≡ empty_schema → ⊥)
            → AddsNone (state S.Store conn) (state S.Store refused.conn)) }
        ensures back { IfErr result (λ refused.
            IsHandedBack (state S.Store conn) (state S.Store refused.conn)) }
        ensures cause { IfErr result (λ refused. HasCleanDisk (state S.Store refused.conn)
            → refused.why ≡ Store → HasStoreCause (CannotCreate (state S.Store conn))
            (state S.Store conn) (state S.Store refused.conn)) }
    {
        match reported(create_once(&mut conn)) {
            Ok(()) => Ok(Replica { conn, schema }),
            Err(why) => Err(RefusedConnection { why, conn }),
        }
    }

    /// Opens the replica that a database holds. No statement writes. Answers `Store` if a
    /// transaction is open, and `Unusable` if the database's tables or its mark aren't those of a
    /// replica; `load` tests the rows' bodies. The connection comes back with the tables and in the
    /// mode that it had.
    pub fn open(
        conn: Connection<S>,
        schema: Arc<Schema>,
    ) -> Result<Replica<S>, RefusedConnection<S>>
        ensures held { IfOk result (λ r. HasCleanDisk (state S.Store r.conn)
            → HoldsReplica (state S.Store r.conn)
            × IsUnchanged (state S.Store conn) (state S.Store r.conn)) }
        ensures survives { IfOk result (λ r.
            AddsNone (state S.Store conn) (state S.Store r.conn)) }
        ensures same_schema { IfOk result (λ r. r.schema ≡ schema) }
        ensures refused { IfErr result (λ refused.
            AddsNone (state S.Store conn) (state S.Store refused.conn)) }
        ensures back { IfErr result (λ refused.
            IsHandedBack (state S.Store conn) (state S.Store refused.conn)) }
        ensures unusable { IfErr result (λ refused. HasCleanDisk (state S.Store refused.conn)
            → refused.why ≡ Unusable → conn.schema ≡ replica_schema
            → IsReplica (state S.Store conn).now.trees → ⊥) }
        ensures cause { IfErr result (λ refused. HasCleanDisk (state S.Store refused.conn)
            → refused.why ≡ Store → HasStoreCause (CannotBegin (state S.Store conn))
            (state S.Store conn) (state S.Store refused.conn)) }
    {
        let mut conn = with_columns(conn);
        match check(&mut conn) {
            Ok(()) => Ok(Replica { conn, schema }),
            Err(why) => Err(RefusedConnection { why, conn }),
        }
    }
}

impl<S: Alter> Replica<S> {
    /// Makes the changes in their order and sets the cursor, in one transaction. Whenever it
    /// returns, a crash leaves the rows and the cursor as before the call, or all of them as after
    /// it; after `Ok`, as after it. After an error, open the replica again: it has one of the two.
    /// No transaction is left open.
    pub fn commit(&mut self, changes: &[RowChange], cursor: u64) -> Result<(), ReplicaError>
        requires held { WhereClean HoldsReplica (state S.Store self.old.conn) }
        requires below { cursor < 2 ^ 63 }
        ensures ok { Makes result (HoldsCommit changes.now cursor)
            (state S.Store self.old.conn) (state S.Store self.new.conn) }
        ensures stands { Reaches result LeavesCommitted (state S.Store self.new.conn) }
        ensures crash { HasCleanDisk (state S.Store self.new.conn)
            → (db : Trees) → (state S.Store self.new.conn).may_leave db
            → (db ≡ (state S.Store self.old.conn).committed.trees)
            ⊎ Commits changes.now cursor (state S.Store self.old.conn).committed.trees db }
        ensures survives { Survives (state S.Store self.old.conn) (state S.Store self.new.conn)
            (Commits changes.now cursor (state S.Store self.old.conn).committed.trees) }
        ensures still { AfterError result StillHolds
            (state S.Store self.old.conn) (state S.Store self.new.conn) }
        ensures named { IfErr result (λ e. e ≢ Unusable) }
        ensures cause { StoreHasCause result
            (CannotCommit changes.now (state S.Store self.old.conn).committed.trees)
            (state S.Store self.old.conn) (state S.Store self.new.conn) }
        ensures same_schema { self.new.schema ≡ self.old.schema }
    {
        reported(commit_once(&mut self.conn, changes, cursor))
    }

    /// The stored cursor. Changes nothing.
    pub fn cursor(&mut self) -> Result<u64, ReplicaError>
        requires { WhereClean HoldsReplica (state S.Store self.old.conn) }
        ensures stored { HasCleanDisk (state S.Store self.new.conn)
            → IfOk result (HasCursor (state S.Store self.old.conn).committed.trees) }
        ensures same { Makes result IsUnchanged
            (state S.Store self.old.conn) (state S.Store self.new.conn) }
        ensures held { Reaches result HoldsReplica (state S.Store self.new.conn) }
        ensures still { AfterError result StillHolds
            (state S.Store self.old.conn) (state S.Store self.new.conn) }
        ensures usable { HasCleanDisk (state S.Store self.new.conn) → result ≡ Err Unusable → ⊥ }
        ensures cause { StoreHasCause result ⊥
            (state S.Store self.old.conn) (state S.Store self.new.conn) }
        ensures survives { AddsNone (state S.Store self.old.conn) (state S.Store self.new.conn) }
        ensures same_schema { self.new.schema ≡ self.old.schema }
    {
        let marks = reported(stored_marks(&mut self.conn))?;
        match only_mark(&marks) {
            Some(place) => Ok(place),
            None => Err(ReplicaError::Unusable),
        }
    }

    /// The stored rows, as tables that keep every table of the schema, and the stored cursor.
    /// Answers `Unusable` if what is stored isn't rows of the schema. Changes nothing.
    pub fn load(&mut self, alloc: Global) -> Result<(Tables, u64), ReplicaError>
        requires { WhereClean HoldsReplica (state S.Store self.old.conn) }
        ensures rows { HasCleanDisk (state S.Store self.new.conn) → IfOk result (λ r.
            LoadsRows (arc_value self.old.schema)
            (Stores (state S.Store self.old.conn).committed.trees) r.0) }
        ensures stored { HasCleanDisk (state S.Store self.new.conn) → IfOk result (λ r.
            HasCursor (state S.Store self.old.conn).committed.trees r.1) }
        ensures fits { HasCleanDisk (state S.Store self.new.conn) → OnOk result
            (AreSchemaRows (arc_value self.old.schema)
            (Stores (state S.Store self.old.conn).committed.trees)) }
        ensures unusable { HasCleanDisk (state S.Store self.new.conn) → result ≡ Err Unusable
            → AreSchemaRows (arc_value self.old.schema)
            (Stores (state S.Store self.old.conn).committed.trees) → ⊥ }
        ensures same { Makes result IsUnchanged
            (state S.Store self.old.conn) (state S.Store self.new.conn) }
        ensures held { Reaches result HoldsReplica (state S.Store self.new.conn) }
        ensures still { AfterError result StillHolds
            (state S.Store self.old.conn) (state S.Store self.new.conn) }
        ensures survives { AddsNone (state S.Store self.old.conn) (state S.Store self.new.conn) }
        ensures cause { StoreHasCause result ⊥
            (state S.Store self.old.conn) (state S.Store self.new.conn) }
        ensures keeps { IfOk result (λ r. KeepsRows (state S.Store self.new.conn) r.0.rows r.1) }
        ensures same_schema { self.new.schema ≡ self.old.schema }
    {
        let cursor = self.cursor()?;
        let tables = self.tables(alloc)?;
        Ok((tables, cursor))
    }

    fn tables(&mut self, alloc: Global) -> Result<Tables, ReplicaError>
        requires { WhereClean HoldsReplica (state S.Store self.old.conn) }
        ensures rows { HasCleanDisk (state S.Store self.new.conn) → IfOk result
            (LoadsRows (arc_value self.old.schema)
            (Stores (state S.Store self.old.conn).committed.trees)) }
        ensures fits { HasCleanDisk (state S.Store self.new.conn) → OnOk result
            (AreSchemaRows (arc_value self.old.schema)
            (Stores (state S.Store self.old.conn).committed.trees)) }
        ensures unusable { HasCleanDisk (state S.Store self.new.conn) → result ≡ Err Unusable
            → AreSchemaRows (arc_value self.old.schema)
            (Stores (state S.Store self.old.conn).committed.trees) → ⊥ }
        ensures reads { ReadsReplica result
            (state S.Store self.old.conn) (state S.Store self.new.conn) }
        ensures still { AfterError result StillHolds
            (state S.Store self.old.conn) (state S.Store self.new.conn) }
        ensures cause { StoreHasCause result ⊥
            (state S.Store self.old.conn) (state S.Store self.new.conn) }
        ensures same_schema { self.new.schema ≡ self.old.schema }
    {
        let answer = reported(stored_rows(&mut self.conn))?;
        tables_of(alloc, &self.schema, &answer)
    }

    /// Hands the connection back.
    pub fn into_connection(self) -> Connection<S>
        ensures { result ≡ self.conn }
    {
        let (conn, _) = self.into_parts();
        conn
    }

    /// Hands the connection and the schema back.
    pub fn into_parts(self) -> (Connection<S>, Arc<Schema>)
        ensures connection { result.0 ≡ self.conn }
        ensures schema { result.1 ≡ self.schema }
    {
        let Replica { conn, schema } = self;
        (conn, schema)
    }
}
