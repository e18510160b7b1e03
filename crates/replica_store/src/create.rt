//! Makes a replica's tables in a database without tables, in one transaction.

ghost use Rattle.std.specs.Prelude.{◌≡◌, ◌↔◌, [], false, IsTrue, OnOk, OnErr};
ghost use Rattle.sqlite.specs.{Held.{state}, State.{HasCleanDisk, KeepsCommit, Survives}};
ghost use Rattle.replica_store.specs.{
  Causes.{CannotCreate, ErrorHasCause},
  Inside.{IsBlankInside, IsNewInside},
  Layout.{empty_schema},
  Picture.{IsNewReplica},
  Steps.{WhereClean, Reaches, AddsNone, LeavesCommitted, HoldsNew, IsHandedBack},
};

use sqlite::{Alter, Connection, Error, ErrorCode, Transaction};
use sqlite_schema::schema::Schema;

/// Makes the tables and the mark, or changes nothing.
pub(crate) fn create_once<S: Alter>(conn: &mut Connection<S>) -> Result<(), Error>
    ensures blank { OnOk result (conn.old.schema ≡ empty_schema) }
    ensures made { Reaches result HoldsNew (state S.Store conn.new) }
    ensures stands { Reaches result LeavesCommitted (state S.Store conn.new) }
    ensures survives { Survives (state S.Store conn.old) (state S.Store conn.new) IsNewReplica }
    ensures kept { (conn.old.schema ≡ empty_schema → ⊥)
        → AddsNone (state S.Store conn.old) (state S.Store conn.new) }
    ensures back { OnErr result (IsHandedBack (state S.Store conn.old) (state S.Store conn.new)) }
    ensures cause { ErrorHasCause result (CannotCreate (state S.Store conn.old))
        (state S.Store conn.old) (state S.Store conn.new) }
{
    if !conn.is_autocommit() {
        return Err(Error::SqliteFailure(ErrorCode::TransactionState));
    }
    if !has_nothing(conn.schema()) {
        return Err(Error::SqliteFailure(ErrorCode::NameTaken));
    }
    let mut tx = conn.transaction();
    make_all(&mut tx)?;
    tx.commit()
}

// whether the schema has no table, index or view
fn has_nothing(schema: &Schema) -> bool
    ensures { IsTrue result ↔ schema.now ≡ empty_schema }
{
    schema.tables.is_empty() && schema.indexes.is_empty() && schema.views.is_empty()
}

// both tables and the first mark
fn make_all<S: Alter>(tx: &mut Transaction<'_, S>) -> Result<(), Error>
    requires { WhereClean IsBlankInside (state S.Store tx.old.conn.now) }
    ensures same_reference { tx.new.conn.ghost_name ≡ tx.old.conn.ghost_name }
    ensures made { Reaches result IsNewInside (state S.Store tx.new.conn.now) }
    ensures survives { AddsNone (state S.Store tx.old.conn.now) (state S.Store tx.new.conn.now) }
    ensures kept { HasCleanDisk (state S.Store tx.new.conn.now)
        → KeepsCommit (state S.Store tx.old.conn.now) (state S.Store tx.new.conn.now) }
    ensures cause { ErrorHasCause result ((state S.Store tx.old.conn.now).is_open ≡ false)
        (state S.Store tx.old.conn.now) (state S.Store tx.new.conn.now) }
{
    tx.execute(
        "CREATE TABLE rb_row(tab INTEGER NOT NULL, rowkey BLOB NOT NULL, body BLOB NOT NULL, \
         PRIMARY KEY (tab, rowkey))",
        &[],
    )?;
    tx.execute(
        "CREATE TABLE rb_mark(id INTEGER PRIMARY KEY, place INTEGER NOT NULL)",
        &[],
    )?;
    tx.execute("INSERT INTO rb_mark VALUES (1, 0)", &[])?;
    Ok(())
}
