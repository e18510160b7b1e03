//! Commits changes of rows and a cursor, in one transaction.

ghost use Rattle.std.specs.Prelude.{◌≡◌, ◌<◌, ◌≤◌, ◌^◌, pos, None, Some, IfOk, OnErr};
ghost use Rattle.sqlite.specs.Held.{state};
ghost use Rattle.sqlite.specs.State.{HasCleanDisk, KeepsCommit, Survives};
ghost use Rattle.replica_store.specs.Causes.{CannotCommit, CannotMake, ErrorHasCause, UsesIds};
ghost use Rattle.replica_store.specs.Changes.{row_body, AfterChange, AfterChanges, Commits};
ghost use Rattle.replica_store.specs.Inside.{WithoutRow, WithBody};
ghost use Rattle.replica_store.specs.Inside.{IsInside, ChangesRows, SetsCursor};
ghost use Rattle.replica_store.specs.Picture.{HoldsReplica};
ghost use Rattle.replica_store.specs.Steps.{
  WhereClean,
  Makes,
  AfterError,
  AddsNone,
  HoldsCommit,
  StillHolds,
};

use cs_model::{Row, RowKey};
use par_apply::RowChange;
use sqlite::{Alter, Connection, Error, ErrorCode, Transaction, params};

/// Makes the changes and sets the cursor, both or neither.
pub(crate) fn commit_once<S: Alter>(
    conn: &mut Connection<S>,
    changes: &[RowChange],
    cursor: u64,
) -> Result<(), Error>
    requires held { WhereClean HoldsReplica (state S.Store conn.old) }
    requires below { cursor < 2 ^ 63 }
    ensures ok { Makes result (HoldsCommit changes.now cursor)
        (state S.Store conn.old) (state S.Store conn.new) }
    ensures crash { Survives (state S.Store conn.old) (state S.Store conn.new)
        (Commits changes.now cursor (state S.Store conn.old).committed.trees) }
    ensures still { AfterError result StillHolds (state S.Store conn.old) (state S.Store conn.new) }
    ensures cause { ErrorHasCause result
        (CannotCommit changes.now (state S.Store conn.old).committed.trees)
        (state S.Store conn.old) (state S.Store conn.new) }
{
    if !conn.is_autocommit() {
        return Err(Error::SqliteFailure(ErrorCode::TransactionState));
    }
    // for its clause that what the tables have obeys the schema
    let _schema = conn.schema();
    let mut tx = conn.transaction();
    change_all(&mut tx, changes)?;
    set_cursor(&mut tx, cursor)?;
    tx.commit()
}

fn change_all<S: Alter>(tx: &mut Transaction<'_, S>, changes: &[RowChange]) -> Result<(), Error>
    requires { WhereClean IsInside (state S.Store tx.old.conn.now) }
    ensures same_reference { tx.new.conn.ghost_name ≡ tx.old.conn.ghost_name }
    ensures changes { Makes result (ChangesRows (AfterChanges changes.now))
        (state S.Store tx.old.conn.now) (state S.Store tx.new.conn.now) }
    ensures survives { AddsNone (state S.Store tx.old.conn.now) (state S.Store tx.new.conn.now) }
    ensures kept { HasCleanDisk (state S.Store tx.new.conn.now)
        → KeepsCommit (state S.Store tx.old.conn.now) (state S.Store tx.new.conn.now) }
    ensures cause { ErrorHasCause result
        (CannotCommit changes.now (state S.Store tx.old.conn.now).now.trees)
        (state S.Store tx.old.conn.now) (state S.Store tx.new.conn.now) }
{
    for change in changes {
        change_one(tx, change)?;
    }
    Ok(())
}

fn change_one<S: Alter>(tx: &mut Transaction<'_, S>, change: &RowChange) -> Result<(), Error>
    requires { WhereClean IsInside (state S.Store tx.old.conn.now) }
    ensures same_reference { tx.new.conn.ghost_name ≡ tx.old.conn.ghost_name }
    ensures changes { Makes result (ChangesRows (AfterChange change.now))
        (state S.Store tx.old.conn.now) (state S.Store tx.new.conn.now) }
    ensures survives { AddsNone (state S.Store tx.old.conn.now) (state S.Store tx.new.conn.now) }
    ensures kept { HasCleanDisk (state S.Store tx.new.conn.now)
        → KeepsCommit (state S.Store tx.old.conn.now) (state S.Store tx.new.conn.now) }
    ensures ids { Makes result (UsesIds 1)
        (state S.Store tx.old.conn.now) (state S.Store tx.new.conn.now) }
    ensures cause { ErrorHasCause result
        (CannotMake change.now (state S.Store tx.old.conn.now).now.trees)
        (state S.Store tx.old.conn.now) (state S.Store tx.new.conn.now) }
{
    match &change.1 {
        Some(row) => upsert_row(tx, &change.0, row),
        None => delete_row(tx, &change.0),
    }
}

// An upsert in two statements. For a new row ON CONFLICT costs more: it looks for the key twice.
fn upsert_row<S: Alter>(tx: &mut Transaction<'_, S>, key: &RowKey, row: &Row) -> Result<(), Error>
    requires { WhereClean IsInside (state S.Store tx.old.conn.now) }
    ensures same_reference { tx.new.conn.ghost_name ≡ tx.old.conn.ghost_name }
    ensures puts { Makes result (ChangesRows (WithBody key.now (row_body row.now)))
        (state S.Store tx.old.conn.now) (state S.Store tx.new.conn.now) }
    ensures survives { AddsNone (state S.Store tx.old.conn.now) (state S.Store tx.new.conn.now) }
    ensures kept { HasCleanDisk (state S.Store tx.new.conn.now)
        → KeepsCommit (state S.Store tx.old.conn.now) (state S.Store tx.new.conn.now) }
    ensures ids { Makes result (UsesIds 1)
        (state S.Store tx.old.conn.now) (state S.Store tx.new.conn.now) }
    ensures cause { ErrorHasCause result
        (CannotMake (key.now, Some row.now) (state S.Store tx.old.conn.now).now.trees)
        (state S.Store tx.old.conn.now) (state S.Store tx.new.conn.now) }
{
    let table = table_number(key)?;
    let bytes: &[u8] = &key.bytes;
    let body = row.bytes();
    let updated = tx.execute(
        "UPDATE rb_row SET body = ?3 WHERE tab = ?1 AND rowkey = ?2",
        params![table, bytes, body],
    )?;
    if updated == 0 {
        tx.execute(
            "INSERT INTO rb_row VALUES (?1, ?2, ?3)",
            params![table, bytes, body],
        )?;
    }
    Ok(())
}

fn delete_row<S: Alter>(tx: &mut Transaction<'_, S>, key: &RowKey) -> Result<(), Error>
    requires { WhereClean IsInside (state S.Store tx.old.conn.now) }
    ensures same_reference { tx.new.conn.ghost_name ≡ tx.old.conn.ghost_name }
    ensures deletes { Makes result (ChangesRows (WithoutRow key.now))
        (state S.Store tx.old.conn.now) (state S.Store tx.new.conn.now) }
    ensures survives { AddsNone (state S.Store tx.old.conn.now) (state S.Store tx.new.conn.now) }
    ensures kept { HasCleanDisk (state S.Store tx.new.conn.now)
        → KeepsCommit (state S.Store tx.old.conn.now) (state S.Store tx.new.conn.now) }
    ensures ids { Makes result (UsesIds 1)
        (state S.Store tx.old.conn.now) (state S.Store tx.new.conn.now) }
    ensures cause { ErrorHasCause result
        (CannotMake (key.now, None) (state S.Store tx.old.conn.now).now.trees)
        (state S.Store tx.old.conn.now) (state S.Store tx.new.conn.now) }
{
    let table = table_number(key)?;
    let bytes: &[u8] = &key.bytes;
    tx.execute(
        "DELETE FROM rb_row WHERE tab = ?1 AND rowkey = ?2",
        params![table, bytes],
    )?;
    Ok(())
}

// the table's number, if SQLite can store it
fn table_number(key: &RowKey) -> Result<i64, Error>
    ensures is { IfOk result (λ n. n ≡ pos key.now.table) }
    ensures far { OnErr result (2 ^ 63 ≤ key.now.table) }
{
    i64::try_from(key.table).map_err(|_| Error::SqliteFailure(ErrorCode::IntegerOverflow))
}

fn set_cursor<S: Alter>(tx: &mut Transaction<'_, S>, cursor: u64) -> Result<usize, Error>
    requires inside { WhereClean IsInside (state S.Store tx.old.conn.now) }
    requires below { cursor < 2 ^ 63 }
    ensures same_reference { tx.new.conn.ghost_name ≡ tx.old.conn.ghost_name }
    ensures sets { Makes result (SetsCursor cursor)
        (state S.Store tx.old.conn.now) (state S.Store tx.new.conn.now) }
    ensures survives { AddsNone (state S.Store tx.old.conn.now) (state S.Store tx.new.conn.now) }
    ensures kept { HasCleanDisk (state S.Store tx.new.conn.now)
        → KeepsCommit (state S.Store tx.old.conn.now) (state S.Store tx.new.conn.now) }
    ensures cause { ErrorHasCause result ⊥
        (state S.Store tx.old.conn.now) (state S.Store tx.new.conn.now) }
{
    tx.execute("UPDATE rb_mark SET place = ?1", params![cursor as i64])
}
