//! Reads a replica's tables: two queries, and the values of a row of an answer.

ghost use Rattle.std.specs.Prelude.{◌≡◌, ℕ, List, false, pos, MatchOption};
ghost use Rattle.sqlite.specs.Held.{state};
ghost use Rattle.sqlite.specs.State.{HasCleanDisk};
ghost use Rattle.sqlite_value.specs.Order.{column};
ghost use Rattle.sqlite_value.specs.declared.value.Value.TheVariants.{Int, Blob};
ghost use Rattle.replica_store.specs.Causes.{ErrorHasCause};
ghost use Rattle.replica_store.specs.Layout.{replica_schema};
ghost use Rattle.replica_store.specs.Reading.{shown_row, shown_mark, IsMarkAnswer};
ghost use Rattle.replica_store.specs.Reading.{is_natural, is_blob_value};
ghost use Rattle.replica_store.specs.Steps.{IsUndone, AfterError, ListsTree};

use sqlite::types::ValueRef;
use sqlite::{Alter, Connection, Error, Row};

/// All rows, each as its table's number, its key and its body.
pub(crate) fn stored_rows<S: Alter>(conn: &mut Connection<S>) -> Result<Vec<Row>, Error>
    requires { HasCleanDisk (state S.Store conn.old) → conn.old.schema ≡ replica_schema }
    ensures lists { ListsTree shown_row 0 result
        (state S.Store conn.old) (state S.Store conn.new) }
    ensures undone { AfterError result IsUndone (state S.Store conn.old) (state S.Store conn.new) }
    ensures mode { conn.old.in_transaction ≡ false → conn.new.in_transaction ≡ false }
    ensures cause { ErrorHasCause result ((state S.Store conn.old).is_open ≡ false)
        (state S.Store conn.old) (state S.Store conn.new) }
{
    conn.query_all("SELECT tab, rowkey, body FROM rb_row", &[])
}

/// All marks, each as its id and its place.
pub(crate) fn stored_marks<S: Alter>(conn: &mut Connection<S>) -> Result<Vec<Row>, Error>
    requires { HasCleanDisk (state S.Store conn.old) → conn.old.schema ≡ replica_schema }
    ensures lists { ListsTree shown_mark 2 result
        (state S.Store conn.old) (state S.Store conn.new) }
    ensures undone { AfterError result IsUndone (state S.Store conn.old) (state S.Store conn.new) }
    ensures mode { conn.old.in_transaction ≡ false → conn.new.in_transaction ≡ false }
    ensures cause { ErrorHasCause result ((state S.Store conn.old).is_open ≡ false)
        (state S.Store conn.old) (state S.Store conn.new) }
{
    conn.query_all("SELECT id, place FROM rb_mark", &[])
}

/// The place of the one mark, if there is one, its id is 1 and the place isn't negative.
pub(crate) fn only_mark(marks: &[Row]) -> Option<u64>
    ensures { MatchOption result ((place : ℕ) → IsMarkAnswer marks.now place → ⊥)
        (IsMarkAnswer marks.now) }
{
    let [mark] = marks else {
        return None;
    };
    if natural_at(mark, 0) != Some(1) {
        return None;
    }
    natural_at(mark, 1)
}

/// The INTEGER in this column, if it isn't negative.
pub(crate) fn natural_at(row: &Row, at: usize) -> Option<u64>
    ensures { MatchOption result ((n : ℕ) → column row.now at ≡ Int (pos n) → ⊥)
        (λ n. column row.now at ≡ Int (pos n)) }
{
    match row.get_ref(at) {
        Ok(ValueRef::Int(number)) => u64::try_from(number).ok(),
        _ => None,
    }
}

/// Whether the column has an INTEGER that isn't negative.
pub(crate) fn is_natural_at(row: &Row, at: usize) -> bool
    ensures { result ≡ is_natural (column row.now at) }
{
    match row.get_ref(at) {
        Ok(ValueRef::Int(number)) => number >= 0,
        _ => false,
    }
}

/// Whether the column has a BLOB.
pub(crate) fn is_blob_at(row: &Row, at: usize) -> bool
    ensures { result ≡ is_blob_value (column row.now at) }
{
    matches!(row.get_ref(at), Ok(ValueRef::Blob(_)))
}

/// The bytes of the BLOB in this column, if there is one.
pub(crate) fn blob_at(row: &Row, at: usize) -> Option<&[u8]>
    ensures { MatchOption result ((bytes : List ℕ) → column row.now at ≡ Blob bytes → ⊥)
        (λ bytes. column row.now at ≡ Blob bytes.now) }
{
    match row.get_ref(at) {
        Ok(ValueRef::Blob(bytes)) => Some(bytes),
        _ => None,
    }
}
