//! Whether a schema is that of a replica's database.

ghost use Rattle.std.specs.Prelude.{◌≡◌, ◌↔◌, [], ◌∷◌, codes, false, true, IsTrue};
ghost use Rattle.sqlite_value.specs.Keys.{plain};
ghost use Rattle.replica_store.specs.Layout.{plain_column, rb_row, rb_mark, replica_schema};
ghost use Rattle.replica_store.specs.Layout.{key_index, HasNoRules};

use sqlite_schema::code::Terms;
use sqlite_schema::schema::{Column, Index, Kind, Schema, Table};
use sqlite_value::keys::{Collation, Order};
use sqlite_value::value::{Bytes, Value};

/// Whether there are the two tables of a replica, the index of the first one's key, and nothing
/// else.
pub(crate) fn is_of_replica(schema: &Schema) -> bool
    ensures { IsTrue result ↔ schema.now ≡ replica_schema }
{
    are_both_tables(schema.tables.as_slice())
        && are_key_indexes(schema.indexes.as_slice())
        && schema.views.is_empty()
}

fn are_both_tables(tables: &[Table]) -> bool
    ensures { IsTrue result ↔ tables.now ≡ rb_row ∷ rb_mark ∷ [] }
{
    let [rows, mark] = tables else {
        return false;
    };
    is_row_table(rows) && is_mark_table(mark)
}

fn are_key_indexes(indexes: &[Index]) -> bool
    ensures { IsTrue result ↔ indexes.now ≡ key_index ∷ [] }
{
    let [index] = indexes else {
        return false;
    };
    is_key_index(index)
}

fn is_row_table(table: &Table) -> bool
    ensures { IsTrue result ↔ table.now ≡ rb_row }
{
    is_text(&table.name, b"rb_row")
        && table.tree == 0
        && are_row_columns(table.columns.as_slice())
        && table.key.is_none()
        && are_key_places(table.primary.as_slice())
        && are_row_uniques(table)
        && is_one_plain(table.orders.as_slice())
        && has_no_rules(table)
}

fn is_mark_table(table: &Table) -> bool
    ensures { IsTrue result ↔ table.now ≡ rb_mark }
{
    is_text(&table.name, b"rb_mark")
        && table.tree == 2
        && are_mark_columns(table.columns.as_slice())
        && table.key == Some(0)
        && matches!(table.primary.as_slice(), [0])
        && table.uniques.is_empty()
        && table.orders.is_empty()
        && has_no_rules(table)
}

fn is_key_index(index: &Index) -> bool
    ensures { IsTrue result ↔ index.now ≡ key_index }
{
    is_text(&index.name, b"sqlite_autoindex_rb_row_1")
        && index.tree == 1
        && index.table == 0
        && are_key_places(index.columns.as_slice())
        && index.order == Order::PLAIN
        && index.is_unique
}

fn are_row_columns(columns: &[Column]) -> bool
    ensures { IsTrue result ↔ columns.now ≡ rb_row.columns }
{
    let [tab, rowkey, body] = columns else {
        return false;
    };
    is_plain_column(tab, b"tab", Kind::Integer, true)
        && is_plain_column(rowkey, b"rowkey", Kind::Any, true)
        && is_plain_column(body, b"body", Kind::Any, true)
}

fn are_mark_columns(columns: &[Column]) -> bool
    ensures { IsTrue result ↔ columns.now ≡ rb_mark.columns }
{
    let [id, place] = columns else {
        return false;
    };
    is_plain_column(id, b"id", Kind::Integer, false)
        && is_plain_column(place, b"place", Kind::Integer, true)
}

fn is_plain_column(column: &Column, name: &[u8], kind: Kind, not_null: bool) -> bool
    ensures { IsTrue result ↔ column.now ≡ plain_column name.now kind not_null }
{
    is_text(&column.name, name)
        && column.kind == kind
        && !column.is_strict
        && column.not_null == not_null
        && matches!(column.default, Value::Null)
        && column.collation == Collation::Binary
}

// the key is the one UNIQUE
fn are_row_uniques(table: &Table) -> bool
    ensures { IsTrue result ↔ table.now.uniques ≡ rb_row.uniques }
{
    let [key] = table.uniques.as_slice() else {
        return false;
    };
    are_key_places(key.as_slice())
}

// no CHECK, reference, computed default or AUTOINCREMENT
fn has_no_rules(table: &Table) -> bool
    ensures { IsTrue result ↔ HasNoRules table.now }
{
    are_none(&table.checks)
        && table.references.is_empty()
        && table.computed.is_empty()
        && table.stamps.places.is_empty()
        && are_none(&table.stamps.terms)
        && table.stamps.formats.is_empty()
        && !table.is_counted
}

fn is_text(text: &Bytes, wanted: &[u8]) -> bool
    ensures { IsTrue result ↔ text.now ≡ wanted.now }
{
    text.as_slice() == wanted
}

// the places of `tab` and `rowkey`
fn are_key_places(places: &[usize]) -> bool
    ensures { IsTrue result ↔ places.now ≡ 1 ∷ 2 ∷ [] }
{
    matches!(places, [1, 2])
}

fn is_one_plain(orders: &[Order]) -> bool
    ensures { IsTrue result ↔ orders.now ≡ plain ∷ [] }
{
    let [order] = orders else {
        return false;
    };
    *order == Order::PLAIN
}

fn are_none(terms: &Terms) -> bool
    ensures { IsTrue result ↔ terms.now ≡ [] }
{
    terms.roots.is_empty()
}
