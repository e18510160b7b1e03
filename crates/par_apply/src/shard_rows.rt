//! The rows that a worker has changed so far, over tables that are only read.

ghost use Rattle.std.specs.Prelude.{◌≡◌, ◌↔◌, IsTrue, [], Some, OnOk, OnErr, IfOk, IfErr};
ghost use Rattle.std.specs.Option.{option_copied};
ghost use Rattle.std.specs.FinMap as map;
ghost use Rattle.std.specs.List.{IsDistinct};
ghost use Rattle.std.specs.Map.{keys_of};
ghost use Rattle.cs_apply.specs.declared.change_error.ChangeError.TheVariants.{Memory};
ghost use Rattle.cs_apply.specs.SameKey.{IsEditAt, same_key};
ghost use Rattle.par_apply.specs.RowChanges.{overlaid};
ghost use Rattle.par_apply.specs.Workers.{Sifts};

use crate::distinct::RowChange;
use cs_apply::{ChangeError, Tables};
use cs_model::{Row, RowKey, same_values};
use indexmap::IndexMap;
use std::alloc::{AllocError, Global};

/// Keys, each with the row that it got last, or none.
#[derive(Debug, Drop)]
pub(crate) struct ShardRows {
    pub(crate) rows: IndexMap<RowKey, Option<Row>>,
}

impl ShardRows {
    /// No changes.
    pub(crate) fn new(alloc: Global) -> ShardRows
        ensures { result.rows.entries ≡ [] }
    {
        ShardRows {
            rows: IndexMap::new(alloc),
        }
    }

    /// The row of a key after the changes so far, if there is one.
    pub(crate) fn row<'a>(&'a self, tables: &'a Tables, key: &RowKey) -> Option<&'a Row>
        ensures { option_copied result
            ≡ map.get (overlaid tables.now.rows self.now.rows.entries) key.now }
    {
        if let Some(place) = self.rows.get(key) {
            return place.as_ref();
        }
        tables.row(key)
    }

    /// Gives a key a row, or none. An `Err` changes nothing.
    pub(crate) fn put(&mut self, key: RowKey, row: Option<Row>) -> Result<(), ChangeError>
        ensures ok { OnOk result (IsEditAt self.old.rows.entries self.new.rows.entries key
            (Some row)) }
        ensures err { OnErr result (self.new.rows.entries ≡ self.old.rows.entries) }
        ensures memory { IfErr result (λ e. e ≡ Memory) }
    {
        self.rows.insert(key, row)?;
        Ok(())
    }

    /// The keys whose row differs from that of the tables, each with its row, or none. Returns
    /// `AllocError` if memory runs out.
    pub(crate) fn changes(
        self,
        alloc: Global,
        tables: &Tables,
    ) -> Result<Vec<RowChange>, AllocError>
        ensures left { IfOk result (λ changes.
            Sifts tables.now.rows self.rows.entries changes.items) }
        ensures distinct { IsDistinct same_key (keys_of self.rows.entries) }
    {
        let mut changes = Vec::with_capacity(alloc, self.rows.len())?;
        for (key, row) in self.rows {
            if is_same(tables.row(&key), &row) {
                continue;
            }
            changes.push((key, row))?;
        }
        Ok(changes)
    }
}

// Whether a key has this row already, or none already.
fn is_same(old: Option<&Row>, new: &Option<Row>) -> bool
    ensures { IsTrue result ↔ (option_copied old.entry ≡ new.now) }
{
    match (old, new) {
        (Some(old), Some(new)) => same_values(old, new),
        (None, None) => true,
        _ => false,
    }
}
