//! `HeldTables`: tables that can hold a place for a key without a row. The place is made first, and
//! may need memory; the row is set later, without allocating.

ghost use Rattle.std.specs.Prelude.{◌≡◌, length, not, Some, None, IfOk, IfErr, OnOk, OnErr, Ok};
ghost use Rattle.std.specs.{Option.{option_copied}, Arc.{arc_value}, Bool.{Decides}};
ghost use Rattle.std.specs.FinMap as map;
ghost use Rattle.std.specs.FinSet as set;
ghost use Rattle.std.specs.{List.{IsDistinct}, Map.{keys_of}};
ghost use Rattle.cs_model.specs.declared.row_key.RowKey.{RowKey as Key};
ghost use Rattle.cs_apply.specs.{Columns.{HaveColumns}, Errors.{ReportsConflict}};
ghost use Rattle.cs_apply.specs.Held.{FitsKey, KeyHasPlace, held_also, is_key_placed, with_row};
ghost use Rattle.cs_apply.specs.{Seen.{listed}, Single.{single}};
ghost use Rattle.cs_apply.specs.{Changed.{IsChanged}, SameKey.{same_key}, State.{compatible}};

use crate::changes::{change_all, kept_table};
use crate::conflict::ApplyError;
use crate::places::Places;
use cs_model::{Changeset, Row, RowKey, Schema, ShapeRef};
use std::alloc::{AllocError, Global};
use std::marker::Model;
use std::sync::Arc;

/// Tables, and keys that have a place and no row. Each key with a row has a place, too. A deleted
/// row leaves its place, until the next sweep.
#[derive(Debug, Drop)]
pub struct HeldTables {
    schema: Arc<Schema>,
    kept: Vec<bool>,
    places: Places,
}

impl Model for HeldTables {
    ghost use Rattle.std.specs.{Prelude.{◌≡◌, [], length}, Arc.{arc_value}};
    ghost use Rattle.cs_apply.specs.Columns.{RowsHaveColumns};
    ghost use Rattle.cs_apply.specs.{Held.{HeldState, held_keys, held_state_code}, Steps.{rows_of}};

    ghost Value = { HeldState };

    ghost coded = { held_state_code };

    ghost view = { λ t. record {
      state = record {
        schema = arc_value t.schema;
        kept = t.kept.items;
        rows = rows_of t.places.rows.entries;
      };
      held = held_keys t.places.rows.entries;
    } };

    ghost invariant = { λ t. (length t.kept.items ≡ length (arc_value t.schema))
        × (t.places.log.items ≡ [])
        × RowsHaveColumns (arc_value t.schema) (rows_of t.places.rows.entries) };
}

impl HeldTables {
    /// Makes empty tables of a schema, without places. `kept` has one flag per table: whether its
    /// changes are applied.
    pub(crate) fn new(alloc: Global, schema: Arc<Schema>, kept: Vec<bool>) -> HeldTables
        requires { length kept.items ≡ length (arc_value schema) }
        ensures { result ≡ record {
          state = record {
            schema = arc_value schema;
            kept = kept.items;
            rows = map.empty;
          };
          held = set.empty;
        } }
    {
        HeldTables {
            schema,
            kept,
            places: Places::new(alloc),
        }
    }

    /// The schema of these tables. Each row has one value for each column of its table.
    pub fn schema(&self) -> &Schema
        ensures same { result.now ≡ self.now.state.schema }
        ensures columns { HaveColumns self.now.state }
    {
        &self.schema
    }

    /// The index of the table with this shape's name and key flags, if it is kept.
    pub fn kept_table(&self, shape: &ShapeRef) -> Option<usize>
        ensures { result ≡ compatible self.now.state.schema self.now.state.kept shape.now }
    {
        kept_table(&self.schema, &self.kept, shape)
    }

    /// The row with this key, if there is one.
    pub fn row(&self, key: &RowKey) -> Option<&Row>
        ensures { option_copied result ≡ map.get self.now.state.rows key.now }
    {
        let (_, row) = self.places.find(key)?;
        Some(row)
    }

    /// All rows with their keys, by table, then by the key's bytes. Returns `AllocError` if memory
    /// runs out.
    pub(crate) fn rows_in_order(&self, alloc: Global) -> Result<Vec<(&RowKey, &Row)>, AllocError>
        ensures { IfOk result (λ rows. listed rows.items ≡ map.entries self.now.state.rows) }
    {
        self.places.in_order(alloc)
    }

    /// Copies the tables, without the places that have no row. The copy shares the schema. Returns
    /// `AllocError` if memory runs out.
    pub(crate) fn copied(&self, alloc: Global) -> Result<HeldTables, AllocError>
        ensures { IfOk result (λ copy. copy.state ≡ self.now.state) }
    {
        Ok(HeldTables {
            schema: Arc::try_clone(&self.schema)?,
            kept: Vec::from_slice(alloc, &self.kept)?,
            places: self.places.copied(alloc)?,
        })
    }

    /// Whether these tables have the same schema, kept tables and rows as the others. Places
    /// without rows don't count.
    pub(crate) fn is_same(&self, other: &HeldTables) -> bool
        ensures { Decides result (self.now.state ≡ other.now.state) }
    {
        self.has_setup_of(other) && self.places.has_rows_of(&other.places)
    }

    /// Whether the others have the same schema and kept tables, and these rows with these changes
    /// made.
    pub(crate) fn is_changed_to(
        &self,
        changes: &[(RowKey, Option<Row>)],
        other: &HeldTables,
    ) -> bool
        requires { IsDistinct same_key (keys_of changes.now) }
        ensures { Decides result (IsChanged self.now.state changes.now other.now.state) }
    {
        self.has_setup_of(other) && self.places.are_changed_to(changes, &other.places)
    }

    // whether the schema and the kept tables are the same
    fn has_setup_of(&self, other: &HeldTables) -> bool
        ensures { Decides result ((self.now.state.schema ≡ other.now.state.schema)
            × (self.now.state.kept ≡ other.now.state.kept)) }
    {
        self.schema.tables() == other.schema.tables() && self.kept == other.kept
    }

    /// Applies all changes of a changeset, as `Tables::apply`. Places may go. An `Err` changes
    /// neither the rows nor the places.
    pub(crate) fn apply(&mut self, alloc: Global, changeset: &Changeset) -> Result<(), ApplyError>
        ensures ok { OnOk result (single self.old.state changeset.now ≡ Ok self.new.state) }
        ensures refused { IfErr result (λ e. ReportsConflict e
            (single self.old.state changeset.now)) }
        ensures err { OnErr result (self.new ≡ self.old) }
    {
        let places = self.places.len();
        let applied = change_all(&mut self.places, alloc, &self.schema, &self.kept, changeset);
        if applied.is_ok() {
            self.places.keep();
        } else {
            self.places.take_back(places);
        }
        applied
    }

    /// Makes a place for a key, and returns whether it made one: a key that has a row or a place
    /// stays as it is. Returns `AllocError` if memory runs out, and then changes nothing.
    pub fn hold(&mut self, key: RowKey) -> Result<bool, AllocError>
        ensures ok { OnOk result (self.new ≡ held_also self.old key) }
        ensures made { IfOk result (λ made. made ≡ not (is_key_placed self.old key)) }
        ensures err { OnErr result (self.new ≡ self.old) }
    {
        // for its clause that no two keys are equal
        let _places = self.places.rows.len();
        if let Some(_) = self.places.rows.get(&key) {
            return Ok(false);
        }
        self.places.rows.insert(key, None)?;
        Ok(true)
    }

    /// Sets the row of a key that has a row or a place. Does not allocate.
    pub fn set(&mut self, key: &RowKey, row: Row)
        requires there { KeyHasPlace self.old key.now }
        requires fits { FitsKey self.old.state key.now row }
        ensures { self.new ≡ with_row self.old key.now (Some row) }
    {
        let Some(place) = self.places.rows.get_mut(key) else {
            return;
        };
        *place = Some(row);
    }

    /// Takes a key out, with its row or its place. Does not allocate.
    pub fn unset(&mut self, key: &RowKey)
        ensures { self.new ≡ with_row self.old key.now None }
    {
        let _places = self.places.rows.len();
        self.places.rows.swap_remove(key);
    }
}
