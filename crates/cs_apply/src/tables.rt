//! The tables of one replica, `apply`, which applies a changeset to them, their copy, and their
//! places.

ghost use Rattle.std.specs.Prelude.{◌≡◌, length, IfOk, IfErr, OnOk, OnErr, Ok};
ghost use Rattle.std.specs.{Option.{option_copied}, Arc.{arc_value}, Bool.{Decides}, Borrow.{sem}};
ghost use Rattle.std.specs.FinMap as map;
ghost use Rattle.std.specs.{List.{IsDistinct}, Map.{keys_of}};
ghost use Rattle.cs_apply.specs.{Columns.{HaveColumns}, Seen.{listed}, Single.{single}};
ghost use Rattle.cs_apply.specs.{State.{compatible}, Errors.{ReportsConflict}};
ghost use Rattle.cs_apply.specs.{Changed.{IsChanged}, Lending.{LendsPlaces}, SameKey.{same_key}};

use crate::conflict::ApplyError;
use crate::held::HeldTables;
use cs_model::{Changeset, CopyIn, Row, RowKey, Schema, ShapeRef};
use std::alloc::{AllocError, Global};
use std::marker::Model;
use std::sync::Arc;

/// The tables of one replica: a schema, which of its tables are kept, and their rows. Contracts see
/// these alone, and not the places that are held for keys without rows.
#[derive(Debug, Drop)]
pub struct Tables {
    held: HeldTables,
}

impl Model for Tables {
    ghost use Rattle.cs_apply.specs.State.{TableState, state_code};

    ghost Value = { TableState };

    ghost coded = { state_code };

    ghost view = { λ t. t.held.state };
}

impl Tables {
    /// Makes empty tables of a schema. All tables made with this `Arc` share the schema. `kept` has
    /// one flag per table: whether its changes are applied.
    pub fn new(alloc: Global, schema: Arc<Schema>, kept: Vec<bool>) -> Tables
        requires { length kept.items ≡ length (arc_value schema) }
        ensures { result ≡ record {
          schema = arc_value schema;
          kept = kept.items;
          rows = map.empty;
        } }
    {
        Tables {
            held: HeldTables::new(alloc, schema, kept),
        }
    }

    /// The schema of these tables. Each row has one value for each column of its table.
    pub fn schema(&self) -> &Schema
        ensures same { result.now ≡ self.now.schema }
        ensures columns { HaveColumns self.now }
    {
        self.held.schema()
    }

    /// The index of the table with this shape's name and key flags, if it is kept.
    pub fn kept_table(&self, shape: &ShapeRef) -> Option<usize>
        ensures { result ≡ compatible self.now.schema self.now.kept shape.now }
    {
        self.held.kept_table(shape)
    }

    /// The row with this key, if there is one.
    pub fn row(&self, key: &RowKey) -> Option<&Row>
        ensures { option_copied result ≡ map.get self.now.rows key.now }
    {
        self.held.row(key)
    }

    /// All rows with their keys, by table, then by the key's bytes. Returns `AllocError` if memory
    /// runs out.
    pub fn rows_in_order(&self, alloc: Global) -> Result<Vec<(&RowKey, &Row)>, AllocError>
        ensures { IfOk result (λ rows. listed rows.items ≡ map.entries self.now.rows) }
    {
        self.held.rows_in_order(alloc)
    }

    /// Whether these tables have the same schema, kept tables and rows as the others.
    pub fn is_same(&self, other: &Tables) -> bool
        ensures { Decides result (self.now ≡ other.now) }
    {
        self.held.is_same(&other.held)
    }

    /// Whether the others are these tables with changes of rows made: the same schema and kept
    /// tables, a changed key with the row that its change gives it, or with none, and each other
    /// key with what it has here. No two changes are of one key. Each row and each change is looked
    /// at where it stands, a few times. Does not allocate.
    pub fn is_changed_to(&self, changes: &[(RowKey, Option<Row>)], other: &Tables) -> bool
        requires { IsDistinct same_key (keys_of changes.now) }
        ensures { Decides result (IsChanged self.now changes.now other.now) }
    {
        self.held.is_changed_to(changes, &other.held)
    }

    /// Applies all changes of a changeset in order. Works as `sqlite3changeset_apply` with a
    /// conflict handler that returns `SQLITE_CHANGESET_ABORT`. Skips the changes of a table that
    /// isn't in the schema, has another shape or isn't kept. They still count for the position.
    ///
    /// Returns the first conflict, or `Memory` if memory runs out. An `Err` does not change the
    /// tables.
    pub fn apply(&mut self, alloc: Global, changeset: &Changeset) -> Result<(), ApplyError>
        ensures ok { OnOk result (single self.old changeset.now ≡ Ok self.new) }
        ensures refused { IfErr result (λ e. ReportsConflict e (single self.old changeset.now)) }
        ensures err { OnErr result (self.new ≡ self.old) }
    {
        self.held.apply(alloc, changeset)
    }

    /// The tables and their places, to read.
    pub fn places(&self) -> &HeldTables
        ensures { result.now.state ≡ self.now }
    {
        &self.held
    }

    /// The tables and their places, to change. What rows are set there is seen here.
    pub fn places_mut(&mut self) -> &mut HeldTables
        ensures* writes_back { sem 𝓛 (LendsPlaces self.entry result) }
        ensures value { result.now.state ≡ self.old }
    {
        &mut self.held
    }
}

impl CopyIn for Tables {
    /// Copies the tables, so that a change to the copy or to these leaves the others as they are.
    /// The copy shares the schema, and leaves out the places of deleted rows. Returns `AllocError`
    /// if memory runs out.
    fn copy_in(&self, alloc: Global) -> Result<Tables, AllocError> {
        Ok(Tables {
            held: self.held.copied(alloc)?,
        })
    }
}
