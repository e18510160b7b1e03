//! The rows of all tables, and a log that undoes changes without allocating.
//!
//! A key that once had a row keeps its place, which may be empty. So each place keeps its index
//! while a changeset is applied. A change moves the old row from its place into the log, and moving
//! it back needs no room.

ghost use Rattle.std.specs.Prelude.{◌≡◌, [], length, take, Option, List, Some, Ok, slice_get};
ghost use Rattle.std.specs.{Prelude.{IfSome, IfOk, IfErr, OnOk}, Option.{option_map}};
ghost use Rattle.std.specs.Bool.{Decides};
ghost use Rattle.std.specs.FinMap as map;
ghost use Rattle.cs_model.specs.{declared.value.Value.{Value}, declared.row_key.RowKey.{RowKey}};
ghost use Rattle.cs_apply.specs.{Effect.{inserted}, Errors.{ReportsKind}, Seen.{listed}};
ghost use Rattle.cs_apply.specs.State.{AreIn};
ghost use Rattle.cs_apply.specs.Steps.{empty_after, filled, rows_of, rows_in, put, set_at, undone};
ghost use Rattle.cs_apply.specs.Steps.{Back};

use crate::change_error::ChangeError;
use crate::conflict::ConflictKind;
use cs_model::{CopyIn, Row, RowKey, same_values};
use indexmap::IndexMap;
use indexmap::map::Entry;
use std::alloc::{AllocError, Global};
use std::mem::replace;

/// A logged step: the index of its place, and the row that was there before, if any.
#[derive(Debug, Drop)]
pub(crate) struct UndoStep {
    place: usize,
    back: Option<Row>,
}

/// The places, and the steps of the changeset being applied.
#[derive(Debug, Drop)]
pub(crate) struct Places {
    pub(crate) rows: IndexMap<RowKey, Option<Row>>,
    // Empty between two changesets; keeps its capacity for the next.
    log: Vec<UndoStep>,
    // The approximate number of empty places. It only decides when to sweep them.
    pub(crate) empty: usize,
}

impl Places {
    /// No places.
    pub(crate) fn new(alloc: Global) -> Places
        ensures rows { result.rows.entries ≡ [] }
        ensures log { result.log.items ≡ [] }
    {
        Places {
            rows: IndexMap::new(alloc),
            log: Vec::new(alloc),
            empty: 0,
        }
    }

    /// The number of places.
    pub(crate) fn len(&self) -> usize
        ensures { result ≡ length self.now.rows.entries }
    {
        self.rows.len()
    }

    /// The row with this key and the index of its place, if there is one.
    pub(crate) fn find(&self, key: &RowKey) -> Option<(usize, &Row)>
        ensures row { option_map (λ p. p.1.now) result ≡ map.get (rows_in self.now) key.now }
        ensures place { IfSome result (λ p. slice_get self.now.rows.entries p.0
            ≡ Some (key.now, Some p.1.now)) }
    {
        let place = self.rows.get_index_of(key)?;
        let (_, row) = self.rows.get_index(place)?;
        Some((place, row.as_ref()?))
    }

    // whether each of these rows is a row of the others, too, under the same key
    fn are_in(&self, others: &Places) -> bool
        ensures { Decides result (AreIn (rows_in self.now) (rows_in others.now)) }
    {
        // for its clause that no two keys are equal
        let _places = self.rows.len();
        for (key, place) in self.rows.iter() {
            if let Some(row) = place
                && !others.has(key, row)
            {
                return false;
            }
        }
        true
    }

    /// Whether these rows are the rows of the others, under the same keys.
    pub(crate) fn has_rows_of(&self, others: &Places) -> bool
        ensures { Decides result (rows_in self.now ≡ rows_in others.now) }
    {
        self.are_in(others) && others.are_in(self)
    }

    /// Whether this key has this row.
    pub(crate) fn has(&self, key: &RowKey, row: &Row) -> bool
        ensures { Decides result (map.get (rows_in self.now) key.now ≡ Some row.now) }
    {
        match self.find(key) {
            Some((_, found)) => same_values(found, row),
            None => false,
        }
    }

    /// All rows with their keys, by table, then by the key's bytes. Returns `AllocError` if memory
    /// runs out.
    pub(crate) fn in_order(&self, alloc: Global) -> Result<Vec<(&RowKey, &Row)>, AllocError>
        ensures { IfOk result (λ pairs. listed pairs.items ≡ map.entries (rows_in self.now)) }
    {
        // for its clause that no two keys are equal
        let _places = self.rows.len();
        let mut pairs = self.filled(alloc)?;
        pairs.sort_unstable_by(|a, b| a.0.cmp(b.0));
        Ok(pairs)
    }

    // The same in the order of the places.
    fn filled(&self, alloc: Global) -> Result<Vec<(&RowKey, &Row)>, AllocError>
        ensures { IfOk result (λ pairs. listed pairs.items ≡ filled self.now.rows.entries) }
    {
        let mut pairs = Vec::with_capacity(alloc, self.rows.len())?;
        for (key, place) in self.rows.iter() {
            let Some(row) = place else {
                continue;
            };
            pairs.push((key, row))?;
        }
        Ok(pairs)
    }

    /// Copies the rows into new memory, without empty places and without steps. Returns
    /// `AllocError` if memory runs out.
    pub(crate) fn copied(&self, alloc: Global) -> Result<Places, AllocError>
        ensures rows { IfOk result (λ copy. rows_in copy ≡ rows_in self.now) }
        ensures log { IfOk result (λ copy. copy.log.items ≡ []) }
    {
        // for its clause that no two keys are equal
        let _places = self.rows.len();
        let pairs = self.filled(alloc)?;
        let mut rows = IndexMap::with_capacity(alloc, pairs.len())?;
        for pair in &pairs {
            add_copy(&mut rows, alloc, pair.0, pair.1)?;
        }
        Ok(Places {
            rows,
            log: Vec::new(alloc),
            empty: 0,
        })
    }

    /// Sets or clears the row at a place, and logs the old one. An `Err` does not change the rows.
    pub(crate) fn set(&mut self, place: usize, row: Option<Row>) -> Result<(), AllocError>
        ensures ok { OnOk result ((key : RowKey) (old : Option (List Value))
            → slice_get self.old.rows.entries place ≡ Some (key, old)
            → rows_in self.new ≡ put (rows_in self.old) key row) }
        ensures back { Back self.old self.new }
    {
        self.log.reserve(1)?;
        if let Some(found) = self.rows.get_index_mut(place) {
            let back = replace(found, row);
            self.log.push_reserved(UndoStep { place, back });
        }
        Ok(())
    }

    /// Inserts a row under a key that has none. An `Err` does not change the rows.
    pub(crate) fn insert(&mut self, key: RowKey, row: Row) -> Result<(), ChangeError>
        ensures ok { OnOk result (inserted (rows_in self.old) key row
            (map.get (rows_in self.old) key) ≡ Ok (rows_in self.new)) }
        ensures back { Back self.old self.new }
        ensures refused { IfErr result (λ e. ReportsKind e
            (inserted (rows_in self.old) key row (map.get (rows_in self.old) key))) }
    {
        let place = match self.rows.entry(key)? {
            Entry::Vacant(end) => {
                // `take_back` truncates new places, so this needs no step
                end.insert(Some(row));
                return Ok(());
            }
            Entry::Occupied(place) => {
                if place.get().is_some() {
                    return Err(ChangeError::Conflict(ConflictKind::Conflict));
                }
                place.index()
            }
        };
        Ok(self.set(place, Some(row))?)
    }

    /// Undoes all logged steps, and truncates the places to this number. Does not allocate.
    pub(crate) fn take_back(&mut self, places: usize)
        ensures rows { self.new.rows.entries
            ≡ take places (undone self.old.log.items self.old.rows.entries) }
        ensures log { self.new.log.items ≡ [] }
    {
        while let Some(step) = self.log.pop() {
            self.step_back(step);
        }
        self.rows.truncate(places);
    }

    // Undoes one step.
    fn step_back(&mut self, step: UndoStep)
        ensures rows { self.new.rows.entries ≡ set_at step.place step.back self.old.rows.entries }
        ensures log { self.new.log.items ≡ self.old.log.items }
    {
        let UndoStep { place, back } = step;
        if let Some(found) = self.rows.get_index_mut(place) {
            *found = back;
        }
    }

    /// Commits all that was done: clears the log, and sweeps.
    pub(crate) fn keep(&mut self)
        ensures rows { rows_in self.new ≡ rows_in self.old }
        ensures log { self.new.log.items ≡ [] }
    {
        self.empty = counted(self.empty, &self.log);
        self.log.clear();
        self.sweep();
    }

    /// Drops the empty places once they are the majority. So the deletes since the last sweep pay
    /// for the next. Does not allocate.
    fn sweep(&mut self)
        ensures rows { rows_in self.new ≡ rows_in self.old }
        ensures log { self.new.log.items ≡ self.old.log.items }
    {
        if self.empty > self.rows.len() / 2 {
            self.rows.retain(|_, row| row.is_some());
            self.empty = 0;
        }
    }
}

// Inserts copies of a key and its row.
fn add_copy(
    rows: &mut IndexMap<RowKey, Option<Row>>,
    alloc: Global,
    key: &RowKey,
    row: &Row,
) -> Result<(), AllocError>
    ensures { OnOk result (rows_of rows.new.entries
        ≡ map.insert (rows_of rows.old.entries) key.now row.now) }
{
    // for its clause that no two keys are equal
    let _places = rows.len();
    let key = key.copy_in(alloc)?;
    let row = row.copy_in(alloc)?;
    rows.insert(key, Some(row))?;
    Ok(())
}

// The approximate number of empty places after these steps.
fn counted(empty: usize, log: &[UndoStep]) -> usize
    ensures { result ≡ empty_after empty log.now }
{
    let mut count = empty;
    for step in log {
        count = match &step.back {
            Some(_) => count.saturating_add(1),
            None => count.saturating_sub(1),
        };
    }
    count
}
