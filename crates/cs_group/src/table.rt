//! What the changes of one table come to so far, row by row.

ghost use Rattle.std.specs.Prelude.{◌≡◌, ◌++◌, ◌∷◌, [], List, None, OnOk};
ghost use Rattle.std.specs.List.{AllByRecursion};
ghost use Rattle.cs_model.specs.declared.change.Change.{Change};
ghost use Rattle.cs_model.specs.KeyRun.{TellsKey};
ghost use Rattle.cs_group.specs.Group.{changed_row};
ghost use Rattle.cs_group.specs.Table.{HoldSlots, IsOfTable, met_at, row_place, slots_seen};

use crate::key::Key;
use crate::merge::{merge_at, only};
use crate::slot::{Slot, met};
use cs_model::{KeyColumns, PackedChange, SectionRef, key_columns};
use indexmap::IndexMap;
use std::alloc::{AllocError, Global};

/// The rows of a table that changes are about, and what each row's changes come to so far. A row
/// that came to nothing keeps its slot, and takes a new one when it comes again.
#[derive(Drop)]
pub(crate) struct Table<'s, 'a> {
    // the table's key flags
    flags: &'s [u8],
    // the place of each row's last slot, by the row's key
    places: IndexMap<Key<'a>, usize>,
    // in the order in which the rows began
    pub(crate) slots: Vec<Option<Slot<'a>>>,
}

impl<'s, 'a> Table<'s, 'a> {
    /// A table with these key flags, without changes.
    pub(crate) fn new(alloc: Global, flags: &'s [u8]) -> Table<'s, 'a>
        ensures flags { result.flags.now ≡ flags.now }
        ensures none { HoldSlots flags.now (row_place result.places.entries)
            (slots_seen result.slots.items) [] }
    {
        Table {
            flags,
            places: IndexMap::new(alloc),
            slots: Vec::new(alloc),
        }
    }

    // Adds a change of a row that has none.
    fn begin(
        &mut self,
        alloc: Global,
        key: Key<'a>,
        new: PackedChange<'a>,
    ) -> Result<(), AllocError>
        ensures flags { self.new.flags.now ≡ self.old.flags.now }
        ensures ok { OnOk result ((changes : List Change)
            → AllByRecursion (IsOfTable self.old.flags.now) changes
            → IsOfTable self.old.flags.now new.entry
            → key.entry ≡ changed_row self.old.flags.now new.entry
            → met_at (slots_seen self.old.slots.items)
            (row_place self.old.places.entries key.entry) ≡ None
            → HoldSlots self.old.flags.now (row_place self.old.places.entries)
            (slots_seen self.old.slots.items) changes
            → HoldSlots self.old.flags.now (row_place self.new.places.entries)
            (slots_seen self.new.slots.items) (changes ++ new.entry ∷ [])) }
    {
        let Some(first) = only(alloc, self.flags, new)? else {
            return Ok(());
        };
        self.places.insert(key, self.slots.len())?;
        self.slots.push(Some(first))?;
        Ok(())
    }

    // Adds one more change. `columns` are the table's key columns, if they stand next to each
    // other.
    fn add(
        &mut self,
        alloc: Global,
        columns: Option<KeyColumns>,
        change: PackedChange<'a>,
    ) -> Result<(), AllocError>
        requires { TellsKey self.old.flags.now columns }
        ensures flags { self.new.flags.now ≡ self.old.flags.now }
        ensures ok { OnOk result ((changes : List Change)
            → AllByRecursion (IsOfTable self.old.flags.now) changes
            → IsOfTable self.old.flags.now change.entry
            → HoldSlots self.old.flags.now (row_place self.old.places.entries)
            (slots_seen self.old.slots.items) changes
            → HoldSlots self.old.flags.now (row_place self.new.places.entries)
            (slots_seen self.new.slots.items) (changes ++ change.entry ∷ [])) }
    {
        let key = Key::of(alloc, self.flags, columns, &change)?;
        let found = self.places.get(&key).copied();
        if let Some(place) = met(&self.slots, found) {
            return merge_at(alloc, self.flags, place, &mut self.slots, &change.unpack());
        }
        self.begin(alloc, key, change)
    }

    /// Adds the changes of a section of the table.
    pub(crate) fn add_all(
        &mut self,
        alloc: Global,
        section: &SectionRef<'a>,
    ) -> Result<(), AllocError>
        ensures flags { self.new.flags.now ≡ self.old.flags.now }
        ensures ok { OnOk result ((before : List Change)
            → AllByRecursion (IsOfTable self.old.flags.now) before
            → AllByRecursion (IsOfTable self.old.flags.now) section.now.changes
            → HoldSlots self.old.flags.now (row_place self.old.places.entries)
            (slots_seen self.old.slots.items) before
            → HoldSlots self.old.flags.now (row_place self.new.places.entries)
            (slots_seen self.new.slots.items) (before ++ section.now.changes)) }
    {
        let columns = key_columns(self.flags);
        for change in section.packed_changes() {
            self.add(alloc, columns, change)?;
        }
        Ok(())
    }
}
