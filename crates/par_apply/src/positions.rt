//! `split`: the positions of each shard's changes. Several threads compute the changes' shards.

ghost use Rattle.std.specs.Prelude.{◌≡◌, ◌<◌, ◌≤◌, ◌+◌, ◌^◌, ◌++◌, ◌∷◌, ◌==◌, [], ℕ, Bool, IfOk};
ghost use Rattle.std.specs.Prelude.{List, OnOk, if◌then◌else◌, length, map, slice_index_or};
ghost use Rattle.std.specs.Prelude.{vec_len};
ghost use Rattle.cs_apply.specs.Single.{changes_of};
ghost use Rattle.cs_model.specs.declared.row_key.RowKey.{RowKey as Key};
ghost use Rattle.cs_model.specs.{Key.{key_of}, Seen.{change_seen}};
ghost use Rattle.par_apply.specs.KeyedChanges.{key_read, positions_by_key, shard_read};
ghost use Rattle.par_apply.specs.Shards.{of_shard, section_positions, shard_number};
ghost use Rattle.par_apply.specs.Shards.{taken_positions};

use crate::shard::with_key;
use cs_model::{ChangeRef, Changeset, Op, RecordRef, Schema, SectionRef};
use rayon::prelude::*;
use std::alloc::{AllocError, Global};
use std::thread::Threads;

/// A change of a table in the schema: its position, and what its key is read from.
#[derive(Drop)]
struct KeyedChange<'a> {
    position: usize,
    // the table's index in the schema
    table: usize,
    // the table's key flags
    flags: &'a [u8],
    // the record that identifies the row
    from: RecordRef<'a>,
}

impl<'a> KeyedChange<'a> {
    // The change at a position; its table has this index and these key flags.
    fn of(position: usize, table: usize, flags: &'a [u8], change: ChangeRef<'a>) -> KeyedChange<'a>
        ensures position { result.position ≡ position }
        ensures key { key_read result ≡ key_of table flags.now (change_seen change.entry) }
    {
        let from = match change.op {
            Op::Insert => change.after,
            Op::Update | Op::Delete => change.before,
        };
        KeyedChange {
            position,
            table,
            flags,
            from,
        }
    }

    // The number of the shard that its key is of, among `n`.
    fn shard(&self, n: usize) -> u8
        requires some { 0 < n }
        requires few { n ≤ 16 }
        ensures { result ≡ shard_read n self.now }
    {
        (with_key(self.table, self.flags, &self.from, n) % n) as u8
    }
}

/// The positions of each shard's changes, in rising order: a list for each of `n` shards. A change
/// whose table is not in the schema, or has another shape there, is in no list. As many threads as
/// there are processors compute the shards, each change's once. Returns `AllocError` if memory runs
/// out.
pub fn split<R: Threads + Sync>(
    rt: &R,
    alloc: Global,
    changeset: &Changeset,
    schema: &Schema,
    n: usize,
) -> Result<Vec<Vec<usize>>, AllocError>
    requires some { 0 < n }
    requires few { n ≤ 16 }
    ensures len { IfOk result (λ lists. vec_len lists ≡ n) }
    ensures each { IfOk result (λ lists. (i : ℕ) (d : List ℕ) → i < n
        → slice_index_or (map (λ list. list.items) lists.items) i d
        ≡ taken_positions schema.now (of_shard (shard_number n) i) (changes_of changeset.now) 0) }
{
    let changes = keyed_changes(alloc, changeset, schema)?;
    let shards = shards_of(rt, alloc, &changes, n)?;
    listed(alloc, &changes, &shards, n)
}

// The changes whose table is in the schema, in order.
fn keyed_changes<'a>(
    alloc: Global,
    changeset: &'a Changeset,
    schema: &Schema,
) -> Result<Vec<KeyedChange<'a>>, AllocError>
    ensures { IfOk result (λ changes. (takes : Key → Bool)
        → positions_by_key takes changes.items
        ≡ taken_positions schema.now takes (changes_of changeset.now) 0) }
{
    let mut changes = Vec::new(alloc);
    let mut start: usize = 0;
    for section in changeset.iter() {
        // no memory holds more changes than a `usize` counts
        let Some(end) = start.checked_add(section.len()) else {
            return Err(AllocError);
        };
        if let Some(table) = schema.table(&section.shape()) {
            add_changes(&mut changes, table, &section, start)?;
        }
        start = end;
    }
    Ok(changes)
}

// Appends the changes of one section of a table in the schema. The first of them is at position
// `start`.
fn add_changes<'a>(
    changes: &mut Vec<KeyedChange<'a>>,
    table: usize,
    section: &SectionRef<'a>,
    start: usize,
) -> Result<(), AllocError>
    requires counted { start + length section.now.changes < 2 ^ 64 }
    ensures { OnOk result ((takes : Key → Bool) → positions_by_key takes changes.new.items
        ≡ positions_by_key takes changes.old.items
        ++ section_positions table section.now.shape takes section.now.changes start) }
{
    changes.reserve(section.len())?;
    let mut position = start;
    for change in section.changes() {
        changes.push(KeyedChange::of(position, table, section.flags(), change))?;
        position += 1;
    }
    Ok(())
}

// The number of each change's shard among `n`, in order.
fn shards_of<R: Threads + Sync>(
    rt: &R,
    alloc: Global,
    changes: &[KeyedChange],
    n: usize,
) -> Result<Vec<u8>, AllocError>
    requires some { 0 < n }
    requires few { n ≤ 16 }
    ensures { IfOk result (λ shards. shards.items ≡ map (shard_read n) changes.now) }
{
    changes
        .par_iter()
        .map(
            move |change: &KeyedChange| -> u8
                requires { (0 < n) × (n ≤ 16) }
                ensures { result ≡ shard_read n change.now }
            { change.shard(n) },
        )
        .collect(rt, alloc)
}

// The positions of each shard's changes, by the number of each change's shard.
fn listed(
    alloc: Global,
    changes: &[KeyedChange],
    shards: &[u8],
    n: usize,
) -> Result<Vec<Vec<usize>>, AllocError>
    requires some { 0 < n }
    requires shards { shards.now ≡ map (shard_read n) changes.now }
    ensures len { IfOk result (λ lists. vec_len lists ≡ n) }
    ensures each { IfOk result (λ lists. (i : ℕ) (d : List ℕ) → i < n
        → slice_index_or (map (λ list. list.items) lists.items) i d
        ≡ positions_by_key (of_shard (shard_number n) i) changes.now) }
{
    let mut lists = empty_lists(alloc, n)?;
    for (change, shard) in changes.iter().zip(shards) {
        note(&mut lists, usize::from(*shard), change.position)?;
    }
    Ok(lists)
}

// Lists without positions.
fn empty_lists(alloc: Global, n: usize) -> Result<Vec<Vec<usize>>, AllocError>
    ensures len { IfOk result (λ lists. vec_len lists ≡ n) }
    ensures each { IfOk result (λ lists. (i : ℕ) (d : List ℕ) → i < n
        → slice_index_or (map (λ list. list.items) lists.items) i d ≡ []) }
{
    let mut lists = Vec::with_capacity(alloc, n)?;
    for _ in 0..n {
        lists.push(Vec::new(alloc))?;
    }
    Ok(lists)
}

// Appends a position to the list of a shard.
fn note(lists: &mut Vec<Vec<usize>>, shard: usize, position: usize) -> Result<(), AllocError>
    requires { shard < vec_len lists.old }
    ensures len { OnOk result (vec_len lists.new ≡ vec_len lists.old) }
    ensures each { OnOk result ((i : ℕ) (d : List ℕ) → i < vec_len lists.old
        → slice_index_or (map (λ list. list.items) lists.new.items) i d
        ≡ slice_index_or (map (λ list. list.items) lists.old.items) i d
        ++ (if shard == i then position ∷ [] else [])) }
{
    lists[shard].push(position)?;
    Ok(())
}
