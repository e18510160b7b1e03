//! Laws: public functions that do nothing. Their contracts state what holds of all tables,
//! changesets and shards; a caller that needs one calls it.

ghost use Rattle.std.specs.{Prelude.{◌≡◌, ◌≤◌, ℕ, List, Ok, Err}, List.{IsDistinct}, Map.{keys_of}};
ghost use Rattle.cs_apply.specs.SameKey.{same_key};
ghost use Rattle.cs_apply.specs.declared.conflict.Conflict.{Conflict as Conflicts};
ghost use Rattle.cs_apply.specs.{Single.{changes_of, single, single_from}, State.{TableState}};
ghost use Rattle.cs_model.specs.{declared.row_key.RowKey.{RowKey}, Section.{Section}};
ghost use Rattle.par_apply.specs.{Durable.{changed_tables}, Parts.{applied_part}};
ghost use Rattle.par_apply.specs.{Planned.{IsPlanOf, RowsFit}, RowChanges.{RowChanges, overlaid}};
ghost use Rattle.par_apply.specs.Shards.{of_shard};
ghost use Rattle.par_apply.specs.Splitting.{AreAllShards, AreOfShard, SplitsInto, joined_parts};
ghost use Rattle.par_apply.specs.Splitting.{list_at};

/// The splitting law: changes are split by their keys, in any way. If no shard's changes conflict,
/// each key has the row that its shard's changes give it. If some conflict, the first conflict is
/// the one at the least position of all shards' conflicts.
pub fn splitting()
    ensures { (tables : TableState) (sections : List Section) (shard : RowKey → ℕ)
        → SplitsInto shard (λ i. applied_part tables (of_shard shard i) sections)
        (single_from tables.schema tables.kept (changes_of sections) 0 tables.rows) }
{}

/// Where each shard's changes make changes of rows, all changes make the same changes of rows: one
/// shard's after another's, or in any other order.
pub fn gathering()
    ensures any { (tables : TableState) (sections : List Section) (shard : RowKey → ℕ)
        (parts : ℕ → RowChanges) (changes : RowChanges)
        → ((key : RowKey) → applied_part tables (of_shard shard (shard key)) sections
        ≡ Ok (overlaid tables.rows (parts (shard key))))
        → AreAllShards shard parts changes
        → single tables sections ≡ Ok (record tables { rows = overlaid tables.rows changes }) }
    ensures lists { (shard : RowKey → ℕ) (lists : List RowChanges)
        → ((i : ℕ) → AreOfShard shard i (list_at lists i))
        → AreAllShards shard (list_at lists) (joined_parts lists) }
{}

/// The least of the shards' conflicts is the first conflict of all changes.
pub fn first_conflict()
    ensures { (tables : TableState) (sections : List Section) (shard : RowKey → ℕ) (i : ℕ)
        (conflict : Conflicts) → applied_part tables (of_shard shard i) sections ≡ Err conflict
        → ((key : RowKey) (other : Conflicts)
        → applied_part tables (of_shard shard (shard key)) sections ≡ Err other
        → conflict.position ≤ other.position)
        → single tables sections ≡ Err conflict }
{}

/// The changes of a changeset's plan, made over the tables, leave what the changeset leaves; they
/// are of different keys.
pub fn plans_apply()
    ensures { (tables : TableState) (sections : List Section) (changes : RowChanges)
        → IsPlanOf tables sections changes
        → (single tables sections ≡ Ok (changed_tables tables changes))
        × IsDistinct same_key (keys_of changes) × RowsFit tables changes }
{}
