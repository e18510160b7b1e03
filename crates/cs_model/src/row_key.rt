//! The key that identifies a row: its table and its primary key values.

ghost use Rattle.std.specs.Prelude.{◌≡◌, IfOk};
ghost use Rattle.cs_model.specs.Key.{key_fed, keys_alike};
ghost use Rattle.cs_model.specs.KeyBytes.{key_bytes, key_record};

use crate::change::Op;
use crate::change_ref::{ChangeRef, RecordRef};
use crate::copy::CopyIn;
use crate::field::field_push;
use crate::seq::{Octets, Seq};
use crate::shape::ShapeRef;
use std::alloc::{AllocError, Global};
use std::hash::{Hash, Hasher};

/// The table and the primary key of a row. Keys compare by table, then by bytes, as unsigned.
#[derive(Debug, Drop, PartialEq, Eq, PartialOrd, Ord)]
pub struct RowKey {
    /// The table's index in the schema, from 0.
    pub table: usize,
    /// The key columns' values in canonical form, in column order.
    pub bytes: Octets,
}

impl RowKey {
    ghost use Rattle.cs_model.specs.Key.{key_of};
    ghost use Rattle.cs_model.specs.Seen.{change_seen};

    /// The key of the row that a change is about. It comes from the old record, or from the new one
    /// of an INSERT. `table` is the table's index in the schema, and `shape` is its shape.
    pub fn of(
        alloc: Global,
        table: usize,
        shape: &ShapeRef,
        change: &ChangeRef,
    ) -> Result<RowKey, AllocError>
        ensures { IfOk result (λ key. key ≡ key_of table shape.now.flags (change_seen change.now)) }
    {
        let bytes = key_of_row(alloc, shape.flags, change)?;
        Ok(RowKey { table, bytes })
    }
}

impl CopyIn for RowKey {
    fn copy_in(&self, alloc: Global) -> Result<RowKey, AllocError> {
        let bytes = self.bytes.copy_in(alloc)?;
        Ok(RowKey {
            table: self.table,
            bytes,
        })
    }
}

impl Hash for RowKey {
    ghost hash_input = { key_fed };

    ghost respects_eq = { keys_alike };

    // all bytes at once: a slice feeds one after another
    fn hash<H: Hasher>(&self, state: &mut H) {
        state.write_usize(self.table);
        state.write(&self.bytes);
    }
}

/// The key columns' values of the row that a change is about, in canonical form. `flags` are the
/// table's key flags, one byte a column. Returns `AllocError` if memory runs out.
pub fn key_of_row(alloc: Global, flags: &[u8], change: &ChangeRef) -> Result<Octets, AllocError>
    ensures { IfOk result (λ bytes. bytes ≡ key_bytes flags.now
        (key_record change.now.op change.now.before change.now.after)) }
{
    key_bytes_of(alloc, flags, record_of(change))
}

// the record that identifies a change's row
fn record_of<'a>(change: &'a ChangeRef) -> &'a RecordRef<'a>
    ensures { result.now ≡ key_record change.now.op change.now.before change.now.after }
{
    match change.op {
        Op::Insert => &change.after,
        Op::Update | Op::Delete => &change.before,
    }
}

// the canonical bytes of the fields in key columns
fn key_bytes_of(alloc: Global, flags: &[u8], from: &RecordRef) -> Result<Octets, AllocError>
    ensures { IfOk result (λ bytes. bytes ≡ key_bytes flags.now from.now) }
{
    // room for two numbers or a short text
    let mut bytes = Vec::with_capacity(alloc, 24)?;
    let mut fields = from.fields();
    for flag in flags {
        let Some(field) = fields.next() else {
            break;
        };
        if *flag > 0 {
            field_push(&mut bytes, field)?;
        }
    }
    Ok(Seq::from_vec(bytes))
}
