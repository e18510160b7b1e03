//! The shard of a key, and of the key of a change.

ghost use Rattle.std.specs.Prelude.{◌≡◌, ◌<◌, ◌≤◌, ◌+◌, ◌%◌, ◌^◌, sum};
ghost use Rattle.cs_model.specs.{Key.{key_of}, KeyBytes.{key_bytes, key_record}};
ghost use Rattle.cs_model.specs.Seen.{change_seen};
ghost use Rattle.par_apply.specs.Shards.{of_shard, shard_number};

use cs_model::{ChangeRef, Op, RecordRef, RowKey, ShapeRef};

// A sum that gets so large is divided, so that none overflows and few bytes cost a division.
const LARGE_SUM: usize = 1 << 32;

// A number with the same remainder: the number itself, if it is small.
#[inline(always)]
fn reduced(number: usize, n: usize) -> usize
    requires some { 0 < n }
    requires few { n ≤ 16 }
    ensures remainder { result % n ≡ number % n }
    ensures small { result < 2 ^ 32 }
{
    if number < LARGE_SUM {
        return number;
    }
    number % n
}

// A number with the same remainder as the sum of a number and of bytes.
#[inline(always)]
fn with_bytes(number: usize, bytes: &[u8], n: usize) -> usize
    requires some { 0 < n }
    requires few { n ≤ 16 }
    ensures { result % n ≡ (number + sum bytes.now) % n }
{
    let mut sum = reduced(number, n);
    for byte in bytes {
        sum = reduced(sum + usize::from(*byte), n);
    }
    sum
}

/// The number of the shard that a key is of, among `n`: the sum of its bytes and its table's index,
/// modulo `n`.
pub fn shard_of(key: &RowKey, n: usize) -> usize
    requires some { 0 < n }
    requires few { n ≤ 16 }
    ensures number { result ≡ shard_number n key.now }
    ensures below { result < n }
{
    with_bytes(key.table, &key.bytes, n) % n
}

// The record that identifies a change's row.
fn record_of<'a>(change: &'a ChangeRef) -> &'a RecordRef<'a>
    ensures { result.now ≡ key_record change.now.op change.now.before change.now.after }
{
    match change.op {
        Op::Insert => &change.after,
        Op::Update | Op::Delete => &change.before,
    }
}

/// A number with the same remainder as the sum of a table's index and of the key's bytes. These are
/// added where they stand, and what is behind the last key column isn't read.
pub(crate) fn with_key(table: usize, flags: &[u8], from: &RecordRef, n: usize) -> usize
    requires some { 0 < n }
    requires few { n ≤ 16 }
    ensures { result % n ≡ (table + sum (key_bytes flags.now from.now)) % n }
{
    let mut sum = table;
    let (_, mut rest) = from.cut(0);
    // how many columns outside the key came since `rest` was cut
    let mut passed: usize = 0;
    for flag in flags {
        if *flag > 0 {
            let (_, here) = rest.cut(passed);
            let (field, behind) = here.cut(1);
            sum = with_bytes(sum, field.bytes(), n);
            rest = behind;
            passed = 0;
        } else {
            passed += 1;
        }
    }
    sum
}

// The number of the shard that a change's key is of, among `n`. The key isn't copied.
fn shard_of_change(table: usize, shape: &ShapeRef, change: &ChangeRef, n: usize) -> usize
    requires some { 0 < n }
    requires few { n ≤ 16 }
    ensures { result ≡ shard_number n (key_of table shape.now.flags (change_seen change.now)) }
{
    with_key(table, shape.flags, record_of(change), n) % n
}

/// One of `n` shards: its number, and how many there are.
#[derive(Clone, Copy, Debug)]
pub(crate) struct Shard {
    pub(crate) number: usize,
    pub(crate) n: usize,
}

impl Shard {
    /// Whether the key of a change of this table is of this shard.
    pub(crate) fn takes(self, table: usize, shape: &ShapeRef, change: &ChangeRef) -> bool
        requires some { 0 < self.n }
        requires few { self.n ≤ 16 }
        ensures { result ≡ of_shard (shard_number self.n) self.number
            (key_of table shape.now.flags (change_seen change.now)) }
    {
        shard_of_change(table, shape, change, self.n) == self.number
    }
}
