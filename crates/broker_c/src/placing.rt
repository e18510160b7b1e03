//! The call that places a whole changeset.

ghost use Rattle.std.specs.Prelude.{◌≡◌};
ghost use Rattle.broker_c.specs.Placing.{PlacesWhole, entry_by};

use crate::codes::{BUSY, NO_MEMORY, SHUT, placing_code};
use crate::handle::Handle;
use rb_core::PlacingRefusal;
use std::alloc::Global;

/// Places a whole changeset, whose text is `bytes`. Sets `entry` to its number in the sequence. It
/// does what `broker_reset`, `broker_feed`, `broker_end`, `broker_send` and `broker_turn` do one
/// after another, or only the reset where one of them is refused. Returns 0, -10 for an unknown
/// publisher, -23 if other changesets wait to be placed, -3 for a fault, -12 if something is staged
/// already, -20 or -21 for the first section that the tables refuse, -14 if the sequence is closed,
/// -22 if the journal is full, or -19 if the sequence is full. With -2 nothing changed.
#[unsafe(no_mangle)]
pub extern "C" fn broker_place(
    alloc: Global,
    broker: &mut Handle,
    publisher: u64,
    bytes: &[u8],
    entry: &mut u64,
) -> i32
    ensures { PlacesWhole result publisher bytes.now broker.old broker.new entry.old entry.new }
{
    if !broker.is_open() {
        if broker.is_busy() {
            return BUSY;
        }
        return SHUT;
    }
    match broker.place(alloc, publisher, bytes) {
        Ok(placed) => {
            *entry = entry_after(placed, *entry);
            placing_code(placed)
        }
        Err(_) => NO_MEMORY,
    }
}

// the number of the new entry, or the one from before
fn entry_after(placed: Result<u64, PlacingRefusal>, before: u64) -> u64
    ensures { result ≡ entry_by placed before }
{
    placed.unwrap_or(before)
}
