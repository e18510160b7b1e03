//! The forms that a script's lines can have.

use cs_model::Octets;
use rb_core::Event;

/// What a line asks for.
#[derive(Debug, Drop)]
pub enum Form {
    /// A table, given by the bytes of its header.
    Table(Octets),
    /// An event.
    Happens(Event),
    /// The entry with this number.
    Entry(u64),
    /// The changesets of the entries numbered `first` to `last`, as one.
    Combine { first: u64, last: u64 },
    /// The rows of a subscription.
    Rows(u64),
    /// How many changesets are sent and not placed.
    Left,
}
