//! `Ready`: an entry with all the memory that its cell needs; `AlreadySet`: what comes back of a
//! cell that is set.

ghost use Rattle.std.specs.Prelude.{◌≡◌};

use crate::entry::Entry;
use crate::segment::Segment;
use crate::told::Occupant;
use crate::written::Written;
use std::marker::Model;

/// An entry that is ready for its cell: its segment is made, and it has a box. Filling the cell
/// allocates nothing more.
#[derive(Drop)]
pub struct Ready {
    pub(crate) number: u64,
    pub(crate) segment: Written<Segment>,
    pub(crate) entry: Box<Entry>,
}

impl Model for Ready {
    ghost use Rattle.std.specs.Prelude.{◌≡◌, ◌≤◌};
    ghost use Rattle.rb_sequence.specs.Cells.{ReadyEntry};

    ghost Value = { ReadyEntry };

    ghost view = { λ r. record { entry = r.entry.value; segment = r.segment.cell } };

    ghost invariant = { λ r. (1 ≤ r.number) × (r.entry.value.number ≡ r.number) };
}

impl Ready {
    /// The number of its entry.
    pub fn number(&self) -> u64
        ensures { result ≡ self.now.entry.number }
    {
        self.number
    }

    /// The entry, without its box.
    pub fn into_entry(self) -> Entry
        ensures { result ≡ self.entry }
    {
        let Ready { entry, .. } = self;
        Box::into_inner(entry)
    }
}

/// What `Filler::fill` hands back of a cell that is set.
#[derive(Debug, Drop)]
pub struct AlreadySet {
    /// The entry that was to stand there.
    pub entry: Entry,
    /// Shows which entry the cell holds.
    pub occupant: Occupant,
}
