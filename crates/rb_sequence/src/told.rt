//! Tokens: what shows, for good, what a cell of a sequence holds.

ghost use Rattle.std.specs.Prelude.{◌≡◌};
ghost use Rattle.rb_sequence.specs.Cells.{AreOfOneCell};

use crate::entry::Entry;
use crate::segment::{Segment, locate};
use crate::written::Written;
use std::fmt;
use std::marker::Model;

/// Shows that a cell is set, and which entry it holds. Any thread may keep it, and it never becomes
/// wrong. It takes the eight bytes of the cell's number; the entry's own may be another.
#[derive(Drop)]
pub struct Occupant {
    pub(crate) number: u64,
    pub(crate) segment: Written<Segment>,
    pub(crate) cell: Written<Entry>,
}

impl Model for Occupant {
    ghost use Rattle.std.specs.Prelude.{◌≡◌, ◌≤◌, ℕ};
    ghost use Rattle.rb_sequence.specs.Cells.{CellToken};
    ghost use Rattle.rb_sequence.specs.Segments.{IsLocated, id_at};

    ghost Value = { CellToken };

    ghost view = { λ t. record {
      number = t.number;
      entry = t.cell.value;
      segment = t.segment.cell;
      cell = t.cell.cell;
    } };

    ghost invariant = { λ t. (1 ≤ t.number)
        × ((k j : ℕ) → IsLocated t.number k j → t.cell.cell ≡ id_at t.segment.value j) };
}

impl Occupant {
    /// The number of the cell, from 1.
    pub fn number(&self) -> u64
        ensures { result ≡ self.now.number }
    {
        self.number
    }

    /// The same token once more.
    pub fn again(&self) -> Occupant
        ensures { result ≡ self.now }
    {
        Occupant {
            number: self.number,
            segment: self.segment.again(),
            cell: self.cell.again(),
        }
    }

    /// Two tokens of one cell show one entry. Does nothing else.
    pub fn same(&self, other: &Occupant)
        requires { AreOfOneCell self.now other.now }
        ensures { self.now.entry ≡ other.now.entry }
    {
        let _place = locate(self.number);
        self.segment.agrees(&other.segment);
        self.cell.agrees(&other.cell);
    }
}

/// Shows that a cell holds the entry of its number. Any thread may keep it, and it never becomes
/// wrong. It takes the eight bytes of its number.
#[derive(Drop)]
pub struct Told {
    pub(crate) occupant: Occupant,
}

impl Model for Told {
    ghost use Rattle.std.specs.Prelude.{◌≡◌};
    ghost use Rattle.rb_sequence.specs.Cells.{CellToken};

    ghost Value = { CellToken };

    ghost view = { λ t. t.occupant };

    ghost invariant = { λ t. t.occupant.entry.number ≡ t.occupant.number };
}

impl Told {
    /// The number of the cell, from 1. Its entry has that number.
    pub fn number(&self) -> u64
        ensures number { result ≡ self.now.number }
        ensures entry { self.now.entry.number ≡ self.now.number }
    {
        self.occupant.number()
    }

    /// The same token once more.
    pub fn again(&self) -> Told
        ensures { result ≡ self.now }
    {
        Told {
            occupant: self.occupant.again(),
        }
    }

    /// Two tokens of one number of one sequence show one entry. Does nothing else.
    pub fn same(&self, other: &Told)
        requires { AreOfOneCell self.now other.now }
        ensures { self.now.entry ≡ other.now.entry }
    {
        self.occupant.same(&other.occupant);
    }
}

/// Shows that a sequence is closed after its last number, for good.
#[derive(Drop)]
pub struct ToldLast {
    pub(crate) last: u64,
    pub(crate) written: Written<u64>,
}

impl Model for ToldLast {
    ghost use Rattle.std.specs.Prelude.{◌≡◌};
    ghost use Rattle.rb_sequence.specs.Cells.{LastToken};

    ghost Value = { LastToken };

    ghost view = { λ t. record { last = t.last; cell = t.written.cell } };

    ghost invariant = { λ t. t.written.value ≡ t.last };
}

impl ToldLast {
    /// The last number of the sequence.
    pub fn last(&self) -> u64
        ensures { result ≡ self.now.last }
    {
        self.last
    }

    /// The same token once more.
    pub fn again(&self) -> ToldLast
        ensures { result ≡ self.now }
    {
        ToldLast {
            last: self.last,
            written: self.written.again(),
        }
    }

    /// Two tokens of one closing cell show one last number. Does nothing else.
    pub fn same(&self, other: &ToldLast)
        requires { self.now.cell ≡ other.now.cell }
        ensures { self.now.last ≡ other.now.last }
    {
        self.written.agrees(&other.written);
    }
}

impl fmt::Debug for Occupant {
    fn fmt<W: fmt::Write>(&self, f: &mut fmt::Formatter<W>) -> fmt::Result {
        f.debug_struct("Occupant")
            .field("number", &self.number)
            .finish_non_exhaustive()
    }
}

impl fmt::Debug for Told {
    fn fmt<W: fmt::Write>(&self, f: &mut fmt::Formatter<W>) -> fmt::Result {
        f.debug_struct("Told")
            .field("number", &self.number())
            .finish_non_exhaustive()
    }
}

impl fmt::Debug for ToldLast {
    fn fmt<W: fmt::Write>(&self, f: &mut fmt::Formatter<W>) -> fmt::Result {
        f.debug_struct("ToldLast")
            .field("last", &self.last)
            .finish_non_exhaustive()
    }
}
