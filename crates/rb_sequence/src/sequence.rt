//! `Sequence`, which anyone reads, and the two values that its owner keeps: `Preparer` allocates
//! what an entry needs, and `Filler` sets cells.

ghost use Rattle.std.specs.Prelude.{◌≡◌, ◌≤◌, IfErr, IfOk, IfSome};
ghost use Rattle.rb_sequence.specs.Cells.{HandsBack, HasCell, IsLastToken, IsOccupantOf};
ghost use Rattle.rb_sequence.specs.Cells.{IsReadyFor, IsTokenOf};
ghost use Rattle.rb_sequence.specs.Filling.{FindsSet};

use crate::cells::Cells;
use crate::entry::Entry;
use crate::ready::{AlreadySet, Ready};
use crate::told::{Occupant, Told, ToldLast};
use std::alloc::{AllocError, AllocFailed, Global};
use std::marker::Model;
use std::sync::Arc;

/// A sequence of entries: a cell for each number from 1 to the capacity, and a closing cell. A cell
/// is set once, and shows its entry from then on. Cells stand in segments of 65,536; a segment is
/// made when its first entry is made ready.
///
/// Any thread reads it, and none waits. Only the `Preparer` and the `Filler` that were made with it
/// change it.
#[derive(Drop)]
pub struct Sequence {
    cells: Arc<Cells>,
}

impl Model for Sequence {
    ghost use Rattle.std.specs.Arc.{arc_value};
    ghost use Rattle.rb_sequence.specs.Cells.{Cells};

    ghost Value = { Cells };

    ghost view = { λ s. arc_value s.cells };
}

/// Makes entries ready for the cells of one sequence. `Sequence::new` makes it, and nothing else
/// does.
#[derive(Drop)]
pub struct Preparer {
    cells: Arc<Cells>,
}

impl Model for Preparer {
    ghost use Rattle.std.specs.Arc.{arc_value};
    ghost use Rattle.rb_sequence.specs.Cells.{Cells};

    ghost Value = { Cells };

    ghost view = { λ s. arc_value s.cells };
}

/// Sets the cells of one sequence. `Sequence::new` makes it, and nothing else does.
#[derive(Drop)]
pub struct Filler {
    cells: Arc<Cells>,
    // room for the closing number, until it is used
    room: Option<Box<u64>>,
}

impl Model for Filler {
    ghost use Rattle.std.specs.Arc.{arc_value};
    ghost use Rattle.rb_sequence.specs.Cells.{Cells};

    ghost Value = { Cells };

    ghost view = { λ s. arc_value s.cells };
}

impl Sequence {
    /// A sequence with empty cells, what makes entries ready for them, and what sets them. Returns
    /// `AllocError` if memory runs out.
    pub fn new(alloc: Global, capacity: u64) -> Result<(Sequence, Preparer, Filler), AllocError>
        requires { capacity ≤ 16777216 }
        ensures capacity { IfOk result (λ made. made.0.capacity ≡ capacity) }
        ensures preparer { IfOk result (λ made. made.1 ≡ made.0) }
        ensures filler { IfOk result (λ made. made.2 ≡ made.0) }
    {
        let cells = Arc::new(alloc, Cells::new(alloc, capacity)?)?;
        let prepares = Arc::try_clone(&cells)?;
        let fills = Arc::try_clone(&cells)?;
        let room = Some(Box::new(alloc, 0)?);
        Ok((
            Sequence { cells },
            Preparer { cells: prepares },
            Filler { cells: fills, room },
        ))
    }

    /// How many entries it can hold.
    pub fn capacity(&self) -> u64
        ensures { result ≡ self.now.capacity }
    {
        self.cells.capacity()
    }

    /// The entry with this number, if its cell is set. `None` for a number outside 1 to the
    /// capacity.
    pub fn get(&self, number: u64) -> Option<&Entry>
        ensures { IfSome result (λ entry. HasCell self.now number × (entry.now.number ≡ number)) }
    {
        self.cells.get(number)
    }

    /// A token of the cell with this number, if it is set. `None` for a number outside 1 to the
    /// capacity.
    pub fn tell(&self, number: u64) -> Option<Told>
        ensures { IfSome result (λ told. IsTokenOf self.now told × (told.number ≡ number)) }
    {
        self.cells.tell(number)
    }

    /// The entry that a token shows.
    pub fn get_told<'a>(&'a self, told: &Told) -> &'a Entry
        requires { IsTokenOf self.now told.now }
        ensures { result.now ≡ told.now.entry }
    {
        self.cells.get_told(told)
    }

    /// The entry that a cell holds, by its token.
    pub fn get_occupant<'a>(&'a self, occupant: &Occupant) -> &'a Entry
        requires { IsOccupantOf self.now occupant.now }
        ensures { result.now ≡ occupant.now.entry }
    {
        self.cells.get_occupant(occupant)
    }

    /// A token of the closing cell, if it is set.
    pub fn closing(&self) -> Option<ToldLast>
        ensures { IfSome result (λ told. IsLastToken self.now told) }
    {
        self.cells.closing()
    }
}

impl Preparer {
    /// Makes an entry ready for its cell: allocates the segment, if it isn't there, and a box for
    /// the entry. Changes nothing that a reader sees. If two threads make one segment at once, the
    /// first one's stays, and both use it.
    ///
    /// Hands the entry back if memory runs out.
    // a function of its own in programs, so that refused/calls.txt can name it
    #[inline(never)]
    pub fn ready(&self, alloc: Global, entry: Entry) -> Result<Ready, AllocFailed<Entry>>
        requires { HasCell self.now entry.number }
        ensures ok { IfOk result (λ ready. IsReadyFor self.now ready × (ready.entry ≡ entry)) }
        ensures err { IfErr result (HandsBack entry) }
    {
        self.cells.ready(alloc, entry)
    }
}

impl Filler {
    /// Sets the cell of an entry that is ready for it. The token shows that the cell holds the
    /// entry. Does not allocate or wait.
    ///
    /// If the cell is set, hands the entry back, with a token of the cell.
    pub fn fill(&mut self, ready: Ready) -> Result<Told, AlreadySet>
        requires { IsReadyFor self.old ready }
        ensures ok { IfOk result (λ told. IsTokenOf self.old told × (told.entry ≡ ready.entry)) }
        ensures err { IfErr result (FindsSet self.old ready.entry) }
        ensures same { self.new ≡ self.old }
    {
        self.cells.fill(ready)
    }

    /// Sets the closing cell. The token shows that the sequence is closed after this number. Does
    /// not allocate or wait.
    ///
    /// Returns the number if the cell is set.
    pub fn fill_closing(&mut self, last: u64) -> Result<ToldLast, u64>
        ensures ok { IfOk result (λ told. IsLastToken self.old told × (told.last ≡ last)) }
        ensures err { IfErr result (λ number. number ≡ last) }
        ensures same { self.new ≡ self.old }
    {
        let Some(mut room) = self.room.take() else {
            return Err(last);
        };
        *room = last;
        match self.cells.fill_closing(room) {
            Ok(told) => Ok(told),
            Err(_) => Err(last),
        }
    }
}
