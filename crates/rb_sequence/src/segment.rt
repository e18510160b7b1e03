//! Segments: 65,536 write-once cells each, of numbers that follow one another.

ghost use Rattle.std.specs.Prelude.{◌≡◌, ◌≤◌, ◌<◌, IfOk, length};
ghost use Rattle.once_cell.specs.Once.{cell_name};
ghost use Rattle.rb_sequence.specs.Segments.{IsLocated, id_at};

use crate::entry::Entry;
use once_cell::race::OnceBox;
use std::alloc::{AllocError, Global};
use std::marker::Model;

/// How many cells a segment has.
pub(crate) const SEGMENT: usize = 65_536;

/// The cells of a segment, of eight bytes each. Contracts see their names.
#[derive(Drop)]
pub struct Segment {
    cells: Vec<OnceBox<Entry>>,
}

impl Model for Segment {
    ghost use Rattle.std.specs.Prelude.{◌≡◌, ℕ, List, length};
    ghost use Rattle.rb_sequence.specs.Segments.{cell_names};

    ghost Value = { List ℕ };

    ghost view = { λ s. cell_names s.cells.items };

    ghost invariant = { λ s. length s.cells.items ≡ 65536 };
}

/// Where the cell of a number stands: its segment, and its place there.
pub(crate) fn locate(number: u64) -> (usize, usize)
    requires { 1 ≤ number }
    ensures { IsLocated number result.0 result.1 }
{
    let index = (number - 1) as usize;
    (index / SEGMENT, index % SEGMENT)
}

/// Cells that aren't set. Returns `AllocError` if memory runs out.
pub(crate) fn empty_cells<T>(alloc: Global, count: usize) -> Result<Vec<OnceBox<T>>, AllocError>
    ensures { IfOk result (λ v. length v.items ≡ count) }
{
    let mut cells = Vec::with_capacity(alloc, count)?;
    while cells.len() < count {
        cells.push_reserved(OnceBox::new(alloc));
    }
    Ok(cells)
}

impl Segment {
    /// A segment whose cells aren't set. Returns `AllocError` if memory runs out.
    pub(crate) fn new(alloc: Global) -> Result<Segment, AllocError> {
        Ok(Segment {
            cells: empty_cells(alloc, SEGMENT)?,
        })
    }

    /// The cell at a place.
    pub(crate) fn cell(&self, place: usize) -> &OnceBox<Entry>
        requires { place < 65536 }
        ensures { id_at self.now place ≡ cell_name result.now }
    {
        &self.cells[place]
    }
}
