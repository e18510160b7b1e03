//! The cells of a sequence, which its two halves share.

ghost use Rattle.std.specs.Prelude.{◌≡◌, ◌≤◌, ◌<◌, IfErr, IfOk, IfSome, length};
ghost use Rattle.rb_sequence.specs.Cells.{HandsBack, HasCell, IsLastToken, IsOccupantOf};
ghost use Rattle.rb_sequence.specs.Cells.{IsReadyFor, IsTokenOf};
ghost use Rattle.rb_sequence.specs.Filling.{FindsSet};
ghost use Rattle.rb_sequence.specs.Segments.{IsLocated, id_at};
ghost use Rattle.once_cell.specs.Once.{cell_name};

use crate::entry::Entry;
use crate::ready::{AlreadySet, Ready};
use crate::segment::{SEGMENT, Segment, empty_cells, locate};
use crate::told::{Occupant, Told, ToldLast};
use crate::written::Written;
use once_cell::race::OnceBox;
use std::alloc::{AllocError, AllocFailed, Global};
use std::marker::Model;

/// The cells: a segment for every 65,536 numbers, each made when it is first wanted, and a closing
/// cell.
#[derive(Drop)]
pub(crate) struct Cells {
    capacity: u64,
    segments: Vec<OnceBox<Segment>>,
    closing: OnceBox<u64>,
}

impl Model for Cells {
    ghost use Rattle.std.specs.Prelude.{◌≤◌, ◌*◌, length};
    ghost use Rattle.rb_sequence.specs.Cells.{Cells};
    ghost use Rattle.rb_sequence.specs.Segments.{cell_names};
    ghost use Rattle.once_cell.specs.Once.{cell_name};

    ghost Value = { Cells };

    ghost view = { λ s. record {
      capacity = s.capacity;
      segments = cell_names s.segments.items;
      closing = cell_name s.closing;
    } };

    ghost invariant = { λ s. (s.capacity ≤ 65536 * length s.segments.items)
        × (length s.segments.items ≤ 65536) };
}

impl Cells {
    /// Empty cells for numbers up to the capacity. Makes no segment. Returns `AllocError` if memory
    /// runs out.
    pub(crate) fn new(alloc: Global, capacity: u64) -> Result<Cells, AllocError>
        requires { capacity ≤ 16777216 }
        ensures { IfOk result (λ cells. cells.capacity ≡ capacity) }
    {
        let count = (capacity / SEGMENT as u64 + 1) as usize;
        Ok(Cells {
            capacity,
            segments: empty_cells(alloc, count)?,
            closing: OnceBox::new(alloc),
        })
    }

    /// How many entries there can be.
    pub(crate) fn capacity(&self) -> u64
        ensures { result ≡ self.now.capacity }
    {
        self.capacity
    }

    // Where the cell of a number stands, if there is one: its segment, and its place there.
    fn find(&self, number: u64) -> Option<(usize, usize)>
        ensures { IfSome result (λ at. HasCell self.now number × IsLocated number at.0 at.1
            × (at.0 < length self.now.segments)) }
    {
        if number == 0 || number > self.capacity {
            return None;
        }
        Some(locate(number))
    }

    // The slot of a segment.
    fn slot(&self, segment: usize) -> &OnceBox<Segment>
        requires { segment < length self.now.segments }
        ensures { id_at self.now.segments segment ≡ cell_name result.now }
    {
        &self.segments[segment]
    }

    /// The entry with this number, if there is a cell for it and it is set.
    pub(crate) fn get(&self, number: u64) -> Option<&Entry>
        ensures { IfSome result (λ entry. HasCell self.now number × (entry.now.number ≡ number)) }
    {
        let (segment, place) = self.find(number)?;
        let entry = self.slot(segment).get()?.cell(place).get()?;
        // `fill` puts only an entry of this number there, but a `OnceBox` has no rule that says so
        if entry.number() == number {
            Some(entry)
        } else {
            None
        }
    }

    /// A token of the cell with this number, if it is set.
    pub(crate) fn tell(&self, number: u64) -> Option<Told>
        ensures { IfSome result (λ told. IsTokenOf self.now told × (told.number ≡ number)) }
    {
        let (segment, place) = self.find(number)?;
        let slot = self.slot(segment);
        let laid = Written::witness(slot)?;
        let cell = laid.value(slot).cell(place);
        let written = Written::witness(cell)?;
        // as in `get`
        if written.value(cell).number() != number {
            return None;
        }
        Some(Told {
            occupant: Occupant {
                number,
                segment: laid,
                cell: written,
            },
        })
    }

    /// The entry that a token shows.
    pub(crate) fn get_told<'a>(&'a self, told: &Told) -> &'a Entry
        requires { IsTokenOf self.now told.now }
        ensures { result.now ≡ told.now.entry }
    {
        self.get_occupant(&told.occupant)
    }

    /// The entry that a cell holds, by its token.
    pub(crate) fn get_occupant<'a>(&'a self, occupant: &Occupant) -> &'a Entry
        requires { IsOccupantOf self.now occupant.now }
        ensures { result.now ≡ occupant.now.entry }
    {
        // for its invariant: there is a segment for each number
        let _segments = &self.segments;
        let (segment, place) = locate(occupant.number);
        let cells = occupant.segment.value(self.slot(segment));
        occupant.cell.value(cells.cell(place))
    }

    /// A token of the closing cell, if it is set.
    pub(crate) fn closing(&self) -> Option<ToldLast>
        ensures { IfSome result (λ told. IsLastToken self.now told) }
    {
        let written = Written::witness(&self.closing)?;
        let last = *written.value(&self.closing);
        Some(ToldLast { last, written })
    }

    // A token of a segment, which is made if it isn't there. If two threads make it at once, the
    // segment that comes first counts, and the other is dropped.
    fn lay(&self, alloc: Global, segment: usize) -> Result<Written<Segment>, AllocError>
        requires { segment < length self.now.segments }
        ensures { IfOk result (λ laid. laid.cell ≡ id_at self.now.segments segment) }
    {
        let slot = self.slot(segment);
        if let Some(laid) = Written::witness(slot) {
            return Ok(laid);
        }
        let made = Box::new(alloc, Segment::new(alloc)?)?;
        Ok(Written::offer(slot, made))
    }

    /// Makes what an entry needs in its cell: the segment, if it isn't there, and a box. Hands the
    /// entry back if memory runs out.
    pub(crate) fn ready(&self, alloc: Global, entry: Entry) -> Result<Ready, AllocFailed<Entry>>
        requires { HasCell self.now entry.number }
        ensures ok { IfOk result (λ ready. IsReadyFor self.now ready × (ready.entry ≡ entry)) }
        ensures err { IfErr result (HandsBack entry) }
    {
        // for its invariant: there is a segment for each number
        let _segments = &self.segments;
        let number = entry.number();
        let (segment, _) = locate(number);
        let Ok(laid) = self.lay(alloc, segment) else {
            return Err(AllocFailed { value: entry });
        };
        match Box::new(alloc, entry) {
            Ok(entry) => Ok(Ready {
                number,
                segment: laid,
                entry,
            }),
            Err(failed) => Err(failed),
        }
    }

    /// Sets the cell of an entry that is ready for it. If the cell is set, hands the entry back,
    /// with a token of the cell.
    pub(crate) fn fill(&self, ready: Ready) -> Result<Told, AlreadySet>
        requires { IsReadyFor self.now ready }
        ensures ok { IfOk result (λ told. IsTokenOf self.now told × (told.entry ≡ ready.entry)) }
        ensures err { IfErr result (FindsSet self.now ready.entry) }
    {
        // for its invariant: there is a segment for each number
        let _segments = &self.segments;
        let Ready {
            number,
            segment: laid,
            entry,
        } = ready;
        let (segment, place) = locate(number);
        let cells = laid.value(self.slot(segment));
        match Written::set(cells.cell(place), entry) {
            Ok(cell) => Ok(Told {
                occupant: Occupant {
                    number,
                    segment: laid,
                    cell,
                },
            }),
            Err((entry, cell)) => Err(AlreadySet {
                entry: Box::into_inner(entry),
                occupant: Occupant {
                    number,
                    segment: laid,
                    cell,
                },
            }),
        }
    }

    /// Sets the closing cell. Hands the box back if the cell is set.
    pub(crate) fn fill_closing(&self, last: Box<u64>) -> Result<ToldLast, Box<u64>>
        ensures ok { IfOk result (λ told. IsLastToken self.now told × (told.last ≡ last.value)) }
        ensures err { IfErr result (λ back. back.value ≡ last.value) }
    {
        let number = *last;
        match Written::set(&self.closing, last) {
            Ok(written) => Ok(ToldLast {
                last: number,
                written,
            }),
            Err((back, _)) => Err(back),
        }
    }
}
