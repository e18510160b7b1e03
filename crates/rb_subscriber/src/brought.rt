//! `Brought`: the entries that a delivery brings, wherever they stand.

ghost use Rattle.std.specs.Prelude.{◌≡◌, ◌<◌, List, length, slice_index_or};
ghost use Rattle.rb_sequence.specs.Entry.{Entry as Item};

use rb_sequence::Entry;

/// The entries that a delivery brings, in order. They may stand in one list, or each in a cell.
pub trait Brought {
    ghost entries: { Self → List Item };

    /// How many they are.
    fn count(&self) -> usize
        ensures { result ≡ length (entries self.now) };

    /// The one at this place, from 0.
    fn entry(&self, index: usize) -> &Entry
        requires { index < length (entries self.now) }
        ensures { result.now ≡ slice_index_or (entries self.now) index result.now };
}

impl<'a> Brought for &'a [Entry] {
    ghost entries = { λ list. list.now };

    fn count(&self) -> usize {
        self.len()
    }

    fn entry(&self, index: usize) -> &Entry {
        &self[index]
    }
}
