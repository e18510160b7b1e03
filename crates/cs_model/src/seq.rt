//! `Seq`: a `Vec` that contracts see as a plain list.

ghost use Rattle.std.specs.Prelude.{◌≡◌, IfOk, length, ◌==◌};
ghost use Rattle.std.specs.Cmp.{on_equiv, on_total, on_po, on_per};
ghost use Rattle.std.specs.Cmp.Lexicographic.{pointwise, slice_cmp, slice_partial_cmp, lists_per};
ghost use Rattle.std.specs.Cmp.Lexicographic.{lists_equiv, lists_po, lists_total, lists_agrees};
ghost use Rattle.std.specs.Cmp.Lexicographic.{lists_ties};
ghost use Rattle.std.specs.Hash as fed;
ghost use Rattle.std.specs.Hash.{items_Alike};

use std::alloc::{AllocError, Global};
use std::cmp::Ordering;
use std::hash::{Hash, Hasher};
use std::marker::Model;
use std::ops::DerefSlice;

/// A list of values.
#[derive(Debug, Drop)]
pub struct Seq<T> {
    items: Vec<T>,
}

/// The bytes of a text or a blob.
pub type Octets = Seq<u8>;

impl<T> Model for Seq<T> {
    ghost use Rattle.std.specs.Prelude.{List};

    ghost Value = { List T };

    ghost view = { λ s. s.items.items };
}

impl<T> Seq<T> {
    /// Makes a list of a `Vec`, without a copy.
    pub fn from_vec(items: Vec<T>) -> Seq<T>
        ensures { result ≡ items.items }
    {
        Seq { items }
    }

    /// The number of values.
    pub fn len(&self) -> usize
        ensures { result ≡ length self.now }
    {
        self.items.as_slice().len()
    }

    /// Returns `true` if there are no values.
    pub fn is_empty(&self) -> bool
        ensures { result ≡ (length self.now == 0) }
    {
        self.items.as_slice().is_empty()
    }
}

impl<T: Copy> Seq<T> {
    /// A list of copies of these values.
    pub fn from_slice(alloc: Global, values: &[T]) -> Result<Seq<T>, AllocError>
        ensures { IfOk result (λ copy. copy ≡ values.now) }
    {
        Ok(Seq::from_vec(Vec::from_slice(alloc, values)?))
    }
}

impl<T> DerefSlice for Seq<T> {
    type Elem = T;

    ghost deref_gives = { λ s xs. xs ≡ s };

    fn deref(&self) -> &[T] {
        self.items.as_slice()
    }
}

impl<T: PartialEq> PartialEq for Seq<T> {
    ghost eq = { λ s t. pointwise T.eq s t };

    ghost laws = { lists_per T.laws };

    fn eq(&self, other: &Self) -> bool {
        self.items == other.items
    }
}

impl<T: Eq> Eq for Seq<T> {
    ghost laws = { lists_equiv T.Eq.laws };
}

impl<T: PartialOrd> PartialOrd for Seq<T> {
    ghost partial_cmp = { λ s t. slice_partial_cmp T.partial_cmp s t };

    ghost laws = { lists_po T.PartialOrd.laws };

    fn partial_cmp(&self, other: &Self) -> Option<Ordering> {
        self.items.partial_cmp(&other.items)
    }
}

impl<T: Ord> Ord for Seq<T> {
    ghost cmp = { λ s t. slice_cmp T.cmp s t };

    ghost total = { lists_total T.total };

    ghost matches_partial_cmp = { λ s t. lists_agrees T.matches_partial_cmp s t };

    ghost matches_eq = { λ s t. lists_ties T.cmp T.matches_eq s t };

    fn cmp(&self, other: &Self) -> Ordering {
        self.items.cmp(&other.items)
    }
}

impl<T: Hash> Hash for Seq<T> {
    ghost hash_input = { λ s. fed.slice T.hash_input s };

    ghost respects_eq = { (items_Alike (record { fed = T.respects_eq })).fed };

    fn hash<H: Hasher>(&self, state: &mut H) {
        self.items.as_slice().hash(state);
    }
}
