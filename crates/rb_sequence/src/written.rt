//! `Written`: a token that shows what is in a write-once cell, for good. The proofs of its first
//! four methods are by hand, over what a `Note` of the cell owns.

ghost use Rattle.std.specs.Prelude.{◌≡◌, ℕ, IfErr, IfOk, IfSome};
ghost use Rattle.std.specs.declared.option.Option.TheVariants.{None, Some};
ghost use denote.Sharing.{said};
ghost use Rattle.once_cell.specs.Once.{cell_name, noted};

use once_cell::race::{Note, OnceBox};
use std::marker::{Model, PhantomData};

/// Shows that a write-once cell holds a value, for good. Threads may share it, and it takes no
/// bytes. A `Note` of the cell knows as much, but is read through a `&mut` alone.
pub struct Written<T> {
    marker: PhantomData<T>,
    /// The name of the cell.
    pub ghost cell: { ℕ },
    /// What the cell holds.
    pub ghost value: { T },
}

impl<T> Model for Written<T> {
    ghost also_owns = { λ w. noted T.row w.cell (Some w.value) };

    ghost also_shares = { λ w _ κ. said (noted T.row w.cell (Some w.value)) κ };
}

impl<T> Written<T> {
    /// What a note knows, if it knows a value.
    pub(crate) fn of(note: &mut Note<T>) -> Written<T>
        requires { (x : T) × (note.old.known ≡ Some x) }
        ensures { (note.new ≡ note.old) × (result.cell ≡ note.old.cell)
            × (note.old.known ≡ Some result.value) }
    {
        let _ = note;
        Written {
            marker: PhantomData,
        }
    }

    /// Lets a note of the same cell know the value. Does nothing else.
    pub(crate) fn tell(&self, note: &mut Note<T>)
        requires { note.old.cell ≡ self.now.cell }
        ensures { (note.new.cell ≡ note.old.cell) × (note.new.known ≡ Some self.now.value) }
    {
        let _ = note;
    }

    /// The same token once more.
    pub(crate) fn again(&self) -> Written<T>
        ensures { (result.cell ≡ self.now.cell) × (result.value ≡ self.now.value) }
    {
        Written {
            marker: PhantomData,
        }
    }

    /// Two tokens of one cell show one value. Does nothing else.
    pub(crate) fn agrees(&self, other: &Written<T>)
        requires { self.now.cell ≡ other.now.cell }
        ensures { self.now.value ≡ other.now.value }
    {}

    /// A token of a cell, if it is set.
    pub(crate) fn witness(cell: &OnceBox<T>) -> Option<Written<T>>
        ensures { IfSome result (λ written. written.cell ≡ cell_name cell.now) }
    {
        let mut note = cell.note();
        match cell.get_as(&mut note) {
            Some(_) => Some(Written::of(&mut note)),
            None => None,
        }
    }

    /// The value of its cell.
    pub(crate) fn value<'a>(&self, cell: &'a OnceBox<T>) -> &'a T
        requires { self.now.cell ≡ cell_name cell.now }
        ensures { result.now ≡ self.now.value }
    {
        let mut note = cell.note();
        self.tell(&mut note);
        match cell.get_as(&mut note) {
            Some(value) => value,
            None => unreachable!(),
        }
    }
}

impl<T: Drop> Written<T> {
    /// Sets a cell. If it is set, hands the value back, with a token of the cell.
    pub(crate) fn set(cell: &OnceBox<T>, value: Box<T>) -> Result<Written<T>, (Box<T>, Written<T>)>
        ensures ok { IfOk result (λ written. (written.cell ≡ cell_name cell.now)
            × (written.value ≡ value.value)) }
        ensures err { IfErr result (λ back. (back.0.value ≡ value.value)
            × (back.1.cell ≡ cell_name cell.now)) }
    {
        let mut note = cell.note();
        match cell.set_as(value, &mut note) {
            Ok(()) => Ok(Written::of(&mut note)),
            Err(value) => Err((value, Written::of(&mut note))),
        }
    }

    /// Sets a cell, unless it is set. A token of the cell, whichever value it holds then.
    pub(crate) fn offer(cell: &OnceBox<T>, value: Box<T>) -> Written<T>
        ensures { result.cell ≡ cell_name cell.now }
    {
        let mut note = cell.note();
        drop(cell.set_as(value, &mut note));
        Written::of(&mut note)
    }
}

impl<T> Drop for Written<T> {
    fn drop(self) {
        let Self { marker: _ } = self;
    }
}

// Sound for any `T`: a token lends no value. It only says what its cell holds, and whoever reads
// the cell needs a `&` to it.
unsafe impl<T> Send for Written<T> {}

unsafe impl<T> Sync for Written<T> {}
