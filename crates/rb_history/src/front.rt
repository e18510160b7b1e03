//! What somebody has seen of a list.

ghost use Rattle.std.specs.Prelude.{◌≡◌, ◌≤◌, ℕ, List, length};
ghost use mathlib.Core.List.{IsPrefix};
ghost use base.Stored.{coded_list, coded×, coded_ℕ};
ghost use denote.Sharing.{said};
ghost use Rattle.rb_history.specs.Kept.{front_owns};

use std::marker::{Model, PhantomData};

/// A beginning of a list. The list has been as long, and never gets shorter.
pub struct Front<E> {
    pub(crate) marker: PhantomData<E>,
    pub ghost name: { ℕ × ℕ } by { coded× coded_ℕ coded_ℕ },
    pub ghost log: { List (ℕ × E) } by { coded_list (coded× coded_ℕ E.code) },
}

impl<E> Model for Front<E> {
    ghost also_owns = { λ f. front_owns E.row.coded.code f.name f.log };

    ghost also_shares = { λ f _ κ. said (front_owns E.row.coded.code f.name f.log) κ };
}

impl<E> Front<E> {
    /// A copy.
    pub fn again(&self) -> Front<E>
        ensures { result ≡ self.now }
    {
        Front {
            marker: PhantomData,
        }
    }

    /// Of two fronts of one list the shorter is a beginning of the longer.
    pub fn compare(&self, other: &Front<E>)
        requires { self.now.name ≡ other.now.name }
        ensures { (length self.now.log ≤ length other.now.log
            → IsPrefix self.now.log other.now.log)
            × (length other.now.log ≤ length self.now.log
            → IsPrefix other.now.log self.now.log) }
    {}
}

impl<E> Drop for Front<E> {
    fn drop(self) {
        let Self { marker: _ } = self;
    }
}

unsafe impl<E> Send for Front<E> {}

unsafe impl<E> Sync for Front<E> {}
