//! Who adds to a list.

ghost use Rattle.std.specs.Prelude.{ℕ};
ghost use base.Stored.{coded×, coded_ℕ};
ghost use Rattle.rb_history.specs.Kept.{hand_owns};

use std::marker::{Model, PhantomData};

/// The right to add entries under a number that no other hand of the list has. It has added `made`
/// of them.
pub struct Hand<E> {
    pub(crate) marker: PhantomData<E>,
    pub ghost name: { ℕ × ℕ } by { coded× coded_ℕ coded_ℕ },
    pub ghost number: { ℕ },
    pub ghost made: { ℕ },
}

impl<E> Model for Hand<E> {
    ghost also_owns = { λ h. hand_owns h.name h.number h.made };
}

impl<E> Drop for Hand<E> {
    fn drop(self) {
        let Self { marker: _ } = self;
    }
}

unsafe impl<E> Send for Hand<E> {}
