//! The list, which its holder alone lengthens.

ghost use Rattle.std.specs.Prelude.{◌≡◌, ◌+◌, ◌++◌, ◌∷◌, [], ℕ, List};
ghost use mathlib.Core.List.{IsPrefix};
ghost use base.Stored.{coded_list, coded×, coded_ℕ};
ghost use Rattle.rb_history.specs.Kept.{whole_owns, count_under};

use crate::front::Front;
use crate::hand::Hand;
use std::marker::{Model, PhantomData};

/// The right to lengthen a list of entries, and to say what it is. Each entry stands under the
/// number of the hand that added it.
pub struct Chronicle<E> {
    marker: PhantomData<E>,
    pub ghost name: { ℕ × ℕ } by { coded× coded_ℕ coded_ℕ },
    pub ghost log: { List (ℕ × E) } by { coded_list (coded× coded_ℕ E.code) },
}

impl<E> Model for Chronicle<E> {
    ghost also_owns = { λ c. whole_owns E.row.coded.code c.name c.log };
}

impl<E> Chronicle<E> {
    /// A new list without entries, with a name that no other list has, and its first two hands.
    pub fn open() -> (Chronicle<E>, Hand<E>, Hand<E>)
        ensures { (result.0.log ≡ []) × (result.1.name ≡ result.0.name) × (result.1.made ≡ 0)
            × (result.2.name ≡ result.0.name) × (result.2.made ≡ 0) }
    {
        (
            Chronicle {
                marker: PhantomData,
            },
            Hand {
                marker: PhantomData,
            },
            Hand {
                marker: PhantomData,
            },
        )
    }

    /// Adds the entry as `append` does, and makes a hand with a new number, under which there is
    /// no entry.
    pub fn enroll(&mut self, hand: &mut Hand<E>, entry: &E) -> Hand<E>
        requires { hand.old.name ≡ self.old.name }
        ensures { (self.new.name ≡ self.old.name)
            × (self.new.log ≡ self.old.log ++ (hand.old.number, entry.now) ∷ [])
            × (hand.new.name ≡ hand.old.name) × (hand.new.number ≡ hand.old.number)
            × (hand.new.made ≡ hand.old.made + 1) × (result.name ≡ self.old.name)
            × (result.made ≡ 0) × (count_under result.number self.new.log ≡ 0) }
    {
        Hand {
            marker: PhantomData,
        }
    }

    /// Adds an entry at the end, under the hand's number.
    pub fn append(&mut self, hand: &mut Hand<E>, entry: &E)
        requires { hand.old.name ≡ self.old.name }
        ensures { (self.new.name ≡ self.old.name)
            × (self.new.log ≡ self.old.log ++ (hand.old.number, entry.now) ∷ [])
            × (hand.new.name ≡ hand.old.name) × (hand.new.number ≡ hand.old.number)
            × (hand.new.made ≡ hand.old.made + 1) }
    {}

    /// The entries under the hand's number are as many as the hand has added. Nothing changes.
    pub fn audit(&mut self, hand: &mut Hand<E>)
        requires { hand.old.name ≡ self.old.name }
        ensures { (self.new ≡ self.old) × (hand.new ≡ hand.old)
            × (count_under hand.old.number self.old.log ≡ hand.old.made) }
    {}

    /// The list as it is now, as a front.
    pub fn front(&mut self) -> Front<E>
        ensures { (self.new ≡ self.old) × (result.name ≡ self.old.name)
            × (result.log ≡ self.old.log) }
    {
        Front {
            marker: PhantomData,
        }
    }

    /// The list begins with what the front has. Nothing changes.
    pub fn admit(&mut self, front: &Front<E>)
        requires { front.now.name ≡ self.old.name }
        ensures { (self.new ≡ self.old) × IsPrefix front.now.log self.old.log }
    {}
}

impl<E> Drop for Chronicle<E> {
    fn drop(self) {
        let Self { marker: _ } = self;
    }
}

unsafe impl<E> Send for Chronicle<E> {}
