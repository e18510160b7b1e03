//! `PieceList`: pieces of a text that only clauses read. The proofs of its methods are by hand.

ghost use Rattle.std.specs.Prelude.{◌≡◌, ℕ, List, [], ◌∷◌, ◌++◌};
ghost use Rattle.std.specs.Borrow.{ftrue};

use std::marker::{Model, PhantomData};

/// Pieces, in order. It has no bytes when it runs, and its methods do nothing.
#[derive(Drop)]
pub struct PieceList {
    marker: PhantomData<u8>,
    pub ghost pieces: { List (List ℕ) },
}

impl Model for PieceList {
    ghost also_owns = { λ _. ftrue };
}

impl PieceList {
    /// No pieces.
    pub fn new() -> PieceList
        ensures { result.pieces ≡ [] }
    {
        PieceList {
            marker: PhantomData,
        }
    }

    /// Appends a piece.
    pub fn push(&mut self, _piece: &[u8])
        ensures { self.new.pieces ≡ self.old.pieces ++ _piece.now ∷ [] }
    {}
}
