//! The sink that `write_pieces` writes to.

ghost use Rattle.std.specs.Prelude.{◌≡◌, ℕ, List, [], ◌∷◌, ◌++◌, OnErr, OnOk};

use thiserror::Error;

/// The error of `Sink::put`. The sink did not take the piece.
#[derive(Clone, Copy, Debug, PartialEq, Eq, Error)]
#[error("the sink failed to take a piece")]
pub struct SinkFault;

/// A destination for the pieces of a text. Its value records the pieces that it took and those that
/// it failed to take.
pub trait Sink {
    /// The pieces that it took, in order.
    ghost taken: { Self → List (List ℕ) };

    /// The pieces that it got and failed to take, in order.
    ghost failed: { Self → List (List ℕ) };

    /// Takes a piece after those before. Returns `SinkFault` if it fails, which does not change the
    /// pieces it took.
    fn put(&mut self, piece: &[u8]) -> Result<(), SinkFault>
        ensures taken { OnOk result (taken self.new ≡ taken self.old ++ piece.now ∷ []) }
        ensures none_failed { OnOk result (failed self.new ≡ failed self.old) }
        ensures failed { OnErr result (failed self.new ≡ failed self.old ++ piece.now ∷ []) }
        ensures none_taken { OnErr result (taken self.new ≡ taken self.old) };
}
