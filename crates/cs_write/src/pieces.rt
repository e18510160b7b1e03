//! Writes the canonical text in pieces, to a sink that doesn't take it whole.

ghost use Rattle.std.specs.Prelude.{◌≡◌, ◌<◌};
ghost use Rattle.cs_write.specs.Pieces.{Puts};
ghost use Rattle.cs_write.specs.Text.{text_of};
ghost use Rattle.cs_write.specs.declared.pieces.WriteError.TheVariants.{Sink, Memory};

use crate::sink::{Sink, SinkFault};
use crate::text::write;
use cs_model::Changeset;
use std::alloc::{AllocError, Global};
use thiserror::Error;

/// The error of `write_pieces`. It does not change the changeset.
#[derive(Clone, Copy, Debug, PartialEq, Eq, Error)]
pub enum WriteError {
    /// The sink failed to take a piece. It took all pieces before that one.
    #[error("the sink failed to take a piece")]
    Sink,
    /// Out of memory. The sink got no piece.
    #[error("out of memory")]
    Memory,
}

impl From<SinkFault> for WriteError {
    ghost from_gives = { λ _ e. e ≡ Sink };

    fn from(_fault: SinkFault) -> WriteError {
        WriteError::Sink
    }
}

impl From<AllocError> for WriteError {
    ghost from_gives = { λ _ e. e ≡ Memory };

    fn from(_error: AllocError) -> WriteError {
        WriteError::Memory
    }
}

/// Writes the canonical text of a changeset to a sink in pieces of `max` bytes, at least 1. The
/// last piece has the rest. An empty text has no pieces. The whole text is built before the first
/// piece is passed on, and no piece is a copy.
///
/// Returns `Sink` if the sink fails to take a piece. The sink took the pieces before it and gets
/// none after it. Returns `Memory` if memory runs out, before the sink gets any piece.
pub fn write_pieces<S: Sink>(
    alloc: Global,
    changeset: &Changeset,
    max: usize,
    sink: &mut S,
) -> Result<(), WriteError>
    requires { 0 < max }
    ensures { Puts result max (text_of changeset.now)
        (S.taken sink.old) (S.taken sink.new) (S.failed sink.old) (S.failed sink.new) }
{
    let text = write(alloc, changeset)?;
    let bytes: &[u8] = &text;
    for piece in bytes.chunks(max) {
        sink.put(piece)?;
    }
    Ok(())
}
