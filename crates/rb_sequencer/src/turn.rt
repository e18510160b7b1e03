//! `Turn`: what one turn of the sequencer did.

use rb_broker::PlaceError;
use rb_intake::NothingWaits;
use rb_sequence::Told;

/// What a turn did. After each answer but `Placed` and `Idle` the item stays in hand, and the next
/// turn tries it first.
#[derive(Drop)]
pub enum Turn {
    /// The item is an entry of the sequence. The token shows it.
    Placed(Told),
    /// The hand is empty, and the intake was empty at one moment of the turn. The token shows that
    /// it was, after all that the sequencer has pulled.
    Idle(NothingWaits),
    /// The item isn't placed, and why.
    Refused(PlaceError),
}
