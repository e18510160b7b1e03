//! The sequencer: it moves what publishers sent from the intake into the sequence, one item a turn.
//! Theorem: what it pulled is what it placed, then the item in hand. Each entry stands in the cell
//! of its number, and each publisher's entries are in its sending order.
#![tactic(auto)]

mod sequencer;
mod turn;

pub use sequencer::Sequencer;
pub use turn::Turn;
