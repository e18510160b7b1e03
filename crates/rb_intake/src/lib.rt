//! The intake: a queue into which publishers send items from threads of their own, and from which
//! the sequencer pulls them. Theorem: what was sent is what was pulled and then what waits; what is
//! pulled of a publisher is what it sent, in its order, each item once.
#![tactic(auto)]

mod intake;
mod known;
mod passes;
mod rule;
mod waiting;

pub use intake::Intake;
pub use known::Known;
pub use passes::{LastPass, MakerPass, PublisherPass, SequencerPass};
pub use waiting::NothingWaits;
