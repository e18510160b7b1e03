//! Items that publishers send, entries, and the sequence of write-once cells that holds these.
//! Theorem: a cell shows one entry for good. What `fill` put there, and what any token of the cell
//! shows, is what `get_told` returns, on any thread and without waiting.
#![tactic(auto)]

mod cells;
mod entry;
mod form;
mod item;
pub mod laws;
mod ready;
mod segment;
mod sequence;
mod sight;
mod told;
mod written;

pub use entry::Entry;
pub use form::FormBeside;
pub use item::Item;
pub use ready::{AlreadySet, Ready};
pub use segment::Segment;
pub use sequence::{Filler, Preparer, Sequence};
pub use sight::Sight;
pub use told::{Occupant, Told, ToldLast};
pub use written::Written;
