//! One list that only grows, of which its owners know beginnings: how proofs relate the calls of
//! threads. No value has a byte, and no function does anything when the program runs.
//! Two fronts of one list are beginnings of one another (`Front::compare`), and the entries under a
//! hand's number are those that it added (`Chronicle::audit`).
#![tactic(auto)]

mod chronicle;
mod front;
mod hand;

pub use chronicle::Chronicle;
pub use front::Front;
pub use hand::Hand;
