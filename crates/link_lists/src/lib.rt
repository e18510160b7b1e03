//! Values under keys, and two lanes of doubly linked lists of these keys, all in the records of one
//! slab. Theorem: each call changes the one sequence or value that it names.
#![tactic(auto)]

mod lane;
mod link;
mod linking;
mod nodes;
mod woven;

pub use lane::Lane;
pub use woven::Woven;
