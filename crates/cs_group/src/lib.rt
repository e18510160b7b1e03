//! Changesets combined into one, as SQLite's changegroups do ("The Session Extension"): a row's
//! changes become one change. Theorem: where changesets apply one after another without conflict,
//! their group does, and the tables are the same (`laws::groups_apply`).
#![tactic(auto)]

mod clash;
mod error;
mod group;
mod key;
mod known;
pub mod laws;
mod merge;
mod output;
mod rows;
mod slot;
mod table;

pub use error::GroupError;
pub use group::{Group, combine};
