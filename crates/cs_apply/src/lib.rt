//! Tables, and the application of changesets to them by one thread. `Tables` maps row keys to rows.
//! `apply` applies a changeset's changes one at a time, or returns its first conflict. Theorem:
//! `apply` is `single`.
#![tactic(auto)]

mod change_error;
mod changed;
mod changes;
mod conflict;
mod held;
pub mod laws;
mod places;
mod row;
mod tables;

pub use change_error::ChangeError;
pub use conflict::{ApplyError, Conflict, ConflictKind};
pub use held::HeldTables;
pub use row::row_after;
pub use tables::Tables;
