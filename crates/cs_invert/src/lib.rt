//! The inverse of a changeset, as SQLite's `sqlite3changeset_invert` makes it, and a changeset's
//! withdrawal. Theorem: a withdrawal takes back its changeset, and leaves what later changesets did
//! to other rows (`laws::withdrawing_undoes`).
#![tactic(auto)]

mod inverse;
pub mod laws;
mod laying;
mod text;
mod withdraw;

pub use inverse::invert;
pub use text::write_inverse;
pub use withdraw::{withdrawal, withdrawal_agreeing};
