//! A replica: a subscriber's rows and its cursor in an SQLite database, changed together. Theorem:
//! whenever `commit` returns, a crash leaves rows and cursor as before the call, or with all of the
//! call's changes and its cursor (`laws::commit_and_crash`). What `commit` does to the rows is what
//! `par_apply` does to tables (`laws::tables_follow`).
#![tactic(auto)]

mod commit;
mod create;
mod durable;
mod error;
pub mod laws;
mod layout;
mod load;
mod open;
mod read;
mod replica;
mod stored_row;

pub use error::ReplicaError;
pub use replica::{RefusedConnection, Replica};
