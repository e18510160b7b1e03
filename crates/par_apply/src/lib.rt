//! A changeset applied by several workers, each with the keys of its shard. The changes of rows are
//! planned over tables that are only read, staged, and committed without allocation. Theorem:
//! `apply_split` is `Tables::apply`, for 1 to 16 workers (`laws::splitting`). A plan can be
//! committed to a durable store and to the tables together (`DurableRows`).
#![tactic(auto)]

mod distinct;
mod durable;
mod gate;
pub mod laws;
mod planned;
mod positions;
mod shard;
mod shard_rows;
mod staged;
mod whole;
mod worker;

pub use distinct::RowChange;
pub use durable::{DurableRows, RefusedCommit, commit_durably};
pub use gate::{Gate, Open};
pub use planned::{RowPlan, plan_changes};
pub use positions::split;
pub use shard::shard_of;
pub use staged::{RefusedStage, StagedPlan, stage};
pub use whole::apply_split;
