//! Drives a broker: changesets from a reader go through publishers, the sequencer and subscribers
//! in threads of their own, until all is drained, and a report goes to a writer. The first
//! subscriber may keep its rows and its cursor in a database. Theorem: the report is one of a drive
//! whose publishers sent the changesets of their lines, and each of whose subscribers keeps the
//! headline of a running broker (*DriveEnds*, *IsDriven*).
#![tactic(auto)]

mod accepting;
mod beginning;
mod closing;
mod drive;
mod ending;
mod entries;
mod fault;
mod input;
mod kept;
pub mod laws;
mod lines;
mod owners;
mod placing;
mod progress;
mod publishing;
mod report;
mod run;
mod signs;

pub use closing::Closable;
pub use fault::DriveError;
pub use progress::{DriveCounts, Progress};
pub use run::{run_drive, run_durable_drive};
