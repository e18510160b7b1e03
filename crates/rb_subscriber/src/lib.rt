//! A subscriber's endpoint of a subscription. Theorem: an `Endpoint` accepts only the next run of
//! the sequence after its cursor, under its current link, and nothing once it is closed or has
//! fallen. Where the accepted changesets apply one after another without conflict, its tables are
//! the result of that. A `Subscription` can accept into a durable store: after a crash the store has
//! the rows and the cursor from before a delivery, or those after it.
#![tactic(auto)]

mod applier;
mod apply;
mod batches;
mod beginning;
mod brought;
mod durable;
mod endpoint;
mod keeping;
pub mod laws;
mod look;
mod lost;
mod pending;
mod refusal;
mod register;
mod shown;
mod stake;
mod step_ledger;
mod subscription;

pub use applier::Workers;
pub use apply::combined;
pub use brought::Brought;
pub use endpoint::Endpoint;
pub use lost::Lost;
pub use refusal::{AcceptError, AcceptRefusal, DurableError, SubscriptionError};
pub use register::{Auditor, MOST_SUBSCRIPTIONS, RefusedAudit, Register};
pub use shown::{Shown, ShownEntries};
pub use stake::Stake;
pub use step_ledger::StepLedger;
pub use subscription::Subscription;
