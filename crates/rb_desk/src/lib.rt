//! The desk: which numbers of a sequence go to which subscription, and when a number is settled.
//! Theorem: each call returns, and leaves, what `specs/Calls.antt` says of the picture that the
//! desk shows.
#![tactic(auto)]

mod board;
mod config;
mod delivery;
mod desk;
mod journal;
pub mod laws;
mod placing;
mod refusal;
mod settling;
mod step;
mod subscribing;
mod taking;
mod tally;

pub use config::{Config, ConfigFault};
pub use delivery::Delivery;
pub use desk::Desk;
pub use rb_deliveries::{Span, Status, SubscriptionRef};
pub use refusal::{DeskError, DeskRefusal};
pub use step::Step;
pub use tally::{MOST_STEPS, TalliedBoard};
