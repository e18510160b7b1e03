//! The broker as one pure value: publishers, the sequence and subscriptions, changed by events.
//! Theorem: for any events, the world and its replies are a run of the steps in
//! `specs/Outcome.antt`. In every run, a subscription accepts a gapless run of the sequence. Each
//! sending is placed once and in order, and none after a close.
#![tactic(auto)]

mod combining;
pub mod courses;
mod delivering;
mod event;
pub mod laws;
mod parts;
mod placing;
mod publisher;
mod publishing;
mod reply;
mod runs;
mod sequencing;
mod status;
mod subscribing;
mod withdrawing;
mod world;

pub use event::Event;
pub use placing::{PlacingError, PlacingRefusal};
pub use publisher::{PublisherState, Staged};
pub use rb_desk::{Config, ConfigFault, Delivery};
pub use rb_sequence::{Entry, Item};
pub use reply::{BrokerRefusal, Reply};
pub use runs::run;
pub use status::SubscriptionStatus;
pub use world::World;
