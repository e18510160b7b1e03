//! The broker that threads share: publishers send into its intake, a sequencer places what it
//! pulls, and subscriptions take and acknowledge through its lock. Theorem: whenever the lock is
//! free the desk is the replay of its journal, and the steps that owners count are those in the
//! journal.
#![tactic(auto)]

mod brand;
mod broker;
mod calls;
mod holds;
mod keeper_holds;
pub mod laws;
mod locked;
mod maker;
mod opened;
mod publisher;
mod refusal;
mod staged;

pub use brand::BrokerBrand;
pub use broker::{Broker, Started};
pub use maker::{MOST_PUBLISHERS, PublisherMaker};
pub use opened::Opened;
pub use publisher::Publisher;
pub use refusal::{
    AddError, Occupied, PlaceError, RefusedItem, RefusedResume, RefusedSend, RefusedSubscription,
    ResumeError, SubscribeError, TakeError, WithdrawError,
};
pub use staged::StagedSet;
