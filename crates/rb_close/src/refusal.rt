//! Why `finish` finishes nothing, and what it hands back then.

use rb_broker::{Broker, BrokerBrand, Publisher, PublisherMaker};
use rb_sequencer::Sequencer;
use thiserror::Error;

/// Why `finish` finishes nothing.
#[derive(Clone, Copy, Debug, PartialEq, Eq, Error)]
pub enum FinishError {
    /// The sequence isn't closed after what the sequencer placed.
    #[error("the sequence isn't closed")]
    NotClosed,
    /// A publisher that was made isn't given.
    #[error("a publisher is missing")]
    Missing,
    /// There is no room for the items that are left.
    #[error("out of memory")]
    Memory,
}

/// A broker that isn't finished, and why. All that was given comes back as it was.
#[derive(Drop)]
pub struct RefusedFinish<L: BrokerBrand> {
    /// Why it isn't finished.
    pub why: FinishError,
    /// Its publishers.
    pub publishers: Vec<Publisher<L>>,
    /// Its sequencer.
    pub sequencer: Sequencer<L>,
    /// The maker of its publishers.
    pub maker: PublisherMaker<L>,
    /// The broker.
    pub broker: Broker<L>,
}
