//! `Board`: the state that all calls of a desk read and change.

ghost use Rattle.std.specs.Prelude.{◌≡◌, slice_get};
ghost use Rattle.rb_desk.specs.Picture.{empty_picture};
ghost use Rattle.rb_desk.specs.Shown.{FindsLinked};

use crate::config::Config;
use crate::refusal::DeskRefusal;
use rb_deliveries::{Deliveries, SubscriptionRef};
use std::alloc::Global;
use std::marker::Model;

/// What a desk keeps beside its journal: which numbers wait for which subscriptions, and which are
/// in flight. Contracts see its picture, and how many turns were drawn.
#[derive(Debug, Drop)]
pub(crate) struct Board {
    pub(crate) config: Config,
    pub(crate) closing: Option<u64>,
    pub(crate) clock: u64,
    pub(crate) next_link: u64,
    pub(crate) deliveries: Deliveries,
}

impl Model for Board {
    ghost use Rattle.rb_desk.specs.Shown.{BoardSeen, IsWithin, shown};

    ghost Value = { BoardSeen };

    ghost view = { λ d. record {
      picture = shown d.config d.closing d.clock d.next_link d.deliveries.picture;
      turns = d.deliveries.turns;
    } };

    ghost invariant = { λ d. IsWithin d.config d.deliveries.picture };
}

/// The subscription that a call is for, and the link that the caller has.
#[derive(Clone, Copy, Debug)]
pub(crate) struct Caller {
    pub(crate) sub: u64,
    pub(crate) link: u64,
}

impl Board {
    /// A new board, before any call.
    pub(crate) fn new(alloc: Global, config: Config) -> Board
        ensures { result ≡ record { picture = empty_picture config; turns = 0 } }
    {
        Board {
            config,
            closing: None,
            clock: 0,
            next_link: 1,
            deliveries: Deliveries::new(alloc, config.batch(), config.window()),
        }
    }

    /// Its limits.
    pub(crate) fn config(&self) -> Config
        ensures { result ≡ self.now.picture.limits }
    {
        self.config
    }

    /// What is known of a subscription, if there is one with this number.
    pub(crate) fn subscription(&self, sub: u64) -> Option<SubscriptionRef<'_>>
        ensures { result ≡ slice_get self.now.picture.subscriptions sub }
    {
        self.deliveries.get(sub)
    }

    /// The subscription of the caller, if this is its link, or why there is none.
    #[tactic(auto, unfolding(crate::specs::Calls::take, crate::specs::Calls::ack, crate::specs::Calls::nack, crate::specs::Calls::nack_opened, crate::specs::Calls::unsubscribe))]
    pub(crate) fn linked(&self, caller: Caller) -> Result<SubscriptionRef<'_>, DeskRefusal>
        ensures { FindsLinked result self.now.picture caller.sub caller.link }
    {
        let Some(found) = self.deliveries.get(caller.sub) else {
            return Err(DeskRefusal::NoSuch);
        };
        if found.link() != caller.link {
            return Err(DeskRefusal::StaleLink);
        }
        Ok(found)
    }
}
