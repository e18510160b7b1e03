//! `SubscriptionStatus`: how far a subscription has come.

ghost use Rattle.std.specs.Prelude.{◌≡◌};
ghost use Rattle.rb_core.specs.Status.{subscription_status};

use crate::parts::Parts;

/// What is known of one subscription, at one moment. `front` less `floor` is its lag: how many
/// placed entries it has not settled.
#[derive(Clone, Copy, Debug, PartialEq, Eq)]
pub struct SubscriptionStatus {
    /// The number after which it began.
    pub start: u64,
    /// The number up to which it has settled all entries.
    pub floor: u64,
    /// The last number that it has accepted.
    pub cursor: u64,
    /// The greatest number that was delivered to it.
    pub offered: u64,
    /// Its current link.
    pub link: u64,
    /// How many spans are ready for it: a `Take` delivers the first one.
    pub ready: u64,
    /// How many deliveries are in flight to it.
    pub in_flight: u64,
    /// The last number placed.
    pub front: u64,
    /// Whether it is closed.
    pub closed: bool,
    /// Whether it has fallen.
    pub fallen: bool,
}

impl Parts {
    /// What is known of a subscription, if there is one with this number.
    pub(crate) fn status(&self, subscription: u64) -> Option<SubscriptionStatus>
        ensures { result ≡ subscription_status self.now subscription }
    {
        let q = self.desk.subscription(subscription)?;
        let end = self.endpoints.get(subscription as usize)?;
        Some(SubscriptionStatus {
            start: q.start(),
            floor: q.floor(),
            cursor: end.cursor(),
            offered: q.offered(),
            link: q.link(),
            ready: q.ready(),
            in_flight: q.in_flight(),
            front: self.desk.front(),
            closed: q.closed(),
            fallen: end.is_fallen(),
        })
    }
}
