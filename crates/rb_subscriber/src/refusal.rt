//! Why an endpoint doesn't accept a delivery.

ghost use Rattle.std.specs.Prelude.{◌≡◌};

use crate::shown::Shown;
use cs_apply::Conflict;
use std::alloc::AllocError;
use thiserror::Error;

/// Why `Endpoint::accept` and `crash` refuse a delivery. The refused call does not change the
/// endpoint. If several apply, the call returns the first in this order.
#[derive(Clone, Copy, Debug, PartialEq, Eq, Error)]
pub enum AcceptRefusal {
    /// The durable store failed: the subscription has fallen, and accepts nothing until it is
    /// resumed.
    #[error("the subscription has fallen")]
    Store,
    /// The endpoint is closed.
    #[error("the subscription is closed")]
    Closed,
    /// The delivery was made under another link.
    #[error("the subscription has another link now")]
    StaleLink,
    /// Its numbers are accepted already: its last one isn't after the cursor.
    #[error("the delivery is accepted already")]
    Seen,
    /// It doesn't begin with `expected`, the number after the cursor.
    #[error("the next number to accept is {expected}")]
    Gap { expected: u64 },
    /// The changeset with this number is of other tables than the endpoint's.
    #[error("the changeset {number} is of other tables")]
    Shape { number: u64 },
    /// A change conflicts with the rows. Its position counts the changes of the delivery's group,
    /// from 0.
    #[error("{0}")]
    Conflict(Conflict),
}

/// What stops `Endpoint::accept` and `crash`. The stopped call does not change the endpoint.
#[derive(Clone, Copy, Debug, PartialEq, Eq, Error)]
pub enum AcceptError {
    /// The delivery is refused.
    #[error("{0}")]
    Refused(AcceptRefusal),
    /// Memory ran out. It may replace a conflict, but no other refusal.
    #[error("out of memory")]
    Memory,
}

/// What stops `Subscription::accept` and `accept_alone`. The stopped call does not change the
/// subscription. What the cells showed comes back, so the caller sees which entries are the reason.
#[derive(Debug, Drop, Error)]
pub enum SubscriptionError {
    /// The delivery is refused, whatever its entries are: `Store`, `Closed`, `StaleLink`, `Seen` or
    /// `Gap`.
    #[error("{0}")]
    Refused(AcceptRefusal),
    /// The delivery is refused for its entries, which are these: `Shape` or `Conflict`.
    #[error("{why}")]
    RefusedEntries { why: AcceptRefusal, shown: Shown },
    /// The cell of this number, one of the delivery's, showed nothing. Those before it showed these
    /// entries.
    #[error("the entry {number} isn't seen yet")]
    Unseen { number: u64, shown: Shown },
    /// Memory ran out, for these entries. It may replace a conflict, but no other refusal.
    #[error("out of memory")]
    Memory { shown: Shown },
}

/// What stops `Subscription::accept_durable`.
#[derive(Debug, Drop, Error)]
pub enum DurableError<E> {
    /// It stops `accept`, too. Neither the subscription nor the store changes.
    #[error("{0}")]
    Accept(SubscriptionError),
    /// The store failed with this error, and the subscription has fallen.
    #[error("the store failed")]
    Store(E),
}

impl<E> From<SubscriptionError> for DurableError<E> {
    ghost use Rattle.std.specs.Prelude.{◌≡◌};
    ghost use Rattle.rb_subscriber.specs.declared.refusal.DurableError.TheVariants.{Accept};

    ghost from_gives = { λ why e. e ≡ Accept why };

    fn from(why: SubscriptionError) -> DurableError<E> {
        DurableError::Accept(why)
    }
}

impl From<AcceptRefusal> for AcceptError {
    ghost use Rattle.std.specs.Prelude.{◌≡◌};
    ghost use Rattle.rb_subscriber.specs.declared.refusal.AcceptError.TheVariants.{Refused};

    ghost from_gives = { λ why e. e ≡ Refused why };

    fn from(why: AcceptRefusal) -> AcceptError {
        AcceptError::Refused(why)
    }
}

impl From<AllocError> for AcceptError {
    ghost use Rattle.std.specs.Prelude.{◌≡◌};
    ghost use Rattle.rb_subscriber.specs.declared.refusal.AcceptError.TheVariants.{Memory};

    ghost from_gives = { λ _ e. e ≡ Memory };

    fn from(_: AllocError) -> AcceptError {
        AcceptError::Memory
    }
}
