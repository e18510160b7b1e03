//! Why the desk refuses a call, and what else stops one.

ghost use Rattle.std.specs.Prelude.{◌≡◌};

use std::alloc::AllocError;
use thiserror::Error;

/// Why a call of `Desk` or `TalliedBoard` is refused. Each variant names the calls that return it.
/// The refused call does not change the desk. If several apply, the call returns the first in its
/// own documentation.
#[derive(Clone, Copy, Debug, PartialEq, Eq, Error)]
pub enum DeskRefusal {
    /// Every call but `close`, before its other refusals: 268,435,455 steps were made.
    #[error("the journal is full")]
    JournalFull,
    /// `take`, `ack`, `nack`, `nack_opened`, `reconnect`, `unsubscribe`: no subscription has this
    /// number.
    #[error("there is no such subscription")]
    NoSuch,
    /// `take`, `ack`, `nack`, `nack_opened`, `unsubscribe`: the link isn't the subscription's
    /// current one.
    #[error("the subscription has another link now")]
    StaleLink,
    /// `take`, `reconnect`, `unsubscribe`: the subscription is closed. `prepare`: the sequence is
    /// closed.
    #[error("it is closed")]
    Closed,
    /// `take`: the subscription has as many deliveries in flight as its window holds.
    #[error("the window is full")]
    WindowFull,
    /// `take`: the sequence is closed, and the subscription has settled everything up to its last
    /// number.
    #[error("everything up to the last number, {last}, is settled")]
    Drained { last: u64 },
    /// `take`, `take_any`: nothing can be delivered now. The last number placed is `front`.
    #[error("nothing is ready; the last number placed is {front}")]
    Empty { front: u64 },
    /// `ack`, `nack`, `nack_opened`: no delivery with this number is in flight to the subscription.
    #[error("no such delivery is in flight")]
    NotInFlight,
    /// `ack`: the delivery's last number is after the cursor, so not all of it is accepted.
    #[error("the delivery is accepted up to {cursor} only")]
    NotAccepted { cursor: u64 },
    /// `reconnect`: the cursor isn't between the floor and the last number delivered.
    #[error("the cursor is not between the floor, {floor}, and what was offered, {offered}")]
    BadCursor { floor: u64, offered: u64 },
    /// `subscribe`: the start is after the last number placed, `front`.
    #[error("the last number placed is {front}")]
    StartAhead { front: u64 },
    /// `subscribe`: 1,024 subscriptions were made.
    #[error("there are 1,024 subscriptions")]
    TooMany,
    /// `prepare`: the sequence has reached its capacity.
    #[error("the sequence is full")]
    SequenceFull,
}

/// What stops a call that is one step of a desk, other than `place` and `close`. The stopped call
/// does not change the desk, its journal included.
#[derive(Clone, Copy, Debug, PartialEq, Eq, Error)]
pub enum DeskError {
    /// The call is refused.
    #[error("{0}")]
    Refused(DeskRefusal),
    /// Memory ran out. It comes only if the call isn't refused.
    #[error("out of memory")]
    Memory,
}

impl From<DeskRefusal> for DeskError {
    ghost use Rattle.std.specs.Prelude.{◌≡◌};
    ghost use Rattle.rb_desk.specs.declared.refusal.DeskError.TheVariants.{Refused};

    ghost from_gives = { λ why e. e ≡ Refused why };

    fn from(why: DeskRefusal) -> DeskError {
        DeskError::Refused(why)
    }
}

impl From<AllocError> for DeskError {
    ghost use Rattle.std.specs.Prelude.{◌≡◌};
    ghost use Rattle.rb_desk.specs.declared.refusal.DeskError.TheVariants.{Memory};

    ghost from_gives = { λ _ e. e ≡ Memory };

    fn from(_: AllocError) -> DeskError {
        DeskError::Memory
    }
}
