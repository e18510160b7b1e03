//! What waits for each subscription of a sequence, what is in flight to it, and which span is
//! delivered next. Theorem: each call of `Deliveries` leaves the picture that its definition in
//! `specs/Changes.antt` makes of the one before; `first_of_all` finds the first in the ready order.
#![tactic(auto)]

mod deliveries;
mod kept;
mod opening;
mod queue;
mod rank;
mod records;
mod span;
mod steps;
mod sub;
mod subscription;
mod taken;
mod tournament;

pub use deliveries::Deliveries;
pub use span::{Span, Status};
pub use sub::MOST_NUMBERS;
pub use subscription::SubscriptionRef;
