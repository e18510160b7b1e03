//! What the cells show of a delivery, found without memory.

ghost use Rattle.std.specs.Prelude.{◌≡◌, ◌≤◌};
ghost use Rattle.rb_subscriber.specs.AcceptShown.{LookAnswers, outside_after};

use crate::refusal::{AcceptRefusal, SubscriptionError};
use crate::shown::Shown;
use cs_model::Schema;
use rb_desk::Delivery;
use rb_sequence::{Sequence, Sight};

/// Why a delivery isn't accepted where there is no room for its tokens: `Unseen`, `Shape`, or
/// `Memory`.
pub(crate) fn look(sequence: &Sequence, schema: &Schema, delivery: &Delivery) -> SubscriptionError
    requires { (1 ≤ delivery.now.first) × (delivery.now.first ≤ delivery.now.last) }
    ensures { LookAnswers sequence.now delivery.now schema.now result }
{
    let mut outside = None;
    let mut sight = Sight::nothing();
    for past in 0..delivery.last() - (delivery.first() - 1) {
        let number = delivery.first() + past;
        let Some(told) = sequence.tell(number) else {
            let shown = Shown::Seen(sight);
            return SubscriptionError::Unseen { number, shown };
        };
        let body = sequence.get_told(&told).body();
        outside = after(outside, schema.admits(body).is_err(), number);
        sight = sight.with(&told);
    }
    let shown = Shown::Seen(sight);
    match outside {
        Some(number) => {
            let why = AcceptRefusal::Shape { number };
            SubscriptionError::RefusedEntries { why, shown }
        }
        None => SubscriptionError::Memory { shown },
    }
}

// the first number outside, with one more entry looked at
fn after(outside: Option<u64>, is_refused: bool, number: u64) -> Option<u64>
    ensures { result ≡ outside_after outside is_refused number }
{
    match outside {
        None if is_refused => Some(number),
        other => other,
    }
}
