//! Owners that meet: what both of them have.

ghost use Rattle.std.specs.Prelude.{◌≡◌, ◌<◌, ◌≤◌, ℕ, length, max, min};
ghost use Rattle.rb_close.specs.Meeting.{HasMet, ShareEntry, token_accepted};
ghost use Rattle.rb_sequence.specs.Cells.{IsTokenOf};
ghost use Rattle.rb_sequencer.specs.Turns.{token_of};
ghost use Rattle.rb_subscriber.specs.Subscription.{cursor_of};

use rb_broker::BrokerBrand;
use rb_sequence::laws::one_number_is_one_cell;
use rb_sequencer::Sequencer;
use rb_subscriber::{StepLedger, Subscription};

/// The numbers that two subscriptions of one broker have both accepted: those after the first
/// number up to the second one. The two are equal if there are none. For each of them both
/// subscriptions show the same entry, whichever threads they come from.
pub fn meet<L: StepLedger>(one: &Subscription<L>, other: &Subscription<L>) -> (u64, u64)
    ensures from { result.0 ≡ max one.now.start other.now.start }
    ensures to { result.1 ≡ max result.0 (min (cursor_of one.now) (cursor_of other.now)) }
    ensures same { (n : ℕ) → result.0 < n → n ≤ result.1
        → ShareEntry (token_accepted one.now n) (token_accepted other.now n) }
{
    let after = one.start().max(other.start());
    let last = after.max(one.cursor().min(other.cursor()));
    for number in after..last {
        agree(one, other, number + 1);
    }
    (after, last)
}

/// The numbers that the sequencer of a broker has placed and a subscription of it has accepted:
/// those after the first number, its start, up to the second one. The two are equal if there are
/// none. For each of them both show the same entry. If the second number is the cursor, what the
/// subscription accepted is that part of what the sequencer placed.
pub fn meet_sequencer<L: BrokerBrand>(
    sequencer: &Sequencer<L>,
    subscription: &Subscription<L>,
) -> (u64, u64)
    ensures from { result.0 ≡ subscription.now.start }
    ensures to { result.1 ≡ max result.0
        (min (cursor_of subscription.now) (length sequencer.now.placed)) }
    ensures same { (n : ℕ) → result.0 < n → n ≤ result.1
        → ShareEntry (token_of sequencer.now.placed n) (token_accepted subscription.now n) }
    ensures part { result.1 ≡ cursor_of subscription.now
        → HasMet sequencer.now subscription.now }
{
    let start = subscription.start();
    let last = start.max(subscription.cursor().min(sequencer.placed()));
    for number in start..last {
        agree_placed(sequencer, subscription, number + 1);
    }
    (start, last)
}

// Both show the same entry for this number, which both have accepted. Does nothing else.
fn agree<L: StepLedger>(one: &Subscription<L>, other: &Subscription<L>, number: u64)
    requires one { (one.now.start < number) × (number ≤ cursor_of one.now) }
    requires other { (other.now.start < number) × (number ≤ cursor_of other.now) }
    ensures { ShareEntry (token_accepted one.now number) (token_accepted other.now number) }
{
    one_number_is_one_cell();
    // for what their clauses say: each entry is the one that its cell shows
    let _cursors = (one.cursor(), other.cursor());
    let (Some(token), Some(twin)) = (one.told(number), other.told(number)) else {
        unreachable!();
    };
    token.same(twin);
}

// Both show the same entry for this number, which both have. Does nothing else.
fn agree_placed<L: BrokerBrand>(
    sequencer: &Sequencer<L>,
    subscription: &Subscription<L>,
    number: u64,
)
    requires accepted { (subscription.now.start < number)
        × (number ≤ cursor_of subscription.now) }
    requires placed { number ≤ length sequencer.now.placed }
    ensures { ShareEntry (token_of sequencer.now.placed number)
        (token_accepted subscription.now number) }
{
    one_number_is_one_cell();
    // for what their clauses say, as in `agree`
    let _ends = (sequencer.placed(), subscription.cursor());
    let (Some(token), Some(twin)) = (sequencer.told(number), subscription.told(number)) else {
        unreachable!();
    };
    token.same(twin);
}
