//! Laws of the desk: what holds of every picture and of every list of calls. Each law is a public
//! function that does nothing; its contract is the law. Call the function to use the law.

ghost use Rattle.std.specs.Prelude.{◌≡◌, ℕ, suc, ◌+◌, ◌<◌, ◌≤◌, ◌++◌, ◌∷◌, Bool, List, []};
ghost use Rattle.std.specs.Prelude.{if◌then◌else◌, length, Some, Ok, Err, slice_get, false, ◌⊎◌};
ghost use Rattle.rb_desk.specs.declared.delivery.Delivery.{Delivery};
ghost use Rattle.rb_desk.specs.declared.refusal.DeskRefusal.{DeskRefusal};
ghost use Rattle.rb_desk.specs.declared.refusal.DeskRefusal.TheVariants.{Drained};
ghost use Rattle.rb_desk.specs.declared.step.Step.{Step};
ghost use Rattle.rb_desk.specs.Limits.{Limits};
ghost use Rattle.rb_desk.specs.Picture.{Picture, empty_picture};
ghost use Rattle.rb_desk.specs.Calls.{subscribe, take, take_any, ack, nack, expire, reconnect};
ghost use Rattle.rb_desk.specs.Calls.{unsubscribe, prepare, place, close, nack_opened};
ghost use Rattle.rb_desk.specs.Steps.{after_step, replayed, replay, links_given, numbers_given};
ghost use Rattle.rb_desk.specs.Steps.{RisesAbove, FloorsRise, KeepsFrame};
ghost use Rattle.rb_desk.specs.Outline.{outline_of};
ghost use Rattle.rb_desk.specs.Outline as outline;
ghost use Rattle.rb_desk.specs.Journaled.{JournaledPicture, counted_steps, is_own, journaled};
ghost use Rattle.rb_deliveries.specs.Picture.{Subscription};
ghost use Rattle.rb_desk.specs.IsPicture.{AreInRange, IsPicture, how_often};
ghost use Rattle.rb_desk.specs.History.{IsAccountedFor, WasAckedUnder, WasSettled, how_many_have};
ghost use Rattle.rb_desk.specs.FullSpans.{IsInSettled, IsPartition, IsSettledSpan};
ghost use Rattle.rb_desk.specs.FullPicture.{FullSubscription, unsettled_picture};
ghost use Rattle.rb_desk.specs.FullCalls.{full_ack, full_close, full_expire, full_nack};
ghost use Rattle.rb_desk.specs.FullCalls.{full_nack_opened, full_prepare, full_reconnect};
ghost use Rattle.rb_desk.specs.FullCalls.{full_replay, full_subscribe, full_take, full_take_any};
ghost use Rattle.rb_desk.specs.FullCalls.{full_unsubscribe};

/// Every call preserves the invariant of a picture (*IsPicture*), whatever its operands are.
pub fn calls_keep_pictures()
    ensures { (old : Picture) (step : Step) → IsPicture old → IsPicture (after_step old step) }
{}

/// So does every list of calls on a new desk.
pub fn replays_are_pictures()
    ensures { (limits : Limits) (steps : List Step) → AreInRange limits
        → IsPicture (replay limits steps) }
{}

/// No call changes the limits.
pub fn calls_keep_limits()
    ensures { (old : Picture) (step : Step) → (after_step old step).limits ≡ old.limits }
{}

/// No link and no delivery's number is issued twice: those that a list of calls issues rise from 1.
pub fn numbers_are_given_once()
    ensures links { (limits : Limits) (steps : List Step)
        → RisesAbove 1 (links_given (empty_picture limits) steps) }
    ensures deliveries { (limits : Limits) (steps : List Step)
        → RisesAbove 1 (numbers_given (empty_picture limits) steps) }
{}

/// No call lowers the front, removes a subscription, or lowers a subscription's floor.
pub fn front_and_floors_rise()
    ensures front { (old : Picture) (steps : List Step) → old.front ≤ (replayed old steps).front }
    ensures floors { (old : Picture) (steps : List Step)
        → IsPicture old → FloorsRise old (replayed old steps) }
{}

/// What a call that isn't refused changes in the outline, which has no spans and no clock. `ack`,
/// `nack`, `nack_opened` and `expire` do not change it.
pub fn calls_show_in_outline()
    ensures subscribe { (old : Picture) (start s link : ℕ) (new : Picture)
        → subscribe old start ≡ (Ok (s, link), new)
        → outline.Subscribes (outline_of old) (outline_of new) start s link }
    ensures take { (old : Picture) (s link cursor now : ℕ) (delivery : Delivery) (new : Picture)
        → IsPicture old → take old s link cursor now ≡ (Ok delivery, new)
        → (delivery.sub ≡ s) × outline.Delivers (outline_of old) (outline_of new) delivery }
    ensures take_any { (old : Picture) (now : ℕ) (delivery : Delivery) (new : Picture)
        → IsPicture old → take_any old now ≡ (Ok delivery, new)
        → outline.Delivers (outline_of old) (outline_of new) delivery }
    ensures ack { (old : Picture) (s link number cursor floor : ℕ) (new : Picture)
        → ack old s link number cursor ≡ (Ok floor, new) → outline_of new ≡ outline_of old }
    ensures nack { (old : Picture) (s link number : ℕ) (new : Picture)
        → nack old s link number ≡ (Ok tt, new) → outline_of new ≡ outline_of old }
    ensures nack_opened { (old : Picture) (s link number count : ℕ) (new : Picture)
        → nack_opened old s link number ≡ (Ok count, new) → outline_of new ≡ outline_of old }
    ensures expire { (old : Picture) (now many : ℕ) (new : Picture)
        → expire old now ≡ (many, new) → outline_of new ≡ outline_of old }
    ensures reconnect { (old : Picture) (s cursor link : ℕ) (new : Picture)
        → reconnect old s cursor ≡ (Ok link, new)
        → outline.Reconnects (outline_of old) (outline_of new) s link }
    ensures unsubscribe { (old : Picture) (s link : ℕ) (new : Picture)
        → unsubscribe old s link ≡ (Ok tt, new)
        → outline.Unsubscribes (outline_of old) (outline_of new) s }
    ensures place { (old : Picture) (number : ℕ) → prepare old ≡ Ok number
        → outline.Places (outline_of old) (outline_of (place old)) number }
    ensures close { (old : Picture) (last : ℕ) (new : Picture) → IsPicture old
        → close old ≡ (last, new) → outline.Closes (outline_of old) (outline_of new) last }
{}

/// A delivery that `take` makes has the number and the link that it was asked for.
pub fn takes_are_as_asked()
    ensures { (old : Picture) (s link cursor now : ℕ) (delivery : Delivery) (new : Picture)
        → take old s link cursor now ≡ (Ok delivery, new)
        → (delivery.sub ≡ s) × (delivery.link ≡ link) }
{}

/// `take` refuses `Drained` only after a closing, where the cursor is the closing number.
pub fn drained_is_at_the_end()
    ensures { (old : Picture) (s link cursor now last : ℕ)
        → (take old s link cursor now).0 ≡ Err (Drained last)
        → (cursor ≡ last) × (old.closing ≡ Some last) }
{}

/// Only `subscribe` changes how many subscriptions there are, and only `close` the closing number.
/// The number of a new subscription is how many there were before it.
#[tactic(auto, using(crate::proofs::pictures::Replays::frames))]
pub fn only_subscribe_and_close()
    ensures subscribe { (old : Picture) (start s link : ℕ) → (subscribe old start).0 ≡ Ok (s, link)
        → (s ≡ length old.subscriptions) × (length old.subscriptions < 1024)
        × (length (subscribe old start).1.subscriptions ≡ suc (length old.subscriptions)) }
    ensures subscribe_else { (old : Picture) (start : ℕ)
        → ((subscribe old start).1.limits ≡ old.limits)
        × ((subscribe old start).1.closing ≡ old.closing) }
    ensures take { (old : Picture) (s link cursor now : ℕ)
        → KeepsFrame old (take old s link cursor now).1 }
    ensures take_any { (old : Picture) (now : ℕ) → KeepsFrame old (take_any old now).1 }
    ensures ack { (old : Picture) (s link number cursor : ℕ)
        → KeepsFrame old (ack old s link number cursor).1 }
    ensures nack { (old : Picture) (s link number : ℕ)
        → KeepsFrame old (nack old s link number).1 }
    ensures nack_opened { (old : Picture) (s link number : ℕ)
        → KeepsFrame old (nack_opened old s link number).1 }
    ensures expire { (old : Picture) (now : ℕ) → KeepsFrame old (expire old now).1 }
    ensures reconnect { (old : Picture) (s cursor : ℕ)
        → KeepsFrame old (reconnect old s cursor).1 }
    ensures unsubscribe { (old : Picture) (s link : ℕ)
        → KeepsFrame old (unsubscribe old s link).1 }
    ensures place { (old : Picture) → KeepsFrame old (place old) }
    ensures close { (old : Picture) → ((close old).1.limits ≡ old.limits)
        × (length (close old).1.subscriptions ≡ length old.subscriptions) }
{}

/// A refused call does not change the picture.
pub fn refused_calls_change_nothing()
    ensures subscribe { (old : Picture) (start : ℕ) (why : DeskRefusal) (new : Picture)
        → subscribe old start ≡ (Err why, new) → new ≡ old }
    ensures take { (old : Picture) (s link cursor now : ℕ) (why : DeskRefusal) (new : Picture)
        → take old s link cursor now ≡ (Err why, new) → new ≡ old }
    ensures take_any { (old : Picture) (now : ℕ) (why : DeskRefusal) (new : Picture)
        → take_any old now ≡ (Err why, new) → new ≡ old }
    ensures ack { (old : Picture) (s link number cursor : ℕ) (why : DeskRefusal) (new : Picture)
        → ack old s link number cursor ≡ (Err why, new) → new ≡ old }
    ensures nack { (old : Picture) (s link number : ℕ) (why : DeskRefusal) (new : Picture)
        → nack old s link number ≡ (Err why, new) → new ≡ old }
    ensures nack_opened { (old : Picture) (s link number : ℕ) (why : DeskRefusal) (new : Picture)
        → nack_opened old s link number ≡ (Err why, new) → new ≡ old }
    ensures reconnect { (old : Picture) (s cursor : ℕ) (why : DeskRefusal) (new : Picture)
        → reconnect old s cursor ≡ (Err why, new) → new ≡ old }
    ensures unsubscribe { (old : Picture) (s link : ℕ) (why : DeskRefusal) (new : Picture)
        → unsubscribe old s link ≡ (Err why, new) → new ≡ old }
{}

/// How many steps of a kind a journal has: none at first, and one more with each step of the kind.
/// So if a ledger's book grows by one in each call of a subscription's own that isn't refused
/// (*is_own*), and in no other, it holds how many of these steps the journal has.
pub fn steps_are_counted()
    ensures none { (kind : Step → Bool) → counted_steps kind [] ≡ 0 }
    ensures more { (kind : Step → Bool) (steps : List Step) (step : Step)
        → counted_steps kind (steps ++ step ∷ [])
        ≡ counted_steps kind steps + (if kind step then 1 else 0) }
    ensures few { (kind : Step → Bool) (steps : List Step)
        → counted_steps kind steps ≤ length steps }
    ensures own { (old : JournaledPicture) (step : Step) (picture : Picture)
        → counted_steps is_own (journaled old step picture).steps
        ≡ counted_steps is_own old.steps + (if is_own step then 1 else 0) }
{}

/// Nothing placed is lost to an open subscription, and nothing is in two deliveries at once.
///
/// After any list of calls, look at a number after the subscription's start, up to the front. It is
/// settled, since a reconnect passed it or it was acknowledged under the subscription's link; or
/// exactly one span has it, ready or in flight (`accounted`). No number is in two spans (`once`),
/// and none up to the floor is in one (`settled`). What is settled is in none (`not_again`), so it
/// is not delivered again before a reconnect.
///
/// Each `Desk` has this of its own journal: the steps lead to its picture (`Desk::steps`), and its
/// limits are in range (`Desk::config`).
pub fn no_number_is_lost()
    ensures accounted { (limits : Limits) (steps : List Step) (s : ℕ) (q : Subscription) (n : ℕ)
        → AreInRange limits
        → slice_get (replay limits steps).subscriptions s ≡ Some q → q.closed ≡ false
        → q.start < n → n ≤ (replay limits steps).front → IsAccountedFor limits steps s q n }
    ensures once { (limits : Limits) (steps : List Step) (s : ℕ) (q : Subscription) (n : ℕ)
        → AreInRange limits
        → slice_get (replay limits steps).subscriptions s ≡ Some q → how_many_have n q.spans ≤ 1 }
    ensures settled { (limits : Limits) (steps : List Step) (s : ℕ) (q : Subscription) (n : ℕ)
        → AreInRange limits
        → slice_get (replay limits steps).subscriptions s ≡ Some q → n ≤ q.floor
        → how_many_have n q.spans ≡ 0 }
    ensures not_again { (limits : Limits) (steps : List Step) (s : ℕ) (q : Subscription) (n : ℕ)
        → AreInRange limits
        → slice_get (replay limits steps).subscriptions s ≡ Some q
        → WasSettled limits steps s q.link n → how_many_have n q.spans ≡ 0 }
{}

/// The desk's picture is a full picture without its settled spans. In a full picture each number
/// after an open subscription's floor, up to the front, is in exactly one span. This span is ready,
/// in flight or settled.
///
/// The same calls lead to both (`shows`). An open subscription's spans partition these numbers
/// (`partition`). A settled span is in neither order (`orders`), and each of its numbers was
/// acknowledged under the subscription's link (`acked`). A number that was acknowledged so is in a
/// settled span, or the floor has passed it (`stays`).
pub fn spans_are_a_partition()
    ensures shows { (limits : Limits) (steps : List Step) → AreInRange limits
        → replay limits steps ≡ unsettled_picture (full_replay limits steps) }
    ensures partition { (limits : Limits) (steps : List Step) (s : ℕ) (q : FullSubscription)
        → AreInRange limits
        → slice_get (full_replay limits steps).subscriptions s ≡ Some q → q.closed ≡ false
        → IsPartition (suc q.floor) q.spans (full_replay limits steps).front }
    ensures orders { (limits : Limits) (steps : List Step) (s : ℕ) (q : FullSubscription)
        → (first last : ℕ) → AreInRange limits
        → slice_get (full_replay limits steps).subscriptions s ≡ Some q
        → IsSettledSpan first last q.spans
        → (how_often s first (full_replay limits steps).ready ≡ 0)
        × (how_often s first (full_replay limits steps).in_flight ≡ 0) }
    ensures acked { (limits : Limits) (steps : List Step) (s : ℕ) (q : FullSubscription) (n : ℕ)
        → AreInRange limits
        → slice_get (full_replay limits steps).subscriptions s ≡ Some q
        → IsInSettled n q.spans → WasAckedUnder limits steps s q.link n }
    ensures stays { (limits : Limits) (steps : List Step) (s : ℕ) (q : FullSubscription) (n : ℕ)
        → AreInRange limits
        → slice_get (full_replay limits steps).subscriptions s ≡ Some q → q.closed ≡ false
        → WasAckedUnder limits steps s q.link n → (n ≤ q.floor) ⊎ IsInSettled n q.spans }
{}

/// Each call returns the same on both pictures, after any list of calls.
pub fn partitions_answer_alike()
    ensures subscribe { (limits : Limits) (steps : List Step) (start : ℕ) → AreInRange limits
        → (subscribe (replay limits steps) start).0
        ≡ (full_subscribe (full_replay limits steps) start).0 }
    ensures take { (limits : Limits) (steps : List Step) (s link cursor now : ℕ)
        → AreInRange limits
        → (take (replay limits steps) s link cursor now).0
        ≡ (full_take (full_replay limits steps) s link cursor now).0 }
    ensures take_any { (limits : Limits) (steps : List Step) (now : ℕ) → AreInRange limits
        → (take_any (replay limits steps) now).0
        ≡ (full_take_any (full_replay limits steps) now).0 }
    ensures ack { (limits : Limits) (steps : List Step) (s link number cursor : ℕ)
        → AreInRange limits
        → (ack (replay limits steps) s link number cursor).0
        ≡ (full_ack (full_replay limits steps) s link number cursor).0 }
    ensures nack { (limits : Limits) (steps : List Step) (s link number : ℕ) → AreInRange limits
        → (nack (replay limits steps) s link number).0
        ≡ (full_nack (full_replay limits steps) s link number).0 }
    ensures nack_opened { (limits : Limits) (steps : List Step) (s link number : ℕ)
        → AreInRange limits
        → (nack_opened (replay limits steps) s link number).0
        ≡ (full_nack_opened (full_replay limits steps) s link number).0 }
    ensures expire { (limits : Limits) (steps : List Step) (now : ℕ) → AreInRange limits
        → (expire (replay limits steps) now).0
        ≡ (full_expire (full_replay limits steps) now).0 }
    ensures reconnect { (limits : Limits) (steps : List Step) (s cursor : ℕ) → AreInRange limits
        → (reconnect (replay limits steps) s cursor).0
        ≡ (full_reconnect (full_replay limits steps) s cursor).0 }
    ensures unsubscribe { (limits : Limits) (steps : List Step) (s link : ℕ) → AreInRange limits
        → (unsubscribe (replay limits steps) s link).0
        ≡ (full_unsubscribe (full_replay limits steps) s link).0 }
    ensures prepare { (limits : Limits) (steps : List Step) → AreInRange limits
        → prepare (replay limits steps) ≡ full_prepare (full_replay limits steps) }
    ensures close { (limits : Limits) (steps : List Step) → AreInRange limits
        → (close (replay limits steps)).0 ≡ (full_close (full_replay limits steps)).0 }
{}
