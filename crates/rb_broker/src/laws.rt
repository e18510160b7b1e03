//! Laws of what owners have seen. Each is a public function that does nothing; its contract is the
//! law. Call the function to use the law.

ghost use Rattle.std.specs.Prelude.{◌≡◌, ◌≤◌, ℕ, List, Some};
ghost use mathlib.Core.List.{IsPrefix};
ghost use Rattle.rb_desk.specs.IsPicture.{AreInRange};
ghost use Rattle.rb_desk.specs.Limits.{Limits};
ghost use Rattle.rb_desk.specs.Steps.{FloorsRise};
ghost use Rattle.rb_desk.specs.declared.step.Step.{Step};
ghost use Rattle.rb_subscriber.specs.Owner.{desk_after};

/// What an owner has seen stays so for whoever has seen more, whoever that is (`Stake::compare`).
/// The front doesn't fall, and no subscription's floor does: what is acknowledged stays
/// acknowledged. After a close nothing is placed, and the closing number stays.
///
/// What a call returned is what the desk returns after the history that its owner has seen since
/// (*DeskReturns*), so the laws of the desk (`rb_desk::laws`) hold of it, too: that no number is
/// lost, and that none is in two deliveries at once.
pub fn what_is_seen_stays()
    ensures front { (limits : Limits) (early late : List (ℕ × Step)) → IsPrefix early late
        → (desk_after limits early).picture.front ≤ (desk_after limits late).picture.front }
    ensures floors { (limits : Limits) (early late : List (ℕ × Step)) → AreInRange limits
        → IsPrefix early late
        → FloorsRise (desk_after limits early).picture (desk_after limits late).picture }
    ensures closed { (limits : Limits) (early late : List (ℕ × Step)) (last : ℕ)
        → AreInRange limits → IsPrefix early late
        → (desk_after limits early).picture.closing ≡ Some last
        → ((desk_after limits late).picture.closing ≡ Some last)
        × ((desk_after limits late).picture.front ≡ last) }
{}
