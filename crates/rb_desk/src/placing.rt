//! The front of the sequence: placing numbers, and closing.

ghost use Rattle.std.specs.Prelude.{◌≡◌, length, Ok, IsOk};
ghost use Rattle.rb_desk.specs.Calls.{prepare, place, close};
ghost use Rattle.rb_desk.specs.Shown.{Draws};

use crate::board::Board;
use crate::refusal::DeskRefusal;

impl Board {
    /// The number that `place` would place now. Does not change the desk.
    ///
    /// Refuses `Closed` if the sequence is closed, and `SequenceFull` if it has reached its
    /// capacity.
    #[tactic(auto, unfolding(crate::specs::Calls::prepare))]
    pub(crate) fn prepare(&self) -> Result<u64, DeskRefusal>
        ensures { result ≡ prepare self.now.picture }
    {
        if self.closing.is_some() {
            return Err(DeskRefusal::Closed);
        }
        let front = self.deliveries.front();
        if front >= self.config.capacity() {
            return Err(DeskRefusal::SequenceFull);
        }
        Ok(front + 1)
    }

    /// Places the next number and returns it: every open subscription has it from now on. Does not
    /// allocate. Requires that `prepare` would return Ok, as it does right after a `prepare` that
    /// returned Ok.
    pub(crate) fn place(&mut self) -> u64
        requires { IsOk (prepare self.old.picture) }
        ensures number { prepare self.old.picture ≡ Ok result }
        ensures picture { self.new
            ≡ record { picture = place self.old.picture; turns = self.old.turns } }
        ensures draws { Draws 0 self.old self.new }
    {
        self.deliveries.place();
        self.deliveries.front()
    }

    /// Closes the sequence and returns its last number. A second call returns the same number. All
    /// calls but placing go on.
    #[tactic(auto, unfolding(crate::specs::Calls::close))]
    pub(crate) fn close(&mut self) -> u64
        ensures answer { close self.old.picture ≡ (result, self.new.picture) }
        ensures turns { self.new.turns ≡ self.old.turns }
    {
        if let Some(last) = self.closing {
            return last;
        }
        let front = self.deliveries.front();
        self.closing = Some(front);
        front
    }

    /// The last number placed, 0 before the first.
    pub(crate) fn front(&self) -> u64
        ensures { result ≡ self.now.picture.front }
    {
        self.deliveries.front()
    }

    /// The closing number, if the sequence is closed: the last number placed.
    pub(crate) fn closing(&self) -> Option<u64>
        ensures { result ≡ self.now.picture.closing }
    {
        self.closing
    }

    /// How many subscriptions were made, closed ones included.
    pub(crate) fn made(&self) -> u64
        ensures { result ≡ length self.now.picture.subscriptions }
    {
        self.deliveries.len()
    }
}
