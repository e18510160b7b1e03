//! Calls that make, continue and close subscriptions.

ghost use Rattle.std.specs.Prelude.{◌≡◌, OnErr};
ghost use Rattle.rb_desk.specs.Calls.{subscribe, reconnect, unsubscribe};
ghost use Rattle.rb_desk.specs.Answers.{DeskAnswers, call_refusal};
ghost use Rattle.rb_desk.specs.Shown.{AreLeft, Draws, FindsToClose, FindsToReconnect};

use crate::board::{Board, Caller};
use crate::refusal::{DeskError, DeskRefusal};
use std::alloc::Global;

impl Board {
    /// Adds a subscription to the numbers after `start`. Returns its number, from 0, and its link.
    ///
    /// Refuses `StartAhead` if `start` isn't placed yet, and `TooMany` if 1,024 subscriptions were
    /// made.
    #[tactic(auto, unfolding(crate::specs::Calls::subscribe))]
    pub(crate) fn subscribe(&mut self, alloc: Global, start: u64) -> Result<(u64, u64), DeskError>
        requires { AreLeft 1 self.old }
        ensures answer { DeskAnswers result (subscribe self.old.picture start)
            self.old.picture self.new.picture }
        ensures err { OnErr result (self.new ≡ self.old) }
        ensures draws { Draws 1 self.old self.new }
    {
        if let Some(why) = self.refuses_subscribe(start) {
            return Err(why.into());
        }
        let sub = self.deliveries.len();
        let link = self.next_link;
        self.deliveries.subscribe(alloc, start, link)?;
        self.next_link = link + 1;
        Ok((sub, link))
    }

    /// Why `subscribe` would refuse this start, or `None` where it would not. Does not change the
    /// desk.
    #[tactic(auto, unfolding(crate::specs::Calls::subscribe))]
    pub(crate) fn refuses_subscribe(&self, start: u64) -> Option<DeskRefusal>
        ensures { result ≡ call_refusal (subscribe self.now.picture start).0 }
    {
        let front = self.deliveries.front();
        if front < start {
            return Some(DeskRefusal::StartAhead { front });
        }
        if self.deliveries.len() >= 1_024 {
            return Some(DeskRefusal::TooMany);
        }
        None
    }

    /// Continues a subscription after `cursor`, the last number that it has accepted. The numbers
    /// that were in flight or waited are cut anew. Returns its new link; deliveries under the old
    /// one are stale. Does not allocate.
    ///
    /// Refuses `NoSuch`, `Closed`, and `BadCursor` if the cursor isn't between the floor and the
    /// last number delivered.
    #[tactic(auto, unfolding(crate::specs::Calls::reconnect))]
    pub(crate) fn reconnect(&mut self, sub: u64, cursor: u64) -> Result<u64, DeskRefusal>
        requires { AreLeft 1 self.old }
        ensures answer { reconnect self.old.picture sub cursor ≡ (result, self.new.picture) }
        ensures err { OnErr result (self.new ≡ self.old) }
        ensures draws { Draws 1 self.old self.new }
    {
        self.to_reconnect(sub, cursor)?;
        let link = self.next_link;
        self.deliveries.reconnect(sub, cursor, link);
        self.next_link = link + 1;
        Ok(link)
    }

    /// Why `reconnect` would refuse this cursor, or `None` where it would not.
    pub(crate) fn refuses_reconnect(&self, sub: u64, cursor: u64) -> Option<DeskRefusal>
        ensures { result ≡ call_refusal (reconnect self.now.picture sub cursor).0 }
    {
        self.to_reconnect(sub, cursor).err()
    }

    /// Closes a subscription: removes its spans, and no call delivers to it again.
    ///
    /// Refuses `NoSuch`, `StaleLink`, `Closed`.
    #[tactic(auto, unfolding(crate::specs::Calls::unsubscribe))]
    pub(crate) fn unsubscribe(&mut self, caller: Caller) -> Result<(), DeskRefusal>
        ensures answer { unsubscribe self.old.picture caller.sub caller.link
            ≡ (result, self.new.picture) }
        ensures err { OnErr result (self.new ≡ self.old) }
        ensures draws { Draws 0 self.old self.new }
    {
        self.to_close(caller)?;
        self.deliveries.unsubscribe(caller.sub);
        Ok(())
    }

    /// Why `unsubscribe` would refuse this link, or `None` where it would not.
    pub(crate) fn refuses_unsubscribe(&self, caller: Caller) -> Option<DeskRefusal>
        ensures { result ≡ call_refusal (unsubscribe self.now.picture caller.sub caller.link).0 }
    {
        self.to_close(caller).err()
    }
}

impl Board {
    // whether the subscription may continue after this cursor, or why not
    #[tactic(auto, unfolding(crate::specs::Calls::reconnect))]
    fn to_reconnect(&self, sub: u64, cursor: u64) -> Result<(), DeskRefusal>
        ensures { FindsToReconnect result self.now.picture sub cursor }
    {
        let Some(found) = self.deliveries.get(sub) else {
            return Err(DeskRefusal::NoSuch);
        };
        if found.closed() {
            return Err(DeskRefusal::Closed);
        }
        let floor = found.floor();
        let offered = found.offered();
        if cursor < floor || offered < cursor {
            return Err(DeskRefusal::BadCursor { floor, offered });
        }
        Ok(())
    }

    // whether the subscription may be closed under this link, or why not
    #[tactic(auto, unfolding(crate::specs::Calls::unsubscribe))]
    fn to_close(&self, caller: Caller) -> Result<(), DeskRefusal>
        ensures { FindsToClose result self.now.picture caller.sub caller.link }
    {
        let found = self.linked(caller)?;
        if found.closed() {
            return Err(DeskRefusal::Closed);
        }
        Ok(())
    }
}
