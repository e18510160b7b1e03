//! `Lost`: a subscription that fell, until it is resumed.

ghost use Rattle.std.specs.{Prelude.{◌≡◌, ◌<◌, IsSome}, Bool.{Decides}, Coded.{codes}};
ghost use Rattle.cs_apply.specs.State.{state_code};
ghost use Rattle.rb_subscriber.specs.{
  Lost.{FitsLost, cursor_after, gone_on},
  Subscription.{SubscriptionState, cursor_of},
};

use crate::step_ledger::StepLedger;
use crate::subscription::Subscription;
use cs_apply::Tables;
use std::marker::Model;

/// A subscription that fell: its durable store failed while it accepted a delivery. The store has
/// the rows and the cursor from before that delivery, or those after it. Open the store again, and
/// hand what it has to the broker's `resume`.
#[derive(Drop)]
pub struct Lost<L: StepLedger> {
    pub(crate) subscription: Subscription<L>,
}

impl<L: StepLedger> Model for Lost<L> {
    ghost Value = { SubscriptionState };

    ghost coded = { Prim.hlevel (codes, state_code) };

    ghost view = { λ l. l.subscription };

    ghost invariant = { λ l. IsSome l.subscription.pending };
}

impl<L: StepLedger> Subscription<L> {
    /// Gives it up after its store failed, so that it can be resumed.
    pub fn fall(self) -> Lost<L>
        requires { IsSome self.pending }
        ensures { result ≡ self }
    {
        Lost { subscription: self }
    }
}

impl<L: StepLedger> Lost<L> {
    /// Its number at the desk.
    pub fn sub(&self) -> u64
        ensures { result ≡ self.now.sub }
    {
        self.subscription.sub()
    }

    /// The number after which it began.
    pub fn start(&self) -> u64
        ensures { result ≡ self.now.start }
    {
        self.subscription.start()
    }

    /// Its cursor from before the delivery that it was accepting.
    pub fn before(&self) -> u64
        ensures { result ≡ cursor_of self.now }
    {
        self.subscription.cursor()
    }

    /// The cursor after that delivery: its last number.
    pub fn after(&self) -> u64
        ensures value { result ≡ cursor_after self.now }
        ensures order { cursor_of self.now < result }
    {
        self.subscription.cursor_after()
    }

    /// Whether it can be resumed with these tables and this cursor: whether they are those from
    /// before the delivery, or those after it. Needs no memory: for the second it compares these
    /// tables with its own, row by row, and with the changes that are pending.
    pub fn fits(&self, tables: &Tables, cursor: u64) -> bool
        ensures { Decides result (FitsLost self.now tables.now cursor) }
    {
        let (before, after) = (self.before(), self.after());
        if cursor == before {
            return tables.is_same(self.subscription.tables());
        }
        cursor == after && self.subscription.is_after(tables)
    }

    /// The subscription, with these tables, its tokens up to this cursor, and this link.
    pub(crate) fn resumed(self, tables: Tables, cursor: u64, link: u64) -> Subscription<L>
        requires { FitsLost self tables cursor }
        ensures { result ≡ gone_on self tables cursor link }
    {
        let Lost { subscription } = self;
        subscription.goes_on(tables, cursor, link)
    }
}
