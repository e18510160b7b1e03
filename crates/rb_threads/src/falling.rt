//! A history's subscription whose durable store fails while it accepts, until it is resumed. The
//! store of the tests keeps nothing: what it would have then is made anew.

use crate::entered::{APPLIERS, Entered};
use crate::history::{History, Said, made};
use crate::subscribing::accepted;
use cs_apply::Tables;
use par_apply::{DurableRows, RowChange};
use rb_broker::{Broker, BrokerBrand, RefusedResume, ResumeError};
use rb_subscriber::{DurableError, Lost, Subscription, Workers};
use std::alloc::Global;
use std::sync::Wait;
use std::test::Fail;
use std::thread::Threads;

/// A store that keeps nothing, and promises nothing. Its second commit fails, and its error is how
/// often it was asked.
#[derive(Drop)]
pub struct FailingStore {
    pub commits: u64,
}

impl DurableRows for FailingStore {
    ghost keeps = { λ _ _ _. Unit {0} };

    ghost leaves = { λ _ _ _ _ _. Unit {0} };

    ghost failed = { λ _ _ _ _ _. Unit {0} };

    type Error = u64;

    fn commit(&mut self, _changes: &[RowChange], _cursor: u64) -> Result<(), u64> {
        self.commits = self.commits.wrapping_add(1);
        if self.commits == 2 {
            Err(self.commits)
        } else {
            Ok(())
        }
    }
}

impl<L: BrokerBrand> History<L> {
    /// Accepts a delivery into the store.
    pub fn accept_durable<R: Threads + Sync>(
        &mut self,
        rt: &R,
        alloc: Global,
        sub: usize,
        delivery: usize,
    ) -> Result<Said, Fail> {
        let delivery = *made(self.deliveries.get(delivery))?;
        let subscription = made(self.subscriptions.get_mut(sub))?;
        let entered = Entered::none();
        let workers = Workers {
            rt,
            n: APPLIERS,
            gate: &entered,
        };
        let (sequence, store) = (self.broker.sequence(), &mut self.store);
        match subscription.accept_durable(&workers, alloc, sequence, store, &delivery) {
            Ok(_) if !entered.have_all() => Err(Fail::new("each applier has a shard")),
            Ok(cursor) => Ok(Said::Accepted(cursor)),
            Err(DurableError::Accept(why)) => accepted(Err(why)),
            Err(DurableError::Store(asked)) => Ok(Said::StoreFailed(asked)),
        }
    }

    /// Gives up the last subscription, which has fallen.
    pub fn fall(&mut self) -> Result<Said, Fail> {
        let subscription = made(self.subscriptions.pop())?;
        if !subscription.is_fallen() {
            return Err(Fail::new("the subscription has fallen"));
        }
        let lost = subscription.fall();
        let said = Said::Fell(lost.before(), lost.after(), self.store.commits);
        self.lost = Some(lost);
        Ok(said)
    }

    /// Whether what fell can be resumed with this cursor and the rows after so many entries.
    pub fn fits(&self, alloc: Global, cursor: u64, count: u64) -> Result<Said, Fail> {
        let tables = self.tables_at(alloc, count)?;
        let fits = made(self.lost.as_ref())?.fits(&tables, cursor);
        Ok(Said::Fits(fits))
    }

    /// Resumes it with them.
    pub fn resume<R: Wait>(
        &mut self,
        rt: &R,
        alloc: Global,
        cursor: u64,
        count: u64,
    ) -> Result<Said, Fail> {
        self.subscriptions.reserve(1)?;
        let tables = self.tables_at(alloc, count)?;
        let lost = made(self.lost.take())?;
        match call_resume(&self.broker, rt, alloc, lost, tables, cursor) {
            Ok(subscription) => {
                let link = subscription.link();
                self.subscriptions.push_reserved(subscription);
                Ok(Said::Link(link))
            }
            Err(back) => {
                self.lost = Some(back.lost);
                Ok(match back.why {
                    ResumeError::Desk(error) => error.into(),
                    why => Said::NotResumed(why),
                })
            }
        }
    }
}

// a function of its own, so that refused/calls.txt can name it
#[inline(never)]
fn call_resume<L: BrokerBrand, R: Wait>(
    broker: &Broker<L>,
    rt: &R,
    alloc: Global,
    lost: Lost<L>,
    tables: Tables,
    cursor: u64,
) -> Result<Subscription<L>, RefusedResume<L>> {
    broker.resume(rt, alloc, lost, tables, cursor)
}
