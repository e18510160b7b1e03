//! Events of subscriptions: subscribe, take, reconnect, resume, unsubscribe.

ghost use Rattle.std.specs.Prelude.{◌≡◌, IfOk, OnErr};
ghost use Rattle.std.specs.Arc.{arc_value};
ghost use Rattle.rb_core.specs.Memory.{MayRunOut};
ghost use Rattle.rb_core.specs.Outcome as outcome;
ghost use Rattle.rb_core.specs.declared.event.Event.TheVariants as event;
ghost use Rattle.rb_core.specs.State.{tables_begun};

use crate::parts::Parts;
use crate::reply::{BrokerRefusal, Reply};
use crate::world::refused;
use cs_apply::Tables;
use cs_model::Schema;
use rb_desk::{DeskError, DeskRefusal};
use rb_subscriber::Endpoint;
use std::alloc::{AllocError, Global};
use std::sync::Arc;

impl Parts {
    /// Adds a subscription to the entries after number `start`, with tables without rows, which it
    /// keeps or not.
    pub(crate) fn subscribe(
        &mut self,
        alloc: Global,
        start: u64,
        keeps: bool,
    ) -> Result<Reply, AllocError>
        ensures ok { IfOk result (λ reply. outcome.subscribed self.old start
            (tables_begun keeps self.old.schema) ≡ (reply, self.new)) }
        ensures err { OnErr result (self.new ≡ self.old) }
        ensures memory { OnErr result (MayRunOut self.old (event.Subscribe start)
            (outcome.subscribed self.old start (tables_begun keeps self.old.schema)).0) }
        ensures bare { OnErr result (MayRunOut self.old (event.SubscribeBare start)
            (outcome.subscribed self.old start (tables_begun keeps self.old.schema)).0) }
    {
        if let Some(why) = self.desk.refuses_subscribe(start) {
            return refused(BrokerRefusal::Desk(why));
        }
        let tables = tables_of(alloc, &self.schema, keeps)?;
        self.endpoints.reserve(1)?;
        match self.desk.subscribe(alloc, start) {
            Ok((subscription, link)) => {
                self.endpoints
                    .push_reserved(Endpoint::new(start, link, tables));
                Ok(Reply::Subscriber { subscription, link })
            }
            Err(DeskError::Refused(why)) => refused(BrokerRefusal::Desk(why)),
            Err(DeskError::Memory) => Err(AllocError),
        }
    }

    /// Delivers the first of a subscription's entries that are ready.
    pub(crate) fn take(&mut self, subscription: u64, now: u64) -> Result<Reply, AllocError>
        ensures ok { IfOk result (λ reply. outcome.delivered self.old subscription now
            ≡ (reply, self.new)) }
        ensures err { OnErr result (self.new ≡ self.old) }
        ensures memory { OnErr result (MayRunOut self.old (event.Take subscription now)
            (outcome.delivered self.old subscription now).0) }
    {
        let Some(end) = self.endpoints.get(subscription as usize) else {
            return refused(BrokerRefusal::Desk(DeskRefusal::NoSuch));
        };
        if self.deliveries.reserve(1).is_err() {
            return match self
                .desk
                .refuses_take(subscription, end.link(), end.cursor())
            {
                Some(why) => refused(BrokerRefusal::Desk(why)),
                None => Err(AllocError),
            };
        }
        match self.desk.take(subscription, end.link(), end.cursor(), now) {
            Ok(delivery) => {
                self.deliveries.push_reserved(delivery);
                Ok(Reply::Delivery(delivery))
            }
            Err(DeskError::Refused(why)) => refused(BrokerRefusal::Desk(why)),
            Err(DeskError::Memory) => Err(AllocError),
        }
    }

    /// Delivers the entries that have been ready the longest, of any subscription with room.
    pub(crate) fn take_any(&mut self, now: u64) -> Result<Reply, AllocError>
        ensures ok { IfOk result (λ reply. outcome.delivered_any self.old now ≡ (reply, self.new)) }
        ensures err { OnErr result (self.new ≡ self.old) }
        ensures memory { OnErr result (MayRunOut self.old (event.TakeAny now)
            (outcome.delivered_any self.old now).0) }
    {
        if self.deliveries.reserve(1).is_err() {
            return match self.desk.refuses_take_any() {
                Some(why) => refused(BrokerRefusal::Desk(why)),
                None => Err(AllocError),
            };
        }
        match self.desk.take_any(now) {
            Ok(delivery) => {
                self.deliveries.push_reserved(delivery);
                Ok(Reply::Delivery(delivery))
            }
            Err(DeskError::Refused(why)) => refused(BrokerRefusal::Desk(why)),
            Err(DeskError::Memory) => Err(AllocError),
        }
    }

    /// Continues a subscription after `cursor`, under a new link. Does not allocate.
    pub(crate) fn reconnect(&mut self, subscription: u64, cursor: u64) -> Reply
        ensures { outcome.reconnected self.old subscription cursor ≡ (result, self.new) }
    {
        let s = subscription as usize;
        if s >= self.endpoints.len() {
            return Reply::Refused(BrokerRefusal::Desk(DeskRefusal::NoSuch));
        }
        match self.desk.reconnect(subscription, cursor) {
            Ok(link) => {
                self.endpoints[s].reconnect(link);
                Reply::Link(link)
            }
            Err(why) => Reply::Refused(BrokerRefusal::Desk(why)),
        }
    }

    /// Continues a subscription that has fallen, after its own cursor and under a new link. Does
    /// not allocate.
    pub(crate) fn resume(&mut self, subscription: u64) -> Reply
        ensures { outcome.resumed self.old subscription ≡ (result, self.new) }
    {
        let s = subscription as usize;
        let Some(end) = self.endpoints.get(s) else {
            return Reply::Refused(BrokerRefusal::Desk(DeskRefusal::NoSuch));
        };
        if !end.is_fallen() {
            return Reply::Refused(BrokerRefusal::NotFallen);
        }
        match self.desk.reconnect(subscription, end.cursor()) {
            Ok(link) => {
                self.endpoints[s].resume(link);
                Reply::Link(link)
            }
            Err(why) => Reply::Refused(BrokerRefusal::Desk(why)),
        }
    }

    /// Closes a subscription.
    pub(crate) fn unsubscribe(&mut self, subscription: u64) -> Reply
        ensures { outcome.unsubscribed self.old subscription ≡ (result, self.new) }
    {
        let s = subscription as usize;
        if s >= self.endpoints.len() {
            return Reply::Refused(BrokerRefusal::Desk(DeskRefusal::NoSuch));
        }
        let link = self.endpoints[s].link();
        match self.desk.unsubscribe(subscription, link) {
            Ok(()) => {
                self.endpoints[s].close();
                Reply::Unsubscribed
            }
            Err(why) => Reply::Refused(BrokerRefusal::Desk(why)),
        }
    }
}

// tables without rows, all of them kept or none
fn tables_of(alloc: Global, schema: &Arc<Schema>, keeps: bool) -> Result<Tables, AllocError>
    ensures { IfOk result (λ tables. tables ≡ tables_begun keeps (arc_value schema.now)) }
{
    let kept = vec![in alloc; keeps; schema.tables().len()]?;
    Ok(Tables::new(alloc, Arc::try_clone(schema)?, kept))
}
