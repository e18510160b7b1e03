//! Makes the owners of a drive: its publishers with their lines, and its subscribers.

ghost use Rattle.std.specs.Prelude.{◌≡◌, ◌+◌, map, replicate, IfOk, IfSome};
ghost use Rattle.std.specs.Arc.{arc_value};
ghost use Rattle.std.specs.FinMap as map;
ghost use Rattle.replica_store.specs.Durable.{KeepsRows};
ghost use Rattle.sqlite.specs.Held.{state};
ghost use Rattle.rb_core.specs.State.{empty_tables};
ghost use Rattle.rb_drive.specs.Owners.{beginning_of, publisher_lines, numbered_lines};

use crate::accepting::Accepting;
use crate::drive::Plan;
use crate::input::Given;
use crate::kept::KeptSubscription;
use crate::owners::Owners;
use crate::publishing::Publishing;
use cs_apply::Tables;
use cs_model::Schema;
use rb_broker::{AddError, Broker, BrokerBrand, PublisherMaker};
use rb_sequencer::Sequencer;
use rb_subscriber::Stake;
use replica_store::Replica;
use sqlite::Alter;
use std::alloc::{AllocError, Global};
use std::sync::{Arc, Wait};

/// All owners, before their threads begin.
pub fn all_owners<L: BrokerBrand, S: Alter + Drop, R: Wait>(
    rt: &R,
    alloc: Global,
    broker: &Broker<L>,
    maker: &mut PublisherMaker<L>,
    sequencer: Sequencer<L>,
    keeper: Stake<L>,
    plan: Plan<S>,
) -> Result<Owners<L, S>, AllocError>
    requires schema { arc_value plan.schema ≡ arc_value broker.now.schema }
    requires first { maker.old ≡ 0 }
    requires replica { IfSome plan.replica (λ r. KeepsRows (state S.Store r.conn) map.empty 0) }
    ensures lines { IfOk result (λ o.
        map (λ one. publisher_lines one.publisher one.lines.items) o.publishing.items
        ≡ numbered_lines 0 (arc_value plan.schema) (map (λ v. v.items) plan.lines.items)) }
    ensures begun { IfOk result (λ o.
        map (λ one. beginning_of one.subscription) o.accepting.items
        ≡ replicate plan.subscribers (0, empty_tables (arc_value plan.schema))) }
{
    let Plan {
        schema,
        lines,
        subscribers,
        replica,
    } = plan;
    let mut keeper = keeper;
    let publishing = publishers(alloc, broker, maker, lines)?;
    let all = all_subscribers(
        rt,
        alloc,
        broker,
        &mut keeper,
        &schema,
        subscribers,
        replica,
    )?;
    Ok(Owners {
        publishing,
        sequencer,
        keeper,
        accepting: all,
    })
}

// a publisher for each of these lists of lines
fn publishers<L: BrokerBrand>(
    alloc: Global,
    broker: &Broker<L>,
    maker: &mut PublisherMaker<L>,
    lines: Vec<Vec<Given>>,
) -> Result<Vec<Publishing<L>>, AllocError>
    requires { maker.old ≡ 0 }
    ensures { IfOk result (λ all.
        map (λ one. publisher_lines one.publisher one.lines.items) all.items
        ≡ numbered_lines 0 (arc_value broker.now.schema) (map (λ v. v.items) lines.items)) }
{
    let mut all = Vec::new(alloc);
    for own in lines {
        all.push(publisher(alloc, broker, maker, own)?)?;
    }
    Ok(all)
}

fn publisher<L: BrokerBrand>(
    alloc: Global,
    broker: &Broker<L>,
    maker: &mut PublisherMaker<L>,
    lines: Vec<Given>,
) -> Result<Publishing<L>, AllocError>
    ensures made { IfOk result (λ _. maker.new ≡ maker.old + 1) }
    ensures lines { IfOk result (λ one. publisher_lines one.publisher one.lines.items
        ≡ (maker.old, (arc_value broker.now.schema, lines.items))) }
{
    match maker.make(alloc, broker) {
        Ok(publisher) => Ok(Publishing::new(alloc, publisher, lines)),
        Err(AddError::Memory) | Err(AddError::TooMany) => Err(AllocError),
    }
}

// so many subscribers, the first of them with the replica
fn all_subscribers<L: BrokerBrand, S: Alter + Drop, R: Wait>(
    rt: &R,
    alloc: Global,
    broker: &Broker<L>,
    keeper: &mut Stake<L>,
    schema: &Arc<Schema>,
    count: u64,
    replica: Option<Replica<S>>,
) -> Result<Vec<Accepting<L, S>>, AllocError>
    requires { IfSome replica (λ r. KeepsRows (state S.Store r.conn) map.empty 0) }
    ensures { IfOk result (λ all. map (λ one. beginning_of one.subscription) all.items
        ≡ replicate count (0, empty_tables (arc_value schema.now))) }
{
    let mut all = Vec::new(alloc);
    let mut replica = replica;
    for _ in 0..count {
        all.push(subscriber(rt, alloc, broker, keeper, schema, replica.take())?)?;
    }
    Ok(all)
}

// a subscriber with empty tables, after number 0
fn subscriber<L: BrokerBrand, S: Alter + Drop, R: Wait>(
    rt: &R,
    alloc: Global,
    broker: &Broker<L>,
    keeper: &mut Stake<L>,
    schema: &Arc<Schema>,
    replica: Option<Replica<S>>,
) -> Result<Accepting<L, S>, AllocError>
    requires { IfSome replica (λ r. KeepsRows (state S.Store r.conn) map.empty 0) }
    ensures { IfOk result (λ one. beginning_of one.subscription
        ≡ (0, empty_tables (arc_value schema.now))) }
{
    let kept = vec![in alloc; true; schema.tables().len()]?;
    let tables = Tables::new(alloc, Arc::try_clone(schema)?, kept);
    match broker.subscribe(rt, alloc, keeper, tables, 0) {
        Ok(subscription) => Ok(Accepting::new(KeptSubscription::new(subscription, replica))),
        Err(_) => Err(AllocError),
    }
}
