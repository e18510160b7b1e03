//! What is pending over a subscription that fell: what its durable store may have beyond it.

ghost use Rattle.std.specs.Prelude.{◌≡◌, ◌≤◌, ◌+◌, ◌++◌, ◌<◌, ◌∷◌, [], length, IfSome, IsSome};
ghost use Rattle.std.specs.Prelude.{false, if◌then◌else◌};
ghost use Rattle.std.specs.{Bool.{Decides}, Vec.{vec_capacity, vec_len}};
ghost use Rattle.rb_subscriber.specs.Lost.{FitsLost, cursor_after, pending_tokens, gone_on};
ghost use Rattle.rb_subscriber.specs.Lost.{tables_after};
ghost use Rattle.rb_subscriber.specs.Subscription.{cursor_of};

use crate::batches::{Batch, Batches};
use crate::endpoint::Endpoint;
use crate::shown::add;
use crate::step_ledger::StepLedger;
use crate::subscription::Subscription;
use cs_apply::Tables;
use par_apply::RowPlan;
use rb_sequence::Told;
use std::marker::Model;

/// The tokens of the entries of a delivery, and the changes of rows that they make.
#[derive(Drop)]
pub(crate) struct Pending {
    pub(crate) told: Vec<Told>,
    pub(crate) plan: RowPlan,
}

impl Model for Pending {
    ghost use Rattle.par_apply.specs.Planned.{planned_changes};
    ghost use Rattle.rb_subscriber.specs.Subscription.{PendingAccept};

    ghost Value = { PendingAccept };

    ghost view = { λ p. record { tokens = p.told.items; changes = planned_changes p.plan } };
}

// how many entries are pending
fn count(pending: &Option<Pending>) -> usize
    ensures { result ≡ length (pending_tokens pending.now) }
{
    let Some(pending) = pending else {
        return 0;
    };
    pending.told.len()
}

// these tokens and batches, and behind them those that are pending, if those are kept
fn joined(
    told: Vec<Told>,
    batches: Batches,
    pending: Option<Pending>,
    kept: bool,
) -> (Vec<Told>, Batches)
    requires some { IsSome pending }
    requires room { IfSome pending (λ p. vec_len told + length p.tokens ≤ vec_capacity told) }
    ensures told { result.0.items
        ≡ if kept then told.items ++ pending_tokens pending else told.items }
    ensures batches { result.1.list
        ≡ if kept then batches.list ++ pending_tokens pending ∷ [] else batches.list }
{
    let Some(pending) = pending else {
        unreachable!();
    };
    if !kept {
        return (told, batches);
    }
    let batch = Batch { told: pending.told };
    let all_batches = batches.with(&batch);
    let mut all = told;
    add(&mut all, batch.told);
    (all, all_batches)
}

impl<L: StepLedger> Subscription<L> {
    /// The cursor after what is pending.
    pub(crate) fn cursor_after(&self) -> u64
        requires { IsSome self.now.pending }
        ensures value { result ≡ cursor_after self.now }
        ensures order { cursor_of self.now < result }
    {
        self.end.cursor() + count(&self.pending) as u64
    }

    /// Whether these tables are its own after what is pending.
    pub(crate) fn is_after(&self, tables: &Tables) -> bool
        requires { IsSome self.now.pending }
        ensures { Decides result (tables.now ≡ tables_after self.now) }
    {
        let Some(pending) = &self.pending else {
            unreachable!();
        };
        pending.plan.leads(self.end.tables(), tables)
    }

    /// The subscription that goes on with these tables after this cursor, under this link. What was
    /// pending is accepted if the cursor is behind it, and forgotten otherwise.
    pub(crate) fn goes_on(self, tables: Tables, cursor: u64, link: u64) -> Subscription<L>
        requires some { IsSome self.pending }
        requires fits { FitsLost self tables cursor }
        ensures { result ≡ gone_on self tables cursor link }
    {
        let Subscription {
            sub,
            end,
            base,
            told,
            batches,
            pending,
            steps,
            share,
            stake,
        } = self;
        let kept = cursor != end.cursor();
        let (told, batches) = joined(told, batches, pending, kept);
        Subscription {
            sub,
            end: end.goes_on(tables, cursor, link),
            base,
            told,
            batches,
            pending: None,
            steps,
            share,
            stake,
        }
    }
}

impl Endpoint {
    // The endpoint that goes on with these tables and this cursor, under a new link.
    fn goes_on(self, tables: Tables, cursor: u64, link: u64) -> Endpoint
        requires { self.start ≤ cursor }
        ensures { result ≡ record self {
          cursor = cursor;
          link = link;
          fallen = false;
          tables = tables;
        } }
    {
        Endpoint {
            start: self.start,
            cursor,
            link,
            closed: self.closed,
            fallen: false,
            tables,
        }
    }
}
