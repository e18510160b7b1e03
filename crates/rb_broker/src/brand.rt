//! `BrokerBrand`: names the limits, the sequence, the intake and the ledger of one broker, so that
//! the types of its parts say that they belong together.

use rb_subscriber::StepLedger;
use std::marker::Brand;

/// What the parts of one broker have in common: its limits, the queue of its intake and, as a
/// `StepLedger`, the cells of its sequence and the ledger of its subscriptions' steps. A program
/// writes its work with a broker as a function that is generic over a `BrokerBrand`, and calls it
/// with `Brand` for one that was opened.
pub trait BrokerBrand: StepLedger {
    ghost use Rattle.atomic_table.specs.Seated.{TableId};
    ghost use Rattle.rb_desk.specs.Limits.{Limits};

    ghost limits: { Limits };

    ghost queue: { TableId };
}

impl BrokerBrand for Brand {
    ghost use Rattle.rb_broker.specs.Brands.{no_limits, no_queue};

    ghost limits = { no_limits };

    ghost queue = { no_queue };
}
