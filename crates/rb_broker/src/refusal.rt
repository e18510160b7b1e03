//! Why the broker's calls refuse, and what they hand back.

use crate::brand::BrokerBrand;
use crate::staged::StagedSet;
use cs_apply::Tables;
use rb_desk::DeskError;
use rb_sequence::{Item, Occupant, Told, ToldLast};
use rb_subscriber::Lost;
use thiserror::Error;

/// Why `PublisherMaker::make` makes no publisher. The maker is as before.
#[derive(Clone, Copy, Debug, PartialEq, Eq, Error)]
pub enum AddError {
    /// There are 64 publishers.
    #[error("there are 64 publishers")]
    TooMany,
    /// Memory ran out.
    #[error("out of memory")]
    Memory,
}

/// Why `Broker::place_next` places no item. The broker is as before.
#[derive(Debug, Drop, Error)]
pub enum PlaceError {
    /// The desk's journal is full.
    #[error("the journal is full")]
    JournalFull,
    /// The sequence is closed. The token shows its last number.
    #[error("the sequence is closed")]
    Closed(ToldLast),
    /// The sequence has reached its capacity.
    #[error("the sequence is full")]
    SequenceFull,
    /// Another number is the next one, or the cell of this one is set.
    #[error("the cell is set")]
    Occupied(Occupied),
    /// Memory ran out.
    #[error("out of memory")]
    Memory,
}

/// What stands in the way of a number that `Broker::place_next` was to place.
#[derive(Debug, Drop)]
pub enum Occupied {
    /// The desk places this number next, and not the one that was asked for.
    Next(u64),
    /// The number is the next one, and its cell is set. The token shows which entry is there.
    Set(Occupant),
}

/// An item that `Broker::place_next` did not place, and why.
#[derive(Debug, Drop)]
pub struct RefusedItem {
    /// Why it isn't placed.
    pub why: PlaceError,
    /// The item, as it was.
    pub item: Item,
}

/// Why `Publisher::send` sends nothing. The set comes back.
#[derive(Drop)]
pub enum RefusedSend<L: BrokerBrand> {
    /// The sequence is closed. The token shows its last number. The publisher keeps a copy, and
    /// refuses each later set so.
    Closed(ToldLast, StagedSet<L>),
    /// The intake is full. The publisher is as before.
    Full(StagedSet<L>),
}

/// Why `Publisher::withdraw` stages nothing. The publisher is as before. A token shows the entry.
#[derive(Debug, Drop, Error)]
pub enum WithdrawError {
    /// No entry has this number.
    #[error("there is no such entry")]
    NotPlaced,
    /// Another publisher sent the entry.
    #[error("the entry is another publisher's")]
    NotYours(Told),
    /// The publisher withdrew the entry already.
    #[error("the entry is withdrawn already")]
    AlreadyWithdrawn(Told),
    /// Memory ran out.
    #[error("out of memory")]
    Memory(Told),
}

/// Why `Broker::subscribe` makes no subscription. The broker is as before.
#[derive(Clone, Copy, Debug, PartialEq, Eq, Error)]
pub enum SubscribeError {
    /// The tables are of another schema than the broker's.
    #[error("the tables are of another schema")]
    OtherSchema,
    /// The desk refuses the subscription, or memory ran out.
    #[error("{0}")]
    Desk(DeskError),
}

/// Tables for which `Broker::subscribe` made no subscription, and why.
#[derive(Debug, Drop)]
pub struct RefusedSubscription {
    /// Why there is no subscription.
    pub why: SubscribeError,
    /// The tables, as they were.
    pub tables: Tables,
}

/// Why `Broker::resume` refuses to resume a subscription. The broker is as before.
#[derive(Clone, Copy, Debug, PartialEq, Eq, Error)]
pub enum ResumeError {
    /// The tables and the cursor are neither those from before the delivery that was being accepted
    /// nor those after it.
    #[error("the tables and the cursor are of another state")]
    OtherState,
    /// The desk refuses the reconnection, or memory ran out.
    #[error("{0}")]
    Desk(DeskError),
}

/// What `Broker::resume` did not resume, and why.
#[derive(Drop)]
pub struct RefusedResume<L: BrokerBrand> {
    /// Why it isn't resumed.
    pub why: ResumeError,
    /// The subscription that fell, as it was.
    pub lost: Lost<L>,
    /// The tables, as they were.
    pub tables: Tables,
}

/// Why `Broker::take` delivers nothing. The broker and the subscription are as before.
#[derive(Debug, Drop, Error)]
pub enum TakeError {
    /// The sequence is closed, and the subscription has accepted and settled all of it. The token
    /// shows its last number.
    #[error("everything up to the last number is settled")]
    Drained(ToldLast),
    /// The desk refuses the call, or memory ran out. It isn't the desk's `Drained`.
    #[error("{0}")]
    Desk(DeskError),
}
