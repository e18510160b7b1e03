//! What the tests are given: a table, changesets of one change, brokers and publishers.

use cs_apply::Tables;
use cs_model::{Octets, Schema, Seq, Shape};
use rb_broker::{AddError, Broker, BrokerBrand, Opened, Publisher, PublisherMaker};
use rb_desk::Config;
use std::alloc::{AllocError, Global};
use std::sync::Arc;
use std::test::Fail;

/// An INSERT of (key, 'x') into a table `t` of two columns, the first of which is its key.
pub fn insert(key: u64) -> [u8; 20] {
    change(0x12, key)
}

/// The same INSERT, then an UPDATE of the row to (key, 'y').
pub fn insert_and_update(key: u64) -> [u8; 38] {
    let k = key.to_be_bytes();
    [
        0x54, 2, 1, 0, 0x74, 0, 0x12, 0, 1, k[0], k[1], k[2], k[3], k[4], k[5], k[6], k[7], 3, 1,
        0x78, 0x17, 0, 1, k[0], k[1], k[2], k[3], k[4], k[5], k[6], k[7], 3, 1, 0x78, 0, 3, 1,
        0x79,
    ]
}

/// A DELETE of (key, 'x') from it.
pub fn delete(key: u64) -> [u8; 20] {
    change(0x09, key)
}

fn change(operation: u8, key: u64) -> [u8; 20] {
    let k = key.to_be_bytes();
    [
        0x54, 2, 1, 0, 0x74, 0, operation, 0, 1, k[0], k[1], k[2], k[3], k[4], k[5], k[6], k[7], 3,
        1, 0x78,
    ]
}

fn octets(alloc: Global, bytes: &[u8]) -> Result<Octets, AllocError> {
    Ok(Seq::from_vec(Vec::from_slice(alloc, bytes)?))
}

/// The table.
pub fn schema(alloc: Global) -> Result<Schema, Fail> {
    let name = octets(alloc, b"t")?;
    let flags = octets(alloc, &[1, 0])?;
    let mut shapes = Vec::new(alloc);
    shapes.push(Shape { name, flags })?;
    Ok(Schema::new(shapes)?)
}

/// The table without rows.
pub fn empty_tables(alloc: Global) -> Result<Tables, Fail> {
    let schema = Arc::new(alloc, schema(alloc)?)?;
    let kept = vec![in alloc; true; schema.tables().len()]?;
    Ok(Tables::new(alloc, schema, kept))
}

/// A broker with batches of this size, this window, this many entries and so many waiting items. A
/// delivery expires after 10 ticks.
pub fn opened(
    alloc: Global,
    (batch, window, capacity, intake): (u64, u64, u64, u64),
) -> Result<Opened, Fail> {
    let limits = Config::new(batch, window, 10, capacity, intake, 1)?;
    Ok(Opened::new(alloc, limits, schema(alloc)?)?)
}

/// One publisher more.
pub fn publisher<L: BrokerBrand>(
    alloc: Global,
    maker: &mut PublisherMaker<L>,
    broker: &Broker<L>,
) -> Result<Publisher<L>, Fail> {
    match maker.make(alloc, broker) {
        Ok(publisher) => Ok(publisher),
        Err(AddError::Memory) => Err(AllocError.into()),
        Err(AddError::TooMany) => Err(Fail::new("there are too many publishers")),
    }
}
