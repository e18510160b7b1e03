//! What no clause says: with enough memory a broker opens, and a changeset goes through it. The
//! contracts state the rest.

use crate::handle::Handle;
use crate::limits::{Limits, TableSpec};
use crate::messages::broker_message;
use crate::opening::{broker_shut, opened};
use crate::placing::broker_place;
use crate::publishers::{broker_end, broker_feed, broker_publisher, broker_send, broker_turn};
use crate::rows::{broker_row, broker_rows};
use crate::serving::DeliveryFields;
use crate::subscriptions::{
    broker_accept, broker_ack, broker_subscribe, broker_subscribe_bare, broker_take,
};
use crate::texts::{Standing, broker_combined, broker_front, broker_status, broker_text};
use std::alloc::{AllocError, Global};
use std::process::Abort;
use std::test::*;

// the INSERT of (1, 5) into a table t of two columns
const INSERTED: [u8; 26] = [
    0x54, 2, 1, 0, 0x74, 0, 0x12, 0, 1, 0, 0, 0, 0, 0, 0, 0, 1, 1, 0, 0, 0, 0, 0, 0, 0, 5,
];

const LIMITS: Limits = Limits {
    batch: 16,
    window: 4,
    timeout: 10,
    capacity: 100,
    intake: 64,
    appliers: 1,
};

// a publisher's changeset becomes entry 1
fn publishes(rt: &impl Abort, alloc: Global, broker: &mut Handle) {
    let (mut publisher, mut own, mut entry) = (7, 7, 7);
    assert_eq!(rt; broker_publisher(alloc, broker, &mut publisher), 0);
    assert_eq!(rt; broker_feed(alloc, broker, 0, &INSERTED), 0);
    assert_eq!(rt; broker_end(alloc, broker, 0), 0);
    assert_eq!(rt; broker_send(alloc, broker, 0, &mut own), 0);
    assert_eq!(rt; broker_turn(alloc, broker, &mut entry), 0);
    assert_eq!(rt; (publisher, own, entry), (0, 1, 1));
}

// a subscription takes, accepts and settles it
fn delivers(rt: &impl Abort, alloc: Global, broker: &mut Handle) {
    let (mut number, mut link, mut cursor, mut floor) = (7, 7, 7, 7);
    let mut taken = DeliveryFields {
        number: 7,
        subscription: 7,
        first: 7,
        last: 7,
    };
    assert_eq!(rt;
        broker_subscribe(alloc, broker, 0, &mut number, &mut link),
        0
    );
    assert_eq!(rt; broker_take(alloc, broker, 0, 0, &mut taken), 0);
    assert_eq!(rt; broker_accept(alloc, broker, 1, &mut cursor), 0);
    assert_eq!(rt; broker_ack(alloc, broker, 1, &mut floor), 0);
    assert_eq!(rt; (number, link, cursor, floor), (0, 1, 1, 1));
    assert_eq!(rt;
        (taken.number, taken.subscription, taken.first, taken.last),
        (1, 0, 1, 1)
    );
}

// its text is read, alone and combined
fn tells(rt: &impl Abort, alloc: Global, broker: &mut Handle) {
    let mut out = [9u8; 26];
    assert_eq!(rt; broker_text(alloc, broker, 1, &mut out), 26);
    assert!(rt; out == INSERTED);
    let mut out = [9u8; 26];
    assert_eq!(rt; broker_combined(alloc, broker, 1, 1, &mut out), 26);
    assert!(rt; out == INSERTED);
}

// its rows are read: the first is the changeset that was sent
fn tells_rows(rt: &impl Abort, alloc: Global, broker: &mut Handle) {
    let mut out = [9u8; 26];
    assert_eq!(rt; broker_rows(alloc, broker, 0, &mut out), 26);
    assert!(rt; out == INSERTED);
    let mut out = [9u8; 26];
    let key = &INSERTED[8..17];
    assert_eq!(rt; broker_row(alloc, broker, 0, 0, key, &mut out), 26);
    assert!(rt; out == INSERTED);
    assert_eq!(rt; broker_row(alloc, broker, 0, 0, &[5], &mut out), -47);
    assert_eq!(rt; broker_row(alloc, broker, 0, 1, key, &mut out), -46);
    assert_eq!(rt; broker_row(alloc, broker, 1, 0, key, &mut out), -30);
    assert_eq!(rt; broker_rows(alloc, broker, 1, &mut out), -30);
}

// a subscription that keeps no rows accepts the changeset, and has none
fn keeps_none(rt: &impl Abort, alloc: Global, broker: &mut Handle) {
    let (mut number, mut link, mut cursor) = (7, 7, 7);
    let mut taken = DeliveryFields {
        number: 7,
        subscription: 7,
        first: 7,
        last: 7,
    };
    let mut out = [9u8; 26];
    assert_eq!(rt;
        broker_subscribe_bare(alloc, broker, 0, &mut number, &mut link),
        0
    );
    assert_eq!(rt; broker_take(alloc, broker, 1, 0, &mut taken), 0);
    assert_eq!(rt; broker_accept(alloc, broker, 2, &mut cursor), 0);
    assert_eq!(rt; broker_rows(alloc, broker, 1, &mut out), 0);
    assert_eq!(rt; (number, link, cursor), (1, 2, 1));
}

// a whole changeset is placed in one call, and a subscription tells how far it has come
fn places_whole(rt: &impl Abort, alloc: Global, broker: &mut Handle) {
    let mut entry = 7;
    assert_eq!(rt;
        broker_place(alloc, broker, 0, &INSERTED[..25], &mut entry),
        -3
    );
    assert_eq!(rt;
        (broker_place(alloc, broker, 0, &INSERTED, &mut entry), entry),
        (0, 2)
    );
    let mut found = Standing {
        start: 7,
        floor: 7,
        cursor: 7,
        offered: 7,
        link: 7,
        ready: 7,
        in_flight: 7,
        front: 7,
        closed: true,
        fallen: true,
    };
    assert_eq!(rt; broker_status(alloc, broker, 2, &mut found), -30);
    assert_eq!(rt; broker_status(alloc, broker, 0, &mut found), 0);
    assert_eq!(rt; (found.start, found.floor, found.cursor), (0, 1, 1));
    assert_eq!(rt; (found.offered, found.link, found.front), (1, 1, 2));
    assert_eq!(rt; (found.ready, found.in_flight), (1, 0));
    assert!(rt; !found.closed && !found.fallen);
}

// a code in words
fn says(rt: &impl Abort) {
    let mut words = [9u8; 25];
    assert_eq!(rt; broker_message(-16, &mut words), 25);
    assert!(rt; words == *b"no entry has this number\0");
}

// a handle that is shut as soon as it is open
fn is_shut(rt: &impl Abort, alloc: Global, broker: &mut Handle) {
    let (mut publisher, mut entry) = (7, 7);
    broker_shut(alloc, broker);
    assert_eq!(rt; broker_publisher(alloc, broker, &mut publisher), -1);
    assert_eq!(rt; broker_place(alloc, broker, 0, &INSERTED, &mut entry), -1);
    assert_eq!(rt; (publisher, entry), (7, 7));
}

// a handle that another call is in
fn is_busy(rt: &impl Abort, alloc: Global, broker: &mut Handle) {
    let (mut front, mut publisher, mut entry) = (7, 7, 7);
    assert!(rt; broker.is_open());
    let world = broker.take(alloc);
    broker_shut(alloc, broker);
    assert_eq!(rt; broker_front(alloc, broker, &mut front), -6);
    assert_eq!(rt; broker_publisher(alloc, broker, &mut publisher), -6);
    assert_eq!(rt; broker_place(alloc, broker, 0, &INSERTED, &mut entry), -6);
    assert_eq!(rt; (front, publisher, entry), (7, 7, 7));
    drop(world);
}

// what may go to another thread
fn sent<T: Send>(value: T) -> T {
    value
}

#[test]
fn a_changeset_goes_through(rt: HostRuntime) -> Result<(), Fail> {
    let alloc = rt.alloc();
    let tables = [TableSpec {
        name: b"t",
        key: &[1, 0],
    }];
    let (Ok(broker), Ok(mut other)) = (
        opened(alloc, &LIMITS, &tables),
        opened(alloc, &LIMITS, &tables),
    ) else {
        return Err(AllocError)?;
    };
    is_shut(&rt, alloc, &mut other);
    let mut broker = sent(broker);
    publishes(&rt, alloc, &mut broker);
    delivers(&rt, alloc, &mut broker);
    tells(&rt, alloc, &mut broker);
    tells_rows(&rt, alloc, &mut broker);
    keeps_none(&rt, alloc, &mut broker);
    places_whole(&rt, alloc, &mut broker);
    says(&rt);
    is_busy(&rt, alloc, &mut broker);
    Ok(())
}
