//! Histories of a broker: lines of calls with their answers.

/// The limits of a broker, as `opened` takes them; the lines; and the steps of all subscriptions.
pub type Row = ((u64, u64, u64, u64), &'static [u8], u64);

pub const FULL_INTAKE: Row = (
    (16, 4, 2, 1),
    b"\
send 0 1 = Sent(1)
send 0 2 = Full
turn = Placed(1)
send 0 2 = Sent(2)
turn = Placed(2)
turn = Idle
hand = Hand(None)
send 0 3 = Sent(3)
turn = SequenceFull
hand = Hand(Some((0, 3)))
turn = SequenceFull
hand = Hand(Some((0, 3)))",
    0,
);

// the sequence is full after the first withdrawal
pub const WITHDRAWAL: Row = (
    (16, 4, 2, 4),
    b"\
change 0 1 = Sent(1)
turn = Placed(1)
withdraw 0 1 = Sent(2)
turn = Placed(2)
entry 1 = Sent(1)
entry 2 = Withdraws(1)
text 2 = 5402010074000900010000000000000001030179
withdraw 0 1 = AlreadyWithdrawn(1)
withdraw 0 3 = NotPlaced
publisher = Publisher(1)
withdraw 1 1 = NotYours(1)
withdraw 0 2 = Sent(3)
turn = SequenceFull
subscribe 0 = Made
take 0 0 = Delivery(1, 0, 1, 2)
accept 0 0 = Accepted(2)",
    1,
);

pub const CLOSED_SEQUENCE: Row = (
    (16, 4, 1, 1),
    b"\
send 0 1 = Sent(1)
close = Closed(0)
close = Closed(0)
send 0 2 = Closed(0)
send 0 2 = Closed(0)
turn = Closed(0)
hand = Hand(Some((0, 1)))
publisher = Publisher(1)
send 1 1 = Closed(0)",
    0,
);

// what was placed before the close is still delivered
pub const CLOSED_BEFORE_THE_TAKES: Row = (
    (16, 4, 16, 4),
    b"\
subscribe 0 = Made
send 0 1 = Sent(1)
send 0 2 = Sent(2)
turn = Placed(1)
close = Closed(1)
send 0 3 = Closed(1)
take 0 0 = Delivery(1, 0, 1, 1)
accept 0 0 = Accepted(1)
take 0 0 = Desk(Empty { front: 1 })
ack 0 0 = Floor(1)
take 0 0 = Drained(1)
turn = Closed(1)
hand = Hand(Some((0, 2)))
close = Closed(1)",
    2,
);

pub const THE_WINDOW_AND_THE_FLOOR: Row = (
    (1, 2, 16, 4),
    b"\
foreign 5 = OtherSchema
subscribe 0 = Made
put 1 = Placed(1)
put 2 = Placed(2)
put 3 = Placed(3)
take 0 0 = Delivery(1, 0, 1, 1)
take 0 0 = Delivery(2, 0, 2, 2)
take 0 0 = Desk(WindowFull)
ack 0 0 = Desk(NotAccepted { cursor: 0 })
accept 0 0 = Accepted(1)
accept 0 1 = Accepted(2)
ack 0 1 = Floor(0)
ack 0 0 = Floor(2)
take 0 0 = Delivery(3, 0, 3, 3)",
    5,
);

pub const WHAT_IS_GIVEN_BACK_GOES_TO_ANY: Row = (
    (1, 2, 16, 4),
    b"\
subscribe 0 = Made
put 1 = Placed(1)
put 2 = Placed(2)
put 3 = Placed(3)
any 0 = Delivery(1, 0, 1, 1)
take 0 0 = Delivery(2, 0, 2, 2)
take 0 0 = Desk(WindowFull)
nack 0 1 = Done
any 0 = Delivery(3, 0, 3, 3)
any 0 = Desk(Empty { front: 3 })
nack 0 2 = Done
take 0 0 = Delivery(4, 0, 2, 2)
unsubscribe 0 = Done
take 0 0 = Desk(Closed)
accept 0 0 = Refused(Closed)
unsubscribe 0 = Desk(Closed)
reconnect 0 = Desk(Closed)
ack 0 3 = Desk(NotInFlight)
any 0 = Desk(Empty { front: 3 })
put 4 = Placed(4)",
    5,
);

// a nack neither opens what was accepted nor settles it
pub const AN_ACCEPTED_ONE_COMES_BACK_WHOLE: Row = (
    (16, 4, 16, 4),
    b"\
subscribe 0 = Made
put 1 = Placed(1)
put 2 = Placed(2)
take 0 0 = Delivery(1, 0, 1, 2)
nack 0 0 = Done
take 0 0 = Delivery(2, 0, 1, 2)
accept 0 1 = Accepted(2)
nack 0 1 = Done
take 0 0 = Delivery(3, 0, 1, 2)
accept 0 2 = Refused(Seen)
ack 0 2 = Floor(2)",
    6,
);

pub const ANY_TAKES_AT_ITS_TICK: Row = (
    (16, 4, 16, 4),
    b"\
subscribe 0 = Made
put 1 = Placed(1)
any 5 = Delivery(1, 0, 1, 1)
expire 14 = Expired(0)
expire 15 = Expired(1)
any 15 = Delivery(2, 0, 1, 1)",
    0,
);

pub const A_REFUSED_BATCH_IS_OPENED: Row = (
    (16, 4, 16, 4),
    b"\
subscribe 0 = Made
put 1 = Placed(1)
delete 5 = Placed(2)
put 2 = Placed(3)
take 0 0 = Delivery(1, 0, 1, 3)
accept 0 0 = Refused(Conflict(Conflict { position: 1, kind: NotFound }))
open 0 0 = Opened(3)
put 3 = Placed(4)
take 0 0 = Delivery(2, 0, 1, 1)
accept 0 1 = Accepted(1)
ack 0 1 = Floor(1)
take 0 0 = Delivery(3, 0, 2, 2)
accept 0 2 = Refused(Conflict(Conflict { position: 0, kind: NotFound }))
take 0 0 = Delivery(4, 0, 3, 3)
accept 0 3 = Refused(Gap { expected: 2 })
take 0 0 = Delivery(5, 0, 4, 4)
open 0 0 = Desk(NotInFlight)
reconnect 0 = Link(2)
take 0 0 = Delivery(6, 0, 2, 4)",
    9,
);

pub const A_NEW_LINK_CUTS_ANEW: Row = (
    (256, 4, 16, 4),
    b"\
subscribe 0 = Made
put 1 = Placed(1)
take 0 0 = Delivery(1, 0, 1, 1)
accept 0 0 = Accepted(1)
ack 0 0 = Floor(1)
put 2 = Placed(2)
put 3 = Placed(3)
take 0 0 = Delivery(2, 0, 2, 3)
accept 0 1 = Accepted(3)
put 4 = Placed(4)
take 0 0 = Delivery(3, 0, 4, 4)
put 5 = Placed(5)
put 6 = Placed(6)
put 7 = Placed(7)
put 8 = Placed(8)
put 9 = Placed(9)
reconnect 0 = Link(2)
accept 0 2 = Refused(StaleLink)
ack 0 2 = Desk(StaleLink)
take 0 0 = Delivery(4, 0, 4, 9)",
    6,
);

pub const A_NEW_LINK_AT_THE_FRONT: Row = (
    (16, 4, 16, 4),
    b"\
subscribe 0 = Made
put 1 = Placed(1)
put 2 = Placed(2)
take 0 0 = Delivery(1, 0, 1, 2)
accept 0 0 = Accepted(2)
reconnect 0 = Link(2)
take 0 0 = Desk(Empty { front: 2 })
subscribe 5 = Desk(StartAhead { front: 2 })
close = Closed(2)
take 0 0 = Drained(2)",
    2,
);

pub const WHAT_EXPIRES_IS_DELIVERED_AGAIN: Row = (
    (16, 4, 16, 4),
    b"\
subscribe 0 = Made
put 1 = Placed(1)
take 0 5 = Delivery(1, 0, 1, 1)
accept 0 0 = Accepted(1)
take 0 15 = Desk(Empty { front: 1 })
any 15 = Desk(Empty { front: 1 })
expire 14 = Expired(0)
expire 15 = Expired(1)
take 0 15 = Delivery(2, 0, 1, 1)
accept 0 1 = Refused(Seen)
ack 0 0 = Desk(NotInFlight)
ack 0 1 = Floor(1)",
    3,
);

pub const A_LATE_CLOCK_IS_NO_EARLIER_ONE: Row = (
    (16, 4, 16, 4),
    b"\
subscribe 0 = Made
put 1 = Placed(1)
take 0 20 = Delivery(1, 0, 1, 1)
expire 5 = Expired(0)
expire 29 = Expired(0)
expire 30 = Expired(1)
take 0 3 = Delivery(2, 0, 1, 1)
expire 39 = Expired(0)
expire 40 = Expired(1)
expire 18446744073709551615 = Expired(0)
take 0 0 = Delivery(3, 0, 1, 1)
expire 18446744073709551615 = Expired(0)
accept 0 2 = Accepted(1)
ack 0 2 = Floor(1)",
    4,
);

pub const FOREIGN_DELIVERIES_ARE_REFUSED: Row = (
    (16, 4, 16, 4),
    b"\
subscribe 0 = Made
subscribe 0 = Made
put 1 = Placed(1)
take 1 0 = Delivery(1, 1, 1, 1)
accept 0 0 = Refused(StaleLink)
ack 0 0 = Desk(StaleLink)
nack 0 0 = Desk(StaleLink)
open 0 0 = Desk(StaleLink)
expire 10 = Expired(1)
ack 1 0 = Desk(NotInFlight)
nack 1 0 = Desk(NotInFlight)
open 1 0 = Desk(NotInFlight)
accept 1 0 = Accepted(1)
take 1 10 = Delivery(2, 1, 1, 1)
accept 1 1 = Refused(Seen)
ack 1 1 = Floor(1)
ack 1 1 = Desk(NotInFlight)
nack 1 1 = Desk(NotInFlight)
open 1 1 = Desk(NotInFlight)
put 2 = Placed(2)
take 1 10 = Delivery(3, 1, 2, 2)
reconnect 1 = Link(3)
accept 1 2 = Refused(StaleLink)
ack 1 2 = Desk(StaleLink)
nack 1 2 = Desk(StaleLink)
open 1 2 = Desk(StaleLink)
take 0 10 = Delivery(4, 0, 1, 2)
accept 0 3 = Accepted(2)
ack 0 3 = Floor(2)",
    7,
);

// The store fails at the second delivery. Of all states only two fit: the rows and the cursor from
// before it, and those after it.
pub const RESUMED_FROM_BEFORE: Row = (
    (2, 4, 16, 4),
    b"\
put 9 = Placed(1)
put 1 = Placed(2)
put 2 = Placed(3)
delete 1 = Placed(4)
delete 2 = Placed(5)
put 2 = Placed(6)
delete 9 = Placed(7)
subscribe 1 = Made
take 0 0 = Delivery(1, 0, 2, 3)
take 0 0 = Delivery(2, 0, 4, 5)
take 0 0 = Delivery(3, 0, 6, 7)
durable 0 0 = Accepted(3)
durable 0 1 = StoreFailed(2)
durable 0 0 = Refused(Store)
durable 0 1 = Refused(Store)
durable 0 2 = Refused(Store)
take 0 0 = Desk(Empty { front: 7 })
ack 0 0 = Floor(3)
fall = Fell(3, 5, 2)
fits 3 3 = Fits(true)
fits 5 5 = Fits(true)
fits 3 5 = Fits(false)
fits 5 3 = Fits(false)
fits 4 3 = Fits(false)
fits 4 5 = Fits(false)
fits 4 4 = Fits(false)
fits 7 7 = Fits(false)
resume 3 5 = NotResumed(OtherState)
resume 5 3 = NotResumed(OtherState)
resume 4 4 = NotResumed(OtherState)
resume 3 3 = Link(2)
durable 0 2 = Refused(StaleLink)
take 0 0 = Delivery(4, 0, 4, 5)
durable 0 3 = Accepted(5)
ack 0 3 = Floor(5)
take 0 0 = Delivery(5, 0, 6, 7)
durable 0 4 = Accepted(7)
ack 0 4 = Floor(7)",
    9,
);

pub const A_CONFLICT_IS_NO_FALL: Row = (
    (1, 4, 16, 4),
    b"\
put 1 = Placed(1)
put 1 = Placed(2)
subscribe 0 = Made
take 0 0 = Delivery(1, 0, 1, 1)
durable 0 0 = Accepted(1)
take 0 0 = Delivery(2, 0, 2, 2)
durable 0 1 = Refused(Conflict(Conflict { position: 0, kind: Conflict }))",
    2,
);

// The resumption is the step for which the journal needs its second piece of memory: four steps and
// 1,019 came before, placements aside.
pub const RESUMED_FROM_AFTER: Row = (
    (2, 4, 16, 4),
    b"\
put 9 = Placed(1)
put 1 = Placed(2)
put 2 = Placed(3)
delete 1 = Placed(4)
delete 2 = Placed(5)
put 2 = Placed(6)
delete 9 = Placed(7)
subscribe 1 = Made
take 0 0 = Delivery(1, 0, 2, 3)
take 0 0 = Delivery(2, 0, 4, 5)
take 0 0 = Delivery(3, 0, 6, 7)
durable 0 0 = Accepted(3)
durable 0 1 = StoreFailed(2)
fall = Fell(3, 5, 2)
expires 0 1019 = Expired(0)
resume 5 5 = Link(2)
durable 0 2 = Refused(StaleLink)
take 0 0 = Delivery(4, 0, 6, 7)
durable 0 3 = Accepted(7)
ack 0 3 = Floor(7)
put 3 = Placed(8)",
    6,
);

// after as many publishers and subscriptions as there may be
pub const ONE_MORE_AND_THE_LAST: &[u8] = b"\
publisher = NoPublisher(TooMany)
send 63 1 = Sent(1)
subscribe 0 = Desk(TooMany)
turn = Placed(1)
take 1023 0 = Delivery(1, 1023, 1, 1)";
