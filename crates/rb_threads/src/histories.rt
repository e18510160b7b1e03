//! Histories of a broker on one thread: lines of calls with their answers. In the end each
//! subscription has the rows that one thread gets, and an audit gives the steps that all made.

ghost use Rattle.std.specs.Prelude.{◌≡◌};

use crate::finishing::{LEFT, MOST_WAITING, UNFINISHED, finishes};
use crate::given::{insert, opened};
use crate::history::{History, Said};
use crate::rows::{
    A_CONFLICT_IS_NO_FALL, A_LATE_CLOCK_IS_NO_EARLIER_ONE, A_NEW_LINK_AT_THE_FRONT,
    A_NEW_LINK_CUTS_ANEW, A_REFUSED_BATCH_IS_OPENED, AN_ACCEPTED_ONE_COMES_BACK_WHOLE,
    ANY_TAKES_AT_ITS_TICK, CLOSED_BEFORE_THE_TAKES, CLOSED_SEQUENCE,
    FOREIGN_DELIVERIES_ARE_REFUSED, FULL_INTAKE, ONE_MORE_AND_THE_LAST, RESUMED_FROM_AFTER,
    RESUMED_FROM_BEFORE, Row, THE_WINDOW_AND_THE_FLOOR, WHAT_EXPIRES_IS_DELIVERED_AGAIN,
    WHAT_IS_GIVEN_BACK_GOES_TO_ANY, WITHDRAWAL,
};
use rb_broker::{BrokerBrand, MOST_PUBLISHERS, Opened};
use rb_subscriber::MOST_SUBSCRIPTIONS;
use std::alloc::Global;
use std::marker::Brand;
use std::process::Abort;
use std::sync::Wait;
use std::test::Fail;
use std::thread::Threads;

// the numbers of a segment
const SEGMENT: u64 = 65_536;

// two segments of these, and one entry more
const THREE_SEGMENTS: u64 = 131_073;

// the most numbers in a delivery
const MOST_IN_A_BATCH: u64 = 256;

#[test]
fn publishing(rt: HostRuntime) -> Result<(), Fail> {
    for row in [
        FULL_INTAKE,
        WITHDRAWAL,
        CLOSED_SEQUENCE,
        CLOSED_BEFORE_THE_TAKES,
    ] {
        history(&rt, rt.alloc(), row)?;
    }
    Ok(())
}

#[test]
fn deliveries(rt: HostRuntime) -> Result<(), Fail> {
    for row in [
        THE_WINDOW_AND_THE_FLOOR,
        WHAT_IS_GIVEN_BACK_GOES_TO_ANY,
        AN_ACCEPTED_ONE_COMES_BACK_WHOLE,
        ANY_TAKES_AT_ITS_TICK,
        A_REFUSED_BATCH_IS_OPENED,
        A_NEW_LINK_CUTS_ANEW,
        A_NEW_LINK_AT_THE_FRONT,
        WHAT_EXPIRES_IS_DELIVERED_AGAIN,
        A_LATE_CLOCK_IS_NO_EARLIER_ONE,
        FOREIGN_DELIVERIES_ARE_REFUSED,
    ] {
        history(&rt, rt.alloc(), row)?;
    }
    Ok(())
}

#[test]
fn resumptions(rt: HostRuntime) -> Result<(), Fail> {
    for row in [
        RESUMED_FROM_BEFORE,
        RESUMED_FROM_AFTER,
        A_CONFLICT_IS_NO_FALL,
    ] {
        history(&rt, rt.alloc(), row)?;
    }
    Ok(())
}

#[test]
fn brokers_finish(rt: HostRuntime) -> Result<(), Fail> {
    on_broker(&rt, rt.alloc(), (16, 4, 1, 4), Scenario::Finish)
}

#[test]
fn as_many_are_left_as_may_be(rt: HostRuntime) -> Result<(), Fail> {
    on_broker(
        &rt,
        rt.alloc(),
        (16, 4, 1, MOST_WAITING),
        Scenario::FinishFull,
    )
}

#[test]
fn three_segments(rt: HostRuntime) -> Result<(), Fail> {
    on_broker(
        &rt,
        rt.alloc(),
        (MOST_IN_A_BATCH, 4, THREE_SEGMENTS, 1),
        Scenario::Fill,
    )
}

#[test]
fn a_thousand_and_twenty_four_subscriptions(rt: HostRuntime) -> Result<(), Fail> {
    on_broker(&rt, rt.alloc(), (1, 1, 16, 4), Scenario::Crowd)
}

fn history<R: Threads + Wait + Abort + Sync>(
    rt: &R,
    alloc: Global,
    (limits, lines, steps): Row,
) -> Result<(), Fail> {
    on_broker(rt, alloc, limits, Scenario::Rows(lines, steps))
}

/// What happens to a broker that was just opened.
#[derive(Clone, Copy)]
enum Scenario {
    Rows(&'static [u8], u64),
    Finish,
    FinishFull,
    Fill,
    Crowd,
}

fn on_broker<R: Threads + Wait + Abort + Sync>(
    rt: &R,
    alloc: Global,
    limits: (u64, u64, u64, u64),
    scenario: Scenario,
) -> Result<(), Fail> {
    let opened = opened(alloc, limits)?;
    goes::<Brand, R>(rt, alloc, opened, scenario)
}

fn goes<L: BrokerBrand, R: Threads + Wait + Abort + Sync>(
    rt: &R,
    alloc: Global,
    opened: Opened,
    scenario: Scenario,
) -> Result<(), Fail>
    requires sequence { (opened.limits ≡ L.limits) × (opened.cells ≡ L.cells) }
    requires queue { opened.queue ≡ L.queue }
    requires ledger { (opened.ledger ≡ L.name) × (L.parts ≡ 1024) × (L.all ≡ 1024) }
    requires history { opened.history ≡ L.history }
{
    let mut history = History::<L>::start(alloc, opened)?;
    begins(rt, alloc, &mut history, scenario)?;
    ends(rt, alloc, history, scenario)
}

fn begins<L: BrokerBrand, R: Threads + Wait + Abort + Sync>(
    rt: &R,
    alloc: Global,
    history: &mut History<L>,
    scenario: Scenario,
) -> Result<(), Fail> {
    match scenario {
        Scenario::Rows(lines, _steps) => answers(rt, alloc, history, lines),
        Scenario::Finish => history.run(rt, alloc, str::from_utf8(UNFINISHED)?),
        Scenario::FinishFull => fills_the_intake(rt, alloc, history),
        Scenario::Fill => fills(rt, alloc, history),
        Scenario::Crowd => crowds(rt, alloc, history),
    }
}

fn ends<L: BrokerBrand, R: Wait + Abort>(
    rt: &R,
    alloc: Global,
    history: History<L>,
    scenario: Scenario,
) -> Result<(), Fail> {
    match scenario {
        Scenario::Rows(_lines, steps) => counts(rt, alloc, history, steps),
        Scenario::Finish => finishes(rt, alloc, history, &LEFT),
        Scenario::FinishFull => finishes(rt, alloc, history, &[]),
        Scenario::Crowd => counts(rt, alloc, history, 1),
        Scenario::Fill => Ok(()),
    }
}

// The calls of the lines answer so, and then the rows are those of one thread.
fn answers<L: BrokerBrand, R: Threads + Wait + Abort + Sync>(
    rt: &R,
    alloc: Global,
    history: &mut History<L>,
    lines: &[u8],
) -> Result<(), Fail> {
    history.run(rt, alloc, str::from_utf8(lines)?)?;
    for subscription in &history.subscriptions {
        let tables = history.tables_at(alloc, subscription.cursor())?;
        assert!(rt; subscription.tables().is_same(&tables));
    }
    Ok(())
}

// An audit counts the steps, but not without the subscriptions.
fn counts<L: BrokerBrand, R: Wait + Abort>(
    rt: &R,
    alloc: Global,
    history: History<L>,
    steps: u64,
) -> Result<(), Fail> {
    let made = history.subscriptions.len() as u64;
    let History {
        broker,
        mut auditor,
        subscriptions,
        ..
    } = history;
    let early = broker.audit(rt, &mut auditor, Vec::new(alloc));
    assert!(rt; early.is_ok() == (made == 0));
    assert_eq!(rt;
        broker.audit(rt, &mut auditor, subscriptions).ok(),
        Some(steps)
    );
    assert_eq!(rt; (auditor.sum(), auditor.heard()), (steps, made));
    Ok(())
}

// Changesets fill two segments and the one cell of the third. Then the sequence is full. A
// subscription accepts all of it, in deliveries of as many as there may be, and it closes.
fn fills<L: BrokerBrand, R: Threads + Wait + Abort + Sync>(
    rt: &R,
    alloc: Global,
    history: &mut History<L>,
) -> Result<(), Fail> {
    for number in 1..=THREE_SEGMENTS {
        assert!(rt; history.broker.sequence().get(number).is_none());
        let text = filling(alloc, number)?;
        assert_eq!(rt; placed(history.put(rt, alloc, &text)?), Some(number));
    }
    for number in [1, SEGMENT, SEGMENT + 1, 2 * SEGMENT, THREE_SEGMENTS] {
        let sequence = history.broker.sequence();
        let (entry, told) = (sequence.get(number), sequence.tell(number));
        assert_eq!(rt; entry.map(|entry| entry.number()), Some(number));
        assert_eq!(rt; told.map(|told| told.number()), Some(number));
    }
    assert_eq!(rt; placed(history.put(rt, alloc, b"")?), None);
    accepts_all(rt, alloc, history)
}

// The first entries of two deliveries insert a hundred rows each. All others change nothing.
fn filling(alloc: Global, number: u64) -> Result<Vec<u8>, Fail> {
    let mut text = Vec::new(alloc);
    if number == 1 || number == MOST_IN_A_BATCH + 1 {
        for key in 0..100_u64 {
            text.extend_from_slice(&insert(number.saturating_add(key)))?;
        }
    }
    Ok(text)
}

// the first delivery into the store, too
fn accepts_all<L: BrokerBrand, R: Threads + Wait + Abort + Sync>(
    rt: &R,
    alloc: Global,
    history: &mut History<L>,
) -> Result<(), Fail> {
    history.run(rt, alloc, "subscribe 0 = Made")?;
    for batch in 0..=THREE_SEGMENTS / MOST_IN_A_BATCH {
        let before = batch.saturating_mul(MOST_IN_A_BATCH);
        let (number, first) = (batch.saturating_add(1), before.saturating_add(1));
        let upto = THREE_SEGMENTS.min(before.saturating_add(MOST_IN_A_BATCH));
        let accept = if batch == 0 { "durable" } else { "accept" };
        let lines = format!(in alloc;
            "\
take 0 0 = Delivery({number}, 0, {first}, {upto})
{accept} 0 {batch} = Accepted({upto})
ack 0 {batch} = Floor({upto})"
        )?;
        history.run(rt, alloc, &lines)?;
    }
    history.run(rt, alloc, "subscribe 131073 = Made")?;
    history.run(
        rt,
        alloc,
        "close = Closed(131073)\ntake 0 0 = Drained(131073)",
    )
}

// the number that was placed
fn placed(said: Said) -> Option<u64> {
    match said {
        Said::Placed(number) => Some(number),
        _ => None,
    }
}

// One is placed, one in hand, and as many wait as may.
fn fills_the_intake<L: BrokerBrand, R: Threads + Wait + Abort + Sync>(
    rt: &R,
    alloc: Global,
    history: &mut History<L>,
) -> Result<(), Fail> {
    let first = "put 1 = Placed(1)\nsend 0 2 = Sent(2)\nturn = SequenceFull";
    history.run(rt, alloc, first)?;
    for waiting in 0..MOST_WAITING {
        let own = waiting.saturating_add(3);
        let line = format!(in alloc; "send 0 {own} = Sent({own})")?;
        history.run(rt, alloc, &line)?;
    }
    history.run(rt, alloc, "send 0 1 = Full")
}

// There are as many publishers and subscriptions as there may be.
fn crowds<L: BrokerBrand, R: Threads + Wait + Abort + Sync>(
    rt: &R,
    alloc: Global,
    history: &mut History<L>,
) -> Result<(), Fail> {
    for number in 1..MOST_PUBLISHERS {
        let line = format!(in alloc; "publisher = Publisher({number})")?;
        history.run(rt, alloc, &line)?;
    }
    for _ in 0..MOST_SUBSCRIPTIONS {
        history.run(rt, alloc, "subscribe 0 = Made")?;
    }
    history.run(rt, alloc, str::from_utf8(ONE_MORE_AND_THE_LAST)?)
}
