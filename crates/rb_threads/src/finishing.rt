//! A broker that finishes: what comes back where it is refused, and what is left.

ghost use Rattle.std.specs.Prelude.{◌≡◌};

use crate::history::History;
use rb_broker::{BrokerBrand, PlaceError, Publisher, TakeError};
use rb_close::{FinishError, Finished, RefusedFinish, finish};
use rb_sequence::Item;
use rb_subscriber::Stake;
use std::alloc::Global;
use std::process::Abort;
use std::sync::Wait;
use std::test::Fail;

/// One is placed, one in hand, and two wait.
pub const UNFINISHED: &[u8] = b"\
publisher = Publisher(1)
put 1 = Placed(1)
send 1 4 = Sent(1)
send 0 2 = Sent(2)
send 0 3 = Sent(3)
turn = SequenceFull";

/// The publisher and the own number of each item that is left then.
pub const LEFT: [(u64, u64); 3] = [(1, 1), (0, 2), (0, 3)];

/// The most items that wait.
pub const MOST_WAITING: u64 = 4_096;

/// Each refusal hands all back. That the sequence is open comes before that a publisher is missing.
/// What is left is the item in hand, then what waits in the intake: these, or the sendings of one
/// publisher after its first if none are named.
pub fn finishes<L: BrokerBrand, R: Wait + Abort>(
    rt: &R,
    alloc: Global,
    history: History<L>,
    left: &[(u64, u64)],
) -> Result<(), Fail> {
    let (all, mut keeper) = unfinished(history);
    let (open, last) = without_one(all)?;
    let open = refused(rt, alloc, open, FinishError::NotClosed)?;
    assert!(rt; open.broker.sequence().closing().is_none());
    assert_eq!(rt;
        open.broker.close(rt, &mut keeper).map(|told| told.last()),
        Some(1)
    );
    let one = refused(rt, alloc, open, FinishError::Missing)?;
    match try_twice(rt, alloc, with_one(one, last)?) {
        Ok(finished) => has_left(rt, alloc, &finished, left),
        Err(_) => Err(Fail::new("nothing is missing")),
    }
}

// its owners and its keeper
fn unfinished<L: BrokerBrand>(history: History<L>) -> (RefusedFinish<L>, Stake<L>) {
    let History {
        broker,
        sequencer,
        maker,
        keeper,
        publishers,
        ..
    } = history;
    let all = RefusedFinish {
        why: FinishError::Missing,
        publishers,
        sequencer,
        maker,
        broker,
    };
    (all, keeper)
}

// without its last publisher
fn without_one<L: BrokerBrand>(
    mut all: RefusedFinish<L>,
) -> Result<(RefusedFinish<L>, Publisher<L>), Fail> {
    match all.publishers.pop() {
        Some(last) => Ok((all, last)),
        None => Err(Fail::new("there are two publishers")),
    }
}

fn with_one<L: BrokerBrand>(
    mut all: RefusedFinish<L>,
    one: Publisher<L>,
) -> Result<RefusedFinish<L>, Fail> {
    all.publishers.push(one)?;
    Ok(all)
}

// what comes back of a broker that is refused for this
fn refused<L: BrokerBrand, R: Wait + Abort>(
    rt: &R,
    alloc: Global,
    all: RefusedFinish<L>,
    why: FinishError,
) -> Result<RefusedFinish<L>, Fail> {
    let many = all.publishers.len();
    match try_twice(rt, alloc, all) {
        Ok(_) => Err(Fail::new("it is finished")),
        Err(back) => {
            assert!(rt; back.why == why && back.publishers.len() == many);
            Ok(back)
        }
    }
}

// Finishes, and once more if memory runs out.
fn try_twice<L: BrokerBrand, R: Wait>(
    rt: &R,
    alloc: Global,
    all: RefusedFinish<L>,
) -> Result<Finished, RefusedFinish<L>> {
    let back = match try_once(rt, alloc, all) {
        Ok(finished) => return Ok(finished),
        Err(back) => back,
    };
    if back.why == FinishError::Memory {
        try_once(rt, alloc, back)
    } else {
        Err(back)
    }
}

fn try_once<L: BrokerBrand, R: Wait>(
    rt: &R,
    alloc: Global,
    all: RefusedFinish<L>,
) -> Result<Finished, RefusedFinish<L>> {
    let RefusedFinish {
        publishers,
        sequencer,
        maker,
        broker,
        why: _why,
    } = all;
    let closing = broker.sequence().closing();
    finish(
        rt,
        alloc,
        closing.as_ref(),
        publishers,
        sequencer,
        maker,
        broker,
    )
}

fn has_left<R: Abort>(
    rt: &R,
    alloc: Global,
    finished: &Finished,
    left: &[(u64, u64)],
) -> Result<(), Fail> {
    assert_eq!(rt; (finished.placed, finished.closing.last()), (1, 1));
    assert!(rt; finished.sequence.get(1).is_some());
    are_left(rt, &finished.left, left);
    let refused = PlaceError::Closed(finished.closing.again());
    let drained = TakeError::Drained(finished.closing.again());
    let said = format!(in alloc; "{refused}, {drained}")?;
    let text = "the sequence is closed, everything up to the last number is settled";
    assert_eq!(rt; said.as_str(), text);
    Ok(())
}

// as `finishes` says
fn are_left<R: Abort>(rt: &R, items: &[Item], left: &[(u64, u64)]) {
    if left.is_empty() {
        assert_eq!(rt; items.len() as u64, MOST_WAITING + 1);
        for (item, own) in items.iter().zip(2_u64..) {
            assert_eq!(rt; (item.publisher(), item.own()), (0, own));
        }
        return;
    }
    assert_eq!(rt; items.len(), left.len());
    for (item, own) in items.iter().zip(left) {
        assert_eq!(rt; (item.publisher(), item.own()), *own);
    }
}
