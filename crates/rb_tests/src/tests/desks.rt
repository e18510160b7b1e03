//! Tests of a desk and its journal: a step more for each call that goes through, and where one is
//! refused, out of memory included, everything is as it was.

use rb_desk::{Config, ConfigFault, Desk, DeskError, DeskRefusal};
use std::alloc::{AllocError, Global};
use std::process::Abort;
use std::test::Fail;

// batches of 2 numbers, a window of 2, a timeout of 10 ticks, a capacity of 4
fn limits() -> Result<Config, ConfigFault> {
    Config::new(2, 2, 10, 4, 1, 1)
}

// Calls, each with its answer and how many steps the journal has after it.
const EACH_CALL: &str = "\
place = ok 1
place = ok 2
place = ok 3
take 0 1 0 1 = NoSuch 3
subscribe 4 = StartAhead { front: 3 } 3
subscribe 0 = ok 4
take 0 2 0 1 = StaleLink 4
take 0 1 0 1 = ok 5
take 0 1 0 1 = ok 6
take 0 1 0 1 = WindowFull 6
ack 0 1 3 2 = NotInFlight 6
ack 0 1 1 1 = NotAccepted { cursor: 1 } 6
ack 0 1 1 2 = ok 7
nack 0 2 2 = StaleLink 7
nack 0 1 2 = ok 8
any 2 = ok 9
any 2 = Empty { front: 3 } 9
open 0 1 2 = NotInFlight 9
open 0 1 3 = ok 10
any 2 = ok 11
expire 12 = ok 12
reconnect 0 1 = BadCursor { floor: 2, offered: 3 } 12
reconnect 0 3 = ok 13
place = ok 14
place = SequenceFull 14
close = ok 15
close = ok 15
place = Closed 15
unsubscribe 0 1 = StaleLink 15
unsubscribe 0 2 = ok 16
unsubscribe 0 2 = Closed 16";

// Deliveries of another subscription, under another link, that were never given, that expired, and
// that are settled.
const FOREIGN: &str = "\
place = ok 1
subscribe 0 = ok 2
subscribe 0 = ok 3
take 1 2 0 1 = ok 4
ack 0 1 1 0 = NotInFlight 4
nack 0 1 1 = NotInFlight 4
open 0 1 1 = NotInFlight 4
ack 1 1 1 1 = StaleLink 4
nack 1 1 1 = StaleLink 4
open 1 1 1 = StaleLink 4
ack 7 1 1 1 = NoSuch 4
nack 7 1 1 = NoSuch 4
open 7 1 1 = NoSuch 4
ack 1 2 0 1 = NotInFlight 4
ack 1 2 2 1 = NotInFlight 4
nack 1 2 18446744073709551615 = NotInFlight 4
open 1 2 65537 = NotInFlight 4
expire 11 = ok 5
ack 1 2 1 1 = NotInFlight 5
nack 1 2 1 = NotInFlight 5
open 1 2 1 = NotInFlight 5
take 1 2 0 11 = ok 6
ack 1 2 2 0 = NotAccepted { cursor: 0 } 6
ack 1 2 2 1 = ok 7
ack 1 2 2 1 = NotInFlight 7
nack 1 2 2 = NotInFlight 7
open 1 2 2 = NotInFlight 7
reconnect 1 1 = ok 8
ack 1 2 2 1 = StaleLink 8
unsubscribe 1 3 = ok 9
ack 1 3 2 1 = NotInFlight 9";

// the words of a call: its name, then its numbers
fn words_of(line: &str) -> Option<(&str, u64, u64, u64, u64)> {
    let mut words = line.split_ascii_whitespace();
    let name = words.next()?;
    let mut numbers = [0_u64; 4];
    for (number, word) in numbers.iter_mut().zip(words) {
        *number = word.parse().ok()?;
    }
    let [first, link, third, fourth] = numbers;
    Some((name, first, link, third, fourth))
}

// The calls that ask for memory only where the journal needs a new piece. Each is a function of its
// own, so that refused/calls.txt can name it.

#[inline(never)]
fn call_ack(
    alloc: Global,
    desk: &mut Desk,
    sub: u64,
    link: u64,
    delivery: u64,
    cursor: u64,
) -> Result<(), DeskError> {
    desk.ack(alloc, sub, link, delivery, cursor)?;
    Ok(())
}

#[inline(never)]
fn call_nack(
    alloc: Global,
    desk: &mut Desk,
    sub: u64,
    link: u64,
    delivery: u64,
) -> Result<(), DeskError> {
    desk.nack(alloc, sub, link, delivery)
}

#[inline(never)]
fn call_expire(alloc: Global, desk: &mut Desk, now: u64) -> Result<(), DeskError> {
    desk.expire(alloc, now)?;
    Ok(())
}

#[inline(never)]
fn call_reconnect(alloc: Global, desk: &mut Desk, sub: u64, cursor: u64) -> Result<(), DeskError> {
    desk.reconnect(alloc, sub, cursor)?;
    Ok(())
}

#[inline(never)]
fn call_unsubscribe(alloc: Global, desk: &mut Desk, sub: u64, link: u64) -> Result<(), DeskError> {
    desk.unsubscribe(alloc, sub, link)
}

// Makes the call of this line.
fn call(rt: &impl Abort, alloc: Global, desk: &mut Desk, line: &str) -> Result<(), DeskError> {
    let Some((name, first, link, third, fourth)) = words_of(line) else {
        panic!(rt; "a line without a call");
    };
    match name {
        "subscribe" => {
            desk.subscribe(alloc, first)?;
        }
        "take" => {
            desk.take(alloc, first, link, third, fourth)?;
        }
        "any" => {
            desk.take_any(alloc, first)?;
        }
        "ack" => call_ack(alloc, desk, first, link, third, fourth)?,
        "nack" => call_nack(alloc, desk, first, link, third)?,
        "open" => {
            desk.nack_opened(alloc, first, link, third)?;
        }
        "expire" => call_expire(alloc, desk, first)?,
        "reconnect" => call_reconnect(alloc, desk, first, link)?,
        "unsubscribe" => call_unsubscribe(alloc, desk, first, link)?,
        "place" => {
            desk.prepare()?;
            desk.place();
        }
        "close" => {
            desk.close();
        }
        _ => panic!(rt; "no such call"),
    }
    Ok(())
}

// what a desk shows of itself: its steps, its front, its closing number, its subscriptions
fn shown(desk: &Desk) -> (u64, u64, Option<u64>, u64) {
    (desk.steps(), desk.front(), desk.closing(), desk.made())
}

// Makes the call of this line, and says why it is refused. Out of memory leaves everything as it
// was: the same call goes on from there.
fn made(
    rt: &impl Abort,
    alloc: Global,
    desk: &mut Desk,
    line: &str,
) -> Result<Option<DeskRefusal>, AllocError> {
    let before = shown(desk);
    for _ in 0..2 {
        let Err(error) = call(rt, alloc, desk, line) else {
            return Ok(None);
        };
        assert_eq!(rt; shown(desk), before);
        if let DeskError::Refused(why) = error {
            return Ok(Some(why));
        }
    }
    Err(AllocError)
}

// A desk of these limits answers these calls so.
fn answers(rt: &impl Abort, alloc: Global, lines: &str) -> Result<(), Fail> {
    let mut desk = Desk::new(alloc, limits()?)?;
    for line in lines.lines() {
        let Some((call, answer)) = line.split_once(" = ") else {
            return Err("a line without an answer")?;
        };
        let said = match made(rt, alloc, &mut desk, call)? {
            None => format!(in alloc; "ok {}", desk.steps())?,
            Some(why) => format!(in alloc; "{why:?} {}", desk.steps())?,
        };
        assert_eq!(rt; said.as_str(), answer);
    }
    Ok(())
}

#[test]
fn each_call_is_a_step(rt: HostRuntime) -> Result<(), Fail> {
    answers(&rt, rt.alloc(), EACH_CALL)
}

#[test]
fn foreign_deliveries_are_refused(rt: HostRuntime) -> Result<(), Fail> {
    answers(&rt, rt.alloc(), FOREIGN)
}

// A desk with the numbers 1 to 9, of which 1 to 8 are in flight to subscription 0, as delivery 1.
fn begun(rt: &impl Abort, alloc: Global) -> Result<Desk, Fail> {
    let mut desk = Desk::new(alloc, Config::new(8, 2, 10, 16, 1, 1)?)?;
    for _ in 0..9 {
        assert_eq!(rt; made(rt, alloc, &mut desk, "place")?, None);
    }
    for line in ["subscribe 0", "take 0 1 0 1"] {
        assert_eq!(rt; made(rt, alloc, &mut desk, line)?, None);
    }
    Ok(desk)
}

// calls that it doesn't refuse
const CALLS: [&str; 9] = [
    "subscribe 9",
    "take 0 1 0 1",
    "any 1",
    "ack 0 1 1 8",
    "nack 0 1 1",
    "open 0 1 1",
    "expire 11",
    "reconnect 0 1",
    "unsubscribe 0 1",
];

// Expires nothing, so many times.
fn fills(rt: &impl Abort, alloc: Global, desk: &mut Desk, count: u64) -> Result<(), Fail> {
    for _ in 0..count {
        let steps = desk.steps();
        let why = made(rt, alloc, desk, "expire 1")?;
        assert_eq!(rt; (why, desk.steps()), (None, steps.wrapping_add(1)));
    }
    Ok(())
}

// Each call is once the one whose step needs the second piece of the journal, which has 1,024 steps
// besides placements. After another piece it is a step more.
#[test]
fn journals_grow_in_pieces(rt: HostRuntime) -> Result<(), Fail> {
    let alloc = rt.alloc();
    for line in CALLS {
        let mut desk = begun(&rt, alloc)?;
        fills(&rt, alloc, &mut desk, 1_021)?;
        assert_eq!(rt; made(&rt, alloc, &mut desk, line)?, None);
        assert_eq!(rt; desk.steps(), 1_033);
        fills(&rt, alloc, &mut desk, 1_100)?;
        assert_eq!(rt; desk.steps(), 2_133);
    }
    Ok(())
}
