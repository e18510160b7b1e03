//! Runs with ample memory: a list of events, and a changeset with more changes than a 16-bit count
//! holds.

ghost use Rattle.std.specs.Prelude.{◌<◌};

use cs_model::{Octets, Schema, Seq, Shape};
use rb_core::{BrokerRefusal, Config, Event, Reply, World, run};
use rb_script::{Answering, run_script};
use rb_subscriber::AcceptRefusal;
use std::alloc::{AllocError, Global};
use std::process::Abort;
use std::test::Fail;

// an INSERT of (1, 'x') into a table `t` of two columns, the first of which is its key
const INSERT: [u8; 20] = [
    0x54, 2, 1, 0, 0x74, 0, 0x12, 0, 1, 0, 0, 0, 0, 0, 0, 0, 1, 3, 1, 0x78,
];

fn octets(alloc: Global, bytes: &[u8]) -> Result<Octets, AllocError> {
    Ok(Seq::from_vec(Vec::from_slice(alloc, bytes)?))
}

fn schema(alloc: Global) -> Result<Schema, Fail> {
    let name = octets(alloc, b"t")?;
    let flags = octets(alloc, &[1, 0])?;
    let mut shapes = Vec::new(alloc);
    shapes.push(Shape { name, flags })?;
    Ok(Schema::new(shapes)?)
}

// after a feed: stages, sends and places the INSERT; a subscription takes it and accepts it twice
fn event(place: usize) -> Event {
    match place {
        0 => Event::End { publisher: 0 },
        1 => Event::Send { publisher: 0 },
        2 => Event::Turn,
        3 => Event::Subscribe { start: 0 },
        4 => Event::Take {
            subscription: 0,
            now: 0,
        },
        _ => Event::Accept { delivery: 1 },
    }
}

fn feed(alloc: Global) -> Result<Event, AllocError> {
    let bytes = octets(alloc, &INSERT)?;
    Ok(Event::Feed {
        publisher: 0,
        bytes,
    })
}

// a publisher sends an INSERT, which a subscription accepts twice
fn some_events(alloc: Global) -> Result<Vec<Event>, AllocError> {
    let mut events = Vec::new(alloc);
    events.push(Event::Publisher)?;
    events.push(feed(alloc)?)?;
    for place in 0..7_usize {
        events.push(event(place))?;
    }
    Ok(events)
}

// The row is there, and the second `Accept` is refused as seen.
fn is_done(rt: &impl Abort, alloc: Global, world: &World, last: Reply) -> Result<(), Fail> {
    let rows = world.rows(alloc, 0)?;
    assert_eq!(rt; rows.map(|rows| rows.len()), Some(1));
    assert_eq!(rt;
        last,
        Reply::Refused(BrokerRefusal::Accept(AcceptRefusal::Seen))
    );
    Ok(())
}

// The text of the delivery.
fn says_its_numbers(rt: &impl Abort, alloc: Global, reply: Reply) -> Result<(), Fail> {
    if let Reply::Delivery(delivery) = reply {
        let text = format!(in alloc; "{delivery}")?;
        assert_eq!(rt; text.as_str(), "delivery 1 to subscription 0: 1 to 1");
    }
    Ok(())
}

// What a world shows of itself: its front, how many wait, and the cursor and the rows of its
// subscription.
type Shown = (u64, u64, Option<u64>, Option<usize>);

fn shown(alloc: Global, world: &World) -> Result<Shown, Fail> {
    let rows = world.rows(alloc, 0)?.map(|rows| rows.len());
    Ok((world.front(), world.left(), world.cursor(0), rows))
}

// Makes the event's step. If memory runs out, the world shows what it showed before, and makes the
// same step by the second call.
fn makes(
    rt: &impl Abort,
    alloc: Global,
    world: &mut World,
    event: Event,
    again: &Event,
) -> Result<Reply, Fail> {
    let before = shown(alloc, world)?;
    match world.step(alloc, event) {
        Ok(reply) => Ok(reply),
        Err(AllocError) => {
            assert_eq!(rt; shown(alloc, world)?, before);
            Ok(world.serve(alloc, again)?)
        }
    }
}

// A list of events has the same replies as its events one after another.
#[test]
fn runs_as_it_steps(rt: HostRuntime) -> Result<(), Fail> {
    let alloc = rt.alloc();
    let events = some_events(alloc)?;
    let (ran, given) = run(alloc, Config::standard(), schema(alloc)?, &events)?;
    let mut world = World::new(alloc, Config::standard(), schema(alloc)?)?;
    let mut last = Reply::Idle;
    let mut count = 0_usize;
    for ((event, again), answer) in some_events(alloc)?.into_iter().zip(&events).zip(given) {
        last = answer?;
        assert_eq!(rt; makes(&rt, alloc, &mut world, event, again)?, last);
        says_its_numbers(&rt, alloc, last)?;
        count = count.saturating_add(1);
    }
    assert_eq!(rt; count, 9);
    is_done(&rt, alloc, &ran, last)?;
    is_done(&rt, alloc, &world, last)
}

// the changes of a line, and the lines
const CHANGES: u32 = 2_000;

const LINES: u32 = 50;

// what stands before the key of each INSERT and after it, and of each row's answer line
const CHANGE: [&str; 2] = ["120001", "030178"];

const ROW: [&str; 2] = ["row 0 01", " 030178\n"];

// `CHANGES` changes or rows, with keys from `first` on, in hexadecimal
fn push_keys(alloc: Global, text: &mut Vec<u8>, first: u32, around: [&str; 2]) -> Result<(), Fail>
    requires { first < 1000000 }
{
    let [before, after] = around;
    for i in 0..CHANGES {
        let number = first + i;
        let key = format!(in alloc; "{before}{number:016x}{after}")?;
        text.extend_from_slice(key.as_bytes())?;
    }
    Ok(())
}

// One changeset of 1.4 MB and 100,000 changes: written, combined, applied, and its rows in order.
#[test]
fn a_hundred_thousand_rows_are_accepted(rt: HostRuntime) -> Result<(), Fail> {
    let alloc = rt.alloc();
    let mut script = Vec::new(alloc);
    let mut text = Vec::new(alloc);
    let mut rows = Vec::new(alloc);
    let mut answers = Vec::new(alloc);
    script.extend_from_slice(b"table 540201007400\npublisher\nsubscribe 0\nfeed 0 540201007400\n")?;
    answers.extend_from_slice(b"ok\npublisher 0\nsubscriber 0 link 1\nok\n")?;
    for line in 0..LINES {
        let first = line * CHANGES;
        script.extend_from_slice(b"feed 0 ")?;
        push_keys(alloc, &mut script, first, CHANGE)?;
        script.push(b'\n')?;
        push_keys(alloc, &mut text, first, CHANGE)?;
        push_keys(alloc, &mut rows, first, ROW)?;
        answers.extend_from_slice(b"ok\n")?;
    }
    script.extend_from_slice(b"end 0\nsend 0\nturn\nentry 1\ncombine 1 1\n")?;
    script.extend_from_slice(b"take 0 0\naccept 1\nrows 0\n")?;
    answers.extend_from_slice(b"staged\nsent 1\nplaced 1\nentry 1 0 1 s 540201007400")?;
    answers.extend_from_slice(&text)?;
    answers.extend_from_slice(b"\ntext 540201007400")?;
    answers.extend_from_slice(&text)?;
    answers.extend_from_slice(b"\ndelivery 1 0 1 1\naccepted 1\nrows 100000\n")?;
    answers.extend_from_slice(&rows)?;
    let mut reader: &[u8] = &script;
    let mut written = Vec::new(alloc);
    run_script(
        alloc,
        &mut reader,
        &mut written,
        Config::standard(),
        Answering::plain(),
    )?;
    assert!(rt; written.as_slice() == answers.as_slice());
    Ok(())
}
