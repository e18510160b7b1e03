//! The texts of refusals, faults and replies.

use cs_apply::{Conflict, ConflictKind};
use cs_parse::{FaultKind, ParseFault};
use rb_core::{BrokerRefusal, Reply};
use rb_desk::{DeskError, DeskRefusal};
use rb_script::ScriptError;
use rb_subscriber::{AcceptError, AcceptRefusal};
use std::alloc::Global;
use std::fmt::Display;
use std::process::Abort;
use std::test::Fail;

// Texts that several errors have.

const NO_SUCH: &str = "there is no such subscription";

const SEEN: &str = "the delivery is accepted already";

const STALE_LINK: &str = "the subscription has another link now";

const MEMORY: &str = "out of memory";

fn says<T: Display>(rt: &impl Abort, alloc: Global, table: &[(T, &str)]) -> Result<(), Fail> {
    for (why, text) in table {
        let said = format!(in alloc; "{why}")?;
        assert_eq!(rt; said.as_str(), *text);
    }
    Ok(())
}

#[test]
fn desks_say_why(rt: HostRuntime) -> Result<(), Fail> {
    let table = [
        (DeskRefusal::NoSuch, NO_SUCH),
        (DeskRefusal::StaleLink, STALE_LINK),
        (DeskRefusal::Closed, "it is closed"),
        (DeskRefusal::WindowFull, "the window is full"),
        (
            DeskRefusal::Drained { last: 7 },
            "everything up to the last number, 7, is settled",
        ),
        (
            DeskRefusal::Empty { front: 7 },
            "nothing is ready; the last number placed is 7",
        ),
        (DeskRefusal::NotInFlight, "no such delivery is in flight"),
        (
            DeskRefusal::NotAccepted { cursor: 7 },
            "the delivery is accepted up to 7 only",
        ),
        (
            DeskRefusal::BadCursor {
                floor: 3,
                offered: 9,
            },
            "the cursor is not between the floor, 3, and what was offered, 9",
        ),
        (
            DeskRefusal::StartAhead { front: 7 },
            "the last number placed is 7",
        ),
        (DeskRefusal::TooMany, "there are 1,024 subscriptions"),
        (DeskRefusal::SequenceFull, "the sequence is full"),
        (DeskRefusal::JournalFull, "the journal is full"),
    ];
    says(&rt, rt.alloc(), &table)
}

#[test]
fn endpoints_say_why(rt: HostRuntime) -> Result<(), Fail> {
    let conflict = Conflict {
        position: 3,
        kind: ConflictKind::Data,
    };
    let table = [
        (AcceptRefusal::Store, "the subscription has fallen"),
        (AcceptRefusal::Closed, "the subscription is closed"),
        (AcceptRefusal::StaleLink, STALE_LINK),
        (AcceptRefusal::Seen, SEEN),
        (
            AcceptRefusal::Gap { expected: 4 },
            "the next number to accept is 4",
        ),
        (
            AcceptRefusal::Shape { number: 5 },
            "the changeset 5 is of other tables",
        ),
        (
            AcceptRefusal::Conflict(conflict),
            "change 3: the row has other values",
        ),
    ];
    says(&rt, rt.alloc(), &table)
}

#[test]
fn brokers_say_why(rt: HostRuntime) -> Result<(), Fail> {
    let table = [
        (BrokerRefusal::NoPublisher, "there is no such publisher"),
        (BrokerRefusal::NoDelivery, "there is no such delivery"),
        (BrokerRefusal::TooMany, "there are 64 publishers"),
        (BrokerRefusal::Holding, "a changeset is staged already"),
        (BrokerRefusal::NothingStaged, "nothing is staged"),
        (BrokerRefusal::Closed, "the sequence is closed"),
        (BrokerRefusal::Full, "the intake is full"),
        (BrokerRefusal::NotPlaced, "there is no such entry"),
        (BrokerRefusal::NotYours, "the entry is another publisher's"),
        (
            BrokerRefusal::AlreadyWithdrawn,
            "the entry is withdrawn already",
        ),
        (BrokerRefusal::NotFallen, "the subscription has not fallen"),
        (
            BrokerRefusal::UnknownTable(7),
            "section 7 is of an unknown table",
        ),
        (
            BrokerRefusal::ShapeDiffers(8),
            "section 8 has another shape than its table",
        ),
        (BrokerRefusal::Desk(DeskRefusal::NoSuch), NO_SUCH),
        (BrokerRefusal::Accept(AcceptRefusal::Seen), SEEN),
    ];
    says(&rt, rt.alloc(), &table)
}

#[test]
fn errors_say_the_refusal_or_memory(rt: HostRuntime) -> Result<(), Fail> {
    let alloc = rt.alloc();
    let refused = (DeskError::Refused(DeskRefusal::NoSuch), NO_SUCH);
    says(&rt, alloc, &[refused, (DeskError::Memory, MEMORY)])?;
    let refused = (AcceptError::Refused(AcceptRefusal::Seen), SEEN);
    says(&rt, alloc, &[refused, (AcceptError::Memory, MEMORY)])?;
    says(&rt, alloc, &[(ScriptError::Memory, MEMORY)])
}

#[test]
fn replies_say_what_was_done(rt: HostRuntime) -> Result<(), Fail> {
    let table = [
        (Reply::Publisher(3), "publisher 3"),
        (Reply::Fed, "the bytes are fed"),
        (
            Reply::Fault(ParseFault {
                at: 8,
                kind: FaultKind::Real,
            }),
            "a REAL value, which isn't read, at byte 8",
        ),
        (Reply::Reset, "the stream is empty"),
        (Reply::Staged, "a changeset is staged"),
        (Reply::Sent(4), "sending 4"),
        (Reply::Placed(5), "entry 5"),
        (Reply::Idle, "nothing waits to be placed"),
        (Reply::Closed(9), "the sequence is closed at 9"),
        (
            Reply::Subscriber {
                subscription: 2,
                link: 7,
            },
            "subscription 2 under link 7",
        ),
        (
            Reply::Accepted {
                subscription: 2,
                cursor: 8,
            },
            "subscription 2 has accepted up to 8",
        ),
        (
            Reply::Crashed {
                subscription: 2,
                cursor: 8,
            },
            "subscription 2 has fallen at 8",
        ),
        (Reply::Floor(6), "settled up to 6"),
        (Reply::Returned, "the delivery is returned"),
        (Reply::Opened(3), "the delivery of 3 entries is opened"),
        (Reply::Expired(12), "12 deliveries expired"),
        (Reply::Link(7), "a new link, 7"),
        (Reply::Unsubscribed, "the subscription is closed"),
        (
            Reply::Refused(BrokerRefusal::NoPublisher),
            "there is no such publisher",
        ),
    ];
    says(&rt, rt.alloc(), &table)
}
