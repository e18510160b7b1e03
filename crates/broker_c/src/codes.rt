//! Replies and refusals as numbers for C.

ghost use Rattle.std.specs.Prelude.{◌≡◌};
ghost use Rattle.broker_c.specs.Codes as codes;

use cs_parse::ParseFault;
use rb_core::{BrokerRefusal, PlacingRefusal, Reply};
use rb_desk::DeskRefusal;
use rb_subscriber::AcceptRefusal;

/// No broker is behind the handle.
pub const SHUT: i32 = -1;
/// Memory ran out.
pub const NO_MEMORY: i32 = -2;
/// A limit is out of its range.
pub const BAD_LIMIT: i32 = -4;
/// A table is refused.
pub const BAD_TABLE: i32 = -5;
/// Another call is in the handle.
pub const BUSY: i32 = -6;
/// Other changesets wait to be placed.
pub const WAITING: i32 = -23;
/// No entry has this number.
pub const NOT_PLACED: i32 = -16;
/// No subscription has this number.
pub const NO_SUCH: i32 = -30;
/// The broker has no table at this place.
pub const NO_TABLE: i32 = -46;
/// The table has no row with this key.
pub const NO_ROW: i32 = -47;

/// The numbers of a fault or of a refusal, and 0 for each that it doesn't have.
#[derive(Clone, Copy)]
#[repr(C)]
pub struct Why {
    pub first: u64,
    pub second: u64,
}

/// The code of a reply: 0, or 1 for `Idle`, -3 for a fault, and -10 or less for a refusal.
pub fn code(reply: &Reply) -> i32
    ensures { result ≡ codes.code reply.now }
{
    match reply {
        Reply::Idle => 1,
        Reply::Fault(_) => -3,
        Reply::Refused(why) => refusal_code(*why),
        _ => 0,
    }
}

/// A handle's numbers after a reply: those of a fault or a refusal, else those from before.
pub fn why_after(reply: &Reply, before: Why) -> Why
    ensures { result ≡ codes.numbers_after reply.now before }
{
    match reply {
        Reply::Fault(fault) => fault_why(*fault),
        Reply::Refused(why) => refusal_why(*why),
        _ => before,
    }
}

/// These two numbers.
pub fn numbers(first: u64, second: u64) -> Why
    ensures { result ≡ record { first = first; second = second } }
{
    Why { first, second }
}

// a fault's place, and the number of its kind
fn fault_why(fault: ParseFault) -> Why
    ensures { result ≡ codes.fault_why fault }
{
    numbers(fault.at as u64, u64::from(fault.kind.number()))
}

// The code of a refusal. What means the same in two layers has one code.
fn refusal_code(why: BrokerRefusal) -> i32
    ensures { result ≡ codes.refusal_code why }
{
    use BrokerRefusal::{Accept, Desk};
    match why {
        BrokerRefusal::NoPublisher => -10,
        BrokerRefusal::TooMany | Desk(DeskRefusal::TooMany) => -11,
        BrokerRefusal::Holding => -12,
        BrokerRefusal::NothingStaged => -13,
        BrokerRefusal::Closed | Desk(DeskRefusal::Closed) | Accept(AcceptRefusal::Closed) => -14,
        BrokerRefusal::Full => -15,
        BrokerRefusal::NotPlaced => NOT_PLACED,
        BrokerRefusal::NotYours => -17,
        BrokerRefusal::AlreadyWithdrawn => -18,
        Desk(DeskRefusal::SequenceFull) => -19,
        BrokerRefusal::UnknownTable(_) => -20,
        BrokerRefusal::ShapeDiffers(_) => -21,
        Desk(DeskRefusal::JournalFull) => -22,
        Desk(DeskRefusal::NoSuch) => NO_SUCH,
        Desk(DeskRefusal::StaleLink) | Accept(AcceptRefusal::StaleLink) => -31,
        Desk(DeskRefusal::WindowFull) => -32,
        BrokerRefusal::NoDelivery => -33,
        Desk(DeskRefusal::NotInFlight) => -34,
        Accept(AcceptRefusal::Seen) => -35,
        Desk(DeskRefusal::Drained { .. }) => -36,
        Desk(DeskRefusal::Empty { .. }) => -37,
        Desk(DeskRefusal::NotAccepted { .. }) => -38,
        Desk(DeskRefusal::BadCursor { .. }) => -39,
        Desk(DeskRefusal::StartAhead { .. }) => -40,
        Accept(AcceptRefusal::Gap { .. }) => -41,
        Accept(AcceptRefusal::Shape { .. }) => -42,
        Accept(AcceptRefusal::Conflict(_)) => -43,
        BrokerRefusal::NotFallen => -44,
        Accept(AcceptRefusal::Store) => -45,
    }
}

/// The code of a placing.
pub fn placing_code(answer: Result<u64, PlacingRefusal>) -> i32
    ensures { result ≡ codes.code_by answer }
{
    match answer {
        Ok(_) => 0,
        Err(PlacingRefusal::Waiting(_)) => WAITING,
        Err(PlacingRefusal::Fault(_)) => -3,
        Err(PlacingRefusal::Refused(why)) => refusal_code(why),
    }
}

/// The numbers of a placing that places nothing.
pub fn placing_why(why: PlacingRefusal) -> Why
    ensures { result ≡ codes.placing_why why }
{
    match why {
        PlacingRefusal::Waiting(count) => numbers(count, 0),
        PlacingRefusal::Fault(fault) => fault_why(fault),
        PlacingRefusal::Refused(why) => refusal_why(why),
    }
}

// the numbers of a refusal
fn refusal_why(why: BrokerRefusal) -> Why
    ensures { result ≡ codes.refusal_why why }
{
    match why {
        BrokerRefusal::UnknownTable(section) => numbers(section, 0),
        BrokerRefusal::ShapeDiffers(section) => numbers(section, 0),
        BrokerRefusal::Desk(why) => desk_why(why),
        BrokerRefusal::Accept(why) => accept_why(why),
        _ => numbers(0, 0),
    }
}

fn desk_why(why: DeskRefusal) -> Why
    ensures { result ≡ codes.desk_why why }
{
    match why {
        DeskRefusal::Drained { last } => numbers(last, 0),
        DeskRefusal::Empty { front } | DeskRefusal::StartAhead { front } => numbers(front, 0),
        DeskRefusal::NotAccepted { cursor } => numbers(cursor, 0),
        DeskRefusal::BadCursor { floor, offered } => numbers(floor, offered),
        _ => numbers(0, 0),
    }
}

// of a conflict: the change's place, and SQLite's number of the kind
fn accept_why(why: AcceptRefusal) -> Why
    ensures { result ≡ codes.accept_why why }
{
    match why {
        AcceptRefusal::Gap { expected } => numbers(expected, 0),
        AcceptRefusal::Shape { number } => numbers(number, 0),
        AcceptRefusal::Conflict(conflict) => {
            numbers(conflict.position as u64, u64::from(conflict.kind.code()))
        }
        _ => numbers(0, 0),
    }
}
