//! Formats replies and refusals as text.

ghost use Rattle.std.specs.Prelude.{◌≡◌, ◌++◌, IfOk, string_bytes};
ghost use Rattle.rb_script.specs.Replies.{kind_name, desk_refusal_text, end_refusal_text};
ghost use Rattle.rb_script.specs.Replies.{refusal_text, delivery_text, reply_text};

use cs_parse::FaultKind;
use rb_core::{BrokerRefusal, Delivery, Reply};
use rb_desk::DeskRefusal;
use rb_subscriber::AcceptRefusal;
use std::alloc::{AllocError, Global};

/// The text of a reply, without a line end. Returns `AllocError` if memory runs out.
pub fn text_of(alloc: Global, reply: Reply) -> Result<String, AllocError>
    ensures { IfOk result (λ text. string_bytes text ≡ reply_text reply) }
{
    match reply {
        Reply::Publisher(p) => format!(in alloc; "publisher {p}"),
        Reply::Fed | Reply::Reset | Reply::Returned | Reply::Unsubscribed => {
            format!(in alloc; "ok")
        }
        Reply::Staged => format!(in alloc; "staged"),
        Reply::Sent(own) => format!(in alloc; "sent {own}"),
        Reply::Placed(n) => format!(in alloc; "placed {n}"),
        Reply::Idle => format!(in alloc; "idle"),
        Reply::Closed(last) => format!(in alloc; "closed {last}"),
        Reply::Subscriber { subscription, link } => {
            format!(in alloc; "subscriber {subscription} link {link}")
        }
        Reply::Delivery(delivery) => text_of_delivery(alloc, delivery),
        Reply::Accepted {
            subscription: _,
            cursor,
        } => format!(in alloc; "accepted {cursor}"),
        Reply::Crashed {
            subscription: _,
            cursor,
        } => format!(in alloc; "crashed {cursor}"),
        Reply::Floor(floor) => format!(in alloc; "floor {floor}"),
        Reply::Opened(count) => format!(in alloc; "opened {count}"),
        Reply::Expired(count) => format!(in alloc; "expired {count}"),
        Reply::Link(link) => format!(in alloc; "link {link}"),
        Reply::Fault(fault) => {
            let at = fault.at;
            let kind = name_of(fault.kind);
            format!(in alloc; "fault {at} {kind}")
        }
        Reply::Refused(why) => text_of_refusal(alloc, why),
    }
}

fn text_of_delivery(alloc: Global, delivery: Delivery) -> Result<String, AllocError>
    ensures { IfOk result (λ text. string_bytes text ≡ delivery_text delivery) }
{
    let (number, sub) = (delivery.number(), delivery.sub());
    let (first, last) = (delivery.first(), delivery.last());
    format!(in alloc; "delivery {number} {sub} {first} {last}")
}

fn text_of_refusal(alloc: Global, why: BrokerRefusal) -> Result<String, AllocError>
    ensures { IfOk result (λ text. string_bytes text ≡ refusal_text why) }
{
    match why {
        BrokerRefusal::NoPublisher => format!(in alloc; "refused NoPublisher"),
        BrokerRefusal::NoDelivery => format!(in alloc; "refused NoDelivery"),
        BrokerRefusal::TooMany => format!(in alloc; "refused TooMany"),
        BrokerRefusal::Holding => format!(in alloc; "refused Holding"),
        BrokerRefusal::NothingStaged => format!(in alloc; "refused NothingStaged"),
        BrokerRefusal::Closed => format!(in alloc; "refused Closed"),
        BrokerRefusal::Full => format!(in alloc; "refused Full"),
        BrokerRefusal::NotPlaced => format!(in alloc; "refused NotPlaced"),
        BrokerRefusal::NotYours => format!(in alloc; "refused NotYours"),
        BrokerRefusal::AlreadyWithdrawn => format!(in alloc; "refused AlreadyWithdrawn"),
        BrokerRefusal::NotFallen => format!(in alloc; "refused NotFallen"),
        BrokerRefusal::UnknownTable(i) => format!(in alloc; "refused UnknownTable {i}"),
        BrokerRefusal::ShapeDiffers(i) => format!(in alloc; "refused ShapeDiffers {i}"),
        BrokerRefusal::Desk(why) => text_of_desk_refusal(alloc, why),
        BrokerRefusal::Accept(why) => text_of_end_refusal(alloc, why),
    }
}

/// The text of a desk's refusal, without a line end. Returns `AllocError` if memory runs out.
pub fn text_of_desk_refusal(alloc: Global, why: DeskRefusal) -> Result<String, AllocError>
    ensures { IfOk result (λ text. string_bytes text ≡ desk_refusal_text why) }
{
    match why {
        DeskRefusal::JournalFull => format!(in alloc; "refused JournalFull"),
        DeskRefusal::NoSuch => format!(in alloc; "refused NoSuch"),
        DeskRefusal::StaleLink => format!(in alloc; "refused StaleLink"),
        DeskRefusal::Closed => format!(in alloc; "refused Closed"),
        DeskRefusal::WindowFull => format!(in alloc; "refused WindowFull"),
        DeskRefusal::Drained { last } => format!(in alloc; "refused Drained {last}"),
        DeskRefusal::Empty { front } => format!(in alloc; "refused Empty {front}"),
        DeskRefusal::NotInFlight => format!(in alloc; "refused NotInFlight"),
        DeskRefusal::NotAccepted { cursor } => format!(in alloc; "refused NotAccepted {cursor}"),
        DeskRefusal::BadCursor { floor, offered } => {
            format!(in alloc; "refused BadCursor {floor} {offered}")
        }
        DeskRefusal::StartAhead { front } => format!(in alloc; "refused StartAhead {front}"),
        DeskRefusal::TooMany => format!(in alloc; "refused TooMany"),
        DeskRefusal::SequenceFull => format!(in alloc; "refused SequenceFull"),
    }
}

fn text_of_end_refusal(alloc: Global, why: AcceptRefusal) -> Result<String, AllocError>
    ensures { IfOk result (λ text. string_bytes text ≡ end_refusal_text why) }
{
    match why {
        AcceptRefusal::Store => format!(in alloc; "refused Store"),
        AcceptRefusal::Closed => format!(in alloc; "refused Closed"),
        AcceptRefusal::StaleLink => format!(in alloc; "refused StaleLink"),
        AcceptRefusal::Seen => format!(in alloc; "refused Seen"),
        AcceptRefusal::Gap { expected } => format!(in alloc; "refused Gap {expected}"),
        AcceptRefusal::Shape { number } => format!(in alloc; "refused Shape {number}"),
        AcceptRefusal::Conflict(conflict) => {
            let position = conflict.position;
            let kind = conflict.kind.code();
            format!(in alloc; "refused Conflict {position} {kind}")
        }
    }
}

/// The name of a kind of fault.
pub fn name_of(kind: FaultKind) -> &'static str
    ensures { result.now ≡ kind_name kind }
{
    match kind {
        FaultKind::BadMarker => "BadMarker",
        FaultKind::Patchset => "Patchset",
        FaultKind::Columns => "Columns",
        FaultKind::NoKey => "NoKey",
        FaultKind::EmptyName => "EmptyName",
        FaultKind::NameTooLong => "NameTooLong",
        FaultKind::BadOperation => "BadOperation",
        FaultKind::BadType => "BadType",
        FaultKind::Real => "Real",
        FaultKind::UndefinedField => "UndefinedField",
        FaultKind::KeyMissing => "KeyMissing",
        FaultKind::KeyChanged => "KeyChanged",
        FaultKind::OneSided => "OneSided",
        FaultKind::ValueTooLong => "ValueTooLong",
        FaultKind::TooLong => "TooLong",
        FaultKind::Truncated => "Truncated",
    }
}
