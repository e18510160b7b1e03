//! The calls that read a broker and leave it as it is. They don't change the numbers that
//! `broker_why` returns, and return -1 if the handle is shut, or -6 if another call is in it.

ghost use Rattle.std.specs.Prelude.{◌≡◌, IfOk, OnErr, OnOk, length, pos};
ghost use Rattle.cs_write.specs.Buffer.{given};
ghost use Rattle.cs_write.specs.Text.{text_of};
ghost use Rattle.rb_core.specs.Combined.{combined_of};
ghost use Rattle.rb_core.specs.Outcome.{entry_of};
ghost use Rattle.rb_core.specs.Status.{subscription_status};
ghost use Rattle.broker_c.specs.Texts.{IsAboutOf, IsCombinedOf, IsCursorOf, IsStatusOf, IsTextOf};
ghost use Rattle.broker_c.specs.Texts.{ReadsAbout, ReadsCombined, ReadsCursor, ReadsFront};
ghost use Rattle.broker_c.specs.Texts.{ReadsLeft, ReadsStatus, ReadsText};
ghost use Rattle.broker_c.specs.Texts as texts;

use crate::codes::{NO_MEMORY, NO_SUCH, NOT_PLACED};
use crate::handle::Handle;
use crate::reading::told;
use crate::writing::text_into;
use cs_model::{Changeset, Origin};
use cs_write::write_to;
use rb_core::{Entry, SubscriptionStatus, World};
use std::alloc::{AllocError, Global};

/// What is known of an entry beside its text: its publisher, its number among the publisher's
/// sendings, and the entry that it withdraws, or 0.
#[derive(Clone, Copy)]
#[repr(C)]
pub struct About {
    pub publisher: u64,
    pub own: u64,
    pub withdraws: u64,
}

/// The canonical text of an entry's changeset. Returns its length, and writes it to the front of
/// `out` if there is room for it. Returns -16 if no entry has this number.
#[unsafe(no_mangle)]
pub extern "C" fn broker_text(alloc: Global, broker: &mut Handle, entry: u64, out: &mut [u8]) -> i64
    ensures { ReadsText result entry broker.old broker.new out.old out.new }
{
    told!(alloc, broker, |world| entry_into(&world, entry, out))
}

// the length of an entry's text, which is written if there is room for it; or -16
fn entry_into(world: &World, number: u64, out: &mut [u8]) -> i64
    ensures { IsTextOf result (entry_of world.now number) out.old out.new }
{
    let Some(entry) = world.entry(number) else {
        return i64::from(NOT_PLACED);
    };
    text_into(entry.text(), out)
}

/// The canonical text of the entries numbered `first` to `last` as one changeset. Returns its
/// length, and writes it to the front of `out` if there is room for it. Returns -16 unless 1 <=
/// `first` <= `last` and `last` is placed. Otherwise returns -2 if memory runs out.
#[unsafe(no_mangle)]
pub extern "C" fn broker_combined(
    alloc: Global,
    broker: &mut Handle,
    first: u64,
    last: u64,
    out: &mut [u8],
) -> i64
    ensures { ReadsCombined result first last broker.old broker.new out.old out.new }
{
    told!(
        alloc,
        broker,
        |world| combined_into(alloc, &world, first, last, out)
    )
}

// the length of the combined text, which is written if there is room for it; -16; or -2
fn combined_into(alloc: Global, world: &World, first: u64, last: u64, out: &mut [u8]) -> i64
    ensures { IsCombinedOf result (combined_of world.now first last) out.old out.new }
{
    match world.combined(alloc, first, last) {
        Ok(Some(changeset)) => text_of(alloc, &changeset, out).unwrap_or(i64::from(NO_MEMORY)),
        Ok(None) => i64::from(NOT_PLACED),
        Err(_) => i64::from(NO_MEMORY),
    }
}

fn text_of(alloc: Global, changeset: &Changeset, out: &mut [u8]) -> Result<i64, AllocError>
    ensures len { IfOk result (λ n. n ≡ pos (length (text_of changeset.now))) }
    ensures ok { OnOk result (out.new ≡ given (text_of changeset.now) out.old) }
    ensures err { OnErr result (out.new ≡ out.old) }
{
    let len = write_to(alloc, changeset, out)?;
    // no memory holds a longer text
    i64::try_from(len).map_err(|_| AllocError)
}

/// What is known of an entry beside its text. Sets `about` and returns 0, or returns -16 if no
/// entry has this number.
#[unsafe(no_mangle)]
pub extern "C" fn broker_entry(
    alloc: Global,
    broker: &mut Handle,
    entry: u64,
    about: &mut About,
) -> i32
    ensures { ReadsAbout result entry broker.old broker.new about.old about.new }
{
    told!(alloc, broker, |world| about_into(&world, entry, about))
}

fn about_into(world: &World, number: u64, about: &mut About) -> i32
    ensures { IsAboutOf result (entry_of world.now number) about.old about.new }
{
    let Some(entry) = world.entry(number) else {
        return NOT_PLACED;
    };
    *about = about_of(entry);
    0
}

fn about_of(entry: &Entry) -> About
    ensures { result ≡ texts.about_of entry.now }
{
    About {
        publisher: entry.publisher(),
        own: entry.own(),
        withdraws: withdrawn_by(entry.origin()),
    }
}

fn withdrawn_by(origin: Origin) -> u64
    ensures { result ≡ texts.withdraws_of origin }
{
    match origin {
        Origin::Sent => 0,
        Origin::Withdraws(number) => number,
    }
}

/// The last number placed. Sets `entry` to it, or to 0 if there is none, and returns 0.
#[unsafe(no_mangle)]
pub extern "C" fn broker_front(alloc: Global, broker: &mut Handle, entry: &mut u64) -> i32
    ensures { ReadsFront result broker.old broker.new entry.old entry.new }
{
    told!(alloc, broker, |world| {
        *entry = world.front();
        0
    })
}

/// How many changesets are sent and not placed. Sets `count` to it and returns 0.
#[unsafe(no_mangle)]
pub extern "C" fn broker_left(alloc: Global, broker: &mut Handle, count: &mut u64) -> i32
    ensures { ReadsLeft result broker.old broker.new count.old count.new }
{
    told!(alloc, broker, |world| {
        *count = world.left();
        0
    })
}

/// The last number that a subscription has accepted. Sets `cursor` to it and returns 0, or returns
/// -30 for an unknown subscription.
#[unsafe(no_mangle)]
pub extern "C" fn broker_cursor(
    alloc: Global,
    broker: &mut Handle,
    subscription: u64,
    cursor: &mut u64,
) -> i32
    ensures { ReadsCursor result subscription broker.old broker.new cursor.old cursor.new }
{
    told!(
        alloc,
        broker,
        |world| cursor_into(&world, subscription, cursor)
    )
}

/// What is known of a subscription, as C gets it: `rb_core::SubscriptionStatus` says what each
/// field is.
#[derive(Clone, Copy)]
#[repr(C)]
pub struct Standing {
    pub start: u64,
    pub floor: u64,
    pub cursor: u64,
    pub offered: u64,
    pub link: u64,
    pub ready: u64,
    pub in_flight: u64,
    pub front: u64,
    pub closed: bool,
    pub fallen: bool,
}

/// How far a subscription has come. Sets `status` and returns 0, or returns -30 for an unknown
/// subscription.
#[unsafe(no_mangle)]
pub extern "C" fn broker_status(
    alloc: Global,
    broker: &mut Handle,
    subscription: u64,
    status: &mut Standing,
) -> i32
    ensures { ReadsStatus result subscription broker.old broker.new status.old status.new }
{
    told!(
        alloc,
        broker,
        |world| status_into(&world, subscription, status)
    )
}

fn status_into(world: &World, subscription: u64, status: &mut Standing) -> i32
    ensures { IsStatusOf result (subscription_status world.now subscription) status.old status.new }
{
    match world.status(subscription) {
        Some(found) => {
            *status = status_for_c(found);
            0
        }
        None => NO_SUCH,
    }
}

fn status_for_c(q: SubscriptionStatus) -> Standing
    ensures { result ≡ texts.status_for_c q }
{
    Standing {
        start: q.start,
        floor: q.floor,
        cursor: q.cursor,
        offered: q.offered,
        link: q.link,
        ready: q.ready,
        in_flight: q.in_flight,
        front: q.front,
        closed: q.closed,
        fallen: q.fallen,
    }
}

fn cursor_into(world: &World, subscription: u64, cursor: &mut u64) -> i32
    ensures { IsCursorOf result (texts.cursor_in world.now subscription) cursor.old cursor.new }
{
    match world.cursor(subscription) {
        Some(found) => {
            *cursor = found;
            0
        }
        None => NO_SUCH,
    }
}
