//! `Shown`: what the cells showed of a delivery; the entries that tokens show, each in its cell;
//! and how tokens are fetched.

ghost use Rattle.std.specs.Prelude.{◌≡◌, ◌≤◌, ◌+◌, ◌-◌, ◌++◌, [], suc, length, IfOk, IfErr, IfSome};
ghost use Rattle.std.specs.Prelude.{◌<◌, ◌^◌, ℕ};
ghost use Rattle.std.specs.Vec.{vec_capacity, vec_len};
ghost use Rattle.rb_sequence.specs.Cells.{AreInCells};
ghost use Rattle.rb_subscriber.specs.AcceptShown.{LookAnswers};
ghost use Rattle.rb_subscriber.specs.Shown.{AreTokens, ShowDelivery, entries_told};
ghost use Rattle.rb_subscriber.specs.declared.refusal.SubscriptionError.TheVariants as error;
ghost use Rattle.rb_subscriber.specs.declared.shown.Shown.TheVariants as shown;

use crate::brought::Brought;
use crate::look::look;
use crate::refusal::SubscriptionError;
use cs_model::Schema;
use rb_desk::Delivery;
use rb_sequence::{Entry, Sequence, Sight, Told};
use std::alloc::Global;
use std::fmt;

/// What the cells showed of a delivery: the entries of its numbers, from the first one on.
#[derive(Drop)]
pub enum Shown {
    /// The tokens of the entries.
    Held(Vec<Told>),
    /// There was no memory for the tokens. Clauses see what was seen.
    Seen(Sight),
}

impl fmt::Debug for Shown {
    fn fmt<W: fmt::Write>(&self, f: &mut fmt::Formatter<W>) -> fmt::Result {
        let held = match self {
            Shown::Held(told) => Some(told.len()),
            Shown::Seen(_) => None,
        };
        f.debug_struct("Shown")
            .field("held", &held)
            .finish_non_exhaustive()
    }
}

/// The entries that tokens of a sequence show, as `combined` takes them.
#[derive(Drop)]
pub struct ShownEntries<'a> {
    pub(crate) sequence: &'a Sequence,
    pub(crate) told: &'a [Told],
    ghost tokens: { AreTokens sequence.now told.now },
}

impl<'a> ShownEntries<'a> {
    /// The entries of these tokens, whose numbers follow each other.
    pub fn new(sequence: &'a Sequence, told: &'a [Told]) -> ShownEntries<'a>
        requires { (first : ℕ) × AreInCells sequence.now first told.now }
        ensures { result.told.now ≡ told.now }
    {
        ShownEntries { sequence, told }
    }
}

impl<'a> Brought for ShownEntries<'a> {
    ghost entries = { λ shown. entries_told shown.told.now };

    fn count(&self) -> usize {
        self.told.len()
    }

    fn entry(&self, index: usize) -> &Entry {
        self.sequence.get_told(&self.told[index])
    }
}

/// The tokens of a delivery's entries, and room for them behind those that are kept. Or why there
/// are none: `Unseen`, and out of memory, which hides no `Unseen` and no `Shape`.
pub(crate) fn tokens_of(
    alloc: Global,
    sequence: &Sequence,
    told: &mut Vec<Told>,
    schema: &Schema,
    delivery: &Delivery,
) -> Result<Vec<Told>, SubscriptionError>
    requires { (1 ≤ delivery.now.first) × (delivery.now.first ≤ delivery.now.last) }
    ensures same { told.new.items ≡ told.old.items }
    ensures ok { IfOk result (λ shown. ShowDelivery sequence.now delivery.now shown.items) }
    ensures room { IfOk result (λ shown.
        vec_len told.new + vec_len shown ≤ vec_capacity told.new) }
    ensures err { IfErr result (LookAnswers sequence.now delivery.now schema.now) }
    ensures range { delivery.now.last < 2 ^ 64 }
{
    let (first, last) = (delivery.first(), delivery.last());
    let count = (last - first + 1) as usize;
    let Some(room) = room(alloc, told, count) else {
        return Err(look(sequence, schema, delivery));
    };
    match fetch(sequence, room, first, last) {
        Ok(shown) => Ok(shown),
        Err(before) => Err(unseen(first, before)),
    }
}

// the cell after these, the first of which has this number, showed nothing
fn unseen(first: u64, before: Vec<Told>) -> SubscriptionError
    requires { first + vec_len before < 2 ^ 64 }
    ensures { result ≡ error.Unseen (first + length before.items) (shown.Held before) }
{
    let number = first + before.len() as u64;
    let shown = Shown::Held(before);
    SubscriptionError::Unseen { number, shown }
}

// Tokens of the cells with these numbers, put into this room; or those of the first ones, after
// which a cell shows nothing. Does not allocate.
fn fetch(
    sequence: &Sequence,
    room: Vec<Told>,
    first: u64,
    last: u64,
) -> Result<Vec<Told>, Vec<Told>>
    requires order { (1 ≤ first) × (first ≤ last) }
    requires room { (room.items ≡ []) × (suc last - first ≤ vec_capacity room) }
    ensures ok { IfOk result (λ shown. AreInCells sequence.now first shown.items
        × (length shown.items ≡ suc last - first) × (vec_len shown ≡ suc last - first)) }
    ensures err { IfErr result (λ before. AreInCells sequence.now first before.items
        × (first + length before.items ≤ last) × (length before.items ≡ vec_len before)) }
{
    let mut shown = room;
    for past in 0..last - (first - 1) {
        let number = first + past;
        let Some(told) = sequence.tell(number) else {
            return Err(shown);
        };
        shown.push_reserved(told);
    }
    Ok(shown)
}

// Room for so many tokens more, in a list of its own and behind those that are kept; or nothing if
// memory runs out.
fn room(alloc: Global, told: &mut Vec<Told>, count: usize) -> Option<Vec<Told>>
    ensures same { told.new.items ≡ told.old.items }
    ensures room { IfSome result (λ room. (room.items ≡ []) × (count ≤ vec_capacity room)
        × (vec_len told.new + count ≤ vec_capacity told.new)) }
{
    told.reserve(count).ok()?;
    Vec::with_capacity(alloc, count).ok()
}

/// Adds tokens where there is room for them.
pub(crate) fn add(told: &mut Vec<Told>, shown: Vec<Told>)
    requires { vec_len told.old + vec_len shown ≤ vec_capacity told.old }
    ensures { told.new.items ≡ told.old.items ++ shown.items }
{
    let mut shown = shown;
    let _added = told.append(&mut shown);
}
