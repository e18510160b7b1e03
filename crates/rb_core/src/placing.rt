//! Placing a whole changeset in one call.

ghost use Rattle.std.specs.Prelude.{◌≡◌, suc, length, Err, Some, IfErr, IfOk, IsOk, IsSome};
ghost use Rattle.std.specs.Prelude.{slice_get};
ghost use Rattle.cs_parse.specs.End.{admitted_answer};
ghost use Rattle.cs_parse.specs.Progress.{answer_at_end};
ghost use Rattle.rb_core.specs.Placing.{EndsWhole, FeedsWhole, AnswersPlacing, PlacesItem};
ghost use Rattle.rb_core.specs.Placing.{placed_with, stop_of};
ghost use Rattle.rb_core.specs.Publishing.{end_reply};
ghost use Rattle.rb_core.specs.State.{IsWorld};
ghost use Rattle.rb_desk.specs.Calls.{prepare};
ghost use Rattle.rb_desk.specs.Journaled.{answer_after};

use crate::parts::Parts;
use crate::publisher::{PublisherState, Staged};
use crate::publishing::{end_of, item_of, section_refusal};
use crate::reply::BrokerRefusal;
use crate::sequencing::make_room;
use cs_model::{Changeset, Origin, Schema};
use cs_parse::{EndError, ParseError, ParseFault, PieceParser};
use rb_sequence::{Entry, Item};
use std::alloc::Global;
use thiserror::Error;

/// Why `World::place` places nothing. If several apply, it is the first: that there is no such
/// publisher, then `Waiting`, then the fault and the refusals in the order of the events `Feed`,
/// `End`, `Send` and `Turn`.
#[derive(Clone, Copy, Debug, PartialEq, Eq, Error)]
pub enum PlacingRefusal {
    /// Other changesets wait to be placed, this many. `Turn` places them.
    #[error("{0} changesets wait to be placed")]
    Waiting(u64),
    /// The text spells no changeset: its first fault.
    #[error("{0}")]
    Fault(ParseFault),
    /// An event is refused, as `World::step` would refuse it.
    #[error(transparent)]
    Refused(BrokerRefusal),
}

/// Why `World::place` places nothing, or that memory ran out.
#[derive(Clone, Copy, Debug, PartialEq, Eq, Error)]
pub enum PlacingError {
    /// The publisher's stream is reset. Nothing else changes.
    #[error(transparent)]
    Refused(PlacingRefusal),
    /// Memory ran out. Nothing changes.
    #[error("out of memory")]
    Memory,
}

impl Parts {
    /// Places a whole changeset: resets the publisher's stream, feeds, ends and sends the text, and
    /// places it.
    pub(crate) fn place(
        &mut self,
        alloc: Global,
        publisher: u64,
        text: &[u8],
    ) -> Result<u64, PlacingError>
        requires { IsWorld self.old }
        ensures { AnswersPlacing result self.old publisher text.now self.new }
    {
        if publisher as usize >= self.publishers.len() {
            return refused(BrokerRefusal::NoPublisher);
        }
        match self.whole_item(alloc, publisher, text) {
            Ok(item) => self.place_item(alloc, publisher, item),
            Err(PlacingError::Memory) => Err(PlacingError::Memory),
            Err(PlacingError::Refused(why)) => {
                self.reset(alloc, publisher);
                Err(PlacingError::Refused(why))
            }
        }
    }

    // The item that is placed of this text, if nothing refuses it. What events would do one after
    // another is done on a stream of its own, so that nothing is to be taken back.
    fn whole_item(&self, alloc: Global, publisher: u64, text: &[u8]) -> Result<Item, PlacingError>
        requires world { IsWorld self.now }
        requires there { IsSome (slice_get self.now.publishers publisher) }
        ensures { PlacesItem result self.now publisher text.now }
    {
        let waiting = self.left();
        if waiting > 0 {
            return Err(PlacingError::Refused(PlacingRefusal::Waiting(waiting)));
        }
        let mut stream = fed(alloc, text)?;
        let found = &self.publishers[publisher as usize];
        if found.staged.is_some() {
            return refused(BrokerRefusal::Holding);
        }
        let body = ended(alloc, &mut stream, &self.schema)?;
        if self.desk.closing().is_some() {
            return refused(BrokerRefusal::Closed);
        }
        if let Err(why) = self.desk.prepare() {
            return refused(BrokerRefusal::Desk(why));
        }
        // 2^64 sendings never happen
        let own = found.sent.checked_add(1).ok_or(PlacingError::Memory)?;
        let origin = Origin::Sent;
        Ok(item_of(&self.schema, publisher, own, Staged { origin, body }))
    }

    // sends and places an item
    fn place_item(&mut self, alloc: Global, publisher: u64, item: Item) -> Result<u64, PlacingError>
        requires there { IsSome (slice_get self.old.publishers publisher) }
        requires open { IsOk (answer_after self.old.steps (prepare self.old.desk)) }
        requires front { self.old.desk.front ≡ length self.old.sequence }
        ensures ok { IfOk result (λ number. (number ≡ suc (length self.old.sequence))
            × (self.new ≡ placed_with self.old publisher item)) }
        ensures err { IfErr result (λ error.
            (error ≡ PlacingError.Memory) × (self.new ≡ self.old)) }
    {
        let form = item.form(alloc).map_err(|_| PlacingError::Memory)?;
        make_room(&mut self.sequence).map_err(|_| PlacingError::Memory)?;
        self.publishers[publisher as usize] = PublisherState {
            stream: PieceParser::new(alloc),
            staged: None,
            sent: item.own(),
        };
        let number = self.desk.place();
        self.sequence
            .push_reserved(Entry::new(alloc, number, item, form));
        Ok(number)
    }
}

fn refused<T>(why: BrokerRefusal) -> Result<T, PlacingError>
    ensures { result ≡ Err (PlacingError.Refused (PlacingRefusal.Refused why)) }
{
    Err(PlacingError::Refused(PlacingRefusal::Refused(why)))
}

// a stream that has taken the text
fn fed(alloc: Global, text: &[u8]) -> Result<PieceParser, PlacingError>
    ensures { FeedsWhole result text.now }
{
    let mut stream = PieceParser::new(alloc);
    match stream.feed(alloc, text) {
        Ok(()) => Ok(stream),
        Err(ParseError::Fault(fault)) => Err(PlacingError::Refused(PlacingRefusal::Fault(fault))),
        Err(ParseError::Memory) => Err(PlacingError::Memory),
    }
}

// the changeset that the stream spells, if the schema admits it
fn ended(
    alloc: Global,
    stream: &mut PieceParser,
    schema: &Schema,
) -> Result<Changeset, PlacingError>
    ensures { EndsWhole result (admitted_answer schema.now (answer_at_end stream.old)) }
{
    match end_of(alloc, stream, schema) {
        Ok(body) => Ok(body),
        Err(error) => Err(PlacingError::Refused(refusal_for(error))),
    }
}

// why a stream that ends with this error places nothing
fn refusal_for(error: EndError) -> PlacingRefusal
    ensures { stop_of (end_reply error) ≡ Some result }
{
    match error {
        EndError::Fault(fault) => PlacingRefusal::Fault(fault),
        EndError::Refused(fault) => PlacingRefusal::Refused(section_refusal(fault)),
    }
}
