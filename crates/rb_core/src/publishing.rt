//! Events of publishers: add, feed, reset, end, send.

ghost use Rattle.std.specs.Prelude.{◌≡◌, Some, length, slice_get, nat_le, IfOk, OnErr};
ghost use Rattle.std.specs.Prelude.{IsSome, IsSomeAnd};
ghost use Rattle.cs_parse.specs.End.{admitted_answer, left_by};
ghost use Rattle.cs_parse.specs.Progress.{answer_at_end};
ghost use Rattle.rb_core.specs.Outcome.{end_reply, fault_refusal};
ghost use Rattle.rb_core.specs.{Memory.{MayRunOut}, State.{AdmitsBody, AdmitsStaged, IsWorld}};
ghost use Rattle.rb_core.specs.Outcome as outcome;
ghost use Rattle.rb_core.specs.declared.event.Event.TheVariants as event;
ghost use Rattle.rb_core.specs.declared.publisher.PublisherState.{PublisherState};
ghost use Rattle.rb_core.specs.declared.publisher.Staged.{Staged};

use crate::parts::Parts;
use crate::publisher::{PublisherState, Staged};
use crate::reply::{BrokerRefusal, Reply};
use crate::world::refused;
use cs_group::laws::admitted_agree;
use cs_model::{Changeset, Origin, Schema, SectionFault};
use cs_parse::{EndError, ParseError, PieceParser};
use rb_sequence::Item;
use std::alloc::{AllocError, Global};

/// The most publishers of a world.
const MOST_PUBLISHERS: usize = 64;

impl Parts {
    /// Adds a publisher with an empty stream, and returns its number, from 0.
    pub(crate) fn publisher(&mut self, alloc: Global) -> Result<Reply, AllocError>
        ensures ok { IfOk result (λ reply. outcome.publisher_added self.old ≡ (reply, self.new)) }
        ensures err { OnErr result (self.new ≡ self.old) }
        ensures memory { OnErr result (MayRunOut self.old event.Publisher
            (outcome.publisher_added self.old).0) }
    {
        if self.publishers.len() >= MOST_PUBLISHERS {
            return refused(BrokerRefusal::TooMany);
        }
        let number = self.publishers.len() as u64;
        self.publishers.push(PublisherState {
            stream: PieceParser::new(alloc),
            staged: None,
            sent: 0,
        })?;
        Ok(Reply::Publisher(number))
    }

    /// Feeds the next piece of a publisher's stream. A piece with a fault returns that fault, and
    /// so does each later one until the stream is reset.
    pub(crate) fn feed(
        &mut self,
        alloc: Global,
        publisher: u64,
        bytes: &[u8],
    ) -> Result<Reply, AllocError>
        ensures ok { IfOk result (λ reply.
            outcome.fed self.old publisher bytes.now ≡ (reply, self.new)) }
        ensures err { OnErr result (self.new ≡ self.old) }
        ensures memory { OnErr result (MayRunOut self.old (event.Feed publisher bytes.now)
            (outcome.fed self.old publisher bytes.now).0) }
    {
        let p = publisher as usize;
        if p >= self.publishers.len() {
            return refused(BrokerRefusal::NoPublisher);
        }
        let found = &mut self.publishers[p];
        match found.stream.feed(alloc, bytes) {
            Ok(()) => Ok(Reply::Fed),
            Err(ParseError::Fault(fault)) => Ok(Reply::Fault(fault)),
            Err(ParseError::Memory) => Err(AllocError),
        }
    }

    /// Empties a publisher's stream; what is staged stays.
    pub(crate) fn reset(&mut self, alloc: Global, publisher: u64) -> Reply
        ensures { outcome.reset self.old publisher ≡ (result, self.new) }
    {
        let p = publisher as usize;
        if p >= self.publishers.len() {
            return Reply::Refused(BrokerRefusal::NoPublisher);
        }
        let found = &mut self.publishers[p];
        found.stream = PieceParser::new(alloc);
        Reply::Reset
    }

    /// Ends a publisher's stream. If the schema admits the changeset that it spells, stages it and
    /// begins a new stream.
    pub(crate) fn end(&mut self, alloc: Global, publisher: u64) -> Reply
        ensures { outcome.ended self.old publisher ≡ (result, self.new) }
    {
        let p = publisher as usize;
        if p >= self.publishers.len() {
            return Reply::Refused(BrokerRefusal::NoPublisher);
        }
        if self.publishers[p].staged.is_some() {
            return Reply::Refused(BrokerRefusal::Holding);
        }
        let found = &mut self.publishers[p];
        let changeset = match end_of(alloc, &mut found.stream, &self.schema) {
            Ok(changeset) => changeset,
            Err(error) => return reply_for(error),
        };
        found.staged = Some(Staged {
            origin: Origin::Sent,
            body: changeset,
        });
        Reply::Staged
    }

    /// Moves what a publisher staged to the end of the intake, under that publisher's next number.
    pub(crate) fn send(&mut self, publisher: u64) -> Result<Reply, AllocError>
        requires { IsWorld self.old }
        ensures ok { IfOk result (λ reply. outcome.sent self.old publisher ≡ (reply, self.new)) }
        ensures err { OnErr result (self.new ≡ self.old) }
        ensures memory { OnErr result (MayRunOut self.old (event.Send publisher)
            (outcome.sent self.old publisher).0) }
    {
        let p = publisher as usize;
        if p >= self.publishers.len() {
            return refused(BrokerRefusal::NoPublisher);
        }
        if self.publishers[p].staged.is_none() {
            return refused(BrokerRefusal::NothingStaged);
        }
        if self.desk.closing().is_some() {
            return refused(BrokerRefusal::Closed);
        }
        if self.is_full() {
            return refused(BrokerRefusal::Full);
        }
        self.queue(publisher)
    }

    // whether the intake is full
    fn is_full(&self) -> bool
        ensures { result ≡ nat_le self.now.desk.limits.intake (length self.now.intake) }
    {
        self.desk.config().intake() <= self.intake.len() as u64
    }

    // sends what a publisher has staged
    fn queue(&mut self, publisher: u64) -> Result<Reply, AllocError>
        requires { IsSomeAnd (slice_get self.old.publishers publisher)
            (λ found. IsSome found.staged × AdmitsStaged self.old.schema found) }
        ensures ok { IfOk result (λ reply. (found : PublisherState) (staged : Staged)
            → slice_get self.old.publishers publisher ≡ Some found → found.staged ≡ Some staged
            → outcome.sent_item self.old publisher found staged ≡ (reply, self.new)) }
        ensures err { OnErr result (self.new ≡ self.old) }
    {
        let p = publisher as usize;
        // 2^64 sendings never happen
        let own = self.publishers[p].sent.checked_add(1).ok_or(AllocError)?;
        self.intake.reserve(1)?;
        let found = &mut self.publishers[p];
        let staged = found.staged.take().unwrap();
        found.sent = own;
        let item = item_of(&self.schema, publisher, own, staged);
        self.intake.push_back(item)?;
        Ok(Reply::Sent(own))
    }
}

/// The item of what a publisher staged. The schema admits it, so sections of one name have one
/// shape.
pub(crate) fn item_of(schema: &Schema, publisher: u64, own: u64, staged: Staged) -> Item
    requires { AdmitsBody schema.now staged.body }
    ensures { result ≡ record {
      publisher = publisher;
      own = own;
      origin = staged.origin;
      body = staged.body;
    } }
{
    admitted_agree();
    // for what its clause says: the tables are a schema
    let _tables = schema.tables();
    Item::new(publisher, own, staged.origin, staged.body)
}

/// The changeset that a stream ends with, if the schema admits it.
pub(crate) fn end_of(
    alloc: Global,
    stream: &mut PieceParser,
    schema: &Schema,
) -> Result<Changeset, EndError>
    ensures answer { result ≡ admitted_answer schema.now (answer_at_end stream.old) }
    ensures left { stream.new ≡ left_by result stream.old }
{
    stream.end(alloc, schema)
}

// the reply of `end` to this error
fn reply_for(error: EndError) -> Reply
    ensures { result ≡ end_reply error }
{
    match error {
        EndError::Fault(fault) => Reply::Fault(fault),
        EndError::Refused(fault) => Reply::Refused(section_refusal(fault)),
    }
}

/// The refusal for a section that the schema refuses.
pub(crate) fn section_refusal(fault: SectionFault) -> BrokerRefusal
    ensures { result ≡ fault_refusal fault }
{
    match fault {
        SectionFault::UnknownTable(i) => BrokerRefusal::UnknownTable(i as u64),
        SectionFault::ShapeDiffers(i) => BrokerRefusal::ShapeDiffers(i as u64),
    }
}
