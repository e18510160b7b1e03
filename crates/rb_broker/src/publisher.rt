//! `Publisher`: a stream of bytes that becomes staged changesets, and their way into the intake.

ghost use Rattle.std.specs.Prelude.{◌≡◌, ◌<◌, ◌++◌, ◌∷◌, [], suc, length, false, None, Some, Err};
ghost use Rattle.std.specs.Prelude.{IsOk, IfOk, IfErr, IfNone, IfSome, OnOk, OnErr};
ghost use Rattle.cs_model.specs.Changeset.{AgreeOnShapes, most_bytes};
ghost use Rattle.cs_model.specs.declared.origin.Origin.TheVariants.{Withdraws};
ghost use Rattle.cs_parse.specs.End.{admitted_answer, left_by};
ghost use Rattle.cs_parse.specs.Progress.{FeedAnswers, advanced, answer_at_end, nothing};
ghost use Rattle.cs_parse.specs.declared.fault.FaultKind.TheVariants.{TooLong};
ghost use Rattle.cs_parse.specs.declared.fault.ParseFault.{ParseFault};
ghost use Rattle.rb_broker.specs.Publishers.{item_of};
ghost use Rattle.rb_broker.specs.Refusing.{EndsWith, KeepsClosing, RefusesWithdrawal, SendsNothing};
ghost use Rattle.rb_broker.specs.Refusing.{has_number, with_number};
ghost use Rattle.rb_sequence.specs.Cells.{IsLastToken, LastToken};

use crate::brand::BrokerBrand;
use crate::broker::Broker;
use crate::refusal::{RefusedSend, WithdrawError};
use crate::staged::StagedSet;
use cs_group::laws::{admitted_agree, agreeing_never_clash};
use cs_invert::withdrawal_agreeing;
use cs_model::{Changeset, Origin, Schema};
use cs_parse::{EndError, ParseError, PieceParser};
use rb_intake::PublisherPass;
use rb_sequence::{Item, Sequence, ToldLast};
use std::alloc::Global;
use std::collections::BTreeSet;
use std::marker::{Model, PhantomData};
use std::sync::{Arc, Wait};

/// A publisher of a broker. It is of one thread at a time.
#[derive(Drop)]
pub struct Publisher<L: BrokerBrand> {
    pub(crate) schema: Arc<Schema>,
    pub(crate) stream: PieceParser,
    pub(crate) pass: PublisherPass,
    pub(crate) withdrawn: BTreeSet<u64>,
    // shows that the sequence is closed, once a sending found it so
    pub(crate) closing: Option<ToldLast>,
    pub(crate) of: PhantomData<L>,
}

impl<L: BrokerBrand> Model for Publisher<L> {
    ghost use Rattle.std.specs.Prelude.{◌≡◌, IfSome};
    ghost use Rattle.std.specs.Arc.{arc_value};
    ghost use Rattle.rb_broker.specs.Publishers.{PublisherView};
    ghost use Rattle.rb_sequence.specs.Cells.{IsLastToken};

    ghost Value = { PublisherView };

    ghost view = { λ p. record {
      number = p.pass.publisher;
      schema = arc_value p.schema;
      stream = p.stream;
      sent = p.pass.sent;
      withdrawn = p.withdrawn.keys;
      closing = p.closing;
    } };

    ghost invariant = { λ p. (p.pass.queue ≡ L.queue) × IfSome p.closing (IsLastToken L.cells) };
}

impl<L: BrokerBrand> Publisher<L> {
    /// Its number, from 0.
    pub fn number(&self) -> u64
        ensures { result ≡ self.now.number }
    {
        self.pass.publisher()
    }

    /// How many sets it sent.
    pub fn sent(&self) -> u64
        ensures { result ≡ length self.now.sent }
    {
        self.pass.sent()
    }

    /// Its pass, for the end of the broker. It sends nothing more.
    pub fn into_pass(self) -> PublisherPass
        ensures { result ≡ record {
          queue = L.queue;
          publisher = self.number;
          sent = self.sent;
        } }
    {
        self.pass
    }

    /// Feeds the next piece of a changeset. Any cut is fine.
    ///
    /// Returns `Fault` with the piece that contains a fault's byte, and for each later piece until
    /// `reset`. `Memory` does not change the stream, and never comes after a fault. It comes in
    /// place of a fault only if an item is incomplete.
    pub fn feed(&mut self, alloc: Global, piece: &[u8]) -> Result<(), ParseError>
        ensures stream { FeedAnswers result self.old.stream piece.now self.new.stream }
        ensures same { self.new ≡ record self.old { stream = self.new.stream } }
        // If the stream has a fault, the call returns it.
        ensures lasts { (fault : ParseFault) → self.old.stream.fault ≡ Some fault
            → result ≡ Err (ParseError.Fault fault) }
        // An empty piece needs no memory.
        ensures empty { piece.now ≡ [] → self.old.stream.fault ≡ None → IsOk result }
        // Nor does the fault of a piece after the most bytes that a changeset may have.
        ensures full { self.old.stream.offset ≡ most_bytes → self.old.stream.fault ≡ None
            → 0 < length piece.now
            → result ≡ Err (ParseError.Fault (record { at = most_bytes; kind = TooLong })) }
        // Where no item is incomplete, memory hides no fault.
        ensures memory { result ≡ Err ParseError.Memory → self.old.stream.pending ≡ []
            → (advanced self.old.stream piece.now).fault ≡ None }
    {
        self.stream.feed(alloc, piece)
    }

    /// Empties the stream.
    pub fn reset(&mut self, alloc: Global)
        ensures { self.new ≡ record self.old { stream = nothing } }
    {
        self.stream = PieceParser::new(alloc);
    }

    /// Ends the stream. If the broker's tables admit the changeset that it spells, stages it and
    /// begins an empty stream. Does not allocate.
    ///
    /// Returns the stream's fault, or the first section that the tables refuse. The stream stays
    /// then.
    pub fn end(&mut self, alloc: Global) -> Result<StagedSet<L>, EndError>
        ensures answer { EndsWith self.old.number result (admitted_answer self.old.schema
            (answer_at_end self.old.stream)) }
        ensures left { self.new ≡ record self.old {
          stream = left_by (admitted_answer self.old.schema (answer_at_end self.old.stream))
              self.old.stream;
        } }
    {
        let body = ended(alloc, &mut self.stream, &self.schema)?;
        Ok(StagedSet {
            publisher: self.pass.publisher(),
            origin: Origin::Sent,
            body,
            withdraws: None,
            of: PhantomData,
        })
    }

    /// Sends a set that this publisher staged: it waits in the intake. Returns its number among the
    /// publisher's sendings, from 1.
    ///
    /// Refuses `Closed` if the sequence is closed, and `Full` if the intake is full. Both hand the
    /// set back. After `Closed`, each later call refuses so.
    pub fn send<R: Wait>(
        &mut self,
        rt: &R,
        broker: &Broker<L>,
        set: StagedSet<L>,
    ) -> Result<u64, RefusedSend<L>>
        requires { set.publisher ≡ self.old.number }
        ensures own { IfOk result (λ own. own ≡ suc (length self.old.sent)) }
        ensures ok { IfOk result (λ own. self.new
            ≡ record self.old { sent = self.old.sent ++ item_of set own ∷ [] }) }
        ensures err { IfErr result (KeepsClosing self.old self.new) }
        ensures back { IfErr result (SendsNothing L.cells set) }
        // Once it answered `Closed`, it does so for good.
        ensures lasts { (told : LastToken) → self.old.closing ≡ Some told
            → result ≡ Err (RefusedSend.Closed told set) }
    {
        if let Some(last) = self.find_closing(broker) {
            return Err(RefusedSend::Closed(last, set));
        }
        // 2^64 sendings never happen
        let Some(own) = self.pass.sent().checked_add(1) else {
            return Err(RefusedSend::Full(set));
        };
        let StagedSet {
            publisher,
            origin,
            body,
            withdraws,
            of,
        } = set;
        let item = Item::new(publisher, own, origin, body);
        match broker.intake.push(rt, &mut self.pass, item) {
            Ok(()) => Ok(own),
            Err(item) => Err(RefusedSend::Full(StagedSet {
                publisher,
                origin,
                body: item.into_body(),
                withdraws,
                of,
            })),
        }
    }

    // a token of the closing cell, if it is set; the publisher keeps one too
    fn find_closing(&mut self, broker: &Broker<L>) -> Option<ToldLast>
        ensures some { IfSome result (λ told. IsLastToken L.cells told
            × (self.new ≡ record self.old { closing = Some told })) }
        ensures none { IfNone result (self.new ≡ self.old) }
        ensures lasts { (told : LastToken) → self.old.closing ≡ Some told → result ≡ Some told }
    {
        if self.closing.is_none() {
            self.closing = broker.sequence().closing();
        }
        match &self.closing {
            Some(told) => Some(told.again()),
            None => None,
        }
    }

    /// Stages the withdrawal of entry `number`, which this publisher sent.
    ///
    /// Refuses, in this order, `NotPlaced` if the entry's cell shows nothing, `NotYours`, and
    /// `AlreadyWithdrawn` if an earlier call withdrew the entry. All but `NotPlaced` hand out a
    /// token that shows the entry.
    pub fn withdraw(
        &mut self,
        alloc: Global,
        sequence: &Sequence,
        number: u64,
    ) -> Result<StagedSet<L>, WithdrawError>
        requires { sequence.now ≡ L.cells }
        ensures set { IfOk result (λ set. (set.publisher ≡ self.old.number)
            × (set.origin ≡ Withdraws number)) }
        ensures ok { OnOk result (self.new
            ≡ record self.old { withdrawn = with_number number self.old.withdrawn }) }
        ensures err { OnErr result (self.new ≡ self.old) }
        ensures once { OnOk result (has_number number self.old.withdrawn ≡ false) }
        ensures why { IfErr result (RefusesWithdrawal L.cells self.old.number self.old.withdrawn
            number) }
    {
        agreeing_never_clash();
        let told = sequence.tell(number).ok_or(WithdrawError::NotPlaced)?;
        let entry = sequence.get_told(&told);
        if entry.publisher() != self.pass.publisher() {
            return Err(WithdrawError::NotYours(told));
        }
        if self.withdrawn.contains(&number) {
            return Err(WithdrawError::AlreadyWithdrawn(told));
        }
        let Ok(body) = withdrawal_agreeing(alloc, entry.body()) else {
            return Err(WithdrawError::Memory(told));
        };
        if self.withdrawn.insert(number).is_err() {
            return Err(WithdrawError::Memory(told));
        }
        Ok(StagedSet {
            publisher: self.pass.publisher(),
            origin: Origin::Withdraws(number),
            body,
            withdraws: Some(told),
            of: PhantomData,
        })
    }
}

// The changeset that a stream ends with, if the schema admits it. Sections of one name in it have
// one shape then.
fn ended(alloc: Global, stream: &mut PieceParser, schema: &Schema) -> Result<Changeset, EndError>
    ensures answer { result ≡ admitted_answer schema.now (answer_at_end stream.old) }
    ensures left { stream.new ≡ left_by result stream.old }
    ensures agrees { IfOk result (λ body. AgreeOnShapes body) }
{
    admitted_agree();
    // for what its clause says: the tables are a schema
    let _tables = schema.tables();
    stream.end(alloc, schema)
}
