//! A publisher's thread: feeds the changesets of its lines, and sends those that are right.

ghost use Rattle.std.specs.Prelude.{◌≡◌, ◌++◌, ◌∷◌, [], ◌<◌, ◌≤◌, suc, length, take, vec_len};
ghost use Rattle.std.specs.Prelude.{IsTrue};
ghost use Rattle.std.specs.Prelude.{IsFalse, IfErr, IfOk, OnOk};
ghost use Rattle.cs_model.specs.Bytes.{AreBytes};
ghost use Rattle.cs_parse.specs.Progress.{nothing, progress_of};
ghost use Rattle.rb_broker.specs.Publishers.{item_of};
ghost use Rattle.rb_broker.specs.Refusing.{EndsWith};
ghost use Rattle.rb_drive.specs.Owners.{publisher_lines};
ghost use Rattle.rb_drive.specs.Published.{faulty_lines, given_answer, given_bodies};
ghost use Rattle.rb_drive.specs.Published.{sent_bodies};
ghost use Rattle.rb_drive.specs.Staging.{FeedStops};

use crate::input::Given;
use crate::signs::Signs;
use cs_parse::laws::{progress_goes_on, progress_tells};
use cs_parse::{EndError, ParseError};
use rb_broker::{Broker, BrokerBrand, Publisher, RefusedSend, StagedSet};
use std::alloc::{AllocError, Global};
use std::sync::Wait;

// how many bytes are fed at once
const PIECE: usize = 1_024;

/// A line whose changeset isn't sent, and what is wrong with it.
#[derive(Clone, Copy, Debug, PartialEq, Eq)]
pub struct FaultyLine {
    pub line: u64,
    pub publisher: u64,
    pub why: EndError,
}

/// A publisher with its lines. It sent the changesets of those that are done, in their order, and
/// nothing else.
#[derive(Drop)]
pub struct Publishing<L: BrokerBrand> {
    pub publisher: Publisher<L>,
    pub lines: Vec<Given>,
    /// How many of the lines were sent or are faulty.
    pub done: usize,
    pub faulty: Vec<FaultyLine>,
    ghost done_within: { done ≤ vec_len lines },
    ghost done_sent: { publisher.sent ≡ sent_bodies publisher.number 1
        (given_bodies publisher.schema (take done lines.items)) },
    ghost done_faulty: { faulty.items ≡ faulty_lines publisher.schema (take done lines.items) },
}

impl<L: BrokerBrand> Publishing<L> {
    /// A publisher that has sent nothing.
    pub fn new(alloc: Global, publisher: Publisher<L>, lines: Vec<Given>) -> Publishing<L>
        requires { publisher.sent ≡ [] }
        ensures { publisher_lines result.publisher result.lines.items
            ≡ publisher_lines publisher lines.items }
    {
        Publishing {
            publisher,
            lines,
            done: 0,
            faulty: Vec::new(alloc),
        }
    }

    /// Sends the changesets of the lines, until the sequence is closed or all loops end. Passes
    /// over faulty lines.
    pub fn publish<R: Wait>(
        &mut self,
        rt: &R,
        alloc: Global,
        broker: &Broker<L>,
        signs: &Signs,
    ) -> Result<(), AllocError>
        ensures { publisher_lines self.new.publisher self.new.lines.items
            ≡ publisher_lines self.old.publisher self.old.lines.items }
    {
        while self.done < self.lines.len() {
            if !self.publish_next(rt, alloc, broker, signs)? {
                return Ok(());
            }
        }
        Ok(())
    }

    // Sends the changeset of the next line, or passes over the line if it is faulty. False if the
    // sequence is closed or all loops end.
    fn publish_next<R: Wait>(
        &mut self,
        rt: &R,
        alloc: Global,
        broker: &Broker<L>,
        signs: &Signs,
    ) -> Result<bool, AllocError>
        requires { self.old.done < vec_len self.old.lines }
        ensures lines { publisher_lines self.new.publisher self.new.lines.items
            ≡ publisher_lines self.old.publisher self.old.lines.items }
        ensures more { IfOk result (λ more. IsTrue more → self.new.done ≡ suc self.old.done) }
    {
        let given = &self.lines[self.done];
        let (line, publisher) = (given.line, given.publisher);
        match stage(alloc, &mut self.publisher, &given.text)? {
            Ok(set) => {
                if !send(rt, broker, signs, &mut self.publisher, set) {
                    return Ok(false);
                }
            }
            Err(why) => self.faulty.push(FaultyLine {
                line,
                publisher,
                why,
            })?,
        }
        self.done += 1;
        Ok(true)
    }
}

// stages the changeset that these bytes encode, or says why there is none that can be sent
fn stage<L: BrokerBrand>(
    alloc: Global,
    publisher: &mut Publisher<L>,
    text: &[u8],
) -> Result<Result<StagedSet<L>, EndError>, AllocError>
    ensures staged { IfOk result (λ staged. EndsWith publisher.old.number staged
        (given_answer publisher.old.schema text.now)) }
    ensures same { publisher.new ≡ record publisher.old { stream = publisher.new.stream } }
{
    progress_tells();
    are_bytes(text);
    publisher.reset(alloc);
    match feed(alloc, publisher, text) {
        Ok(()) => Ok(publisher.end(alloc)),
        Err(ParseError::Fault(fault)) => Ok(Err(EndError::Fault(fault))),
        Err(ParseError::Memory) => Err(AllocError),
    }
}

// feeds bytes to an empty stream, up to a fault
fn feed<L: BrokerBrand>(
    alloc: Global,
    publisher: &mut Publisher<L>,
    text: &[u8],
) -> Result<(), ParseError>
    requires { publisher.old.stream ≡ nothing }
    ensures ok { OnOk result (publisher.new.stream ≡ progress_of text.now) }
    ensures err { IfErr result (FeedStops text.now) }
    ensures same { publisher.new ≡ record publisher.old { stream = publisher.new.stream } }
{
    progress_tells();
    progress_goes_on();
    are_bytes(text);
    for piece in text.chunks(PIECE) {
        publisher.feed(alloc, piece)?;
    }
    Ok(())
}

// The type says that these are bytes.
fn are_bytes(bytes: &[u8])
    ensures { AreBytes bytes.now }
{}

// Sends a set, as often as the intake is full. False if the sequence is closed or all loops end.
fn send<L: BrokerBrand, R: Wait>(
    rt: &R,
    broker: &Broker<L>,
    signs: &Signs,
    publisher: &mut Publisher<L>,
    set: StagedSet<L>,
) -> bool
    requires { set.publisher ≡ publisher.old.number }
    ensures sent { IsTrue result → publisher.new ≡ record publisher.old {
      sent = publisher.old.sent ++ item_of set (suc (length publisher.old.sent)) ∷ [];
    } }
    ensures not { IsFalse result
        → publisher.new ≡ record publisher.old { closing = publisher.new.closing } }
{
    let mut set = set;
    let mut looks: u64 = 0;
    for _ in rt.forever() {
        let seen = signs.pulled.rings();
        match publisher.send(rt, broker, set) {
            Ok(_) => {
                signs.sent.ring();
                return true;
            }
            Err(RefusedSend::Full(back)) => {
                if signs.is_stopped() {
                    return false;
                }
                set = back;
                signs.pulled.wait(rt, seen, looks);
                looks = looks.saturating_add(1);
            }
            Err(RefusedSend::Closed(_, _)) => return false,
        }
    }
    unreachable!()
}
