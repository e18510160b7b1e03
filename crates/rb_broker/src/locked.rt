//! What the broker's lock holds: the desk, what sets the cells of the sequence, the register of the
//! subscriptions, and the history.

ghost use Rattle.std.specs.Prelude.{◌≡◌, ◌++◌, Err, IsSome, Some, length};
ghost use Rattle.rb_desk.specs.Journaled.{counted_steps, is_own};
ghost use Rattle.std.proofs.Props.{props};
ghost use Rattle.rb_sequence.specs.Cells.{HasCell, IsReadyFor};
ghost use Rattle.rb_desk.specs.declared.step.Step.TheVariants as step;
ghost use Rattle.rb_subscriber.specs.Owner.{OthersSince, desk_after, has_seen};
ghost use Rattle.rb_broker.specs.Holding.{AreReplays, own_step};
ghost use Rattle.rb_broker.specs.Placing.{ClosesBoth, PlacesEntry, RefusesPlace, closing_step};
ghost use Rattle.rb_broker.specs.Placing.{ShowsClosing, number_to_place};

use crate::brand::BrokerBrand;
use crate::refusal::{Occupied, PlaceError, RefusedItem};
use rb_desk::laws::{only_subscribe_and_close, steps_are_counted};
use rb_desk::{Desk, DeskRefusal, Step};
use rb_history::Chronicle;
use rb_sequence::{AlreadySet, Entry, Filler, Ready, Told, ToldLast};
use rb_subscriber::{Register, Stake};

/// The desk of a broker, the filler of its sequence, the register of its subscriptions, and the
/// history. The desk has the broker's limits, and their capacity is the sequence's. The register
/// has counted the steps that the desk's journal has of the subscriptions' own, and made as many
/// subscriptions as the desk. The history has the journal's steps, each with its owner's number,
/// and the desk is what they lead to.
#[derive(Drop)]
pub(crate) struct Locked<L: BrokerBrand> {
    pub(crate) desk: Desk,
    pub(crate) filler: Filler,
    pub(crate) register: Register<L>,
    // shows the desk's closing number, once there is one
    pub(crate) closing: Option<ToldLast>,
    pub(crate) history: Chronicle<Step>,
    ghost limits: { desk.picture.limits ≡ L.limits },
    ghost fits: { L.limits.capacity ≡ L.cells.capacity },
    ghost fills: { filler ≡ L.cells },
    ghost closes: { ShowsClosing L.cells desk.picture.closing closing } by { Prim.hlevel props },
    ghost all: { L.all ≡ 1024 },
    ghost total: { register.total ≡ counted_steps is_own desk.steps },
    ghost made: { register.made ≡ length desk.picture.subscriptions },
    ghost name: { history.name ≡ L.history },
    ghost replays: { desk ≡ desk_after L.limits history.log },
}

impl<L: BrokerBrand> Locked<L> {
    /// Sets the cell of the entry's number, and places that number: a step of the placer. Does not
    /// allocate.
    pub(crate) fn place(&mut self, placer: &mut Stake<L>, ready: Ready) -> Result<Told, RefusedItem>
        requires { IsReadyFor L.cells ready }
        ensures placed { PlacesEntry result L.cells ready.entry self.old.desk self.new.desk }
        ensures held { AreReplays L.limits self.old.desk self.old.history.log self.new.desk
            self.new.history.log }
        ensures others { OthersSince placer.old self.old.history.log }
        ensures log { self.new.history.log ≡ self.old.history.log
            ++ own_step result placer.old.number step.Place }
        ensures seen { placer.new ≡ has_seen placer.old self.new.history.log }
    {
        steps_are_counted();
        only_subscribe_and_close();
        let _steps = self.desk.steps();
        placer.catch_up(&mut self.history);
        let number = ready.number();
        match self.desk.prepare() {
            Err(why) => Err(refused(self.place_refusal(why, number), ready.into_entry())),
            Ok(next) if next != number => {
                let why = PlaceError::Occupied(Occupied::Next(next));
                Err(refused(why, ready.into_entry()))
            }
            Ok(_) => match self.filler.fill(ready) {
                Ok(told) => {
                    self.desk.place();
                    let _placed = self.desk.steps();
                    placer.append(&mut self.history, &Step::Place);
                    Ok(told)
                }
                Err(AlreadySet { entry, occupant }) => {
                    let why = PlaceError::Occupied(Occupied::Set(occupant));
                    Err(refused(why, entry))
                }
            },
        }
    }

    /// Why a number without a cell isn't placed.
    pub(crate) fn refuses(&mut self, placer: &mut Stake<L>, number: u64) -> PlaceError
        requires { HasCell L.cells number → ⊥ }
        ensures why { RefusesPlace L.cells number self.old.desk result }
        ensures held { AreReplays L.limits self.old.desk self.old.history.log self.new.desk
            self.new.history.log }
        ensures others { OthersSince placer.old self.old.history.log }
        ensures log { self.new.history.log ≡ self.old.history.log }
        ensures seen { placer.new ≡ has_seen placer.old self.new.history.log }
    {
        let _steps = self.desk.steps();
        placer.catch_up(&mut self.history);
        match self.desk.prepare() {
            Err(why) => self.place_refusal(why, number),
            Ok(next) => PlaceError::Occupied(Occupied::Next(next)),
        }
    }

    // why an item isn't placed under a number where the desk's `prepare` refuses
    fn place_refusal(&self, why: DeskRefusal, _number: u64) -> PlaceError
        requires { number_to_place self.now.desk ≡ Err why }
        ensures { RefusesPlace L.cells _number self.now.desk result }
    {
        match why {
            DeskRefusal::JournalFull => PlaceError::JournalFull,
            DeskRefusal::Closed => PlaceError::Closed(self.closed()),
            _ => PlaceError::SequenceFull,
        }
    }

    // the token of the closing cell, where the desk is closed
    fn closed(&self) -> ToldLast
        requires { IsSome self.now.desk.picture.closing }
        ensures { ShowsClosing L.cells self.now.desk.picture.closing (Some result) }
    {
        match &self.closing {
            Some(told) => told.again(),
            None => unreachable!(),
        }
    }

    /// Sets the closing cell and closes the desk, unless it is closed: a step of the keeper.
    /// Returns `None` if the cell is set already. Does not allocate.
    pub(crate) fn close(&mut self, keeper: &mut Stake<L>) -> Option<ToldLast>
        ensures closed { ClosesBoth result L.cells self.old.desk self.new.desk }
        ensures held { AreReplays L.limits self.old.desk self.old.history.log self.new.desk
            self.new.history.log }
        ensures others { OthersSince keeper.old self.old.history.log }
        ensures log { self.new.history.log ≡ self.old.history.log ++ closing_step result
            keeper.old.number self.old.desk.picture.closing }
        ensures seen { keeper.new ≡ has_seen keeper.old self.new.history.log }
    {
        steps_are_counted();
        only_subscribe_and_close();
        let _steps = self.desk.steps();
        keeper.catch_up(&mut self.history);
        if let Some(told) = &self.closing {
            return Some(told.again());
        }
        let Ok(told) = self.filler.fill_closing(self.desk.front()) else {
            return None;
        };
        self.desk.close();
        let _closed = self.desk.steps();
        keeper.append(&mut self.history, &Step::Close);
        self.closing = Some(told.again());
        Some(told)
    }
}

/// The item of an entry that isn't placed, and why.
pub(crate) fn refused(why: PlaceError, entry: Entry) -> RefusedItem
    ensures { result ≡ record { why = why; item = entry.item } }
{
    RefusedItem {
        why,
        item: entry.into_item(),
    }
}
