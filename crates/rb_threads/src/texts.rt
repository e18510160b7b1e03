//! The texts of what a broker refuses.

use cs_model::{Changeset, Origin};
use rb_broker::{AddError, Occupied, PlaceError, SubscribeError, TakeError, WithdrawError};
use rb_desk::{DeskError, DeskRefusal};
use rb_sequence::{Entry, Item, Sequence, Told};
use std::alloc::Global;
use std::test::Fail;

#[test]
fn publishers_are_told_why(rt: HostRuntime) -> Result<(), Fail> {
    let alloc = rt.alloc();
    let added = [
        (AddError::TooMany, "there are 64 publishers"),
        (AddError::Memory, "out of memory"),
    ];
    for (why, text) in added {
        assert_eq!(rt; format!(in alloc; "{why}")?.as_str(), text);
    }
    let told = token(alloc)?;
    let withdrawn = [
        (WithdrawError::NotPlaced, "there is no such entry"),
        (
            WithdrawError::NotYours(told.again()),
            "the entry is another publisher's",
        ),
        (
            WithdrawError::AlreadyWithdrawn(told.again()),
            "the entry is withdrawn already",
        ),
        (WithdrawError::Memory(told), "out of memory"),
    ];
    for (why, text) in withdrawn {
        assert_eq!(rt; format!(in alloc; "{why}")?.as_str(), text);
    }
    Ok(())
}

// a token of an entry
fn token(alloc: Global) -> Result<Told, Fail> {
    let (_sequence, preparer, mut filler) = Sequence::new(alloc, 1)?;
    let item = Item::new(0, 1, Origin::Sent, Changeset::new(alloc));
    let form = item.form(alloc)?;
    let ready = preparer.ready(alloc, Entry::new(alloc, 1, item, form))?;
    match filler.fill(ready) {
        Ok(told) => Ok(told),
        Err(_) => Err(Fail::new("the cell of 1 is set")),
    }
}

#[test]
fn turns_say_why(rt: HostRuntime) -> Result<(), Fail> {
    let alloc = rt.alloc();
    let placed = [
        (PlaceError::JournalFull, "the journal is full"),
        (PlaceError::SequenceFull, "the sequence is full"),
        (PlaceError::Occupied(Occupied::Next(1)), "the cell is set"),
        (PlaceError::Memory, "out of memory"),
    ];
    for (why, text) in placed {
        assert_eq!(rt; format!(in alloc; "{why}")?.as_str(), text);
    }
    Ok(())
}

#[test]
fn subscribers_are_told_why(rt: HostRuntime) -> Result<(), Fail> {
    let alloc = rt.alloc();
    let subscribed = [
        (
            SubscribeError::OtherSchema,
            "the tables are of another schema",
        ),
        (SubscribeError::Desk(DeskError::Memory), "out of memory"),
    ];
    for (why, text) in subscribed {
        assert_eq!(rt; format!(in alloc; "{why}")?.as_str(), text);
    }
    let full = TakeError::Desk(DeskError::Refused(DeskRefusal::WindowFull));
    assert_eq!(rt; format!(in alloc; "{full}")?.as_str(), "the window is full");
    Ok(())
}
