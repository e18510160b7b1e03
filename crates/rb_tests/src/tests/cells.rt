//! Tests of the cells of a sequence: what is set shows for good, what is set again is refused, and
//! what was handed in comes back.

ghost use Rattle.std.specs.Prelude.{◌≡◌, IfOk};

use cs_model::{Changeset, Origin};
use rb_sequence::{Entry, Filler, Item, Preparer, Sequence};
use std::alloc::{AllocError, Global};
use std::process::Abort;
use std::test::Fail;

#[test]
fn a_cell_is_set_once(rt: HostRuntime) -> Result<(), Fail> {
    let alloc = rt.alloc();
    let (sequence, preparer, mut filler) = Sequence::new(alloc, 2)?;
    has_none(&rt, &sequence);
    fills(&rt, alloc, &sequence, &preparer, &mut filler)?;
    closes(&rt, &sequence, &mut filler);
    Ok(())
}

// no cell of a new sequence shows anything, and there are none outside 1 to the capacity
fn has_none<R: Abort>(rt: &R, sequence: &Sequence) {
    for number in 0..4_u64 {
        assert!(rt; sequence.get(number).is_none());
        assert!(rt; sequence.tell(number).is_none());
    }
    assert!(rt; sequence.closing().is_none());
}

// the cell of 2 is set, and the one of 1 isn't; what is filled again comes back
fn fills<R: Abort>(
    rt: &R,
    alloc: Global,
    sequence: &Sequence,
    preparer: &Preparer,
    filler: &mut Filler,
) -> Result<(), Fail>
    requires preparer { (preparer.now ≡ sequence.now) × (sequence.now.capacity ≡ 2) }
    requires filler { filler.old ≡ sequence.now }
{
    let first = preparer.ready(alloc, entry(alloc, 2, 7)?)?;
    let second = preparer.ready(alloc, entry(alloc, 2, 8)?)?;
    let Ok(told) = filler.fill(first) else {
        return Err(Fail::new("the cell of 2 is set"));
    };
    assert_eq!(rt; sequence.get_told(&told).own(), 7);
    let Err(back) = filler.fill(second) else {
        return Err(Fail::new("the cell of 2 is free"));
    };
    assert_eq!(rt; back.entry.own(), 8);
    assert_eq!(rt; sequence.get_occupant(&back.occupant).own(), 7);
    assert_eq!(rt; sequence.get(2).map(|entry| entry.own()), Some(7));
    assert!(rt; sequence.get(1).is_none());
    Ok(())
}

#[test]
fn readers_share_a_text(rt: HostRuntime) -> Result<(), Fail> {
    let alloc = rt.alloc();
    let entry = entry(alloc, 1, 1)?;
    let first = entry.shared_text(alloc)?;
    let second = entry.shared_text(alloc)?;
    assert_eq!(rt; first.as_slice(), entry.text());
    assert_eq!(rt; second.as_slice(), entry.text());
    Ok(())
}

// the closing cell shows the number that came first
fn closes<R: Abort>(rt: &R, sequence: &Sequence, filler: &mut Filler) {
    assert_eq!(rt; filler.fill_closing(2).map(|told| told.last()), Ok(2));
    assert_eq!(rt; filler.fill_closing(1).map(|told| told.last()), Err(1));
    assert_eq!(rt; sequence.closing().map(|told| told.last()), Some(2));
}

// an entry without changes, with this number among its publisher's sendings
fn entry(alloc: Global, number: u64, own: u64) -> Result<Entry, AllocError>
    ensures { IfOk result (λ entry. entry.number ≡ number) }
{
    let item = Item::new(0, own, Origin::Sent, Changeset::new(alloc));
    let form = item.form(alloc)?;
    Ok(Entry::new(alloc, number, item, form))
}
