//! What a broker's owners hold of its history takes no memory, so they are as large as without it.

use rb_desk::Step;
use rb_history::{Chronicle, Front, Hand};
use rb_subscriber::{Auditor, Stake};
use std::marker::Brand;
use std::mem::size_of;

#[test]
fn the_history_takes_no_memory(rt: HostRuntime) {
    assert_eq!(rt; size_of::<Chronicle<Step>>(), 0);
    assert_eq!(rt; size_of::<Hand<Step>>(), 0);
    assert_eq!(rt; size_of::<Front<Step>>(), 0);
    assert_eq!(rt; size_of::<Stake<Brand>>(), 0);
    // how many subscriptions it heard, and the sum of their steps
    assert_eq!(rt; size_of::<Auditor<Brand>>(), 16);
}
