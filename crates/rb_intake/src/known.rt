//! What the passes of an intake know.

use rb_sequence::Item;
use std::collections::LinkedList;

/// What a pass knows. No value of it is made: it stands in contracts alone.
pub enum Known {
    /// Before there is anything to know: the pass of a new intake.
    Starts,
    /// How many publishers' passes the maker made.
    Makes(u64),
    /// What the publisher with this number sent.
    Sends(u64, LinkedList<Item>),
    /// What the sequencer pulled, and what each publisher sent whose pass was joined.
    Pulls(LinkedList<Item>, LinkedList<(u64, LinkedList<Item>)>),
    /// As `Pulls`, where no publisher is made any more, and how many were made.
    Ends(LinkedList<Item>, LinkedList<(u64, LinkedList<Item>)>, u64),
    /// Nothing any more: a pass that was joined.
    Spent,
}
