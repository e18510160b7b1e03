//! The tests, by what they are of.

mod cells;
mod desks;
mod faults;
mod groups;
mod limits;
mod lists;
mod runs;
mod streams;
mod texts;
