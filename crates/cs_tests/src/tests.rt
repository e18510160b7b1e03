//! The tests, by what they are of.

mod applied;
mod changes;
mod copied;
mod fields;
mod fixture;
mod pieces;
mod said;
mod schemas;
mod written;
