//! The broker behind a handle that C holds: a static library, with its header in
//! `include/broker.h`. Theorem: each call for an event lets the world behind the handle make
//! exactly that event's step, and its result, numbers and outputs are those of the reply.
#![tactic(auto)]

mod codes;
mod handle;
mod limits;
mod messages;
mod opening;
mod parts;
mod placing;
mod publishers;
mod reading;
mod row_texts;
mod rows;
mod seal;
mod serving;
mod slot;
mod subscriptions;
#[cfg(test)]
mod tests;
mod texts;
mod version;
mod writing;
