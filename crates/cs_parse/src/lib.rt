//! The changeset parser: `parse` reads a whole text, `parse_in_place` leaves its changes where they
//! stand, and `PieceParser` reads it in pieces. A text is the bytes of a serialized changeset.
//!
//! The theorems: a call returns `Ok` exactly on the texts that encode a changeset, as `Spells`
//! says. On any other text it returns the text's one fault, whose place and kind `IsFault` defines.
//! The way a text is cut into pieces makes no difference.
#![tactic(auto)]

mod and;
mod canonical;
mod change;
mod end;
mod fault;
mod field;
mod grow;
mod growing;
mod header;
mod header_spot;
mod lack;
pub mod laws;
mod number;
mod parsing;
mod pieces;
mod record;
mod rule;
mod section;
mod spot;
mod stop;
mod whole;

pub use end::EndError;
pub use fault::{FaultKind, ParseError, ParseFault};
pub use parsing::{parse, parse_in_place};
pub use pieces::PieceParser;
pub use whole::count_changes;
