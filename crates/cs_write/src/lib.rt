//! The canonical writer: each changeset has one canonical form and one canonical text, however it
//! was encoded. Theorems: `canonical` returns `canon` and `write` returns `text_of`. `write_to`
//! puts that text into a buffer if it fits. `write_pieces` puts it into a sink piece by piece,
//! until the sink fails.
//!
//! A text within the limit encodes the canonical form. The text of a parsed changeset is within the
//! limit, because it is no longer than the parsed one.
#![tactic(auto)]

mod form;
mod groups;
pub mod laws;
mod pieces;
mod placing;
mod sink;
mod text;

pub use form::{canonical, is_form, other_form};
pub use groups::{Groups, add_section};
pub use pieces::{WriteError, write_pieces};
pub use placing::put_bytes;
pub use sink::{Sink, SinkFault};
pub use text::{write, write_to};
