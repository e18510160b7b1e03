//! The answer to a line of a script.

use cs_model::Changeset;

/// An answer. It has no bytes only where its line is empty.
#[derive(Drop)]
pub enum LineAnswer {
    /// The whole answer, each of its lines with a line end.
    Text(Vec<u8>),
    /// The changeset whose text `combine` answers. The text is made when the answer is written.
    Combined(Changeset),
}
