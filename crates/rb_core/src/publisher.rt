//! One publisher's state: its stream, what it staged, and how often it sent.

use cs_model::{Changeset, Origin};
use cs_parse::PieceParser;

/// What a publisher staged.
#[derive(Debug, Drop)]
pub struct Staged {
    /// Whether the publisher was fed the changeset, or it withdraws an entry.
    pub origin: Origin,
    /// The changeset.
    pub body: Changeset,
}

/// A publisher of a world.
#[derive(Debug, Drop)]
pub struct PublisherState {
    /// The parser of the bytes fed since the last end or reset.
    pub stream: PieceParser,
    /// What is staged and not sent.
    pub staged: Option<Staged>,
    /// How many changesets it has sent.
    pub sent: u64,
}
