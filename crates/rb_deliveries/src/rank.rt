//! Ranks: they order the ready spans.

ghost use Rattle.std.specs.Prelude.{◌≡◌};
ghost use Rattle.std.specs.Option.{option_map};
ghost use Rattle.rb_deliveries.specs.Queues.{earlier, birth, with_birth, better, overtakes};
ghost use Rattle.rb_deliveries.specs.Waiting.{first_rank};

use crate::span::Span;

/// A place in the ready order: the front and the turn in which it was drawn. A placement's ranks
/// have turn 0.
#[derive(Clone, Copy, Debug, PartialEq, Eq)]
pub(crate) struct Rank {
    pub(crate) front: u64,
    pub(crate) turn: u64,
}

/// A span that was taken before, with its rank for the time that it is ready.
#[derive(Clone, Copy, Debug, PartialEq, Eq)]
pub(crate) struct Held {
    pub(crate) span: Span,
    pub(crate) rank: Rank,
}

impl Rank {
    /// Whether it comes before the other.
    pub(crate) fn is_before(self, other: Rank) -> bool
        ensures { result ≡ earlier self other }
    {
        self.front < other.front || (self.front == other.front && self.turn < other.turn)
    }

    /// The rank of a span that was never taken and begins with this number. `self` is the rank
    /// of its cutting; a number placed later has its placement's rank.
    pub(crate) fn of_span(self, first: u64) -> Rank
        ensures { result ≡ birth self first }
    {
        if first <= self.front {
            return self;
        }
        Rank {
            front: first,
            turn: 0,
        }
    }
}

impl Rank {
    /// A span that was never taken, with its rank. `self` is the rank of its cutting.
    pub(crate) fn given_to(self, span: Option<Span>) -> Option<Held>
        ensures { result ≡ option_map (with_birth self) span }
    {
        let span = span?;
        Some(Held {
            span,
            rank: self.of_span(span.first),
        })
    }
}

/// Whether the second rank comes before the first. Where there is none, it would come last.
pub(crate) fn overtakes(first: Option<Rank>, second: Option<Rank>) -> bool
    ensures { result ≡ overtakes first second }
{
    match (first, second) {
        (Some(a), Some(b)) => b.is_before(a),
        (None, Some(_)) => true,
        (_, None) => false,
    }
}

/// The earlier rank; `first` if both are the same.
pub(crate) fn first_rank(first: Option<Rank>, second: Option<Rank>) -> Option<Rank>
    ensures { result ≡ first_rank first second }
{
    if overtakes(first, second) {
        second
    } else {
        first
    }
}

/// The one that is first in line; `first` if both have the same rank.
pub(crate) fn sooner(first: Option<Held>, second: Option<Held>) -> Option<Held>
    ensures { result ≡ better first second }
{
    let a = first.map(|held| held.rank);
    let b = second.map(|held| held.rank);
    if overtakes(a, b) { second } else { first }
}
