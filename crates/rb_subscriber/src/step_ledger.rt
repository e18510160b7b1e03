//! `StepLedger`: names the ledger and the cells of one broker, so that the types of its
//! subscriptions say that they belong together.

use std::marker::Brand;
use std::sync::ledger::Ledger;

/// What the subscriptions of one broker have in common: the ledger of their steps, the cells of the
/// broker's sequence, and the name of its history.
pub trait StepLedger: Ledger {
    ghost use Rattle.std.specs.Prelude.{ℕ};
    ghost use Rattle.rb_sequence.specs.Cells.{Cells};

    /// All parts of the ledger.
    ghost all: { ℕ };

    ghost cells: { Cells };

    /// The name of the history of the broker's steps.
    ghost history: { ℕ × ℕ };
}

impl StepLedger for Brand {
    ghost use Rattle.rb_sequence.specs.Cells.{no_cells};

    ghost all = { 0 };

    ghost cells = { no_cells };

    ghost history = { (0, 0) };
}
