//! Laws of inverses: public functions that do nothing. Their contracts state what holds of all
//! changesets and tables; a caller that needs one calls it.

ghost use Rattle.std.specs.Prelude.{◌≡◌, List, None, Ok};
ghost use Rattle.cs_model.specs.declared.shape.Shape.{Shape};
ghost use Rattle.cs_model.specs.Changeset.{AgreeOnShapes, IsChangeset};
ghost use Rattle.cs_model.specs.{Schema.{refusal_of}, Section.{Section}};
ghost use Rattle.cs_apply.specs.{Columns.{HaveColumns}, Single.{single}, State.{TableState}};
ghost use Rattle.cs_invert.specs.Inverse.{AreApart, inverse, withdrawal_of};

use cs_model::laws::{changes_fit, fields_again};

/// The inverse of the inverse of a changeset is the changeset.
pub fn inverting_twice()
    ensures { (sections : List Section) → IsChangeset sections
        → inverse (inverse sections) ≡ sections }
{}

/// The inverse of a changeset is a changeset.
pub fn inverses_are_changesets()
    ensures { (sections : List Section) → IsChangeset sections → IsChangeset (inverse sections) }
{}

/// The law of withdrawals. Let a changeset apply without conflict, and then others that have no
/// change of its rows. Then its withdrawal applies without conflict, and leaves the tables that the
/// others alone leave. The rows have a value for each column, as those of `Tables` do
/// (`cs_apply::laws::rows_keep_columns`).
pub fn withdrawing_undoes()
    ensures { (old mid new : TableState) (sections others : List Section)
        → IsChangeset sections → HaveColumns old
        → single old sections ≡ Ok mid → single mid others ≡ Ok new → AreApart sections others
        → (last : TableState) × (single old others ≡ Ok last)
        × (single new (withdrawal_of sections) ≡ Ok last) }
{
    changes_fit();
    fields_again();
}

/// A schema that admits a changeset admits its withdrawal.
pub fn withdrawals_are_admitted()
    ensures { (tables : List Shape) (sections : List Section) → refusal_of tables sections ≡ None
        → refusal_of tables (withdrawal_of sections) ≡ None }
{}

/// Where sections of one name have one shape, so have those of the withdrawal.
pub fn withdrawals_agree()
    ensures { (sections : List Section) → AgreeOnShapes sections
        → AgreeOnShapes (withdrawal_of sections) }
{}
