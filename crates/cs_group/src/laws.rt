//! Laws of groups: public functions that do nothing. Their contracts state what holds of all
//! changesets and tables; a caller that needs one calls it.

ghost use Rattle.std.specs.Prelude.{◌≡◌, ◌++◌, [], List, None, Ok, Err};
ghost use Rattle.cs_model.specs.declared.shape.Shape.{Shape};
ghost use Rattle.cs_model.specs.Changeset.{AgreeOnShapes, IsChangeset};
ghost use Rattle.cs_model.specs.{Schema.{IsSchema, refusal_of}, Section.{Section}};
ghost use Rattle.cs_apply.specs.{declared.conflict.Conflict.{Conflict}, Single.{single}};
ghost use Rattle.cs_apply.specs.{State.{TableState}, Columns.{HaveColumns}};
ghost use Rattle.cs_group.specs.Group.{first_clash, group_of};

use cs_model::laws::{changes_fit, fields_again};

/// The combining law. If sections apply one after another without conflict, their group applies
/// without conflict and leaves the same tables. So a group conflicts only where its sections,
/// applied one after another, conflict too. The rows have a value for each column, as those of
/// `Tables` do (`cs_apply::laws::rows_keep_columns`).
pub fn groups_apply()
    ensures same { (old new : TableState) (sections : List Section) → IsChangeset sections
        → HaveColumns old → single old sections ≡ Ok new → single old (group_of sections) ≡ Ok new }
    ensures conflicts { (old : TableState) (sections : List Section) (conflict : Conflict)
        → IsChangeset sections → HaveColumns old → single old (group_of sections) ≡ Err conflict
        → (other : Conflict) × (single old sections ≡ Err other) }
{
    changes_fit();
    fields_again();
}

/// Changesets that one schema admits can be combined: no two of their sections clash. What is
/// admitted in two parts is admitted as one.
pub fn admitted_never_clash()
    ensures clash { (tables : List Shape) (earlier more : List Section) → IsSchema tables
        → refusal_of tables earlier ≡ None → refusal_of tables more ≡ None
        → first_clash earlier more ≡ None }
    ensures both { (tables : List Shape) (some more : List Section)
        → refusal_of tables some ≡ None → refusal_of tables more ≡ None
        → refusal_of tables (some ++ more) ≡ None }
{}

/// Sections of which those of one name have one shape can be combined: no two of them clash.
pub fn agreeing_never_clash()
    ensures { (sections : List Section) → AgreeOnShapes sections
        → first_clash [] sections ≡ None }
{}

/// Of the sections that a schema admits, those of one name have one shape.
pub fn admitted_agree()
    ensures { (tables : List Shape) (sections : List Section) → IsSchema tables
        → refusal_of tables sections ≡ None → AgreeOnShapes sections }
{}
