//! Laws: public functions that do nothing. Their contracts state what holds of all tables; a caller
//! that needs one calls it.

ghost use Rattle.std.specs.Prelude.{◌≡◌, ◌↔◌, ◌++◌, List, Ok};
ghost use Rattle.cs_model.specs.{Changeset.{IsChangeset}, Section.{Section}};
ghost use Rattle.cs_apply.specs.{Columns.{HaveColumns}, OneByOne.{AppliesBoth}, Single.{single}};
ghost use Rattle.cs_apply.specs.State.{TableState};

/// A list of sections applies without conflict exactly if its first part does, and then the second
/// part to the result. The tables are the same. So it makes no difference how changesets are joined
/// before they are applied.
pub fn applying_goes_on()
    ensures { (old : TableState) (some more : List Section) (new : TableState)
        → (single old (some ++ more) ≡ Ok new) ↔ AppliesBoth old some more new }
{}

/// Sections that apply without conflict leave rows with a value for each column, if the rows before
/// have one. Tables that began empty always have (`Tables::schema`).
pub fn rows_keep_columns()
    ensures { (old new : TableState) (sections : List Section) → IsChangeset sections
        → HaveColumns old → single old sections ≡ Ok new → HaveColumns new }
{}
