//! Laws: public functions that do nothing. Their contracts state what holds of the canonical text.
//! Those on a parsed text require a list of bytes: larger numbers could encode a length more
//! shortly than its shortest varint.

ghost use Rattle.std.specs.Prelude.{ℕ, ◌≤◌, List, length};
ghost use Rattle.cs_model.specs.{Bytes.{AreBytes}, Section.{Section}};
ghost use Rattle.cs_model.specs.{Changeset.{IsChangeset, most_bytes}, Text.{Spells}};
ghost use Rattle.cs_write.specs.{Canon.{canon}, Text.{text_of}};

use cs_model::laws::{varint_shortest, varint_spelled};

/// If the text of `write` is within the limit, it encodes the result of `canonical`.
pub fn text_spells_form()
    ensures { (sections : List Section) → IsChangeset sections
        → length (text_of sections) ≤ most_bytes → Spells (text_of sections) (canon sections) }
{
    varint_spelled();
}

/// The canonical text is no longer than the text that was parsed.
pub fn text_is_no_longer()
    ensures { (text : List ℕ) (sections : List Section) → AreBytes text → Spells text sections
        → length (text_of sections) ≤ length text }
{
    varint_shortest();
}

/// So the text of `write` for a parsed changeset encodes its canonical form.
pub fn read_is_spelled_again()
    ensures { (text : List ℕ) (sections : List Section) → AreBytes text → Spells text sections
        → Spells (text_of sections) (canon sections) }
{
    varint_spelled();
    varint_shortest();
}
