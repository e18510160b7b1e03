//! Laws: public functions that do nothing. Their contracts state what holds of every text; a caller
//! that needs one calls it.

ghost use Rattle.std.specs.Prelude.{◌≡◌, ◌↔◌, ◌⊎◌, ◌++◌, [], ℕ, List, Ok, Err, Some};
ghost use Rattle.cs_model.specs.Bytes.{AreBytes};
ghost use Rattle.cs_model.specs.Section.{Section};
ghost use Rattle.cs_model.specs.Text.{Spells};
ghost use Rattle.cs_parse.specs.declared.fault.ParseFault.{ParseFault};
ghost use Rattle.cs_parse.specs.Answer.{HasChangeset, HasFault};
ghost use Rattle.cs_parse.specs.Fault.{IsFault};
ghost use Rattle.cs_parse.specs.Pieces.{fault_in, offset_of, IsLasting, joined_pieces, text_kept};
ghost use Rattle.cs_parse.specs.Progress.{nothing, advanced, answer_at_end, progress_of};
ghost use Rattle.cs_parse.specs.Reading.{answer_of};

/// Reading a text gives the changeset exactly if the text encodes it.
pub fn reading_is_spelling()
    ensures { (text : List ℕ) (changeset : List Section) → AreBytes text
        → (answer_of text ≡ Ok changeset) ↔ Spells text changeset }
{}

/// Reading a text gives the fault exactly if it is the text's fault.
pub fn refusing_is_fault()
    ensures { (text : List ℕ) (fault : ParseFault) → AreBytes text
        → (answer_of text ≡ Err fault) ↔ IsFault text fault }
{}

/// Each text either encodes one changeset and has no fault, or has one fault and encodes none.
pub fn every_text()
    ensures { (text : List ℕ) → AreBytes text → HasChangeset text ⊎ HasFault text }
{}

/// Reading the bytes kept of the pieces gives the same as reading the joined text.
pub fn pieces_are_joined()
    ensures { (pieces : List (List ℕ)) → AreBytes (joined_pieces pieces)
        → answer_of (text_kept [] pieces) ≡ answer_of (joined_pieces pieces) }
{}

/// The fault that `feed` reports is the text's permanent fault.
pub fn feeding_tells_faults()
    ensures { (text : List ℕ) (fault : ParseFault) → AreBytes text
        → (fault_in text ≡ Some fault) ↔ IsLasting text fault }
{}

/// An empty text has the initial progress. Appending a piece to a text advances its progress by
/// that piece.
pub fn progress_goes_on()
    ensures begins { progress_of [] ≡ nothing }
    ensures goes { (text piece : List ℕ) → AreBytes (text ++ piece)
        → progress_of (text ++ piece) ≡ advanced (progress_of text) piece }
{}

/// A text's progress determines the result of reading it, its permanent fault, and the number of
/// bytes taken.
pub fn progress_tells()
    ensures answer { (text : List ℕ) → AreBytes text → answer_at_end (progress_of text)
        ≡ answer_of text }
    ensures fault { (text : List ℕ) → AreBytes text
        → (progress_of text).fault ≡ fault_in text }
    ensures offset { (text : List ℕ) → AreBytes text
        → (progress_of text).offset ≡ offset_of text }
{}
