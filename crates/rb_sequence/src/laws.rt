//! A law of tokens: a public function that does nothing. Its contract is the law; call the function
//! to use it.

ghost use Rattle.std.specs.Prelude.{◌≡◌};
ghost use Rattle.rb_sequence.specs.Cells.{AreOfOneCell, CellToken, Cells, IsTokenOf};

/// Two tokens of one number of one sequence are of one cell. So `Told::same` shows that they show
/// one entry, whichever threads they come from.
pub fn one_number_is_one_cell()
    ensures { (cells : Cells) (token other : CellToken)
        → IsTokenOf cells token → IsTokenOf cells other → token.number ≡ other.number
        → AreOfOneCell token other }
{}
