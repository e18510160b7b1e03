//! How a script is answered, and the line at which it stops.

ghost use Rattle.std.specs.Prelude.{◌≡◌, false};

use cs_model::Octets;
use std::fmt;

/// How answers are written.
#[derive(Clone, Copy, Debug, PartialEq, Eq)]
pub struct Answering {
    /// The number of its line and a space come before each answer. Lines are counted from 1, and
    /// empty ones are counted too.
    pub numbers: bool,
    /// The script stops after the first line that is refused or faulty.
    pub strict: bool,
}

impl Answering {
    /// No numbers, and every line is answered.
    pub fn plain() -> Answering
        ensures { result ≡ record { numbers = false; strict = false } }
    {
        Answering {
            numbers: false,
            strict: false,
        }
    }
}

/// A line that is refused or faulty. Displayed, it is one line of printable ASCII: its number, its
/// first 80 bytes and its answer.
#[derive(Debug, Drop)]
pub struct RefusedLine {
    /// The number of the line, from 1. Empty lines are counted.
    pub number: u64,
    /// The line without its end; of a line that is too long, the first 65,537 bytes.
    pub line: Octets,
    /// Its answer without the line end.
    pub answer: Octets,
}

// how many bytes of a line are displayed
const SHOWN: usize = 80;

impl fmt::Display for RefusedLine {
    fn fmt<W: fmt::Write>(&self, f: &mut fmt::Formatter<W>) -> fmt::Result {
        let line: &[u8] = &self.line;
        let answer: &[u8] = &self.answer;
        let shown = line.get(..SHOWN).unwrap_or(line);
        write!(
            f,
            "line {}: {}: {}",
            self.number,
            shown.escape_ascii(),
            answer.escape_ascii()
        )
    }
}
