//! Lines that are compared with those that they must be.

ghost use Rattle.std.specs.Prelude.{◌≡◌, IfOk, map};
ghost use Rattle.rb_script.specs.Script.{lines_of};

use std::alloc::{AllocError, Global};

/// The lines of a text. The text after the last line end is a line too, even if it is empty.
pub fn lines(alloc: Global, text: &[u8]) -> Result<Vec<&[u8]>, AllocError>
    ensures { IfOk result (λ lines. map (λ line. line.now) lines.items ≡ lines_of text.now) }
{
    text.split(|byte| *byte == b'\n').collect(alloc)
}

/// The number of lines, or a text that shows the first one that differs. `word` says in it what a
/// line is.
pub fn difference(
    alloc: Global,
    word: &str,
    given: &[&[u8]],
    wanted: &[&[u8]],
) -> Result<Result<usize, String>, AllocError> {
    if given == wanted {
        return Ok(Ok(wanted.len()));
    }
    let same = given
        .iter()
        .zip(wanted)
        .take_while(|(one, other)| **one == **other)
        .count();
    let line = same.saturating_add(1);
    let one = shown(given, same);
    let other = shown(wanted, same);
    Ok(Err(format!(in alloc; "{word} {line} is '{one}', and not '{other}'")?))
}

// A line as it is printed; the empty text if there is none.
fn shown<'a>(lines: &[&'a [u8]], place: usize) -> &'a str {
    match lines.get(place) {
        None => "",
        Some(line) => str::from_utf8(line).unwrap_or("no text"),
    }
}
