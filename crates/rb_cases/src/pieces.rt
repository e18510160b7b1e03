//! Cuts the changesets of a script into pieces.

ghost use Rattle.std.specs.Prelude.{◌≡◌, ◌==◌, ◌<◌, ◌++◌, length, Some, None};
ghost use Rattle.std.specs.Prelude.{IfOk, OnOk, MatchOption};
ghost use Rattle.std.specs.Char.{is_ascii_hexdigit};
ghost use Rattle.std.specs.List.{flat_map, list_all, position_from};
ghost use Rattle.rb_cases.specs.Pieces.{are_cut, cut_text, digits_in, fed_parts, line_text};
ghost use Rattle.rb_cases.specs.Pieces.{pieces_in, pieces_text, space_in};

use rb_case_files::lines;
use std::alloc::{AllocError, Global};

/// The most bytes of a line; a longer one isn't cut.
const LONGEST: usize = 65_536;

/// The script with a line of `feed` for each `most` bytes of a changeset. A line that feeds no
/// bytes does not change.
pub fn cut(alloc: Global, script: &[u8], most: usize) -> Result<Vec<u8>, AllocError>
    ensures { IfOk result (λ made. made.items ≡ cut_text most script.now) }
{
    let lines = lines(alloc, script)?;
    let mut all = ended(alloc, &lines, most)?;
    // the last line has no line end
    all.pop();
    Ok(all)
}

// The lines cut, each with a line end.
fn ended(alloc: Global, lines: &[&[u8]], most: usize) -> Result<Vec<u8>, AllocError>
    ensures { IfOk result (λ made.
        made.items ≡ flat_map (λ line. line_text line.now (fed_parts line.now) most) lines.now) }
{
    let mut all = Vec::new(alloc);
    for line in lines {
        add_line(&mut all, line, most)?;
    }
    Ok(all)
}

fn add_line(all: &mut Vec<u8>, line: &[u8], most: usize) -> Result<(), AllocError>
    ensures { OnOk result
        (all.new.items ≡ all.old.items ++ line_text line.now (fed_parts line.now) most) }
{
    if let Some((front, digits)) = feed(line) {
        return add_pieces(all, front, digits, digits_of(most));
    }
    all.extend_from_slice(line)?;
    all.push(b'\n')?;
    Ok(())
}

fn add_pieces(all: &mut Vec<u8>, front: &[u8], digits: &[u8], size: usize) -> Result<(), AllocError>
    requires { 0 < size }
    ensures { OnOk result (all.new.items
        ≡ all.old.items ++ pieces_text (length digits.now) size front.now digits.now) }
{
    for piece in digits.chunks(size) {
        all.extend_from_slice(front)?;
        all.extend_from_slice(piece)?;
        all.push(b'\n')?;
    }
    Ok(())
}

/// How many lines `cut` makes of a line.
pub fn count(line: &[u8], most: usize) -> usize
    ensures { result ≡ pieces_in (fed_parts line.now) most }
{
    match feed(line) {
        Some((_, digits)) => digits.len().div_ceil(digits_of(most)),
        None => 1,
    }
}

// How many hexadecimal digits this many bytes have, at least 2.
fn digits_of(bytes: usize) -> usize
    ensures value { result ≡ digits_in bytes }
    ensures some { 0 < result }
{
    bytes.saturating_mul(2).max(2)
}

// The part of a line before its bytes, and their digits, if it feeds any.
fn feed(line: &[u8]) -> Option<(&[u8], &[u8])>
    ensures { MatchOption result (fed_parts line.now ≡ None)
        (λ parts. fed_parts line.now ≡ Some (parts.0.now, parts.1.now)) }
{
    let space = space(line)?;
    let (front, digits) = line.split_at_checked(space.saturating_add(6))?;
    if are_fed(line, digits) {
        return Some((front, digits));
    }
    None
}

// In a line that begins with `feed `, the place of the next space, counted from there.
fn space(line: &[u8]) -> Option<usize>
    ensures { result ≡ space_in line.now }
{
    let rest = line.strip_prefix(b"feed ")?;
    first_space(rest)
}

fn first_space(bytes: &[u8]) -> Option<usize>
    ensures { result ≡ position_from (λ byte. byte == 32) 0 bytes.now }
{
    bytes.iter().position(|byte| *byte == b' ')
}

// Whether the digits of a line are cut.
fn are_fed(line: &[u8], digits: &[u8]) -> bool
    ensures { result ≡ are_cut line.now digits.now }
{
    line.len() <= LONGEST && !digits.is_empty() && digits.len() % 2 == 0 && are_hexadecimal(digits)
}

fn are_hexadecimal(digits: &[u8]) -> bool
    ensures { result ≡ list_all is_ascii_hexdigit digits.now }
{
    digits.iter().all(|digit| digit.is_ascii_hexdigit())
}
