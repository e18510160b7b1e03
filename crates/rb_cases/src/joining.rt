//! Joins the answers to pieces into the answers to whole changesets.

ghost use Rattle.std.specs.Prelude.{◌≡◌, ◌≤◌, ◌++◌, drop, length, IfOk, map};
ghost use Rattle.rb_cases.specs.Joining.{answers_kept, answers_to, piece_answer, joined_answers};
ghost use Rattle.rb_cases.specs.Joining.{left_after, left_for_line, other_than, rows_after};
ghost use Rattle.rb_script.specs.Script.{lines_of};
ghost use Rattle.cs_model.specs.Schema.{same_bytes};

use crate::pieces::count;
use rb_case_files::lines;
use rb_script::number;
use std::alloc::{AllocError, Global};

/// Turns the answers to a script in pieces into the answers to the script itself. The last piece's
/// answer counts for its changeset, if the others are `ok` or the same.
pub fn joined<'a>(
    alloc: Global,
    script: &[u8],
    most: usize,
    given: &[&'a [u8]],
) -> Result<Vec<&'a [u8]>, AllocError>
    ensures { IfOk result (λ made. map (λ answer. answer.now) made.items
        ≡ joined_answers most (lines_of script.now) (map (λ answer. answer.now) given.now)) }
{
    let lines = lines(alloc, script)?;
    joined_lines(alloc, &lines, most, given)
}

fn joined_lines<'a>(
    alloc: Global,
    lines: &[&[u8]],
    most: usize,
    given: &[&'a [u8]],
) -> Result<Vec<&'a [u8]>, AllocError>
    ensures { IfOk result (λ made. map (λ answer. answer.now) made.items
        ≡ joined_answers most (map (λ line. line.now) lines.now)
        (map (λ answer. answer.now) given.now)) }
{
    let mut all = Vec::with_capacity(alloc, given.len())?;
    let mut place = 0_usize;
    for line in lines {
        place = add_line_answers(&mut all, line, most, given, place)?;
    }
    let (_, rest) = given.split_at(place);
    all.extend_from_slice(rest)?;
    Ok(all)
}

// Adds the answers to a line, which begin at a place. Returns the place after them.
fn add_line_answers<'a>(
    all: &mut Vec<&'a [u8]>,
    line: &[u8],
    most: usize,
    given: &[&'a [u8]],
    place: usize,
) -> Result<usize, AllocError>
    requires { place ≤ length given.now }
    ensures kept { IfOk result (λ end. map (λ answer. answer.now) all.new.items
        ≡ map (λ answer. answer.now) all.old.items
        ++ answers_to most line.now (map (λ answer. answer.now) (drop place given.now))) }
    ensures left { IfOk result (λ end. map (λ answer. answer.now) (drop end given.now)
        ≡ left_for_line most line.now (map (λ answer. answer.now) (drop place given.now))) }
    ensures within { IfOk result (λ end. end ≤ length given.now) }
{
    if line.is_empty() {
        return Ok(place);
    }
    let (_, rest) = given.split_at(place);
    let used = add_answers(all, count(line, most), rest)?;
    Ok(place + used)
}

// Adds the answers to a line of `n` pieces. Returns how many answers were used.
fn add_answers<'a>(
    all: &mut Vec<&'a [u8]>,
    n: usize,
    given: &[&'a [u8]],
) -> Result<usize, AllocError>
    ensures kept { IfOk result (λ used. map (λ answer. answer.now) all.new.items
        ≡ map (λ answer. answer.now) all.old.items
        ++ answers_kept n (map (λ answer. answer.now) given.now)) }
    ensures left { IfOk result (λ used. map (λ answer. answer.now) (drop used given.now)
        ≡ left_after n (map (λ answer. answer.now) given.now)) }
    ensures within { IfOk result (λ used. used ≤ length given.now) }
{
    let pieces = n.min(given.len());
    let (these, others) = given.split_at(pieces);
    let answer = one_of(these);
    let rows = rows_of(answer).min(others.len());
    let (those, _) = others.split_at(rows);
    all.push(answer)?;
    all.extend_from_slice(those)?;
    Ok(pieces + rows)
}

// The last answer, or the first that is neither the same nor `ok`.
fn one_of<'a>(answers: &[&'a [u8]]) -> &'a [u8]
    ensures { result.now ≡ piece_answer (map (λ answer. answer.now) answers.now) }
{
    let Some((last, _)) = answers.split_last() else {
        return b"";
    };
    first_other(last, answers)
}

fn first_other<'a>(last: &'a [u8], answers: &[&'a [u8]]) -> &'a [u8]
    ensures { result.now ≡ other_than last.now (map (λ answer. answer.now) answers.now) }
{
    for answer in answers {
        if !is(answer, b"ok") && !is(answer, last) {
            return answer;
        }
    }
    last
}

fn is(one: &[u8], other: &[u8]) -> bool
    ensures { result ≡ same_bytes one.now other.now }
{
    one == other
}

// How many lines of an answer follow this one.
fn rows_of(answer: &[u8]) -> usize
    ensures { result ≡ rows_after answer.now }
{
    match answer.strip_prefix(b"rows ") {
        None => 0,
        Some(word) => match number(word) {
            None => 0,
            Some(count) => count as usize,
        },
    }
}
