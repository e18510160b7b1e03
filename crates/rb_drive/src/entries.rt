//! What a line of an input says.

ghost use Rattle.std.specs.Prelude.{◌≡◌, IfOk, map};
ghost use Rattle.rb_script.specs.Words.{bytes_of, number_in_word};
ghost use Rattle.rb_drive.specs.Reading.{changeset_of, entry_spelled, entry_of_words, table_of};
ghost use Rattle.rb_drive.specs.Reading.{three_line_words, two_line_words};

use cs_model::{Octets, Shape};
use rb_script::{header_in, is, number, octets, parts};
use std::alloc::{AllocError, Global};

// the publishers' numbers are below this
const PUBLISHERS: u64 = 64;

/// What a good line says: a table, or a changeset of a publisher.
#[derive(Drop)]
pub enum LineEntry {
    Table(Shape),
    Changeset { publisher: u64, text: Octets },
}

/// The entry of a line, if it has one. Returns `AllocError` if memory runs out.
pub fn entry_in(alloc: Global, line: &[u8]) -> Result<Option<LineEntry>, AllocError>
    ensures { IfOk result (λ entry. entry ≡ entry_spelled line.now) }
{
    let words = parts(alloc, line)?;
    entry_of_parts(alloc, &words)
}

fn entry_of_parts(alloc: Global, words: &[&[u8]]) -> Result<Option<LineEntry>, AllocError>
    ensures { IfOk result (λ entry. entry ≡ entry_of_words (map (λ word. word.now) words.now)) }
{
    match words {
        [] => Ok(None),
        [_] => Ok(None),
        [name, word] => table_line(alloc, name, word),
        [name, first, word] => changeset_line(alloc, name, first, word),
        [_, _, _, _, ..] => Ok(None),
    }
}

fn table_line(alloc: Global, name: &[u8], word: &[u8]) -> Result<Option<LineEntry>, AllocError>
    ensures { IfOk result (λ entry. entry ≡ two_line_words name.now word.now) }
{
    if is(name, b"table") {
        table(alloc, octets(alloc, word)?)
    } else {
        Ok(None)
    }
}

fn table(alloc: Global, bytes: Option<Octets>) -> Result<Option<LineEntry>, AllocError>
    ensures { IfOk result (λ entry. entry ≡ table_of bytes) }
{
    match bytes {
        None => Ok(None),
        Some(bytes) => Ok(header_in(alloc, &bytes)?.map(LineEntry::Table)),
    }
}

fn changeset_line(
    alloc: Global,
    name: &[u8],
    first: &[u8],
    word: &[u8],
) -> Result<Option<LineEntry>, AllocError>
    ensures { IfOk result (λ entry. entry ≡ three_line_words name.now first.now word.now) }
{
    if is(name, b"changeset") {
        Ok(changeset(number(first), octets(alloc, word)?))
    } else {
        Ok(None)
    }
}

fn changeset(publisher: Option<u64>, bytes: Option<Octets>) -> Option<LineEntry>
    ensures { result ≡ changeset_of publisher bytes }
{
    let publisher = publisher?;
    if publisher < PUBLISHERS {
        let text = bytes?;
        Some(LineEntry::Changeset { publisher, text })
    } else {
        None
    }
}
