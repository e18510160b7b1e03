//! The tables of `table` lines, and the rows of `row` lines.

ghost use Rattle.std.specs.Prelude.{◌≡◌, ◌++◌, ◌∷◌, [], map, option_map, IfOk, OnOk};
ghost use Rattle.cs_parse.specs.Reading.{answer_of};
ghost use Rattle.rb_script.specs.Lines.{header_of_answer};
ghost use Rattle.rb_show.specs.Shown.{bytes_of_words, bytes_with_front, row_among, spelled_after};
ghost use Rattle.rb_show.specs.Shown.{spelled_by, spelled_in_words, table_shown, tables_at};
ghost use Rattle.rb_show.specs.Shown.{tables_shown};
ghost use Rattle.rb_show.specs.ShownTexts.{named_row, tables_seen};

use cs_model::{Changeset, Octets, RecordRef, Schema, SchemaError, Seq};
use cs_parse::{ParseError, parse};
use rb_script::{header_in, number, octets};
use std::alloc::{AllocError, Global};

/// The tables that `table` lines gave, each with the header that its line spells.
#[derive(Debug, Drop)]
pub struct TableList {
    pub schema: Schema,
    pub headers: Vec<Octets>,
}

/// A row: its table's name, and its values, where they stand in a changeset.
#[derive(Drop)]
pub struct NamedRow<'a> {
    pub name: &'a [u8],
    pub values: RecordRef<'a>,
}

impl TableList {
    /// No tables. Does not allocate.
    pub fn none(alloc: Global) -> TableList
        ensures { tables_seen result ≡ tables_at [] [] }
    {
        TableList {
            schema: Schema::empty(alloc),
            headers: Vec::new(alloc),
        }
    }

    /// Adds the table that `table` with these words gives, if it gives one. Returns `AllocError` if
    /// memory runs out.
    pub fn add(&mut self, alloc: Global, words: &[&[u8]]) -> Result<(), AllocError>
        ensures { OnOk result (tables_seen self.new
            ≡ tables_shown (tables_seen self.old) (map (λ word. word.now) words.now)) }
    {
        match words {
            [word] => match octets(alloc, word)? {
                None => Ok(()),
                Some(header) => self.add_header(alloc, header),
            },
            _ => Ok(()),
        }
    }

    // Adds the table with this header, if it is exactly one and the table isn't refused.
    fn add_header(&mut self, alloc: Global, header: Octets) -> Result<(), AllocError>
        ensures { OnOk result (tables_seen self.new
            ≡ table_shown (tables_seen self.old) (Some header)) }
    {
        let Some(shape) = header_in(alloc, &header)? else {
            return Ok(());
        };
        match self.schema.add(shape) {
            Ok(()) => Ok(self.headers.push(header)?),
            Err(SchemaError::Fault(_)) => Ok(()),
            Err(SchemaError::Memory) => Err(AllocError),
        }
    }

    /// The changeset that `row` with these words spells, if they spell one. Returns `AllocError`
    /// if memory runs out.
    pub fn row(&self, alloc: Global, words: &[&[u8]]) -> Result<Option<Changeset>, AllocError>
        ensures { IfOk result (λ made. made
            ≡ spelled_in_words (tables_seen self.now) (map (λ word. word.now) words.now)) }
    {
        let Some((word, hex)) = words.split_first() else {
            return Ok(None);
        };
        let Some(table) = number(word) else {
            return Ok(None);
        };
        let headers: &[Octets] = &self.headers;
        match headers.get(table as usize) {
            None => Ok(None),
            Some(header) => row_of(alloc, header, hex),
        }
    }
}

// the changeset of a row of the table with this header whose bytes these words spell
fn row_of(alloc: Global, header: &[u8], hex: &[&[u8]]) -> Result<Option<Changeset>, AllocError>
    ensures { IfOk result (λ made. made
        ≡ spelled_after header.now (bytes_of_words (map (λ word. word.now) hex.now))) }
{
    match insert_text(alloc, header, hex)? {
        None => Ok(None),
        Some(text) => changeset_in(alloc, &text),
    }
}

// the header, the two bytes of a direct INSERT and the bytes that the words spell
fn insert_text(alloc: Global, header: &[u8], hex: &[&[u8]]) -> Result<Option<Octets>, AllocError>
    ensures { IfOk result (λ text. text ≡ bytes_with_front (header.now ++ 18 ∷ 0 ∷ [])
        (bytes_of_words (map (λ word. word.now) hex.now))) }
{
    let mut text = Vec::from_slice(alloc, header)?;
    text.extend_from_slice(&[18, 0])?;
    for word in hex {
        let Some(bytes) = octets(alloc, word)? else {
            return Ok(None);
        };
        text.extend_from_slice(&bytes)?;
    }
    Ok(Some(Seq::from_vec(text)))
}

// the changeset that the text encodes, if it encodes one
fn changeset_in(alloc: Global, text: &[u8]) -> Result<Option<Changeset>, AllocError>
    ensures { IfOk result (λ made. made ≡ spelled_by (answer_of text.now)) }
{
    match parse(alloc, text) {
        Ok(changeset) => Ok(Some(changeset)),
        Err(ParseError::Fault(_)) => Ok(None),
        Err(ParseError::Memory) => Err(AllocError),
    }
}

/// The new record of the only change, if there is one change.
pub fn row_alone_in(changeset: &Changeset) -> Option<NamedRow>
    ensures { option_map named_row result ≡ row_among changeset.now }
{
    let mut sections = changeset.iter();
    let section = sections.next()?;
    if sections.next().is_some() || section.len() != 1 {
        return None;
    }
    let change = section.changes().next()?;
    Some(NamedRow {
        name: section.name(),
        values: change.after,
    })
}
