//! Reads the header of a table that a `table` line spells.

ghost use Rattle.std.specs.Prelude.{◌≡◌, IfOk};
ghost use Rattle.cs_parse.specs.Reading.{answer_of};
ghost use Rattle.rb_script.specs.Lines.{header_of_answer};

use cs_model::Shape;
use cs_parse::{ParseError, parse};
use std::alloc::{AllocError, Global};

/// The shape, if the text is exactly one header. Returns `AllocError` if memory runs out.
pub fn header_in(alloc: Global, bytes: &[u8]) -> Result<Option<Shape>, AllocError>
    ensures { IfOk result (λ shape. shape ≡ header_of_answer (answer_of bytes.now)) }
{
    match parse(alloc, bytes) {
        Ok(changeset) => changeset.header(alloc),
        Err(ParseError::Fault(_)) => Ok(None),
        Err(ParseError::Memory) => Err(AllocError),
    }
}
