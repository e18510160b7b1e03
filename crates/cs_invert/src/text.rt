//! The canonical text of a changeset's inverse.

ghost use Rattle.std.specs.Prelude.{◌≡◌, IfOk, OnErr, OnOk, length};
ghost use Rattle.cs_write.specs.Buffer.{given};
ghost use Rattle.cs_write.specs.Text.{text_of};
ghost use Rattle.cs_invert.specs.Inverse.{inverse};

use crate::inverse::inverted;
use crate::laying::put_sections;
use cs_model::TextChangeset;
use cs_write::{is_form, write_to};
use std::alloc::{AllocError, Global};

/// Writes the canonical text of a changeset's inverse to the front of `out`, and returns its length
/// in bytes, as `cs_write::write_to` does for a changeset. If `out` is shorter, writes nothing; so
/// a call with an empty buffer returns the size needed. Returns `AllocError` if memory runs out,
/// which does not change `out`.
pub fn write_inverse(
    alloc: Global,
    changeset: &TextChangeset,
    out: &mut [u8],
) -> Result<usize, AllocError>
    ensures length { IfOk result (λ n. n ≡ length (text_of (inverse changeset.now))) }
    ensures written { OnOk result (out.new ≡ given (text_of (inverse changeset.now)) out.old) }
    ensures err { OnErr result (out.new ≡ out.old) }
{
    let sections = changeset.iter();
    if !is_form(alloc, sections.again())? {
        let inverse = inverted(alloc, sections)?;
        return write_to(alloc, &inverse, out);
    }
    let len = sections.text().len();
    if out.len() >= len {
        put_sections(sections, out);
    }
    Ok(len)
}
