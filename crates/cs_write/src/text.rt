//! The canonical text of a changeset, in a new buffer or a given one.

ghost use Rattle.std.specs.Prelude.{◌≡◌, length, IfOk, OnErr, OnOk};
ghost use Rattle.cs_write.specs.Buffer.{given};
ghost use Rattle.cs_write.specs.Text.{text_of};

use crate::form::{other_form, text_beside};
use crate::placing::put_bytes;
use bytes::Bytes;
use cs_model::Changeset;
use std::alloc::{AllocError, Global};

/// Returns the canonical text of a changeset: that of `canonical`, with shortest varints and
/// indirect bytes 0 and 1. Returns `AllocError` if memory runs out.
pub fn write(alloc: Global, changeset: &Changeset) -> Result<Bytes, AllocError>
    ensures { IfOk result (λ text. text ≡ text_of changeset.now) }
{
    let text = match other_form(alloc, changeset)? {
        Some(form) => form.into_text(),
        None => Vec::from_slice(alloc, changeset.text())?,
    };
    Ok(Bytes::from_vec(text)?)
}

/// Writes the canonical text of a changeset to the front of `out`, and returns its length in bytes.
/// If `out` is shorter, writes nothing; so a call with an empty buffer returns the size needed.
/// Returns `AllocError` if memory runs out, which does not change `out`.
#[tactic(auto, using(crate::proofs::buffers::Laying::laid_first))]
pub fn write_to(alloc: Global, changeset: &Changeset, out: &mut [u8]) -> Result<usize, AllocError>
    ensures length { IfOk result (λ n. n ≡ length (text_of changeset.now)) }
    ensures written { OnOk result (out.new ≡ given (text_of changeset.now) out.old) }
    ensures err { OnErr result (out.new ≡ out.old) }
{
    let form = other_form(alloc, changeset)?;
    let text = text_beside(&form, changeset);
    if out.len() < text.len() {
        return Ok(text.len());
    }
    Ok(put_bytes(out, 0, text))
}
