//! Reads the pending bytes after the sections of a growing changeset, and moves what is complete to
//! them.

ghost use Rattle.std.specs.Prelude.{◌≡◌, ◌<◌, IfOk, IfErr, Option, List, Some};
ghost use Rattle.std.specs.Option.{option_copied};
ghost use Rattle.cs_model.specs.Section.{Section};
ghost use Rattle.cs_parse.specs.Front.{fault_by, Brings, IsBroken, Grows, Heads, Tails, Waits};
ghost use Rattle.cs_parse.specs.Front.{KeepsSpot, stop_after};
ghost use Rattle.cs_parse.specs.Lack.{WaitsFor};
ghost use Rattle.cs_parse.specs.Progress.{last_flags, read_on};
ghost use Rattle.cs_parse.specs.declared.stop.ParseRefusal.TheVariants.{Short};

use crate::change::{is_over, whole_changes};
use crate::fault::{ParseError, ParseFault};
use crate::growing::{Growing, WholeChanges};
use crate::header_spot::header_short;
use crate::section::{sections_counted, whole_sections};
use crate::spot::{Spot, still_short};
use crate::stop::ParseRefusal;
use cs_model::Sections;
use cs_model::laws::{changes_fit, spelled_is_said};
use std::alloc::{AllocError, Global};

// Scans the complete changes that `bytes` begins with, of the last section's table, which has these
// key flags. Returns their number, the bytes after them, whether they are canonical, and why the
// next change isn't read.
fn head_of<'a>(
    flags: Option<&[u8]>,
    bytes: &'a [u8],
) -> (usize, &'a [u8], bool, Option<ParseRefusal>)
    ensures { Heads (option_copied flags.entry) bytes.now result.0 result.1.now result.2
        result.3 }
{
    match flags {
        None => (0, bytes, true, None),
        Some(flags) => whole_changes(flags, bytes),
    }
}

// Reads the complete sections after these changes. Returns them, the bytes after them, and why no
// more is read. Reads no section if a change wasn't read.
fn tail_of(
    alloc: Global,
    stopped: Option<ParseRefusal>,
    bytes: &[u8],
) -> Result<(Sections, &[u8], Option<ParseRefusal>), AllocError>
    ensures { IfOk result (λ x. Tails stopped bytes.now x.0 x.1.now x.2) }
{
    match stopped {
        None => {
            let (sections, rest, why) = whole_sections(alloc, bytes)?;
            Ok((sections.into_sections(alloc)?, rest, why))
        }
        Some(why) => Ok((Sections::new(alloc), bytes, Some(why))),
    }
}

// Why no more is read after these changes. Finds it without memory.
fn end_of(stopped: Option<ParseRefusal>, bytes: &[u8]) -> Option<ParseRefusal>
    ensures { result ≡ stop_after stopped bytes.now }
{
    if stopped.is_some() {
        return stopped;
    }
    match sections_counted(bytes) {
        Ok(_) => None,
        Err(why) => Some(why),
    }
}

// The fault of a text of which `taken` bytes are taken, if a wrong byte stopped the reader.
fn wrong_in(taken: usize, why: Option<ParseRefusal>) -> Option<ParseFault>
    ensures { result ≡ fault_by taken why }
{
    match why {
        Some(ParseRefusal::Bad { left, kind }) => Some(ParseFault {
            at: taken.saturating_sub(left),
            kind,
        }),
        Some(ParseRefusal::Short) => None,
        None => None,
    }
}

/// Returns a lower bound on the bytes missing from the header or change that begins after these
/// sections. Also returns whether it is a header; the bound then counts nonzero bytes only. The
/// result holds after all sections whose last table has the same key flags.
///
/// Advances the spot, so that the next call doesn't scan these bytes again. A bound of 0 means that
/// an item is complete or a byte is wrong; the spot is then unspecified.
pub fn still_waits(flags: Option<&[u8]>, bytes: &[u8], spot: &mut Spot) -> (usize, bool)
    requires { Waits (option_copied flags) bytes.now spot.old }
    ensures waits { 0 < result.0 → (others : List Section)
        → last_flags others ≡ option_copied flags.entry → read_on others bytes.now
        ≡ record { sections = others; rest = bytes.now; why = Some Short } }
    ensures lacks { (others : List Section) → last_flags others ≡ option_copied flags.entry
        → WaitsFor others bytes.now result.1 result.0 }
    ensures spot { 0 < result.0 → KeepsSpot (option_copied flags.entry) bytes.now spot.new }
{
    if bytes.is_empty() {
        return (0, false);
    }
    if is_over(bytes) {
        return (header_short(bytes, spot), true);
    }
    let Some(flags) = flags else {
        return (0, false);
    };
    (still_short(flags, bytes, spot), false)
}

/// The error when memory runs out for bytes after these sections. It is the bytes' fault if one of
/// them is wrong, because finding a fault does not allocate. `taken` is the number of bytes of the
/// text up to their end. The result is the same after all sections whose last table is this one.
pub fn unread(flags: Option<&[u8]>, bytes: &[u8], taken: usize) -> ParseError
    ensures { (others : List Section) → last_flags others ≡ option_copied flags.entry
        → IsBroken result taken others bytes.now }
{
    changes_fit();
    spelled_is_said();
    let (_, behind, _, stopped) = head_of(flags, bytes);
    match wrong_in(taken, end_of(stopped, behind)) {
        Some(fault) => ParseError::Fault(fault),
        None => ParseError::Memory,
    }
}

// Reads the pending bytes without changing the sections. Returns the last section's changes, the
// sections after them, and the remaining bytes. The result is the same after all sections whose
// last table is this one.
fn brought<'a>(
    alloc: Global,
    flags: Option<&[u8]>,
    bytes: &'a [u8],
    taken: usize,
) -> Result<(WholeChanges, Sections, &'a [u8]), ParseError>
    ensures ok { IfOk result (λ x. (others : List Section) → last_flags others
        ≡ option_copied flags.entry → Brings taken x.0.len x.0.count x.0.canonical x.1 x.2.now
        others bytes.now) }
    ensures err { IfErr result (λ error. (others : List Section)
        → last_flags others ≡ option_copied flags.entry → IsBroken error taken others bytes.now) }
{
    changes_fit();
    spelled_is_said();
    let (count, behind, canonical, stopped) = head_of(flags, bytes);
    let Ok((more, rest, why)) = tail_of(alloc, stopped, behind) else {
        return Err(unread(flags, bytes, taken));
    };
    if let Some(fault) = wrong_in(taken, why) {
        return Err(ParseError::Fault(fault));
    }
    let whole = WholeChanges {
        len: bytes.len() - behind.len(),
        count,
        canonical,
    };
    Ok((whole, more, rest))
}

/// Reads the pending bytes as far as they are complete, and adds what they encode to the sections.
/// `taken` is the number of bytes of the text up to the end of these; it places a fault. An `Err`
/// changes nothing. `Memory` comes only if none of the bytes is wrong.
pub fn grow(alloc: Global, text: &mut Growing, taken: usize) -> Result<(), ParseError>
    ensures { Grows result taken text.old text.new }
{
    let (whole, more, rest) = brought(alloc, text.last_flags(), text.waiting(), taken)?;
    if more.is_empty() {
        text.keep(alloc, whole)?;
        return Ok(());
    }
    let rest = Vec::from_slice(alloc, rest)?;
    text.join(whole, more, rest)?;
    Ok(())
}
