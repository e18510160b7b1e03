//! Combines several texts into one, as the export `changeset_combine` does.

ghost use Rattle.std.specs.Prelude.{◌≡◌, ℕ, List, [], IfErr, IfOk, None, OnErr, OnOk, length, pos};
ghost use Rattle.cs_group.specs.{Adding.{first_refused, sections_in}, Group.{group_of}};
ghost use Rattle.cs_write.specs.{Buffer.{given}, Text.{text_of}};
ghost use Rattle.changeset_c.specs.Combining.{texts_of, ReadUntil, Refuses, ReportsFirstClash};
ghost use Rattle.changeset_c.specs.Combining.{Writes};
ghost use Rattle.changeset_c.specs.declared.combining.CombineError.TheVariants.{Memory};

use crate::results::length_told;
use cs_group::{Group, GroupError};
use cs_model::TextChangeset;
use cs_parse::{ParseError, ParseFault, parse_in_place};
use std::alloc::{AllocError, Global};

/// A text, as C passes one: a pointer and a length.
#[derive(Clone, Copy)]
#[repr(C)]
pub struct Text<'a> {
    /// The bytes of the text.
    pub bytes: &'a [u8],
}

/// Why texts can't be combined. `text` is the index of the first text that can't be added.
#[derive(Clone, Copy, Debug, Drop)]
pub enum CombineError {
    /// The text has this fault.
    Fault { text: usize, fault: ParseFault },
    /// The text spells a changeset whose section with this index clashes with an earlier one.
    Clash { text: usize, section: usize },
    /// Out of memory.
    Memory,
}

impl From<AllocError> for CombineError {
    ghost from_gives = { λ _ e. e ≡ Memory };

    fn from(_e: AllocError) -> CombineError {
        CombineError::Memory
    }
}

// the changesets of the texts before the first one with a fault, and the fault
fn read<'a>(
    alloc: Global,
    texts: &[Text<'a>],
) -> Result<(Vec<TextChangeset<'a>>, Option<ParseFault>), AllocError>
    ensures { IfOk result (λ r. ReadUntil (texts_of texts.now) r.0.items r.1) }
{
    let mut changesets = Vec::new(alloc);
    for text in texts {
        match parse_in_place(alloc, text.bytes) {
            Ok(changeset) => changesets.push(changeset)?,
            Err(ParseError::Fault(fault)) => return Ok((changesets, Some(fault))),
            Err(ParseError::Memory) => return Err(AllocError),
        }
    }
    Ok((changesets, None))
}

// the group of the changesets
fn grouped<'a>(
    alloc: Global,
    changesets: &'a [TextChangeset<'a>],
) -> Result<Group<'a>, CombineError>
    ensures ok { IfOk result (λ group. group ≡ sections_in changesets.now) }
    ensures fits { OnOk result (first_refused [] changesets.now ≡ None) }
    ensures refused { IfErr result (λ e. ReportsFirstClash e changesets.now) }
{
    let mut group = Group::new(alloc);
    for (text, changeset) in changesets.iter().enumerate() {
        match group.add_text(changeset) {
            Ok(()) => {}
            Err(GroupError::Clash { section }) => return Err(CombineError::Clash { text, section }),
            Err(GroupError::Memory) => return Err(CombineError::Memory),
        }
    }
    Ok(group)
}

// Writes the group's text if there is room for it, and returns its length.
fn written(alloc: Global, group: &Group, out: &mut [u8]) -> Result<i64, AllocError>
    ensures len { IfOk result (λ n. n ≡ pos (length (text_of (group_of group.now)))) }
    ensures ok { OnOk result (out.new ≡ given (text_of (group_of group.now)) out.old) }
    ensures err { OnErr result (out.new ≡ out.old) }
{
    length_told(group.write_to(alloc, out)?)
}

// Combines the changesets of the texts before the first one with a fault. If none has one, writes
// the text of the result if there is room for it.
fn combine_read(
    alloc: Global,
    changesets: &[TextChangeset],
    fault: Option<ParseFault>,
    out: &mut [u8],
) -> Result<i64, CombineError>
    ensures ok { IfOk result (λ n. (texts : List (List ℕ)) → ReadUntil texts changesets.now fault
        → Writes n texts out.old out.new) }
    ensures refused { IfErr result (λ e. (texts : List (List ℕ))
        → ReadUntil texts changesets.now fault → Refuses e texts) }
    ensures err { OnErr result (out.new ≡ out.old) }
{
    let group = grouped(alloc, changesets)?;
    if let Some(fault) = fault {
        let text = changesets.len();
        return Err(CombineError::Fault { text, fault });
    }
    Ok(written(alloc, &group, out)?)
}

/// Combines the texts, and writes the text of the result if there is room for it.
pub fn combined(alloc: Global, texts: &[Text], out: &mut [u8]) -> Result<i64, CombineError>
    ensures ok { IfOk result (λ n. Writes n (texts_of texts.now) out.old out.new) }
    ensures refused { IfErr result (λ e. Refuses e (texts_of texts.now)) }
    ensures err { OnErr result (out.new ≡ out.old) }
{
    let (changesets, fault) = read(alloc, texts)?;
    combine_read(alloc, &changesets, fault, out)
}
