//! A changeset under construction: its sections and the pending bytes after them.

ghost use Rattle.std.specs.Prelude.{◌≡◌, ◌≤◌, ◌<◌, [], ◌++◌, take, drop, length, OnOk};
ghost use Rattle.std.specs.Prelude.{OnErr, MatchOption};
ghost use Rattle.std.specs.Option.{option_copied};
ghost use Rattle.cs_model.specs.Changeset.{IsChangeset};
ghost use Rattle.cs_parse.specs.Front.{JoinsSection};
ghost use Rattle.cs_parse.specs.Growing.{with_text};
ghost use Rattle.cs_parse.specs.Progress.{last_flags};

use cs_model::{Changeset, Sections};
use std::alloc::{AllocError, Global};
use std::marker::Model;

/// Complete changes: the length of their bytes, their number, and whether these bytes are in
/// canonical form.
#[derive(Clone, Copy, Debug)]
pub struct WholeChanges {
    pub len: usize,
    pub count: usize,
    pub canonical: bool,
}

/// Sections, the last of which may still grow, and the pending bytes of an incomplete header or
/// change. Contracts see both lists.
#[derive(Debug, Drop)]
pub struct Growing {
    changeset: Changeset,
    pending: Vec<u8>,
}

impl Model for Growing {
    ghost use Rattle.std.specs.Prelude.{ℕ, List};
    ghost use Rattle.std.specs.Coded.{coded×, coded_list, coded_ℕ};
    ghost use Rattle.cs_model.specs.Section.{Section, section_code};

    ghost Value = { List Section × List ℕ };

    ghost coded = { coded× (coded_list section_code) (coded_list coded_ℕ) };

    ghost view = { λ g. (g.changeset, g.pending.items) };
}

// removes the first `len` bytes
fn drop_front(bytes: &mut Vec<u8>, len: usize)
    requires { len ≤ length bytes.old.items }
    ensures { bytes.new.items ≡ drop len bytes.old.items }
{
    let all = bytes.len();
    bytes.as_mut_slice().copy_within(len..all, 0);
    bytes.truncate(all - len);
}

impl Growing {
    /// No sections. Does not allocate.
    pub fn new(alloc: Global) -> Growing
        ensures { result ≡ ([], []) }
    {
        Growing {
            changeset: Changeset::new(alloc),
            pending: Vec::new(alloc),
        }
    }

    /// The pending bytes.
    pub fn waiting(&self) -> &[u8]
        ensures { result.now ≡ self.now.1 }
    {
        &self.pending
    }

    /// The key flags of the last section's table.
    pub fn last_flags(&self) -> Option<&[u8]>
        ensures flags { option_copied result ≡ last_flags self.now.0 }
        ensures valid { IsChangeset self.now.0 }
    {
        self.changeset.last_flags()
    }

    /// The sections, if no bytes are pending.
    pub fn whole(&self) -> Option<&Changeset>
        ensures { MatchOption result (0 < length self.now.1)
            (λ changeset. (changeset.now ≡ self.now.0) × (self.now.1 ≡ [])) }
    {
        if self.pending.is_empty() {
            Some(&self.changeset)
        } else {
            None
        }
    }

    /// The sections, without a copy.
    pub fn into_changeset(self) -> Changeset
        requires { self.1 ≡ [] }
        ensures { result ≡ self.0 }
    {
        let Growing { mut changeset, .. } = self;
        changeset.shrink_to_fit();
        changeset
    }

    /// Appends to the pending bytes. An `Err` changes nothing.
    pub fn extend(&mut self, piece: &[u8]) -> Result<(), AllocError>
        ensures ok { OnOk result (self.new ≡ (self.old.0, self.old.1 ++ piece.now)) }
        ensures err { OnErr result (self.new ≡ self.old) }
    {
        self.pending.extend_from_slice(piece)
    }

    /// Truncates the pending bytes to the first `len`.
    pub fn shorten(&mut self, len: usize)
        requires { len ≤ length self.old.1 }
        ensures { self.new ≡ (self.old.0, take len self.old.1) }
    {
        self.pending.truncate(len);
    }

    /// Moves these changes, the first of the pending bytes, to the last section. An `Err` changes
    /// nothing.
    pub fn keep(&mut self, alloc: Global, whole: WholeChanges) -> Result<(), AllocError>
        requires inside { whole.len ≤ length self.old.1 }
        requires joins { JoinsSection (last_flags self.old.0) (take whole.len self.old.1)
            whole.count whole.canonical }
        requires valid { IsChangeset (with_text self.old.0 (take whole.len self.old.1)) }
        ensures ok { OnOk result (self.new
            ≡ (with_text self.old.0 (take whole.len self.old.1), drop whole.len self.old.1)) }
        ensures err { OnErr result (self.new ≡ self.old) }
    {
        if whole.len == 0 {
            return Ok(());
        }
        add(
            &mut self.changeset,
            &self.pending,
            whole,
            Sections::new(alloc),
        )?;
        drop_front(&mut self.pending, whole.len);
        Ok(())
    }

    /// The same, but then adds other sections, and makes `rest` the pending bytes. An `Err` changes
    /// nothing.
    pub fn join(
        &mut self,
        whole: WholeChanges,
        others: Sections,
        rest: Vec<u8>,
    ) -> Result<(), AllocError>
        requires inside { whole.len ≤ length self.old.1 }
        requires joins { JoinsSection (last_flags self.old.0) (take whole.len self.old.1)
            whole.count whole.canonical }
        requires valid { IsChangeset
            (with_text self.old.0 (take whole.len self.old.1) ++ others) }
        ensures ok { OnOk result (self.new
            ≡ (with_text self.old.0 (take whole.len self.old.1) ++ others, rest.items)) }
        ensures err { OnErr result (self.new ≡ self.old) }
    {
        add(&mut self.changeset, &self.pending, whole, others)?;
        self.pending = rest;
        Ok(())
    }
}

// Adds these changes, the first in `bytes`, to the last section, and then other sections. An `Err`
// changes nothing.
fn add(
    changeset: &mut Changeset,
    bytes: &[u8],
    whole: WholeChanges,
    others: Sections,
) -> Result<(), AllocError>
    requires inside { whole.len ≤ length bytes.now }
    requires joins { JoinsSection (last_flags changeset.old) (take whole.len bytes.now)
        whole.count whole.canonical }
    requires valid { IsChangeset (with_text changeset.old (take whole.len bytes.now) ++ others) }
    ensures ok { OnOk result (changeset.new
        ≡ with_text changeset.old (take whole.len bytes.now) ++ others) }
    ensures err { OnErr result (changeset.new ≡ changeset.old) }
{
    let (text, _) = bytes.split_at(whole.len);
    // no section can have changes yet
    let Some(flags) = changeset.last_flags() else {
        return changeset.append(others);
    };
    let columns = flags.len();
    changeset.join(columns, text, whole.count, whole.canonical, others)
}
