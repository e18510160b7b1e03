//! Changesets that are combined into one.

ghost use Rattle.std.specs.Prelude.{◌≡◌, ◌++◌, [], None, IfErr, IfOk, List, OnErr, OnOk, length};
ghost use Rattle.std.specs.Prelude.{take};
ghost use Rattle.cs_model.specs.{Changeset.{IsChangeset}, Section.{Section}};
ghost use Rattle.cs_write.specs.{Buffer.{given}, Text.{text_of}};
ghost use Rattle.cs_group.specs.Adding.{Knows, ReportsClash, ReportsIfClash, first_refused};
ghost use Rattle.cs_group.specs.{Adding.{sections_in}, Group.{first_clash, group_of}};

use crate::clash::{error_of_all, error_of_one};
use crate::error::GroupError;
use crate::known::{Tables, admit_all};
use crate::output::changeset_of;
use cs_model::{Changeset, SectionRef, SectionRefs, TextChangeset};
use cs_write::write_to;
use indexmap::IndexMap;
use std::alloc::{AllocError, Global};
use std::marker::Model;

/// Changesets to combine, as SQLite's changegroups do ("The Session Extension"). A group borrows
/// its changesets, and copies nothing of them before `output`. Contracts see the sections of all
/// changesets that were added, one changeset's after another's.
#[derive(Drop)]
pub struct Group<'a> {
    added: Vec<SectionRef<'a>>,
    tables: Tables<'a>,
}

impl<'a> Model for Group<'a> {
    ghost use Rattle.std.specs.Prelude.{List};
    ghost use Rattle.cs_model.specs.{Changeset.{IsChangeset}, Section.{Section}};
    ghost use Rattle.cs_group.specs.Adding.{Knows};

    ghost Value = { List Section };

    ghost view = { λ g. g.added.items };

    ghost invariant = { λ g. IsChangeset g.added.items × Knows g.added.items g.tables.entries };
}

impl<'a> Group<'a> {
    /// A group without changesets. Does not allocate.
    pub fn new(alloc: Global) -> Group<'a>
        ensures { result ≡ [] }
    {
        Group {
            added: Vec::new(alloc),
            tables: IndexMap::new(alloc),
        }
    }

    /// Adds a changeset. Works as `sqlite3changegroup_add`.
    ///
    /// Returns `Clash` with the first section whose table has the name of an earlier section's and
    /// another shape, or `Memory` if there is none and memory runs out. An `Err` does not change
    /// the group.
    pub fn add(&mut self, changeset: &'a Changeset) -> Result<(), GroupError>
        ensures ok { OnOk result (self.new ≡ self.old ++ changeset.now) }
        ensures fits { OnOk result (first_clash self.old changeset.now ≡ None) }
        ensures refused { IfErr result (λ e. ReportsClash e (first_clash self.old changeset.now)) }
        ensures err { OnErr result (self.new ≡ self.old) }
    {
        self.add_sections(changeset.iter())
    }

    /// The same for a changeset that stands in its text.
    pub fn add_text(&mut self, changeset: &'a TextChangeset<'a>) -> Result<(), GroupError>
        ensures ok { OnOk result (self.new ≡ self.old ++ changeset.now) }
        ensures fits { OnOk result (first_clash self.old changeset.now ≡ None) }
        ensures refused { IfErr result (λ e. ReportsClash e (first_clash self.old changeset.now)) }
        ensures err { OnErr result (self.new ≡ self.old) }
    {
        self.add_sections(changeset.iter())
    }

    // adds the sections of a changeset
    fn add_sections(&mut self, sections: SectionRefs<'a>) -> Result<(), GroupError>
        requires { IsChangeset sections }
        ensures ok { OnOk result (self.new ≡ self.old ++ sections.entry) }
        ensures fits { OnOk result (first_clash self.old sections.entry ≡ None) }
        ensures refused { IfErr result (λ e. ReportsClash e (first_clash self.old sections.entry)) }
        ensures err { OnErr result (self.new ≡ self.old) }
    {
        let known = self.tables.len();
        let held = self.added.len();
        if let Err(error) = take_in(&mut self.tables, &mut self.added, sections.again()) {
            self.tables.truncate(known);
            self.added.truncate(held);
            return Err(error_of_one(error, &self.added, &sections));
        }
        Ok(())
    }

    /// The changesets as one. Works as `sqlite3changegroup_output`: each row has at most one
    /// change, and a table of which nothing is left has no section. Returns `AllocError` if memory
    /// runs out.
    pub fn output(&self, alloc: Global) -> Result<Changeset, AllocError>
        ensures { IfOk result (λ made. made ≡ group_of self.now) }
    {
        changeset_of(alloc, &self.added)
    }

    /// Writes the canonical text of `output` to the front of `out`, and returns its length in
    /// bytes. If `out` is shorter, writes nothing. Returns `AllocError` if memory runs out, which
    /// does not change `out`.
    pub fn write_to(&self, alloc: Global, out: &mut [u8]) -> Result<usize, AllocError>
        ensures length { IfOk result (λ n. n ≡ length (text_of (group_of self.now))) }
        ensures written { OnOk result (out.new ≡ given (text_of (group_of self.now)) out.old) }
        ensures err { OnErr result (out.new ≡ out.old) }
    {
        write_to(alloc, &self.output(alloc)?, out)
    }
}

// Adds sections and their tables. An `Err` may have added some.
fn take_in<'a>(
    tables: &mut Tables<'a>,
    added: &mut Vec<SectionRef<'a>>,
    sections: SectionRefs<'a>,
) -> Result<(), GroupError>
    ensures ok { OnOk result (added.new.items ≡ added.old.items ++ sections.entry) }
    ensures knows { OnOk result (Knows added.old.items tables.old.entries
        → Knows added.new.items tables.new.entries) }
    ensures fits { OnOk result (Knows added.old.items tables.old.entries
        → first_clash added.old.items sections.entry ≡ None) }
    ensures refused { IfErr result (λ e. Knows added.old.items tables.old.entries
        → ReportsIfClash e (first_clash added.old.items sections.entry)) }
    ensures kept { take (length tables.old.entries) tables.new.entries ≡ tables.old.entries }
    ensures front { take (length added.old.items) added.new.items ≡ added.old.items }
{
    let held = added.len();
    push_all(added, sections)?;
    let (_, more) = added.split_at(held);
    admit_all(tables, more)
}

// Appends sections. An `Err` may have appended some.
fn push_all<'a>(
    added: &mut Vec<SectionRef<'a>>,
    sections: SectionRefs<'a>,
) -> Result<(), AllocError>
    ensures ok { OnOk result (added.new.items ≡ added.old.items ++ sections.entry) }
    ensures front { take (length added.old.items) added.new.items ≡ added.old.items }
{
    for section in sections {
        added.push(section)?;
    }
    Ok(())
}

/// Combines changesets into one: the `output` of a group of them.
///
/// Returns the `Clash` of the first `add` that finds a clash, or `Memory` if no section clashes
/// and memory runs out.
pub fn combine(alloc: Global, changesets: &[Changeset]) -> Result<Changeset, GroupError>
    ensures ok { IfOk result (λ made. made ≡ group_of (sections_in changesets.now)) }
    ensures fits { OnOk result (first_refused [] changesets.now ≡ None) }
    ensures refused { IfErr result (λ e. ReportsClash e (first_refused [] changesets.now)) }
{
    match grouped(alloc, changesets) {
        Ok(group) => Ok(group.output(alloc)?),
        Err(error) => Err(error_of_all(error, changesets)),
    }
}

// The group of changesets. Changesets after one at which memory ran out aren't looked at.
fn grouped<'a>(alloc: Global, changesets: &'a [Changeset]) -> Result<Group<'a>, GroupError>
    ensures ok { IfOk result (λ group. group ≡ sections_in changesets.now) }
    ensures fits { OnOk result (first_refused [] changesets.now ≡ None) }
    ensures refused { IfErr result (λ e. ReportsIfClash e (first_refused [] changesets.now)) }
{
    let mut group = Group::new(alloc);
    for changeset in changesets {
        group.add(changeset)?;
    }
    Ok(group)
}
