//! The bodies of entries: which the tables don't admit, their group, and applying it to tables.

ghost use Rattle.std.specs.{
  Prelude.{◌≡◌, ◌∷◌, [], true, false, Ok, OnOk, OnErr, IfOk, IfErr, ◌++◌, IfNone, IfSome, None},
  List.{AllByRecursion},
  Option.{option_copied},
};
ghost use Rattle.cs_apply.specs.{Errors.{ReportsConflict}, Single.{single}};
ghost use Rattle.cs_group.specs.Group.{group_of};
ghost use Rattle.cs_model.specs.Schema.{refusal_of};
ghost use Rattle.rb_subscriber.specs.{
  Accept.{AreChangesets, IsAdmitted, first_outside_entry, joined_bodies},
  Applier.{Applies},
};

use crate::applier::apply_by;
use crate::brought::Brought;
use cs_apply::{ApplyError, Tables};
use cs_group::laws::{admitted_never_clash, groups_apply};
use cs_group::{Group, GroupError};
use cs_model::{Changeset, Schema};
use rb_sequence::Entry;
use std::alloc::{AllocError, Global};

/// The first entry whose body has a section that the schema doesn't admit. If there is none, the
/// schema admits all bodies, and they are changesets.
pub(crate) fn outside<'a, E: Brought>(schema: &Schema, entries: &'a E) -> Option<&'a Entry>
    ensures first { option_copied result ≡ first_outside_entry schema.now (E.entries entries.now) }
    ensures valid { IfNone result (AreChangesets (E.entries entries.now)) }
    ensures admitted { IfNone result
        (AllByRecursion (IsAdmitted schema.now) (E.entries entries.now)) }
{
    for index in 0..entries.count() {
        let entry = entries.entry(index);
        let body = entry.body();
        // for what its clause says: the body is a changeset
        let _sections = body.iter();
        if schema.admits(body).is_err() {
            return Some(entry);
        }
    }
    None
}

/// The changesets of entries as one, their group ("The Session Extension", changegroups). The
/// schema admits them all, so no two sections clash. Returns `AllocError` if memory runs out.
pub fn combined<E: Brought>(
    alloc: Global,
    schema: &Schema,
    entries: &E,
) -> Result<Changeset, AllocError>
    requires { AllByRecursion (IsAdmitted schema.now) (E.entries entries.now) }
    ensures { IfOk result (λ made. made ≡ group_of (joined_bodies (E.entries entries.now))) }
{
    let mut group = Group::new(alloc);
    for index in 0..entries.count() {
        add(schema, &mut group, entries.entry(index).body())?;
    }
    group.output(alloc)
}

// Adds a changeset to a group. The schema admits it, and all that is in the group, so it can't
// clash.
fn add<'a>(schema: &Schema, group: &mut Group<'a>, body: &'a Changeset) -> Result<(), AllocError>
    requires group { refusal_of schema.now group.old ≡ None }
    requires body { refusal_of schema.now body.now ≡ None }
    ensures ok { OnOk result (group.new ≡ group.old ++ body.now) }
    ensures admitted { OnOk result (refusal_of schema.now group.new ≡ None) }
{
    admitted_never_clash();
    // for what its clause says: no table is refused
    let _tables = schema.tables();
    match group.add(body) {
        Ok(()) => Ok(()),
        Err(GroupError::Memory) => Err(AllocError),
        Err(GroupError::Clash { .. }) => unreachable!(),
    }
}

// Applies a single body as it is. If it doesn't conflict, the tables are those that its group
// leaves. Otherwise the tables don't change.
fn applies_alone<E: Brought, F: Fn(&mut Tables, &Changeset) -> Result<(), ApplyError>>(
    applier: &F,
    tables: &mut Tables,
    entries: &E,
) -> Result<bool, AllocError>
    requires { Applies F.Fn applier.now }
    ensures applied { IfOk result (λ applied. applied ≡ true
        → single tables.old (group_of (joined_bodies (E.entries entries.now))) ≡ Ok tables.new) }
    ensures conflict { IfOk result (λ applied. applied ≡ false → tables.new ≡ tables.old) }
    ensures err { OnErr result (tables.new ≡ tables.old) }
{
    groups_apply();
    let Some(entry) = only(entries) else {
        return Ok(false);
    };
    // for what their clauses say: each row has its columns, and the body is a changeset
    let (_schema, _sections) = (tables.schema(), entry.body().iter());
    match apply_by(applier, tables, entry.body()) {
        Ok(()) => return Ok(true),
        Err(ApplyError::Conflict(_)) => return Ok(false),
        Err(ApplyError::Memory) => return Err(AllocError),
    }
}

/// The entry, if it is the only one.
pub(crate) fn only<E: Brought>(entries: &E) -> Option<&Entry>
    ensures { IfSome result (λ entry. E.entries entries.now ≡ entry.now ∷ []) }
{
    if entries.count() == 1 {
        return Some(entries.entry(0));
    }
    None
}

/// Applies the group of the bodies of entries: all of its changes, or none. An error does not
/// change the tables. A single body is applied as it is, and grouped only if it conflicts: its
/// group leaves the same tables, and grouping costs more than applying.
pub(crate) fn apply<E: Brought, F: Fn(&mut Tables, &Changeset) -> Result<(), ApplyError>>(
    applier: &F,
    alloc: Global,
    tables: &mut Tables,
    entries: &E,
) -> Result<(), ApplyError>
    requires applier { Applies F.Fn applier.now }
    requires admitted { AllByRecursion (IsAdmitted tables.old.schema) (E.entries entries.now) }
    ensures ok { OnOk result (single tables.old (group_of (joined_bodies (E.entries entries.now)))
        ≡ Ok tables.new) }
    ensures refused { IfErr result
        (λ e. ReportsConflict e
        (single tables.old (group_of (joined_bodies (E.entries entries.now))))) }
    ensures err { OnErr result (tables.new ≡ tables.old) }
{
    match applies_alone(applier, tables, entries) {
        Ok(true) => return Ok(()),
        Ok(false) => {}
        Err(_) => return Err(ApplyError::Memory),
    }
    let Ok(changeset) = combined(alloc, tables.schema(), entries) else {
        return Err(ApplyError::Memory);
    };
    apply_by(applier, tables, &changeset)
}
