//! The first clash, told without memory. Once memory has run out, no map of names can be made, so
//! each section is compared with each one before it. That takes time quadratic in the number of
//! sections.

ghost use Rattle.std.specs.Prelude.{◌≡◌, ◌++◌, [], take};
ghost use Rattle.cs_group.specs.Adding.{ReportsClash, ReportsIfClash, first_refused};
ghost use Rattle.cs_group.specs.Adding.{sections_in};
ghost use Rattle.cs_group.specs.Group.{clashes, differs_from, first_clash};

use crate::error::GroupError;
use cs_model::{Changeset, SectionRef, SectionRefs};

// whether a section's table has the name of an earlier section's and another shape
fn differs(section: &SectionRef, earlier: &SectionRef) -> bool
    ensures { result ≡ differs_from section.now earlier.now }
{
    earlier.name() == section.name() && earlier.shape() != section.shape()
}

// whether a section clashes with one of these
fn clashes_with(earlier: &[SectionRef], section: &SectionRef) -> bool
    ensures { result ≡ clashes earlier.now section.now }
{
    earlier.iter().any(|other| differs(section, other))
}

// whether a section clashes with one of the first `count` of these
fn clashes_with_first(count: usize, sections: &SectionRefs, section: &SectionRef) -> bool
    ensures { result ≡ clashes (take count sections.now) section.now }
{
    let mut left = count;
    for other in sections.again() {
        if left == 0 {
            return false;
        }
        if differs(section, &other) {
            return true;
        }
        left -= 1;
    }
    false
}

// whether a section clashes with one of these changesets
fn clashes_with_any(earlier: &[Changeset], section: &SectionRef) -> bool
    ensures { result ≡ clashes (sections_in earlier.now) section.now }
{
    for changeset in earlier {
        if clashes_with_first(changeset.len(), &changeset.iter(), section) {
            return true;
        }
    }
    false
}

// The first of `sections` that clashes with one before it, or with one of `added` or `earlier`.
fn first_clash_in(
    added: &[SectionRef],
    earlier: &[Changeset],
    sections: &SectionRefs,
) -> Option<usize>
    ensures { result ≡ first_clash (added.now ++ sections_in earlier.now) sections.now }
{
    // says that each index fits
    let _len = sections.len();
    let mut index = 0;
    for section in sections.again() {
        if clashes_with(added, &section)
            || clashes_with_any(earlier, &section)
            || clashes_with_first(index, sections, &section)
        {
            return Some(index);
        }
        index += 1;
    }
    None
}

// the same of changesets, each with those before it
fn first_refused_of(changesets: &[Changeset]) -> Option<usize>
    ensures { result ≡ first_refused [] changesets.now }
{
    for (i, changeset) in changesets.iter().enumerate() {
        let found = first_clash_in(&[], &changesets[..i], &changeset.iter());
        if found.is_some() {
            return found;
        }
    }
    None
}

// the error that reports a clash, or that memory ran out and there is none
fn error_of(clash: Option<usize>) -> GroupError
    ensures { ReportsClash result clash }
{
    match clash {
        Some(section) => GroupError::Clash { section },
        None => GroupError::Memory,
    }
}

/// The error of adding `sections` to those that were added. `error` is where the adding stopped,
/// and can be `Memory` though a section clashes.
pub(crate) fn error_of_one(
    error: GroupError,
    added: &[SectionRef],
    sections: &SectionRefs,
) -> GroupError
    requires { ReportsIfClash error (first_clash added.now sections.now) }
    ensures { ReportsClash result (first_clash added.now sections.now) }
{
    match error {
        GroupError::Clash { .. } => error,
        GroupError::Memory => error_of(first_clash_in(added, &[], sections)),
    }
}

/// The same for combining these changesets.
pub(crate) fn error_of_all(error: GroupError, changesets: &[Changeset]) -> GroupError
    requires { ReportsIfClash error (first_refused [] changesets.now) }
    ensures { ReportsClash result (first_refused [] changesets.now) }
{
    match error {
        GroupError::Clash { .. } => error,
        GroupError::Memory => error_of(first_refused_of(changesets)),
    }
}
