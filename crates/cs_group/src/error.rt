//! The error of adding a changeset to a group.

ghost use Rattle.std.specs.Prelude.{◌≡◌};
ghost use Rattle.cs_group.specs.declared.error.GroupError.TheVariants.{Memory};

use std::alloc::{AllocError, AllocFailed};
use thiserror::Error;

/// The error of `Group::add` and `combine`. The call did not change the group.
#[derive(Clone, Copy, Debug, PartialEq, Eq, Error)]
pub enum GroupError {
    /// This section's table has the name of an earlier one's, and another number of columns or
    /// other key flags. The number is the section's index in its changeset, from 0.
    #[error("section {section} has another shape than an earlier section of its table")]
    Clash { section: usize },
    /// Out of memory; no section clashes.
    #[error("out of memory")]
    Memory,
}

impl From<AllocError> for GroupError {
    ghost from_gives = { λ _ e. e ≡ Memory };

    fn from(_e: AllocError) -> GroupError {
        GroupError::Memory
    }
}

impl<T: Drop> From<AllocFailed<T>> for GroupError {
    ghost from_gives = { λ _ e. e ≡ Memory };

    fn from(_e: AllocFailed<T>) -> GroupError {
        GroupError::Memory
    }
}
