//! The withdrawal of a changeset.

ghost use Rattle.std.specs.Prelude.{◌≡◌, [], None, IfErr, IfOk, OnOk};
ghost use Rattle.cs_model.specs.Changeset.{AgreeOnShapes};
ghost use Rattle.cs_group.specs.Adding.{ReportsClash};
ghost use Rattle.cs_group.specs.Group.{first_clash};
ghost use Rattle.cs_invert.specs.Inverse.{withdrawal_of};

use crate::inverse::invert;
use crate::laws::withdrawals_agree;
use cs_group::laws::agreeing_never_clash;
use cs_group::{Group, GroupError};
use cs_model::Changeset;
use std::alloc::{AllocError, Global};

/// Returns a changeset's withdrawal: the inverse of the group of it alone. It takes the changeset
/// back, also after others that have no change of its rows (`laws::withdrawing_undoes`). The
/// inverse alone can conflict if the changeset has several changes of a row.
///
/// Returns `Clash` with the first section whose table has the name of an earlier section's and
/// another shape, or `Memory` if there is none and memory runs out.
pub fn withdrawal(alloc: Global, changeset: &Changeset) -> Result<Changeset, GroupError>
    ensures ok { IfOk result (λ made. made ≡ withdrawal_of changeset.now) }
    ensures fits { OnOk result (first_clash [] changeset.now ≡ None) }
    ensures refused { IfErr result (λ e. ReportsClash e (first_clash [] changeset.now)) }
{
    let mut group = Group::new(alloc);
    group.add(changeset)?;
    let combined = group.output(alloc)?;
    Ok(invert(alloc, &combined)?)
}

/// The withdrawal of a changeset in which sections of one name have one shape, as in all that was
/// sent. So nothing is refused, and it can be sent too. Returns `AllocError` if memory runs out.
pub fn withdrawal_agreeing(alloc: Global, changeset: &Changeset) -> Result<Changeset, AllocError>
    requires { AgreeOnShapes changeset.now }
    ensures made { IfOk result (λ made. made ≡ withdrawal_of changeset.now) }
    ensures agrees { IfOk result (λ made. AgreeOnShapes made) }
{
    agreeing_never_clash();
    withdrawals_agree();
    match withdrawal(alloc, changeset) {
        Ok(made) => Ok(made),
        Err(GroupError::Memory) => Err(AllocError),
        Err(GroupError::Clash { .. }) => unreachable!(),
    }
}
