//! Who applies a delivery's changeset to tables: the thread that accepts it, or several workers.

ghost use Rattle.std.specs.Prelude.{◌≡◌, ◌<◌, ◌≤◌, Ok, OnOk, OnErr, IfErr};
ghost use Rattle.cs_apply.specs.Errors.{ReportsConflict};
ghost use Rattle.cs_apply.specs.Single.{single};
ghost use Rattle.rb_subscriber.specs.Applier.{Applies};

use cs_apply::{ApplyError, Tables};
use cs_model::Changeset;

/// The workers that apply a delivery, from 1 to 16. Each has the rows of its share of the keys, and
/// a thread of its own; with one worker no thread is started.
#[derive(Drop)]
pub struct Workers<'a, R, G> {
    /// What starts their threads.
    pub rt: &'a R,
    /// How many they are.
    pub n: usize,
    /// What each passes before it begins: `par_apply::Open`, or one that waits.
    pub gate: &'a G,
    ghost some: { 0 < n },
    ghost few: { n ≤ 16 },
}

/// Applies all changes of a changeset by a call that does as `Tables::apply`. Returns the first
/// conflict, or `Memory` if memory runs out. An `Err` does not change the tables.
pub(crate) fn apply_by<F: Fn(&mut Tables, &Changeset) -> Result<(), ApplyError>>(
    applier: &F,
    tables: &mut Tables,
    changeset: &Changeset,
) -> Result<(), ApplyError>
    requires { Applies F.Fn applier.now }
    ensures ok { OnOk result (single tables.old changeset.now ≡ Ok tables.new) }
    ensures refused { IfErr result (λ e. ReportsConflict e (single tables.old changeset.now)) }
    ensures err { OnErr result (tables.new ≡ tables.old) }
{
    applier(tables, changeset)
}
