//! The changesets of placed entries as one.

ghost use Rattle.std.specs.Prelude.{◌≡◌, List, IfOk, IfSome, IsSome, OnErr};
ghost use Rattle.std.specs.List.{AllByRecursion};
ghost use Rattle.cs_model.specs.declared.shape.Shape.{Shape};
ghost use Rattle.std.specs.Option.{option_map};
ghost use Rattle.rb_core.specs.Combined.{combined_of, placed_span};
ghost use Rattle.rb_subscriber.specs.Accept.{IsAdmitted};

use crate::world::World;
use cs_model::Changeset;
use rb_sequence::Entry;
use rb_subscriber::combined;
use std::alloc::{AllocError, Global};

impl World {
    /// The changesets of the entries numbered `first` to `last` as one ("The Session Extension",
    /// changegroups). Returns `None` unless 1 <= `first` <= `last` and `last` is placed. Otherwise
    /// returns `AllocError` if memory runs out.
    pub fn combined(
        &self,
        alloc: Global,
        first: u64,
        last: u64,
    ) -> Result<Option<Changeset>, AllocError>
        ensures made { IfOk result (λ made. made ≡ combined_of self.now first last) }
        ensures memory { OnErr result (IsSome (combined_of self.now first last)) }
    {
        match span(self.sequence(), first, last) {
            None => Ok(None),
            Some(entries) => Ok(Some(combined(alloc, self.schema(), &entries)?)),
        }
    }
}

// the entries numbered `first` to `last`, if 1 <= `first` <= `last` and `last` is placed
fn span(sequence: &[Entry], first: u64, last: u64) -> Option<&[Entry]>
    ensures span { option_map (λ entries. entries.now) result
        ≡ placed_span sequence.now first last }
    ensures admitted { (schema : List Shape) → AllByRecursion (IsAdmitted schema) sequence.now
        → IfSome result (λ entries. AllByRecursion (IsAdmitted schema) entries.now) }
{
    if first == 0 || last < first || (sequence.len() as u64) < last {
        return None;
    }
    let (placed, _) = sequence.split_at(last as usize);
    let (_, entries) = placed.split_at(first as usize - 1);
    Some(entries)
}
