//! `DistinctChanges`: changes of rows, each of another key.

ghost use Rattle.std.specs.{List.{IsDistinct}, Map.{keys_of}};
ghost use Rattle.std.proofs.Props.{props};
ghost use Rattle.cs_apply.specs.SameKey.{same_key};

use cs_model::{Row, RowKey};

/// A key, and the row that it gets, or none.
pub type RowChange = (RowKey, Option<Row>);

// Changes of rows, each of another key.
#[derive(Debug, Drop)]
pub(crate) struct DistinctChanges {
    pub(crate) list: Vec<RowChange>,
    ghost distinct: { IsDistinct same_key (keys_of list.items) } by { Prim.hlevel props },
}
