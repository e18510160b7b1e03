//! The data model of changesets: shapes, records, changes, row keys, the schema that admits them,
//! and the varints and fields that they are encoded with. Its definitions say which changesets
//! exist and which texts encode one; every other crate cites them.
#![tactic(auto)]

mod at;
mod canonical;
mod change;
mod change_ref;
mod changeset;
mod copy;
mod field;
mod field_ref;
mod fields;
mod key_run;
pub mod laws;
mod origin;
mod packed_change;
mod pushing;
mod row;
mod row_key;
mod schema;
mod section_ref;
mod sections;
mod seq;
mod shape;
mod text_changeset;
mod text_front;
mod value;
mod varint;

pub use change::{Change, Op};
pub use change_ref::{ChangeRef, ChangeRefs, RecordRef};
pub use changeset::Changeset;
pub use copy::CopyIn;
pub use field::{field_push, field_read};
pub use field_ref::FieldRef;
pub use fields::Fields;
pub use key_run::{KeyColumns, key_columns};
pub use origin::Origin;
pub use packed_change::{PackedChange, PackedChanges};
pub use row::{Row, same_values};
pub use row_key::{RowKey, key_of_row};
pub use schema::{RefusedTables, Schema, SchemaError, SectionFault, TableFault};
pub use section_ref::{SectionRef, SectionRefs};
pub use sections::Sections;
pub use seq::{Octets, Seq};
pub use shape::{Shape, ShapeRef};
pub use text_changeset::{TextChangeset, TextSections};
pub use text_front::TextFront;
pub use value::{Field, Value};
pub use varint::{varint_of, varint_push, varint_read, varint_strip};
