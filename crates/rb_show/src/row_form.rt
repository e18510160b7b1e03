//! The forms in which rows are shown.

/// How a row is shown: as one line.
#[derive(Clone, Copy, Debug, PartialEq, Eq)]
pub enum RowForm {
    /// The table's name and SQL literals, such as `t: 1, 'x', x'00ff', NULL`.
    Sql,
    /// A JSON object, such as `{"row":[1,"x",{"hex":"00ff"},null],"table":"t"}`.
    Json,
}
