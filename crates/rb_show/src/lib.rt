//! Shows the rows in a script's answers, as SQL literals or as JSON. Theorem: `show` writes
//! *rows_shown* of what it reads; if it stops, it writes as much of it as *ShowEnds* says.
#![tactic(auto)]

mod literals;
mod objects;
mod row_form;
mod show_fault;
mod showing;
mod tables;

pub use row_form::RowForm;
pub use show_fault::ShowError;
pub use showing::show;
