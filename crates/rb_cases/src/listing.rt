//! `Listing`: lines with the rows that they show, which are compared.

use crate::packs::CasePacks;
use rb_case_files::{difference, lines};
use rb_show::{RowForm, ShowError, show};
use std::alloc::{AllocError, Global};

/// Lines, the rows that they are expected to show in each form, and the fault that is expected to
/// stop them.
#[derive(Clone, Copy, Debug)]
pub struct Listing<'a> {
    input: &'a [u8],
    sql: &'a [u8],
    json: &'a [u8],
    fault: &'a [u8],
}

impl<'a> Listing<'a> {
    /// The listing of this name.
    pub fn of(packs: &'a CasePacks, name: &str) -> Listing<'a> {
        Listing {
            input: packs.shows.text(name),
            sql: packs.sql.text(name),
            json: packs.json.text(name),
            fault: packs.fault.text(name),
        }
    }

    /// Shows the rows in this form, and compares them. Returns how many lines there are, or a text
    /// with the first one that differs.
    pub fn run(&self, alloc: Global, form: RowForm) -> Result<Result<usize, String>, AllocError> {
        let mut reader: &[u8] = self.input;
        let mut written = Vec::new(alloc);
        let ended = show(alloc, &mut reader, &mut written, form);
        let fault = text_of_end(alloc, &ended)?;
        if fault.as_bytes() != self.fault {
            return Ok(Err(format!(in alloc; "it stopped: {fault}")?));
        }
        let wanted = match form {
            RowForm::Sql => self.sql,
            RowForm::Json => self.json,
        };
        difference(
            alloc,
            "line",
            &lines(alloc, &written)?,
            &lines(alloc, wanted)?,
        )
    }
}

// The fault that stopped it, as a line; the empty text if none did.
fn text_of_end(alloc: Global, ended: &Result<(), ShowError>) -> Result<String, AllocError> {
    match ended {
        Ok(()) => Ok(String::new(alloc)),
        Err(fault) => format!(in alloc; "{fault}\n"),
    }
}
