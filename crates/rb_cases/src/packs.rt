//! `CasePacks`: what the cases have of each kind.

use rb_case_files::Pack;
use std::alloc::Global;
use std::io;

/// A pack for each kind of text.
#[derive(Drop)]
pub struct CasePacks {
    pub script: Pack,
    pub answers: Pack,
    pub args: Pack,
    pub fault: Pack,
    pub shows: Pack,
    pub sql: Pack,
    pub json: Pack,
}

impl CasePacks {
    /// Reads the packs of the current folder.
    pub fn open(rt: &HostRuntime, alloc: Global) -> io::Result<CasePacks> {
        Ok(CasePacks {
            script: Pack::open(rt, alloc, "script.pack")?,
            answers: Pack::open(rt, alloc, "answers.pack")?,
            args: Pack::open(rt, alloc, "args.pack")?,
            fault: Pack::open(rt, alloc, "fault.pack")?,
            shows: Pack::open(rt, alloc, "shows.pack")?,
            sql: Pack::open(rt, alloc, "sql.pack")?,
            json: Pack::open(rt, alloc, "json.pack")?,
        })
    }
}
