//! `Case`: a script with its expected answers, which are compared.

use crate::joining::joined;
use crate::packs::CasePacks;
use crate::pieces::cut;
use rb_case_files::{Options, difference, lines};
use rb_script::{Answering, ScriptError, run_script};
use std::alloc::{AllocError, Global};

/// A script, its options, its expected answers, and the fault that is expected to stop it.
#[derive(Clone, Copy, Debug)]
pub struct Case<'a> {
    script: &'a [u8],
    options: &'a [u8],
    answers: &'a [u8],
    fault: &'a [u8],
}

// a piece as long as any changeset
const WHOLE: usize = 65_536;

impl<'a> Case<'a> {
    /// The case of this name. Its options are such as `--batch 1 --strict`.
    pub fn of(packs: &'a CasePacks, name: &str) -> Case<'a> {
        Case {
            script: packs.script.text(name),
            options: packs.args.text(name),
            answers: packs.answers.text(name),
            fault: packs.fault.text(name),
        }
    }

    /// Runs the script with its changesets cut into pieces of `most` bytes, and compares the
    /// answers. Returns how many there are, or a text with the first one that differs. A script
    /// with `--numbers` or `--strict` isn't cut, since lines are counted then.
    pub fn run(&self, alloc: Global, most: usize) -> Result<Result<usize, String>, AllocError> {
        let Some(Options { config, how, .. }) = Options::of(self.options) else {
            return Ok(Err(String::from_str(alloc, "no such options")?));
        };
        let plain = how == Answering::plain();
        let most = if plain { most } else { WHOLE };
        let script = cut(alloc, self.script, most)?;
        let mut reader: &[u8] = &script;
        let mut written = Vec::new(alloc);
        let ended = run_script(alloc, &mut reader, &mut written, config, how);
        let fault = text_of_end(alloc, &ended)?;
        if fault.as_bytes() != self.fault {
            return Ok(Err(format!(in alloc; "the script stopped: {fault}")?));
        }
        let mut given = lines(alloc, &written)?;
        if plain {
            given = joined(alloc, self.script, most, &given)?;
        }
        let wanted = lines(alloc, self.answers)?;
        difference(alloc, "answer", &given, &wanted)
    }
}

// The fault that stopped a script, as a line; the empty text if none did.
fn text_of_end(alloc: Global, ended: &Result<(), ScriptError>) -> Result<String, AllocError> {
    match ended {
        Ok(()) => Ok(String::new(alloc)),
        Err(fault) => format!(in alloc; "{fault}\n"),
    }
}
