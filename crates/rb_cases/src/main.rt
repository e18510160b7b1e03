//! Runs each case of a folder's packs: a script, its options, and its expected answers, or lines
//! and the rows that they show. A case is texts and no code. Prints each answer that differs, with
//! its line, and how many answers it compared.
//! Theorem: how a script is cut into pieces, and how the answers to them are joined.
#![tactic(auto)]

mod case;
mod joining;
mod listing;
mod packs;
mod pieces;

use case::Case;
use listing::Listing;
use packs::CasePacks;
use rb_case_files::Pack;
use rb_show::RowForm;
use std::alloc::{AllocError, Global};
use std::process::ExitCode;
use std::{fmt, io};

/// A way to run a case.
#[derive(Clone, Copy)]
enum Way {
    /// A script, with its changesets cut into pieces of so many bytes at the most.
    Pieces(usize),
    /// Lines, whose rows are shown in this form.
    Rows(RowForm),
}

/// Each script is run with all bytes of a changeset in a line of `feed`, with one, and with seven.
const SCRIPTS: [Way; 3] = [Way::Pieces(65_536), Way::Pieces(1), Way::Pieces(7)];

/// The rows of each listing are shown in each form.
const LISTINGS: [Way; 2] = [Way::Rows(RowForm::Sql), Way::Rows(RowForm::Json)];

impl fmt::Display for Way {
    fn fmt<W: fmt::Write>(&self, f: &mut fmt::Formatter<W>) -> fmt::Result {
        match self {
            Way::Pieces(most) => write!(f, "pieces of {most}"),
            Way::Rows(form) => write!(f, "{form:?}"),
        }
    }
}

impl Way {
    // Runs the case of this name. Returns how many lines were compared, or how the first differs.
    fn run(
        self,
        alloc: Global,
        packs: &CasePacks,
        name: &str,
    ) -> Result<Result<usize, String>, AllocError> {
        match self {
            Way::Pieces(most) => Case::of(packs, name).run(alloc, most),
            Way::Rows(form) => Listing::of(packs, name).run(alloc, form),
        }
    }
}

/// What running cases came to.
#[derive(Clone, Copy)]
struct Tally {
    cases: usize,
    lines: usize,
    failed: usize,
}

fn main(rt: HostRuntime) -> io::Result<ExitCode> {
    let packs = CasePacks::open(&rt, rt.alloc())?;
    let scripts = run_all(&rt, rt.alloc(), &packs, &packs.script, &SCRIPTS)?;
    println!(rt;
        "{} cases, {} answers compared",
        scripts.cases, scripts.lines
    )?;
    let listings = run_all(&rt, rt.alloc(), &packs, &packs.shows, &LISTINGS)?;
    println!(rt;
        "{} listings, {} lines compared",
        listings.cases, listings.lines
    )?;
    let failed = scripts.failed.saturating_add(listings.failed);
    Ok(if failed == 0 {
        ExitCode::SUCCESS
    } else {
        println!(rt; "{failed} differ")?;
        ExitCode::FAILURE
    })
}

// Runs each case that `inputs` has, in each of these ways. Prints each difference.
fn run_all(
    rt: &HostRuntime,
    alloc: Global,
    packs: &CasePacks,
    inputs: &Pack,
    ways: &[Way],
) -> io::Result<Tally> {
    let names = inputs.names(alloc)?;
    let mut lines = 0_usize;
    let mut failed = 0_usize;
    for name in &names {
        for way in ways {
            match way.run(alloc, packs, name)? {
                Ok(count) => lines = lines.saturating_add(count),
                Err(difference) => {
                    println!(rt; "{name}, {way}: {difference}")?;
                    failed = failed.saturating_add(1);
                }
            }
        }
    }
    Ok(Tally {
        cases: names.len(),
        lines,
        failed,
    })
}
