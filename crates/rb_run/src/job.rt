//! What the words of a command line ask for.

ghost use Rattle.std.specs.Prelude.{◌≡◌, map, IfOk, string_bytes};
ghost use Rattle.clap.specs.Words.{FailsBy, subcommand_of, subcommand_rows_of};
ghost use Rattle.rb_run.specs.Program.{AsksFor, program, wrong_in};

use crate::command::program;
use crate::options::{
    RangeFault, answering, config, drive, form, is_subcommand, progress, replica,
};
use clap::{ArgMatches, Error};
use rb_core::Config;
use rb_script::Answering;
use rb_show::RowForm;
use std::alloc::Global;

/// What a command line asks for.
#[derive(Debug, Drop)]
pub enum Job<'a> {
    /// Answers a script under these limits, in this way.
    Script(Config, Answering),
    /// Drives a broker under these limits, with this number of subscribers. The first keeps its
    /// rows in a database at this path, if there is one. The last says whether its progress is
    /// shown.
    Drive(Config, u64, Option<&'a str>, bool),
    /// Says which option's word isn't a number in its range.
    OutOfRange(RangeFault),
    /// Shows rows in this form.
    Show(RowForm),
    /// Prints help, the version or what is wrong with the words; or memory ran out.
    Print(Error),
}

impl<'a> Job<'a> {
    /// What these words ask for. The first is the program's name.
    pub fn of(alloc: Global, words: &'a [String]) -> Job<'a>
        ensures { AsksFor result (map string_bytes words.now) }
    {
        match parse_words(alloc, words) {
            Err(shown) => Job::Print(shown),
            Ok(found) if is_subcommand(&found, "show") => Job::Show(form(&found)),
            Ok(found) if is_subcommand(&found, "drive") => match drive(&found) {
                Ok((config, subscribers)) => {
                    Job::Drive(config, subscribers, replica(&found), progress(&found))
                }
                Err(fault) => Job::OutOfRange(fault),
            },
            Ok(found) => match config(&found) {
                Ok(config) => Job::Script(config, answering(&found)),
                Err(fault) => Job::OutOfRange(RangeFault::Limit(fault)),
            },
        }
    }
}

// what the program's parser finds in the words
fn parse_words<'a>(alloc: Global, words: &'a [String]) -> Result<ArgMatches<'a>, Error>
    ensures ok { IfOk result (λ found. subcommand_rows_of found
        ≡ subcommand_of program (map string_bytes words.now)) }
    ensures kinds { FailsBy (wrong_in (map string_bytes words.now)) result }
{
    program(alloc)?.try_get_matches_from(words)
}
