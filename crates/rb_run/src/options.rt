//! Reads what is asked for from the options of a command line: the limits, how many subscribers a
//! drive has, where the first one keeps its rows, whether it is shown how far the drive is, how a
//! script is answered, and how rows are shown.

ghost use Rattle.std.specs.Prelude.{◌≡◌, option_map};
ghost use Rattle.clap.specs.Words.{subcommand_rows_of};
ghost use Rattle.rb_run.specs.Options.{answering_by, config_by, config_of, config_with};
ghost use Rattle.rb_run.specs.Options.{drive_by, fault_text, form_by, given_by, is_set};
ghost use Rattle.rb_run.specs.Options.{is_subcommand, range_text, replica_by, value_of};
ghost use Rattle.rb_run.specs.Options.{watched_by, word_of};

use clap::ArgMatches;
use rb_core::{Config, ConfigFault};
use rb_script::{Answering, number};
use rb_show::RowForm;

/// The limits from the options of the subcommand, or the first option whose word isn't a number in
/// its range.
pub fn config(found: &ArgMatches) -> Result<Config, ConfigFault>
    ensures { result ≡ config_by (subcommand_rows_of found.now) }
{
    config_with(found, 1)
}

// the limits with this number of appliers, the others from the options
fn config_with(found: &ArgMatches, appliers: u64) -> Result<Config, ConfigFault>
    ensures { result ≡ config_with (subcommand_rows_of found.now) appliers }
{
    let batch = word(found, "batch");
    let window = word(found, "window");
    let timeout = word(found, "timeout");
    let capacity = word(found, "capacity");
    let intake = word(found, "intake");
    config_from(batch, window, timeout, capacity, intake, appliers)
}

/// The option whose word isn't a number in its range.
#[derive(Clone, Copy, Debug, PartialEq, Eq)]
pub enum RangeFault {
    /// One of the limits.
    Limit(ConfigFault),
    /// The number of subscribers.
    Subscribers,
}

/// The limits and the number of subscribers of a drive, or the first option whose word isn't a
/// number in its range.
pub fn drive(found: &ArgMatches) -> Result<(Config, u64), RangeFault>
    ensures { result ≡ drive_by (subcommand_rows_of found.now) }
{
    match config_with(found, value(word(found, "appliers"))) {
        Err(fault) => Err(RangeFault::Limit(fault)),
        Ok(config) => match value(word(found, "subscribers")) {
            n @ 1..=16 => Ok((config, n)),
            _ => Err(RangeFault::Subscribers),
        },
    }
}

/// The path of the database in which a drive's first subscriber keeps its rows, if it is given.
pub fn replica<'a>(found: &ArgMatches<'a>) -> Option<&'a str>
    ensures { option_map (λ path. path.now) result ≡ replica_by (subcommand_rows_of found.now) }
{
    option_word(found, "replica")
}

/// Whether it is shown how far a drive is.
pub fn progress(found: &ArgMatches) -> bool
    ensures { result ≡ watched_by (subcommand_rows_of found.now) }
{
    flag(found, "progress")
}

/// How the options of the subcommand say that a script is answered.
pub fn answering(found: &ArgMatches) -> Answering
    ensures { result ≡ answering_by (subcommand_rows_of found.now) }
{
    Answering {
        numbers: flag(found, "numbers"),
        strict: flag(found, "strict"),
    }
}

/// How the options of the subcommand say that rows are shown.
pub fn form(found: &ArgMatches) -> RowForm
    ensures { result ≡ form_by (subcommand_rows_of found.now) }
{
    if flag(found, "json") {
        RowForm::Json
    } else {
        RowForm::Sql
    }
}

/// Whether the subcommand has this name.
pub fn is_subcommand(found: &ArgMatches, name: &str) -> bool
    ensures { result ≡ is_subcommand (subcommand_rows_of found.now) name.now }
{
    match found.subcommand() {
        None => false,
        Some((given, _)) => given == name,
    }
}

// whether an option of the subcommand is set
fn flag(found: &ArgMatches, name: &str) -> bool
    ensures { result ≡ is_set (subcommand_rows_of found.now) name.now }
{
    word(found, name) == "true"
}

// the word of an option of the subcommand, or the empty one
fn word<'a>(found: &ArgMatches<'a>, name: &str) -> &'a str
    ensures { result.now ≡ word_of (subcommand_rows_of found.now) name.now }
{
    match option_word(found, name) {
        None => "",
        Some(word) => word,
    }
}

// the word of an option of the subcommand, if it has one
fn option_word<'a>(found: &ArgMatches<'a>, name: &str) -> Option<&'a str>
    ensures { option_map (λ word. word.now) result
        ≡ given_by (subcommand_rows_of found.now) name.now }
{
    match found.subcommand() {
        None => None,
        Some((_, options)) => options.get_str(name),
    }
}

// the limits that these words spell
fn config_from(
    batch: &str,
    window: &str,
    timeout: &str,
    capacity: &str,
    intake: &str,
    appliers: u64,
) -> Result<Config, ConfigFault>
    ensures { result
        ≡ config_of batch.now window.now timeout.now capacity.now intake.now appliers }
{
    let batch = value(batch);
    let window = value(window);
    let timeout = value(timeout);
    let capacity = value(capacity);
    let intake = value(intake);
    Config::new(batch, window, timeout, capacity, intake, appliers)
}

// the number that a word spells, or 0
fn value(word: &str) -> u64
    ensures { result ≡ value_of word.now }
{
    match number(word.as_bytes()) {
        None => 0,
        Some(n) => n,
    }
}

/// The message about an option whose word isn't a number in its range.
pub fn fault_text(fault: RangeFault) -> &'static str
    ensures { result.now ≡ fault_text fault }
{
    match fault {
        RangeFault::Limit(fault) => range_text(fault),
        RangeFault::Subscribers => "--subscribers takes a number from 1 to 16",
    }
}

fn range_text(fault: ConfigFault) -> &'static str
    ensures { result.now ≡ range_text fault }
{
    match fault {
        ConfigFault::Batch => "--batch takes a number from 1 to 256",
        ConfigFault::Window => "--window takes a number from 1 to 64",
        ConfigFault::Timeout => "--timeout takes a number from 1 to 1000000000",
        ConfigFault::Capacity => "--capacity takes a number from 1 to 16777216",
        ConfigFault::Intake => "--intake takes a number from 1 to 4096",
        ConfigFault::Appliers => "--appliers takes a number from 1 to 16",
    }
}
