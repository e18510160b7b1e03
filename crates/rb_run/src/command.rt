//! The command line: its options and its help.

ghost use Rattle.std.specs.Prelude.{◌≡◌, IfOk};
ghost use Rattle.clap.specs.Words.{app_of};
ghost use Rattle.rb_run.specs.Program.{IsCommand, IsOption, drive_command, flag_option};
ghost use Rattle.rb_run.specs.Program.{limit_option, limit_options, lone_command, long_option};
ghost use Rattle.rb_run.specs.Program.{new_subcommand, path_option, program, script_command};
ghost use Rattle.rb_run.specs.Program.{show_command, with_rules};

use clap::{Arg, ArgAction, Command};
use std::alloc::{AllocError, Global};

// the version that `--version` prints
const VERSION: &str = "0.1.0";

// the text after the options of `script --help`
const LINES: &str = "\
Call it with a file:
  rb_run script < FILE

Lines, each with its answer when it is done:
  table HEX           ok                  a table, as a changeset's header spells it
  publisher           publisher P         a new publisher
  feed P HEX          ok                  bytes of a changeset, in pieces of any size
  reset P             ok                  what was fed is forgotten, and so is its fault
  end P               staged              what was fed is a whole changeset
  send P              sent OWN            what is staged goes to the intake
  withdraw P N        staged              the withdrawal of an entry that it sent is staged
  turn                placed N, or idle   the next changeset gets its number
  close               closed LAST         nothing is sent or placed any more
  subscribe START     subscriber S link L a new subscription, after number START
  take S NOW          delivery D S N M    its next entries, N to M, at tick NOW
  takeany NOW         delivery D S N M    the first ready entries of any subscription
  accept D            accepted CURSOR     the changes of a delivery are applied
  crash D 0|1         crashed CURSOR      a durable accept falls: undone (0) or kept (1)
  ack D               floor F             settled; so is everything up to F
  nack D              ok                  the delivery is given back
  nackopen D          opened COUNT        it is given back, each of its entries alone
  expire NOW          expired COUNT       deliveries out too long at tick NOW are given back
  reconnect S CURSOR  link L              a subscription goes on after CURSOR
  resume S            link L              one that has fallen goes on after its cursor
  unsubscribe S       ok                  a subscription ends
  entry N             entry N P OWN O HEX an entry with its canonical text
  combine A B         text HEX            entries A to B as one changeset
  rows S              rows N, N rows      the rows of a subscription
  left                left COUNT          how many changesets are sent and not placed

All `table` lines come first. Numbers are decimal, and bytes hexadecimal, - for none.

A refused line is answered `refused NAME` with its values. It changes nothing, except that a
refused `turn` keeps the next changeset in hand: the next `turn` tries it first. A faulty `feed` or
`end` is answered `fault AT KIND`. After a fault of `feed`, each `feed P` and `end P` reports that
fault until `reset P`. A faulty or refused `end` keeps the bytes of the stream, until `reset P`.

Statuses:
  0  all lines are answered
  1  the script stopped, with one line on standard error: a read fault, a write fault, a script of
     more than 16777216 bytes, or out of memory
  2  the command line is faulty
  3  --strict, and a line is refused or faulty: one line on standard error says its number, the line
     and its answer, such as rb_run: line 7: take 0 3: refused Empty 0";

// the text after the options of `drive --help`
const DRIVEN: &str = "\
Call it with a file:
  rb_run drive < FILE

Lines:
  table HEX           a table, as in a script
  changeset P HEX     a changeset of publisher P, from 0 to 63

All `table` lines come first, and at most 65536 other lines. Bytes are hexadecimal, - for none. Each
publisher sends its changesets in their order, the sequencer numbers them, and each subscriber
applies all of them to empty tables: all in threads of their own. When all is drained, it reports:

  placed COUNT        changesets that have a number
  left COUNT          changesets that were sent and have none
  unsent COUNT        lines that were neither sent nor found faulty
  publisher P line L fault AT KIND, or refused NAME INDEX
                      a faulty line, which is passed over
  subscriber S cursor N drained, or conflict POSITION KIND
                      each subscriber, and its rows as in a script

The database of --replica has two tables, rb_row with the rows and rb_mark with the cursor, which
change together at each accept.

--progress shows a line such as
  read 60001  placed 48213  accepted 41007..48101  5210/s

It counts the lines that are read, the changesets that have a number, and the entries that the
slowest and the fastest subscriber have accepted. Then comes a rate. Until something is placed it is
that of lines read. After that it is that of entries accepted by the slowest subscriber, or of
changesets placed while that one accepts none.

Statuses:
  0  the report is written
  1  it stopped, with one line on standard error: the number of the first line that is none of the
     two, a read fault, a write fault, store fault (FILE can't be opened, has anything in it, or
     fails), stopped (a thread can't be made, or memory ran out in one), or out of memory; but for a
     write fault nothing is on standard output
  2  the command line is faulty
  3  the report is written, and a subscriber ended by a conflict";

// the text after the option of `show --help`
const ROWS: &str = "\
Call it with a script's `table` lines, and then its answers:
  (grep '^table' FILE; rb_run script < FILE) | rb_run show

  table HEX           a table, as in a script: the first one has index 0
  row T HEX HEX ..    a row of the table with index T

A row is shown as t: 1, 'it''s', x'00ff', NULL, and with --json as
{\"row\":[1,\"it's\",{\"hex\":\"00ff\"},null],\"table\":\"t\"}. All other lines show nothing.

Statuses:
  0  all rows are shown
  1  it stopped, with one line on standard error: a line of `row` that is no row of a table, a read
     fault, a write fault, or out of memory
  2  the command line is faulty";

/// The program's name, version, subcommands and options. Returns `AllocError` if memory runs out.
pub fn program<'a>(alloc: Global) -> Result<Command<'a>, AllocError>
    ensures app { IfOk result (λ command. app_of command ≡ program) }
{
    Command::new(alloc, "rb_run")
        .version(VERSION)
        .about("A replication broker for SQLite changesets")
        .subcommand_required(true)
        .subcommand(script(alloc)?)?
        .subcommand(drive(alloc)?)?
        .subcommand(show(alloc)?)
}

// the subcommand `script`
fn script<'a>(alloc: Global) -> Result<Command<'a>, AllocError>
    ensures { IfOk result (λ command. IsCommand command (lone_command script_command)) }
{
    let about = "Answers the lines of a script on standard input, one after another";
    let command = command_with_limits(alloc, "script", about, LINES)?;
    let numbers = flag(
        alloc,
        "numbers",
        "Write the number of its line before each answer",
    );
    let strict = flag(
        alloc,
        "strict",
        "Stop after the first line that is refused or faulty",
    );
    command.arg(numbers)?.arg(strict)
}

// the subcommand `drive`
fn drive<'a>(alloc: Global) -> Result<Command<'a>, AllocError>
    ensures { IfOk result (λ command. IsCommand command (lone_command drive_command)) }
{
    let about = "Drives a broker with the changesets on standard input, in threads";
    let command = command_with_limits(alloc, "drive", about, DRIVEN)?;
    let subscribers = limit(alloc, "subscribers", "1", "How many subscribers, 1 to 16");
    let appliers = limit(
        alloc,
        "appliers",
        "1",
        "How many threads apply a delivery, 1 to 16: two or more help only with rows of some 4 KB",
    );
    let replica = path(
        alloc,
        "replica",
        "Keep the rows of subscriber 0 in an SQLite database at FILE, which must be new or empty",
    );
    let progress = flag(
        alloc,
        "progress",
        "Show each second on standard error how far the drive is, if that is a terminal",
    );
    command
        .arg(subscribers)?
        .arg(appliers)?
        .arg(replica)?
        .arg(progress)
}

// a subcommand whose first options are the five limits of a broker
fn command_with_limits<'a>(
    alloc: Global,
    name: &'a str,
    about: &'a str,
    after: &'a str,
) -> Result<Command<'a>, AllocError>
    ensures { IfOk result (λ made. IsCommand made
        (with_rules (new_subcommand name.now) limit_options)) }
{
    let batch = limit(
        alloc,
        "batch",
        "16",
        "The most entries in a delivery, 1 to 256",
    );
    let window = limit(
        alloc,
        "window",
        "4",
        "The most deliveries in flight to a subscription, 1 to 64",
    );
    let timeout = limit(
        alloc,
        "timeout",
        "10",
        "After how many ticks a delivery can be expired, 1 to 1000000000",
    );
    let capacity = limit(
        alloc,
        "capacity",
        "65536",
        "The most entries of the sequence, 1 to 16777216",
    );
    let intake = limit(
        alloc,
        "intake",
        "64",
        "The most changesets that wait to be placed, 1 to 4096",
    );
    subcommand(alloc, name, about, after)
        .arg(batch)?
        .arg(window)?
        .arg(timeout)?
        .arg(capacity)?
        .arg(intake)
}

// the subcommand `show`
fn show<'a>(alloc: Global) -> Result<Command<'a>, AllocError>
    ensures { IfOk result (λ command. IsCommand command (lone_command show_command)) }
{
    let json = flag(alloc, "json", "Write each row as a JSON object");
    let about = "Shows the rows in a script's answers on standard input, a line each";
    subcommand(alloc, "show", about, ROWS).arg(json)
}

// a subcommand that has no options yet, with the text that its help ends with
fn subcommand<'a>(alloc: Global, name: &'a str, about: &'a str, after: &'a str) -> Command<'a>
    ensures { IsCommand result (new_subcommand name.now) }
{
    Command::new(alloc, name)
        .version(VERSION)
        .about(about)
        .after_help(after)
}

// an option that takes a number
fn limit<'a>(alloc: Global, name: &'a str, usual: &'a str, help: &'a str) -> Arg<'a>
    ensures { IsOption result (limit_option name.now usual.now) }
{
    option(alloc, name, ArgAction::Set, help)
        .value_name("N")
        .default_value(usual)
}

// an option that takes a path, and has none if it isn't given
fn path<'a>(alloc: Global, name: &'a str, help: &'a str) -> Arg<'a>
    ensures { IsOption result (path_option name.now) }
{
    option(alloc, name, ArgAction::Set, help).value_name("FILE")
}

// an option that is set or not
fn flag<'a>(alloc: Global, name: &'a str, help: &'a str) -> Arg<'a>
    ensures { IsOption result (flag_option name.now) }
{
    option(alloc, name, ArgAction::SetTrue, help)
}

// an option with this name after two dashes
fn option<'a>(alloc: Global, name: &'a str, action: ArgAction, help: &'a str) -> Arg<'a>
    ensures { IsOption result (long_option name.now action) }
{
    Arg::new(alloc, name).long(name).action(action).help(help)
}
