//! The ways the program ends, what it says then, and its exit statuses.

ghost use Rattle.std.specs.Prelude.{◌≡◌, codes, IfSome, OnOk};
ghost use Rattle.std.specs.Io.KnownBytes.{Appends};
ghost use Rattle.std.specs.IoError.{error_kind};
ghost use Rattle.std.specs.Process.{exit_status};
ghost use Rattle.rb_run.specs.Endings.{IsReported, ending_of, ending_of_drive, ending_of_show};
ghost use Rattle.rb_run.specs.Endings.{ending_of_words};
ghost use Rattle.rb_run.specs.Endings.{message, status_of};

use crate::options::{RangeFault, fault_text};
use clap::Error;
use rb_drive::DriveError;
use rb_script::{RefusedLine, ScriptError};
use rb_show::ShowError;
use std::fmt::Display;
use std::io;
use std::io::Write;
use std::process::ExitCode;

/// How the program ends, which determines what it says on standard error and its exit status.
#[derive(Debug, Drop)]
pub enum Ending {
    /// The request is done: a script is answered to its end, refusals included, or all rows are
    /// shown, or help is printed.
    Done,
    /// The script or the printing stopped.
    Stopped(ScriptError),
    /// A strict script stopped after this line.
    Refused(RefusedLine),
    /// The showing of rows stopped.
    Unshown(ShowError),
    /// A drive ended without a report.
    Undriven(DriveError),
    /// A subscriber of a drive ended by a conflict. The report says so.
    Conflicting,
    /// The words of the command line aren't the program's, for this reason.
    Misused(Error),
    /// The word of an option isn't a number in its range.
    OutOfRange(RangeFault),
    /// A word of the command line isn't UTF-8.
    NotText,
}

impl Ending {
    /// The ending for this result of a script.
    pub fn of(script: Result<(), ScriptError>) -> Ending
        ensures { result ≡ ending_of script }
    {
        match script {
            Ok(()) => Ending::Done,
            Err(ScriptError::Refused(line)) => Ending::Refused(line),
            Err(fault) => Ending::Stopped(fault),
        }
    }

    /// The ending for this result of showing rows.
    pub fn of_show(show: Result<(), ShowError>) -> Ending
        ensures { result ≡ ending_of_show show }
    {
        match show {
            Ok(()) => Ending::Done,
            Err(fault) => Ending::Unshown(fault),
        }
    }

    /// The ending for this result of a drive.
    pub fn of_drive(drive: Result<u8, DriveError>) -> Ending
        ensures { result ≡ ending_of_drive drive }
    {
        match drive {
            Ok(0) => Ending::Done,
            Ok(_) => Ending::Conflicting,
            Err(fault) => Ending::Undriven(fault),
        }
    }

    /// The ending for words that can't be had, for this reason.
    pub fn of_words(why: &io::Error) -> Ending
        ensures { result ≡ ending_of_words (error_kind why.now) }
    {
        match why.kind() {
            io::ErrorKind::InvalidData => Ending::NotText,
            _ => Ending::Stopped(ScriptError::Memory),
        }
    }

    /// The exit status: 0, 1, 2 or 3.
    pub fn status(&self) -> u8
        ensures { result ≡ status_of self.now }
    {
        match self {
            Ending::Done => 0,
            Ending::Stopped(_) | Ending::Unshown(_) | Ending::Undriven(_) => 1,
            Ending::Misused(_) | Ending::OutOfRange(_) | Ending::NotText => 2,
            Ending::Refused(_) | Ending::Conflicting => 3,
        }
    }

    /// The same, as `main` returns it.
    pub fn code(&self) -> ExitCode
        ensures { exit_status result ≡ status_of self.now }
    {
        ExitCode::from(self.status())
    }

    /// Says on `errors` why it ends so: a line that begins with the program's name, or what the
    /// parser of command lines says. The system's reason stands on a line of its own after it. Says
    /// nothing if the request is done, or if a report says it.
    pub fn report<E: Write>(&self, errors: &mut E) -> io::Result<()>
        ensures { OnOk result
            (IsReported self.now (E.contents errors.old) (E.contents errors.new)) }
    {
        match self {
            Ending::Done | Ending::Conflicting => Ok(()),
            Ending::Stopped(fault) => write_fault(errors, fault, reason(fault)),
            Ending::Refused(line) => write_line(errors, line),
            Ending::Unshown(fault) => write_fault(errors, fault, reason_of_show(fault)),
            Ending::Undriven(fault) => write_fault(errors, fault, reason_of_drive(fault)),
            Ending::Misused(text) => write_text(errors, text),
            Ending::OutOfRange(fault) => write_line(errors, fault_text(*fault)),
            Ending::NotText => write_line(errors, "an argument isn't UTF-8"),
        }
    }
}

// Writes the program's name and this text, in a line.
fn write_line<E: Write, D: Display + Drop>(errors: &mut E, text: D) -> io::Result<()>
    ensures { OnOk result (IfSome (D.output text) (λ shown.
        Appends (E.contents errors.old) (E.contents errors.new) (message shown))) }
{
    writeln!(errors, "rb_run: {text}")?;
    errors.flush()
}

// Writes the program's name and this text in a line, and then the system's reason in another one,
// if there is one.
fn write_fault<E: Write, D: Display + Drop>(
    errors: &mut E,
    text: D,
    reason: Option<&io::Error>,
) -> io::Result<()> {
    writeln!(errors, "rb_run: {text}")?;
    if let Some(reason) = reason {
        writeln!(errors, "{reason}")?;
    }
    errors.flush()
}

// what the system said when a script stopped
fn reason(fault: &ScriptError) -> Option<&io::Error> {
    match fault {
        ScriptError::Read(reason) => Some(reason),
        ScriptError::Write(reason) => Some(reason),
        _ => None,
    }
}

// what the system said when the showing of rows stopped
fn reason_of_show(fault: &ShowError) -> Option<&io::Error> {
    match fault {
        ShowError::Read(reason) => Some(reason),
        ShowError::Write(reason) => Some(reason),
        _ => None,
    }
}

// what the system said when a drive stopped
fn reason_of_drive(fault: &DriveError) -> Option<&io::Error> {
    match fault {
        DriveError::Read(reason) => Some(reason),
        DriveError::Write(reason) => Some(reason),
        _ => None,
    }
}

fn write_text<E: Write>(errors: &mut E, text: &Error) -> io::Result<()> {
    write!(errors, "{text}")?;
    errors.flush()
}
