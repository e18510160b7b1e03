//! Runs what a command line asks for, from a reader to a writer.

ghost use Rattle.std.specs.Prelude.{◌≡◌, map, string_bytes, is_some, IfSome, OnOk};
ghost use Rattle.clap.specs.Values.{kind_of};
ghost use Rattle.rb_run.specs.Program.{EndsAsAsked, EndsFor, EndsShown, HasAnswered, HasPrinted};
ghost use Rattle.rb_run.specs.Program.{HasDriven, HasShown};
ghost use Rattle.std.specs.Thread.{IsSync};

use crate::ending::Ending;
use crate::files::Files;
use crate::job::Job;
use crate::progress::show_progress;
use crate::screen::Screen;
use clap::Error;
use clap::error::ErrorKind;
use rb_core::Config;
use rb_drive::{Progress, run_drive, run_durable_drive};
use rb_script::{Answering, ScriptError, run_script};
use rb_show::{RowForm, show};
use sqlite::{Connection, FileStore};
use std::alloc::Global;
use std::io;
use std::io::{Read, Write};
use std::sync::Wait;
use std::thread::{Threads, join_mut};
use std::time::Clock;

/// Runs what these words ask for. The first is the program's name.
///
/// Answers the script in `reader` on `writer`, drives a broker with the changesets in it and
/// reports there, shows the rows in it there, or prints help or the version. If the words are
/// faulty, nothing is read and nothing written, and the ending says what is wrong. A drive that is
/// to show its progress shows it on `screen`, where that is a terminal.
pub fn run_words<T: Threads + Wait + Sync + Files + Clock, R: Read, W: Write>(
    rt: &T,
    alloc: Global,
    words: &[String],
    reader: &mut R,
    writer: &mut W,
    screen: &Screen,
) -> Ending
    ensures { EndsAsAsked (map string_bytes words.now) result
        (R.remaining reader.old) (R.remaining reader.new)
        (W.contents writer.old) (W.contents writer.new) }
{
    run_job(rt, alloc, Job::of(alloc, words), reader, writer, screen)
}

fn run_job<T: Threads + Wait + Sync + Files + Clock, R: Read, W: Write>(
    rt: &T,
    alloc: Global,
    job: Job,
    reader: &mut R,
    writer: &mut W,
    screen: &Screen,
) -> Ending
    ensures { EndsFor job.entry result (R.remaining reader.old) (R.remaining reader.new)
        (W.contents writer.old) (W.contents writer.new) }
{
    match job {
        Job::Script(config, how) => run_script_job(alloc, config, how, reader, writer),
        Job::Drive(config, subscribers, path, shows) => {
            let progress = progress_for(alloc, subscribers, shows, screen);
            let drive_job = DriveJob {
                config,
                subscribers,
                path,
            };
            run_drive_job(rt, alloc, &drive_job, progress, reader, writer, screen)
        }
        Job::OutOfRange(fault) => Ending::OutOfRange(fault),
        Job::Show(form) => run_show_job(alloc, form, reader, writer),
        Job::Print(text) => run_print_job(text, writer),
    }
}

// Answers a script.
fn run_script_job<R: Read, W: Write>(
    alloc: Global,
    config: Config,
    how: Answering,
    reader: &mut R,
    writer: &mut W,
) -> Ending
    ensures { HasAnswered how config result (R.remaining reader.old) (R.remaining reader.new)
        (W.contents writer.old) (W.contents writer.new) }
{
    Ending::of(run_script(alloc, reader, writer, config, how))
}

// What a drive is run with: its limits, the number of its subscribers, and the path at which the
// first one keeps its rows, if there is one.
#[derive(Drop)]
struct DriveJob<'a> {
    config: Config,
    subscribers: u64,
    path: Option<&'a str>,
}

// The counts of a drive for the screen. `None` if nobody can look at it, or if memory runs out.
fn progress_for(alloc: Global, subscribers: u64, shows: bool, screen: &Screen) -> Option<Progress> {
    if shows && screen.is_terminal() {
        Progress::new(alloc, subscribers).ok()
    } else {
        None
    }
}

// Drives a broker, and shows its progress if there are counts of it.
fn run_drive_job<T: Threads + Wait + Sync + Files + Clock, R: Read, W: Write>(
    rt: &T,
    alloc: Global,
    drive_job: &DriveJob,
    progress: Option<Progress>,
    reader: &mut R,
    writer: &mut W,
    screen: &Screen,
) -> Ending
    ensures { HasDriven drive_job.now.config drive_job.now.subscribers result
        (R.remaining reader.old) (R.remaining reader.new)
        (W.contents writer.old) (W.contents writer.new) }
{
    match progress {
        Some(progress) => drive_and_show(rt, alloc, drive_job, &progress, reader, writer, screen),
        None => {
            let uncounted = Progress::without_cursors(alloc);
            drive_broker(rt, alloc, drive_job, &uncounted, reader, writer)
        }
    }
}

// Drives a broker, while another thread shows its progress. That thread has only the counts. If it
// can't be made, the drive runs alone.
fn drive_and_show<T: Threads + Wait + Sync + Files + Clock, R: Read, W: Write>(
    rt: &T,
    alloc: Global,
    drive_job: &DriveJob,
    progress: &Progress,
    reader: &mut R,
    writer: &mut W,
    screen: &Screen,
) -> Ending
    ensures { HasDriven drive_job.now.config drive_job.now.subscribers result
        (R.remaining reader.old) (R.remaining reader.new)
        (W.contents writer.old) (W.contents writer.new) }
{
    let mut show = || show_progress(rt, alloc, progress, screen);
    let mut drive = || -> Ending
        requires { IsSync T.row }
        ensures { HasDriven drive_job.entry.now.config drive_job.entry.now.subscribers result
            (R.remaining reader.entry.now) (R.remaining reader.exit.now)
            (W.contents writer.entry.now) (W.contents writer.exit.now) }
    {
        let ending = drive_broker(rt, alloc, drive_job, progress, reader, writer);
        screen.close(rt);
        ending
    };
    join_mut(rt, &mut show, &mut drive).1
}

// Drives a broker. Its first subscriber keeps its rows in a database at this path, if there is one.
// Opening it may fail: the drive says so, once it has read its input.
fn drive_broker<T: Threads + Wait + Sync + Files, R: Read, W: Write>(
    rt: &T,
    alloc: Global,
    drive_job: &DriveJob,
    progress: &Progress,
    reader: &mut R,
    writer: &mut W,
) -> Ending
    ensures { HasDriven drive_job.now.config drive_job.now.subscribers result
        (R.remaining reader.old) (R.remaining reader.new)
        (W.contents writer.old) (W.contents writer.new) }
{
    let (config, n) = (drive_job.config, drive_job.subscribers);
    let driven = match open_replica(rt, drive_job.path) {
        None => run_drive(rt, alloc, reader, writer, config, n, progress),
        Some(file) => run_durable_drive(rt, alloc, reader, writer, config, n, file, progress),
    };
    Ending::of_drive(driven)
}

// Opens the database at this path, if there is one.
fn open_replica<T: Files>(
    rt: &T,
    path: Option<&str>,
) -> Option<Result<Connection<FileStore<T::File>>, sqlite::Error>>
    ensures asked { is_some result ≡ is_some path.entry }
    ensures opened { IfSome result (λ file.
        IfSome path.entry (λ at. OnOk file (T.opened rt.now at.now))) }
{
    match path {
        None => None,
        Some(path) => Some(rt.open(path)),
    }
}

// Shows rows.
fn run_show_job<R: Read, W: Write>(
    alloc: Global,
    form: RowForm,
    reader: &mut R,
    writer: &mut W,
) -> Ending
    ensures { HasShown form result (R.remaining reader.old) (R.remaining reader.new)
        (W.contents writer.old) (W.contents writer.new) }
{
    Ending::of_show(show(alloc, reader, writer, form))
}

// Prints help or the version. Any other text says what is wrong, and goes into the ending.
fn run_print_job<W: Write>(text: Error, writer: &mut W) -> Ending
    ensures { EndsShown (kind_of text) text result (W.contents writer.old)
        (W.contents writer.new) }
{
    if text.kind() == ErrorKind::OutOfMemory {
        return Ending::Stopped(ScriptError::Memory);
    }
    if text.use_stderr() {
        return Ending::Misused(text);
    }
    print_text(&text, writer)
}

// Prints a text. Nobody misses what a closed pipe doesn't take.
fn print_text<W: Write>(text: &Error, writer: &mut W) -> Ending
    ensures { HasPrinted result }
{
    match write_out(text, writer) {
        Err(why) if why.kind() != io::ErrorKind::BrokenPipe => {
            Ending::Stopped(ScriptError::Write(why))
        }
        _ => Ending::Done,
    }
}

fn write_out<W: Write>(text: &Error, writer: &mut W) -> io::Result<()> {
    write!(writer, "{text}")?;
    writer.flush()
}
