//! The program: parses a command line, and runs a script, drives a broker or shows rows from
//! standard input to standard output. Theorem: `runner::run_words` reads, writes and ends as the
//! words ask for. They ask for a script under the limits and in the way of their options, for a
//! drive under these with that number of subscribers and a database for the first one, for a
//! message about the first faulty option, for rows in the form of their options, or for a text to
//! print. The exit status and the message on standard error are those of the ending. A drive can
//! show its progress on standard error, where that is a terminal.
#![tactic(auto)]

mod command;
mod ending;
mod files;
mod job;
mod options;
mod progress;
mod runner;
mod screen;

ghost use Rattle.std.specs.Prelude.{◌≡◌, map, string_bytes, MatchResult, None};
ghost use Rattle.std.specs.IoError.{error_kind};
ghost use Rattle.rb_run.specs.Endings.{ending_of_words};
ghost use Rattle.rb_run.specs.Program.{EndsAsAsked};

use ending::Ending;
use files::Files;
use runner::run_words;
use screen::{Output, Screen};
use sqlite::{Connection, FileStore};
use sqlite_std_file::File;
use std::alloc::Global;
use std::io::{BufWriter, Stderr, Stdin, Stdout};
use std::process::ExitCode;
use std::sync::Wait;
use std::thread::Threads;
use std::time::Clock;
use std::{env, io};

// What is read and written. Only `main` can say that threads may be made, so it hands these down.
#[derive(Drop)]
struct Streams {
    stdin: Stdin,
    stdout: Stdout,
    // the same once more, for the case that there is no memory for a buffer around it
    spare: Stdout,
    stderr: Stderr,
}

impl Files for HostRuntime {
    ghost opened = { λ _ _. Unit {0} };

    type File = File;

    fn open(&self, path: &str) -> Result<Connection<FileStore<File>>, sqlite::Error> {
        Connection::open(self, path)
    }
}

fn main(rt: HostRuntime) -> ExitCode {
    let words = words_of(&rt);
    let streams = Streams {
        stdin: rt.stdin(),
        stdout: rt.stdout(),
        spare: rt.stdout(),
        stderr: rt.stderr(),
    };
    let ending = run_command(&rt, rt.alloc(), words, streams);
    // if even this fails, nothing is left to do
    let _ = match BufWriter::new(rt.alloc(), rt.stderr()) {
        Ok(mut errors) => ending.report(&mut errors),
        // without a buffer the message goes out in parts
        Err(_) => ending.report(&mut rt.stderr()),
    };
    ending.code()
}

fn words_of(rt: &HostRuntime) -> io::Result<Vec<String>> {
    let words = env::args(rt)?.collect(rt.alloc())?;
    Ok(words)
}

// Runs what the command line asks for, if its words can be had.
fn run_command<T: Threads + Wait + Sync + Files + Clock>(
    rt: &T,
    alloc: Global,
    words: io::Result<Vec<String>>,
    streams: Streams,
) -> Ending
    ensures { MatchResult words
        (λ words. EndsAsAsked (map string_bytes words.items) result None None None None)
        (λ why. result ≡ ending_of_words (error_kind why)) }
{
    match words {
        Ok(words) => run_on_streams(rt, alloc, &words, streams),
        Err(why) => Ending::of_words(&why),
    }
}

// Runs what these words ask for, from standard input to standard output.
fn run_on_streams<T: Threads + Wait + Sync + Files + Clock>(
    rt: &T,
    alloc: Global,
    words: &[String],
    streams: Streams,
) -> Ending
    ensures { EndsAsAsked (map string_bytes words.now) result None None None None }
{
    let Streams {
        mut stdin,
        stdout,
        spare,
        stderr,
    } = streams;
    let screen = Screen::new(stderr);
    let mut spare = new_output(rt, spare, &screen);
    match BufWriter::with_capacity(alloc, 65_536, new_output(rt, stdout, &screen)) {
        Ok(mut writer) => run_words(rt, alloc, words, &mut stdin, &mut writer, &screen),
        // without a buffer the answers go out in parts
        Err(_) => run_words(rt, alloc, words, &mut stdin, &mut spare, &screen),
    }
}

// Standard output, which closes this screen before it writes.
fn new_output<'a, T: Wait>(rt: &'a T, stdout: Stdout, screen: &'a Screen) -> Output<'a, T> {
    Output { rt, stdout, screen }
}
