//! Readers and writers that fail, are interrupted, or wait for answers.

use rb_core::Config;
use rb_script::{Answering, ScriptError, run_script};
use rb_show::{RowForm, show};
use std::alloc::Global;
use std::cell::Cell;
use std::fmt::Display;
use std::io;
use std::io::{ErrorKind, Read, Write};
use std::process::Abort;
use std::test::Fail;

/// A reader that returns some bytes, and then fails.
#[derive(Drop)]
pub struct Failing<'a> {
    pub rest: &'a [u8],
}

impl Read for Failing<'_> {
    fn read(&mut self, buf: &mut [u8]) -> io::Result<usize> {
        if self.rest.is_empty() {
            return Err(io::Error::from(ErrorKind::TimedOut));
        }
        self.rest.read(buf)
    }
}

// A reader that never ends.
#[derive(Drop)]
struct Unending;

impl Read for Unending {
    fn read(&mut self, buf: &mut [u8]) -> io::Result<usize> {
        for byte in buf.iter_mut() {
            *byte = b'\n';
        }
        Ok(buf.len())
    }
}

// A writer that accepts no byte.
#[derive(Drop)]
struct Full;

impl Write for Full {
    fn write(&mut self, _buf: &[u8]) -> io::Result<usize> {
        Ok(0)
    }

    fn flush(&mut self) -> io::Result<()> {
        Ok(())
    }
}

// A reader and a writer that interrupt each call before they perform it.
#[derive(Drop)]
struct Hasty<T> {
    inner: T,
    again: bool,
}

impl<T> Hasty<T> {
    fn new(inner: T) -> Hasty<T> {
        Hasty {
            inner,
            again: false,
        }
    }

    fn calm(&mut self) -> io::Result<()> {
        self.again = !self.again;
        if self.again {
            return Err(io::Error::from(ErrorKind::Interrupted));
        }
        Ok(())
    }
}

impl<T: Read> Read for Hasty<T> {
    fn read(&mut self, buf: &mut [u8]) -> io::Result<usize> {
        self.calm()?;
        self.inner.read(buf)
    }
}

impl<T: Write> Write for Hasty<T> {
    fn write(&mut self, buf: &[u8]) -> io::Result<usize> {
        self.calm()?;
        self.inner.write(buf)
    }

    fn flush(&mut self) -> io::Result<()> {
        self.calm()?;
        self.inner.flush()
    }
}

// A reader of one line at a time. It returns the next line only after the answers to those before
// are flushed.
#[derive(Drop)]
struct Asking<'a> {
    lines: &'a [&'a [u8]],
    asked: usize,
    answered: &'a Cell<usize>,
}

impl Read for Asking<'_> {
    fn read(&mut self, buf: &mut [u8]) -> io::Result<usize> {
        if self.answered.get() != self.asked {
            return Err(io::Error::from(ErrorKind::WouldBlock));
        }
        let Some(line) = self.lines.get(self.asked) else {
            return Ok(0);
        };
        self.asked += 1;
        let mut rest: &[u8] = line;
        rest.read(buf)
    }
}

// A writer that holds lines back until it is flushed.
#[derive(Drop)]
struct Telling<'a> {
    lines: usize,
    answered: &'a Cell<usize>,
}

impl Write for Telling<'_> {
    fn write(&mut self, buf: &[u8]) -> io::Result<usize> {
        for byte in buf {
            if *byte == b'\n' {
                self.lines = self.lines.saturating_add(1);
            }
        }
        Ok(buf.len())
    }

    fn flush(&mut self) -> io::Result<()> {
        self.answered.set(self.lines);
        Ok(())
    }
}

// A writer whose writes fail, or whose flushes fail after the first `flushes`.
#[derive(Drop)]
struct Broken {
    writes: bool,
    flushes: usize,
}

impl Write for Broken {
    fn write(&mut self, buf: &[u8]) -> io::Result<usize> {
        if self.writes {
            return Err(io::Error::from(ErrorKind::TimedOut));
        }
        Ok(buf.len())
    }

    fn flush(&mut self) -> io::Result<()> {
        if self.flushes == 0 {
            return Err(io::Error::from(ErrorKind::TimedOut));
        }
        self.flushes -= 1;
        Ok(())
    }
}

// An endless reader of a line with an answer and many without. Its first piece is shorter than the
// others.
#[derive(Drop)]
struct Turning {
    begun: bool,
}

impl Read for Turning {
    fn read(&mut self, buf: &mut [u8]) -> io::Result<usize> {
        for byte in buf.iter_mut() {
            *byte = b'\n';
        }
        for (byte, letter) in buf.iter_mut().zip(b"turn") {
            *byte = *letter;
        }
        if self.begun {
            return Ok(buf.len());
        }
        self.begun = true;
        Ok(buf.len().min(100))
    }
}

// The run stopped with this text. If memory ran out before, for the run or for the list of its
// answers, that is an error.
fn stopped<F: Display + Drop>(
    rt: &impl Abort,
    alloc: Global,
    run: Result<(), F>,
    want: &str,
) -> Result<(), Fail> {
    let Err(fault) = run else {
        return Err("the run ended")?;
    };
    let text = format!(in alloc; "{fault}")?;
    let text = text.as_str();
    if text != want && (text == "out of memory" || text == "write fault") {
        return Err("out of memory")?;
    }
    assert_eq!(rt; text, want);
    Ok(())
}

// runs a script with the standard limits and plain answers
fn run_plainly<R: Read, W: Write>(
    alloc: Global,
    reader: &mut R,
    writer: &mut W,
) -> Result<(), ScriptError> {
    run_script(
        alloc,
        reader,
        writer,
        Config::standard(),
        Answering::plain(),
    )
}

#[test]
fn stops(rt: HostRuntime) -> Result<(), Fail> {
    let alloc = rt.alloc();
    let mut written = Vec::new(alloc);
    let mut failing = Failing {
        rest: b"publisher\nturn\ntur",
    };
    let read = run_plainly(alloc, &mut failing, &mut written);
    stopped(&rt, alloc, read, "read fault")?;
    assert!(rt; written.as_slice() == b"publisher 0\nidle\n".as_slice());
    let mut script: &[u8] = b"publisher\n";
    let full = run_plainly(alloc, &mut script, &mut Full);
    stopped(&rt, alloc, full, "write fault")?;
    let mut nothing = Vec::new(alloc);
    let endless = run_plainly(alloc, &mut Unending, &mut nothing);
    stopped(&rt, alloc, endless, "script too long")?;
    assert!(rt; nothing.is_empty());
    let memory = format!(in alloc; "{}", ScriptError::Memory)?;
    assert_eq!(rt; memory.as_str(), "out of memory");
    Ok(())
}

#[test]
fn what_is_interrupted_is_tried_again(rt: HostRuntime) -> Result<(), Fail> {
    let alloc = rt.alloc();
    let script: &[u8] = b"publisher\nturn\n";
    let mut reader = Hasty::new(script);
    let mut writer = Hasty::new(Vec::new(alloc));
    run_plainly(alloc, &mut reader, &mut writer)?;
    assert!(rt; writer.inner.as_slice() == b"publisher 0\nidle\n".as_slice());
    Ok(())
}

#[test]
fn lines_are_answered_before_the_next_read(rt: HostRuntime) -> Result<(), Fail> {
    let alloc = rt.alloc();
    let answered = Cell::new(0);
    let lines: [&[u8]; 4] = [b"publisher\n", b"turn\n", b"reset 0\n", b"turn\n"];
    let mut reader = Asking {
        lines: &lines,
        asked: 0,
        answered: &answered,
    };
    let mut writer = Telling {
        lines: 0,
        answered: &answered,
    };
    run_plainly(alloc, &mut reader, &mut writer)?;
    assert_eq!(rt; answered.get(), 4);
    // the answer to a last line without a line end is flushed too
    let last: [&[u8]; 1] = [b"turn"];
    let rest = Cell::new(0);
    let mut writer = Telling {
        lines: 0,
        answered: &rest,
    };
    let mut reader: &[u8] = last[0];
    run_plainly(alloc, &mut reader, &mut writer)?;
    assert_eq!(rt; rest.get(), 1);
    Ok(())
}

#[test]
fn write_faults_carry_their_reason(rt: HostRuntime) -> Result<(), Fail> {
    let alloc = rt.alloc();
    // no write; no flush before the first read; no flush after the last answer
    for (writes, flushes) in [(true, 9), (false, 0), (false, 2)] {
        let mut script: &[u8] = b"turn";
        let mut writer = Broken { writes, flushes };
        let run = run_plainly(alloc, &mut script, &mut writer);
        stopped(&rt, alloc, run, "write fault")?;
    }
    Ok(())
}

#[test]
fn answers_are_flushed_after_a_fault(rt: HostRuntime) -> Result<(), Fail> {
    let alloc = rt.alloc();
    let answered = Cell::new(0);
    let mut writer = Telling {
        lines: 0,
        answered: &answered,
    };
    let mut reader = Turning { begun: false };
    let run = run_plainly(alloc, &mut reader, &mut writer);
    stopped(&rt, alloc, run, "script too long")?;
    assert_eq!(rt; answered.get(), 257);
    Ok(())
}

#[test]
fn showing_stops(rt: HostRuntime) -> Result<(), Fail> {
    let alloc = rt.alloc();
    let rows = b"table 5401017400\nrow 0 0100000000000000ff\n";
    let mut written = Vec::new(alloc);
    let mut failing = Failing { rest: rows };
    let read = show(alloc, &mut failing, &mut written, RowForm::Sql);
    stopped(&rt, alloc, read, "read fault")?;
    // nothing is written before the whole input is read
    assert!(rt; written.is_empty());
    let mut input: &[u8] = rows;
    let full = show(alloc, &mut input, &mut Full, RowForm::Json);
    stopped(&rt, alloc, full, "write fault")?;
    let mut broken = Broken {
        writes: false,
        flushes: 0,
    };
    let mut input: &[u8] = rows;
    let unflushed = show(alloc, &mut input, &mut broken, RowForm::Sql);
    stopped(&rt, alloc, unflushed, "write fault")?;
    let input: &[u8] = rows;
    let mut reader = Hasty::new(input);
    let mut writer = Hasty::new(Vec::new(alloc));
    show(alloc, &mut reader, &mut writer, RowForm::Sql)?;
    assert!(rt; writer.inner.as_slice() == b"t: 255\n".as_slice());
    Ok(())
}
