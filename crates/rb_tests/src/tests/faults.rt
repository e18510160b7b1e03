//! A script whose reader fails after each of its bytes, and one whose writer takes so many bytes
//! and no more. What is written is the front of the answers.

use crate::tests::streams::Failing;
use rb_core::Config;
use rb_script::{Answering, ScriptError, run_script};
use std::alloc::Global;
use std::io;
use std::io::{ErrorKind, Write};
use std::process::Abort;
use std::test::Fail;

// each line has one answer
const SCRIPT: &[u8] = b"\
table 540201007400
publisher
subscribe 0
feed 0 5402010074001200010000000000000001030178
end 0
send 0
turn
feed 0 5402010074001200010000000000000002030178
end 0
send 0
turn
feed 0 5402010074001200010000000000000003030178
end 0
send 0
turn
take 0 0
take 0 0
take 0 0
ack 1
accept 1
accept 2
ack 2
ack 1
take 0 0
";

const ANSWERS: &[u8] = b"\
ok
publisher 0
subscriber 0 link 1
ok
staged
sent 1
placed 1
ok
staged
sent 2
placed 2
ok
staged
sent 3
placed 3
delivery 1 0 1 1
delivery 2 0 2 2
refused WindowFull
refused NotAccepted 0
accepted 1
accepted 2
floor 0
floor 2
delivery 3 0 3 3
";

// A writer that takes these bytes and no others, and only so many of them.
#[derive(Drop)]
struct Short<'a> {
    rest: &'a [u8],
    room: usize,
}

impl Write for Short<'_> {
    fn write(&mut self, buf: &[u8]) -> io::Result<usize> {
        let many = buf.len().min(self.room);
        let wanted = self.rest.get(..many);
        if many == 0 && !buf.is_empty() {
            return Err(io::Error::from(ErrorKind::TimedOut));
        }
        if wanted.is_none() || wanted != buf.get(..many) {
            return Err(io::Error::from(ErrorKind::InvalidData));
        }
        self.rest = self.rest.get(many..).unwrap_or_default();
        self.room -= many;
        Ok(many)
    }

    fn flush(&mut self) -> io::Result<()> {
        Ok(())
    }
}

fn limits() -> Result<Config, Fail> {
    Ok(Config::new(1, 2, 10, 100, 64, 1)?)
}

fn line_ends(text: &[u8]) -> usize {
    text.iter().filter(|byte| **byte == b'\n').count()
}

// What is written are the answers to the lines that were read.
fn reads_so_far(rt: &impl Abort, alloc: Global, read: &[u8]) -> Result<(), Fail> {
    let mut reader = Failing { rest: read };
    let mut writer = Short {
        rest: ANSWERS,
        room: ANSWERS.len(),
    };
    let run = run_script(
        alloc,
        &mut reader,
        &mut writer,
        limits()?,
        Answering::plain(),
    );
    match run {
        Err(ScriptError::Read(_)) => {}
        Err(fault) => return Err(fault.into()),
        Ok(()) => return Err(Fail::new("the reader fails")),
    }
    let answered = line_ends(ANSWERS).checked_sub(line_ends(writer.rest));
    assert_eq!(rt; answered, Some(line_ends(read)));
    Ok(())
}

fn writes_so_far(rt: &impl Abort, alloc: Global, room: usize) -> Result<(), Fail> {
    let mut reader: &[u8] = SCRIPT;
    let mut writer = Short {
        rest: ANSWERS,
        room,
    };
    let run = run_script(
        alloc,
        &mut reader,
        &mut writer,
        limits()?,
        Answering::plain(),
    );
    match run {
        Err(ScriptError::Write(why)) => assert_eq!(rt; why.kind(), ErrorKind::TimedOut),
        Err(fault) => return Err(fault.into()),
        Ok(()) => return Err(Fail::new("the writer fails")),
    }
    assert_eq!(rt; writer.room, 0);
    Ok(())
}

#[test]
fn a_reader_fails_after_each_byte(rt: HostRuntime) -> Result<(), Fail> {
    let alloc = rt.alloc();
    for (many, _) in SCRIPT.iter().enumerate() {
        reads_so_far(&rt, alloc, SCRIPT.get(..many).unwrap_or_default())?;
    }
    reads_so_far(&rt, alloc, SCRIPT)
}

#[test]
fn a_writer_fails_after_each_byte(rt: HostRuntime) -> Result<(), Fail> {
    let alloc = rt.alloc();
    for (room, _) in ANSWERS.iter().enumerate() {
        writes_so_far(&rt, alloc, room)?;
    }
    Ok(())
}
