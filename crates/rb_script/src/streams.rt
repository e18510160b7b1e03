//! Reads and writes that retry after an interruption.

ghost use Rattle.std.specs.Prelude.{◌≡◌, ◌<◌, ◌≤◌, ℕ, List, length, take, IfErr, IfOk, OnOk, OnErr};
ghost use Rattle.std.specs.Io.KnownBytes.{Appends, Consumes, Keeps, IsAtEnd};
ghost use Rattle.rb_script.specs.Ends.{IsOfAnswers};
ghost use Rattle.rb_script.specs.Streams.{AppendsFront};

use crate::fault::ScriptError;
use std::io;
use std::io::{ErrorKind, Read, Write};

/// Reads some bytes into the front of `buffer`, and returns how many: none at the end of the input.
/// Retries if the reader is interrupted. An `Err` has read nothing.
#[tactic(auto, using(crate::proofs::endings::StreamLaws::known_bytes))]
pub fn read_some<R: Read>(reader: &mut R, buffer: &mut [u8]) -> io::Result<usize>
    requires { 0 < length buffer.old }
    ensures length { length buffer.new ≡ length buffer.old }
    ensures bound { IfOk result (λ n. n ≤ length buffer.new) }
    ensures bytes { IfOk result (λ n. Consumes (R.remaining reader.old) (R.remaining reader.new)
        (take n buffer.new)) }
    ensures end { IfOk result (λ n. n ≡ 0 → IsAtEnd (R.remaining reader.new)) }
    ensures err { OnErr result (Keeps (R.remaining reader.old) (R.remaining reader.new)) }
{
    for _ in 0..u64::MAX {
        match reader.read(buffer) {
            Err(e) if e.kind() == ErrorKind::Interrupted => {}
            read => return read,
        }
    }
    reader.read(buffer)
}

/// Writes all bytes. An `Err` has written a prefix of them.
#[tactic(auto, using(crate::proofs::endings::StreamLaws::known_bytes))]
pub fn write_whole<W: Write>(writer: &mut W, bytes: &[u8]) -> io::Result<()>
    ensures ok { OnOk result (Appends (W.contents writer.old) (W.contents writer.new) bytes.now) }
    ensures err { OnErr result (AppendsFront (W.contents writer.old) (W.contents writer.new)
        bytes.now) }
{
    let mut at = 0;
    for _ in 0..bytes.len() {
        if at == bytes.len() {
            break;
        }
        at += write_some(writer, &bytes[at..])?;
    }
    Ok(())
}

/// Writes all bytes of an answer. An `Err` has written a prefix of them.
pub fn write_text<W: Write>(writer: &mut W, text: &[u8]) -> Result<(), ScriptError>
    ensures ok { OnOk result (Appends (W.contents writer.old) (W.contents writer.new) text.now) }
    ensures err { OnErr result (AppendsFront (W.contents writer.old) (W.contents writer.new)
        text.now) }
    ensures faults { IfErr result IsOfAnswers }
{
    match write_whole(writer, text) {
        Ok(()) => Ok(()),
        Err(why) => Err(ScriptError::Write(why)),
    }
}

/// Flushes the writer. Retries if it is interrupted. An `Err` may have flushed a part.
#[tactic(auto, using(crate::proofs::endings::StreamLaws::known_bytes))]
pub fn flush<W: Write>(writer: &mut W) -> io::Result<()>
    ensures { Keeps (W.contents writer.old) (W.contents writer.new) }
{
    for _ in 0..u64::MAX {
        match writer.flush() {
            Err(e) if e.kind() == ErrorKind::Interrupted => {}
            flushed => return flushed,
        }
    }
    writer.flush()
}

// Writes a prefix of the bytes, and returns its length. It is an error if the writer accepts no
// byte.
#[tactic(auto, using(crate::proofs::endings::StreamLaws::known_bytes))]
fn write_some<W: Write>(writer: &mut W, bytes: &[u8]) -> io::Result<usize>
    requires { 0 < length bytes.now }
    ensures some { IfOk result (λ n. 0 < n) }
    ensures bound { IfOk result (λ n. n ≤ length bytes.now) }
    ensures ok { IfOk result (λ n. Appends (W.contents writer.old) (W.contents writer.new)
        (take n bytes.now)) }
    ensures err { OnErr result (Keeps (W.contents writer.old) (W.contents writer.new)) }
{
    for _ in 0..u64::MAX {
        match writer.write(bytes) {
            Ok(0) => return Err(io::Error::from(ErrorKind::WriteZero)),
            Err(e) if e.kind() == ErrorKind::Interrupted => {}
            written => return written,
        }
    }
    Err(io::Error::from(ErrorKind::WriteZero))
}
