//! Tests the canonical form of texts, and the canonical text in buffers and in pieces.

ghost use Rattle.std.specs.Prelude.{◌<◌, map};

use crate::tests::fixture::{HEADER, INSERT, counts, joined, read, same};
use cs_model::Changeset;
use cs_write::*;
use std::alloc::Global;
use std::process::Abort;
use std::test::Fail;

// HEADER and INSERT
const TEXT: [u8; 20] = *b"T\x02\x01\0t\0\x12\0\x01\0\0\0\0\0\0\0\x01\x03\x01x";

// the header of a table of two columns, the second of which is its key
const SECOND: &[u8] = b"T\x02\0\x01t\0";

fn writes(rt: &impl Abort, alloc: Global, changeset: &Changeset, want: &[u8]) -> Result<(), Fail> {
    let text = write(alloc, changeset)?;
    same(rt, &text, want);
    Ok(())
}

// The changeset has this canonical text, and so has its canonical form, which has `count` sections.
fn forms(
    rt: &impl Abort,
    alloc: Global,
    changeset: &Changeset,
    want: &[u8],
    count: usize,
) -> Result<(), Fail> {
    writes(rt, alloc, changeset, want)?;
    let form = canonical(alloc, changeset)?;
    counts(rt, form.len(), count);
    writes(rt, alloc, &form, want)
}

// Writes the changeset to a buffer of sevens as long as `want`, which must become `want`. Its text
// has 20 bytes.
fn fills(rt: &impl Abort, alloc: Global, changeset: &Changeset, want: &[u8]) -> Result<(), Fail> {
    let mut out = vec![in alloc; 7u8; want.len()]?;
    let written = write_to(alloc, changeset, &mut out)?;
    counts(rt, written, 20);
    same(rt, &out, want);
    Ok(())
}

// Why a sink stops a test: its call has no answer for that.
const OWN_MEMORY: &str = "the test's own memory";

// A sink that takes `room` pieces and then fails. It keeps all pieces that it gets, and stops the
// test if memory runs out.
#[derive(Drop)]
struct KeptBytes<'a, R> {
    rt: &'a R,
    alloc: Global,
    room: usize,
    taken: Vec<Vec<u8>>,
    failed: Vec<Vec<u8>>,
}

impl<R: Abort> Sink for KeptBytes<'_, R> {
    ghost taken = { λ s. map (λ piece. piece.items) s.taken.items };

    ghost failed = { λ s. map (λ piece. piece.items) s.failed.items };

    fn put(&mut self, piece: &[u8]) -> Result<(), SinkFault> {
        let kept = piece.to_vec(self.alloc).expect(self.rt, OWN_MEMORY);
        if self.taken.len() == self.room {
            self.failed.push(kept).expect(self.rt, OWN_MEMORY);
            return Err(SinkFault);
        }
        self.taken.push(kept).expect(self.rt, OWN_MEMORY);
        Ok(())
    }
}

fn are(rt: &impl Abort, pieces: &[Vec<u8>], want: &[&[u8]]) {
    counts(rt, pieces.len(), want.len());
    for (piece, wanted) in pieces.iter().zip(want) {
        same(rt, piece, wanted);
    }
}

// A sink with room for `room` pieces takes these, and fails to take those.
fn puts(
    rt: &impl Abort,
    alloc: Global,
    changeset: &Changeset,
    max: usize,
    room: usize,
    taken: &[&[u8]],
    failed: &[&[u8]],
) -> Result<(), Fail>
    requires { 0 < max }
{
    let mut sink = KeptBytes {
        rt,
        alloc,
        room,
        taken: Vec::new(alloc),
        failed: Vec::new(alloc),
    };
    match write_pieces(alloc, changeset, max, &mut sink) {
        Ok(()) => counts(rt, failed.len(), 0),
        Err(WriteError::Sink) => counts(rt, failed.len(), 1),
        Err(WriteError::Memory) => return Err("memory")?,
    }
    are(rt, &sink.taken, taken);
    are(rt, &sink.failed, failed);
    Ok(())
}

// A buffer as long as the text becomes the text. In a longer one the bytes after it are unchanged,
// and a shorter one is unchanged.
fn buffers(rt: &impl Abort, alloc: Global, changeset: &Changeset) -> Result<(), Fail> {
    let longer = joined(alloc, &[&TEXT, b"\x07\x07"])?;
    for want in [&TEXT[..], &longer, &[7; 19], b""] {
        fills(rt, alloc, changeset, want)?;
    }
    Ok(())
}

fn sinks(rt: &impl Abort, alloc: Global, changeset: &Changeset) -> Result<(), Fail> {
    let (first, second, third) = (&TEXT[..7], &TEXT[7..14], &TEXT[14..]);
    puts(rt, alloc, changeset, 7, 9, &[first, second, third], &[])?;
    puts(rt, alloc, changeset, 7, 1, &[first], &[second])?;
    puts(rt, alloc, changeset, 19, 9, &[&TEXT[..19], b"x"], &[])?;
    puts(rt, alloc, changeset, 20, 1, &[&TEXT], &[])?;
    puts(rt, alloc, changeset, 1 << 63, 1, &[&TEXT], &[])
}

// Sections of one table are joined at the place of the first, even if that is empty. None without
// changes remains.
fn sections(rt: &impl Abort, alloc: Global) -> Result<(), Fail> {
    let (t, u, n) = (HEADER, b"T\x02\x01\0u\0", b"T\x02\x01\0n\0");
    let update = b"\x17\0\x01\0\0\0\0\0\0\0\x01\x03\x01x\0\x03\x01z";
    let delete = b"\x09\x01\x01\xff\xff\xff\xff\xff\xff\xff\xfe\x03\x01y";
    let want = joined(alloc, &[u, INSERT, delete, t, update])?;
    let changeset = read(alloc, &[u, t, update, u, INSERT, n, u, delete])?;
    forms(rt, alloc, &changeset, &want, 2)
}

// The canonical text of an INSERT of a BLOB of this length. The key column is the second.
fn shortens(
    rt: &impl Abort,
    alloc: Global,
    loose: &[u8],
    len: usize,
    canonical: &[u8],
) -> Result<(), Fail> {
    let value = vec![in alloc; b'b'; len]?;
    let changeset = read(alloc, &[SECOND, loose, &value])?;
    let want = joined(alloc, &[SECOND, canonical, &value])?;
    forms(rt, alloc, &changeset, &want, 1)
}

// A changeset without changes is the empty text, in no piece.
fn nothing(rt: &impl Abort, alloc: Global) -> Result<(), Fail> {
    let none = read(alloc, &[HEADER])?;
    forms(rt, alloc, &none, b"", 0)?;
    puts(rt, alloc, &none, 7, 0, &[], &[])
}

// Lengths become the shortest, and indirect bytes become 1.
fn lengths(rt: &impl Abort, alloc: Global) -> Result<(), Fail> {
    for (loose, len, canonical) in [
        (
            &b"\x12\x07\x05\x04\x80\x01"[..],
            1,
            &b"\x12\x01\x05\x04\x01"[..],
        ),
        (b"\x12\0\x05\x04\x80\0", 0, b"\x12\0\x05\x04\0"),
        (b"\x12\x01\x05\x04\x80\x7f", 127, b"\x12\x01\x05\x04\x7f"),
        (b"\x12\xff\x05\x04\x81\0", 128, b"\x12\x01\x05\x04\x81\0"),
        (b"\x12\0\x05\x04\xff\x7f", 16_383, b"\x12\0\x05\x04\xff\x7f"),
        (
            b"\x12\0\x05\x04\x80\x80\x80\x80\x80\x80\x80\xc0\0",
            16_384,
            b"\x12\0\x05\x04\x81\x80\0",
        ),
    ] {
        shortens(rt, alloc, loose, len, canonical)?;
    }
    Ok(())
}

#[test]
fn written(rt: HostRuntime) -> Result<(), Fail> {
    let alloc = rt.alloc();
    let changeset = read(alloc, &[&TEXT])?;
    buffers(&rt, alloc, &changeset)?;
    sinks(&rt, alloc, &changeset)?;
    nothing(&rt, alloc)?;
    sections(&rt, alloc)?;
    lengths(&rt, alloc)
}
