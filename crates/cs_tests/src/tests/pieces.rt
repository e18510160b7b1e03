//! Tests texts in pieces, and the limits of texts.

ghost use Rattle.std.specs.Prelude.{◌<◌};

use crate::tests::fixture::{BEGUN, HEADER, INSERT, counts, joined, same, shape};
use cs_model::{Changeset, Schema, SectionFault};
use cs_parse::FaultKind::{BadOperation, EmptyName, NameTooLong, TooLong, Truncated};
use cs_parse::*;
use std::alloc::{AllocError, Global};
use std::process::Abort;
use std::test::Fail;

// an INSERT of (1, 'x'), with the indirect byte 5 and a longer encoding of 1 than the shortest
const LOOSE: &[u8] = b"\x12\x05\x01\0\0\0\0\0\0\0\x01\x03\x80\x01x";

// Feeds a piece, which must return this. If memory runs out, the parser has not changed, and a
// second call continues.
fn feeds(
    rt: &impl Abort,
    alloc: Global,
    parser: &mut PieceParser,
    piece: &[u8],
    want: Option<ParseFault>,
) {
    let before = parser.offset();
    let mut got = parser.feed(alloc, piece);
    if got == Err(ParseError::Memory) {
        counts(rt, parser.offset(), before);
        got = parser.feed(alloc, piece);
    }
    assert_eq!(rt; got.err(), want.map(ParseError::Fault));
}

// The result of parsing a text; an error if memory runs out.
fn whole(alloc: Global, text: &[u8]) -> Result<Result<Changeset, ParseFault>, Fail> {
    match parse(alloc, text) {
        Ok(read) => Ok(Ok(read)),
        Err(ParseError::Fault(fault)) => Ok(Err(fault)),
        Err(ParseError::Memory) => Err("memory")?,
    }
}

// The bytes taken give the same as the whole text: the same sections, or the same fault.
fn as_whole(rt: &impl Abort, alloc: Global, parser: &PieceParser, text: &[u8]) -> Result<(), Fail> {
    match (whole(alloc, text)?, parser.finish()) {
        (Ok(whole), Ok(found)) => same(rt, found.text(), whole.text()),
        (whole, found) => assert_eq!(rt; found.err(), whole.err()),
    }
    Ok(())
}

fn repeated(alloc: Global, byte: u8, count: usize) -> Result<Vec<u8>, AllocError> {
    vec![in alloc; byte; count]
}

// A text of `len` bytes: an INSERT of 1 and a BLOB of zeros, and more zeros if any bytes are left.
// `low` is the lowest seven bits of the BLOB's length. With 0x6a the BLOB ends at 16,777,216.
fn with_blob(alloc: Global, low: u8, len: usize) -> Result<Vec<u8>, AllocError> {
    let mut text = joined(alloc, &[HEADER, BEGUN, b"\x04\x87\xff\xff"])?;
    text.push(low)?;
    text.resize(len, 0)?;
    Ok(text)
}

#[test]
fn longest_texts(rt: HostRuntime) -> Result<(), Fail> {
    let alloc = rt.alloc();
    let too_long = Err((16_777_216, TooLong));
    for (low, len, want) in [
        (0x6a, 16_777_216, Ok(1)),
        // whatever follows the limit, and also if the limit is in a value
        (0x6a, 16_777_217, too_long),
        (0x6b, 16_777_217, too_long),
        // but a fault before the limit comes first, such as a zero after the last change
        (0x69, 16_777_217, Err((16_777_215, BadOperation))),
    ] {
        let want = want.map_err(|(at, kind)| ParseFault { at, kind });
        let text = with_blob(alloc, low, len)?;
        assert_eq!(rt; count_changes(&text), want);
        assert_eq!(rt; whole(alloc, &text)?.err(), want.err());
        // and all of it in one piece
        feeds(&rt, alloc, &mut PieceParser::new(alloc), &text, want.err());
    }
    Ok(())
}

// The longest text in pieces of 64, and one byte more.
#[test]
fn longest_in_pieces(rt: HostRuntime) {
    let alloc = rt.alloc();
    let mut parser = PieceParser::new(alloc);
    feeds(&rt, alloc, &mut parser, HEADER, None);
    feeds(&rt, alloc, &mut parser, BEGUN, None);
    // 16,777,194 bytes of BLOB after the 22 before them
    feeds(&rt, alloc, &mut parser, b"\x04\x87\xff\xff\x6a", None);
    for _ in 0..262_143 {
        feeds(&rt, alloc, &mut parser, &[0x61; 64], None);
    }
    assert!(rt; parser.finish().is_err());
    feeds(&rt, alloc, &mut parser, &[0x61; 42], None);
    assert!(rt; parser.finish().is_ok());
    let (at, kind) = (16_777_216, TooLong);
    for (piece, told) in [
        (&b""[..], None),
        (b"\x12", Some(ParseFault { at, kind })),
        (b"", Some(ParseFault { at, kind })),
    ] {
        feeds(&rt, alloc, &mut parser, piece, told);
        counts(&rt, parser.offset(), 16_777_216);
    }
}

// An INSERT of (1, 'x'), and a table of 2,000 columns, the last of which is its key. Its INSERT has
// 1 in the key and NULL in all other columns. `count` encodes the number of columns, and the name
// has `letters` letters.
fn wide(alloc: Global, count: &[u8], letters: usize) -> Result<Vec<u8>, AllocError> {
    let mut text = joined(alloc, &[HEADER, INSERT, b"T"])?;
    text.extend_from_slice(count)?;
    text.extend_from_slice(&repeated(alloc, 0, 1999)?)?;
    text.push(1)?;
    text.extend_from_slice(&repeated(alloc, b'a', letters)?)?;
    text.extend_from_slice(b"\0\x12\0")?;
    text.extend_from_slice(&repeated(alloc, 5, 1999)?)?;
    text.extend_from_slice(b"\x01\0\0\0\0\0\0\0\x01")?;
    Ok(text)
}

// Feeds a text in pieces of this length. Its fault is reported at its byte, and from then on.
fn comes(
    rt: &impl Abort,
    alloc: Global,
    text: &[u8],
    len: usize,
    fault: Option<ParseFault>,
) -> Result<(), Fail>
    requires { 0 < len }
{
    let mut parser = PieceParser::new(alloc);
    for piece in text.chunks(len) {
        let after = parser.offset().saturating_add(piece.len());
        let want = fault.filter(|fault| fault.at < after);
        feeds(rt, alloc, &mut parser, piece, want);
    }
    as_whole(rt, alloc, &parser, text)
}

// `end` does not change the parser if it returns an error. If it succeeds, it resets the parser.
fn ends(
    rt: &impl Abort,
    alloc: Global,
    parser: &mut PieceParser,
    schema: &Schema,
    want: Option<EndError>,
) {
    let before = parser.offset();
    let ended = parser.end(alloc, schema);
    counts(rt, parser.offset(), if want.is_some() { before } else { 0 });
    match ended {
        Ok(found) => counts(rt, found.len(), 1),
        Err(error) => assert_eq!(rt; Some(error), want),
    }
}

fn ended(rt: &impl Abort, alloc: Global) -> Result<(), Fail> {
    let mut schema = Schema::empty(alloc);
    let mut parser = PieceParser::new(alloc);
    feeds(rt, alloc, &mut parser, HEADER, None);
    let refused = EndError::Refused(SectionFault::UnknownTable(0));
    ends(rt, alloc, &mut parser, &schema, Some(refused));
    feeds(rt, alloc, &mut parser, BEGUN, None);
    let (at, kind) = (17, Truncated);
    let refused = EndError::Fault(ParseFault { at, kind });
    ends(rt, alloc, &mut parser, &schema, Some(refused));
    feeds(rt, alloc, &mut parser, b"\x03\x01x", None);
    schema.add(shape(alloc, b"t", &[1, 0])?)?;
    ends(rt, alloc, &mut parser, &schema, None);
    Ok(())
}

// `take` returns the changeset that `finish` showed, and resets the parser.
fn taken(rt: &impl Abort, alloc: Global, mut parser: PieceParser) -> Result<(), Fail> {
    if parser.finish().is_err() {
        return Err("a fault")?;
    }
    counts(rt, parser.take(alloc).len(), 1);
    counts(rt, parser.into_changeset()?.len(), 0);
    Ok(())
}

#[test]
fn pieces(rt: HostRuntime) -> Result<(), Fail> {
    let alloc = rt.alloc();
    ended(&rt, alloc)?;
    let mut parser = PieceParser::new(alloc);
    feeds(&rt, alloc, &mut parser, HEADER, None);
    taken(&rt, alloc, parser)?;
    // an INSERT of a BLOB of 300,000 bytes, in pieces of 1,000, after one that isn't canonical
    for next in [INSERT, LOOSE] {
        let mut text = joined(alloc, &[HEADER, LOOSE, BEGUN, b"\x04\x92\xa7\x60"])?;
        text.extend_from_slice(&repeated(alloc, b'a', 300_000)?)?;
        text.extend_from_slice(next)?;
        comes(&rt, alloc, &text, 1000, None)?;
    }
    // 2,000 in two bytes and in nine
    let (short, long) = (b"\x8f\x50", b"\x80\x80\x80\x80\x80\x80\x80\x87\xd0");
    for (count, letters, want) in [
        (&short[..], 1024, None),
        (long, 1024, None),
        (short, 1025, Some((3047, NameTooLong))),
        (long, 0, Some((2030, EmptyName))),
    ] {
        let fault = want.map(|(at, kind)| ParseFault { at, kind });
        comes(&rt, alloc, &wide(alloc, count, letters)?, 1, fault)?;
    }
    Ok(())
}
