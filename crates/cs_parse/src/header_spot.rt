//! Resumable scanning of an incomplete header: remembers how much of its name was scanned.

ghost use Rattle.std.specs.Prelude.{◌≡◌, ◌<◌, ◌++◌, ℕ, List};
ghost use Rattle.cs_model.specs.Bytes.{AreBytes};
ghost use Rattle.cs_parse.specs.Lack.{room_at, LacksInHeader};
ghost use Rattle.cs_parse.specs.Spot.{InName, IsSpot, IsHeaderSpot, StaysHeader};

use crate::header::{before_name, first_zero};
use crate::spot::Spot;
use crate::stop::ParseRefusal;

// Continues in a header's name, of which `letters` bytes were scanned.
fn name_spot(bytes: &[u8], at: usize, letters: usize) -> Option<Spot>
    requires { InName bytes.now at letters }
    ensures { StaysHeader bytes.now result }
{
    let (_, name) = bytes.split_at(at);
    // a name has at most 1,024 bytes
    if name.len() > 1024 {
        return None;
    }
    let (_, new) = name.split_at(letters);
    if first_zero(new).is_some() {
        return None;
    }
    Some(Spot::Name {
        at,
        letters: name.len(),
    })
}

// scans a header from its first byte
fn first_name(bytes: &[u8]) -> Option<Spot>
    ensures { StaysHeader bytes.now result }
{
    let Some((&byte, rest)) = bytes.split_first() else {
        return Some(Spot::Start);
    };
    if byte != 0x54 {
        return None;
    }
    match before_name(rest) {
        Ok((_, name)) => name_spot(bytes, bytes.len() - name.len(), 0),
        Err(ParseRefusal::Short) => Some(Spot::Start),
        Err(ParseRefusal::Bad { .. }) => None,
    }
}

// The spot reached from `spot`, if the header is still incomplete. A spot in a change says nothing
// of a header.
fn next_name(bytes: &[u8], spot: Spot) -> Option<Spot>
    requires { IsHeaderSpot bytes.now spot }
    ensures { StaysHeader bytes.now result }
{
    match spot {
        Spot::Name { at, letters } => name_spot(bytes, at, letters),
        Spot::Start | Spot::Row { .. } | Spot::Old { .. } | Spot::New { .. } => first_name(bytes),
    }
}

// the number of nonzero bytes that make the name at a spot too long
fn name_room(spot: Spot) -> usize
    ensures { result ≡ room_at spot }
{
    match spot {
        Spot::Name { letters, .. } => 1025_usize.saturating_sub(letters),
        Spot::Start | Spot::Row { .. } | Spot::Old { .. } | Spot::New { .. } => 1,
    }
}

/// Returns a lower bound on the nonzero bytes missing from an incomplete header that begins with
/// `bytes`. Moves the spot past the name's bytes so far; it stays valid when more bytes follow. It
/// is valid for any table before the header.
///
/// Until all key flags are present the call reads only the number of columns. In the name it scans
/// only the new bytes. A result of 0 means that the header is complete or a byte is wrong; the spot
/// is then unspecified.
pub fn header_short(bytes: &[u8], spot: &mut Spot) -> usize
    requires { IsHeaderSpot bytes.now spot.old }
    ensures short { LacksInHeader bytes.now result }
    ensures spot { 0 < result → (flags more : List ℕ) → AreBytes more
        → IsSpot flags (bytes.now ++ more) spot.new }
{
    match next_name(bytes, *spot) {
        Some(next) => {
            *spot = next;
            name_room(next)
        }
        None => 0,
    }
}
