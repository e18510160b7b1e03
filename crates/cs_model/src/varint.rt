//! Varints: reads and writes counts and lengths of one to nine bytes.

ghost use Rattle.std.specs.Prelude.{◌≡◌, ℕ, List, ◌≤◌, ◌++◌, length, take, drop, OnErr, IfSome};
ghost use Rattle.std.specs.Prelude.{MatchOption, Some};
ghost use Rattle.cs_model.specs.Bytes.{AddsBytes};
ghost use Rattle.cs_model.specs.Varint.{IsVarint, varint};
ghost use Rattle.cs_model.specs.Packed.{read_from};

use std::alloc::AllocError;

/// Reads the varint that `bytes` begins with. Returns its value and its length in bytes. Accepts
/// encodings longer than the shortest. Returns `None` if the bytes end inside the varint.
pub fn varint_read(bytes: &[u8]) -> Option<(u64, usize)>
    ensures found { IfSome result (λ found. (found.1 ≤ length bytes.now)
        × IsVarint (take found.1 bytes.now) found.0) }
    ensures only { (n len : ℕ) → len ≤ length bytes.now → IsVarint (take len bytes.now) n
        → result ≡ Some (n, len) }
{
    varint_first(bytes)
}

/// The same, with a contract about the definition's result.
pub fn varint_first(bytes: &[u8]) -> Option<(u64, usize)>
    ensures reads { result ≡ read_from 8 0 0 bytes.now }
    ensures within { IfSome result (λ found. found.1 ≤ length bytes.now) }
{
    let mut value: u64 = 0;
    let mut read: usize = 0;
    for &byte in bytes {
        if read == 8 {
            // the ninth byte is the last, whatever its value, and holds eight bits of the number
            return Some((256 * value + u64::from(byte), 9));
        }
        if byte < 128 {
            return Some((128 * value + u64::from(byte), read + 1));
        }
        value = 128 * value + u64::from(byte - 128);
        read += 1;
    }
    None
}

/// Appends the shortest varint of `value` to `out`. An `Err` does not change `out`.
pub fn varint_push(out: &mut Vec<u8>, value: u64) -> Result<(), AllocError>
    ensures ok { AddsBytes result out.old out.new (varint value) }
    ensures err { OnErr result (out.new.items ≡ out.old.items) }
{
    if value < 128 {
        // nearly all lengths and counts take one byte
        out.push(value as u8)?;
        return Ok(());
    }
    // appended in one call, so that an `Err` appends none of it
    let (text, start) = varint_of(value);
    out.extend_from_slice(&text[start..])
}

/// Returns the bytes after the shortest encoding of `value`, or `None` if `bytes` doesn't begin
/// with it.
pub fn varint_strip(bytes: &[u8], value: u64) -> Option<&[u8]>
    ensures found { IfSome result (λ rest. bytes.now ≡ varint value ++ rest.now) }
    ensures only { (rest : List ℕ) → bytes.now ≡ varint value ++ rest
        → MatchOption result ⊥ (λ found. found.now ≡ rest) }
{
    let (text, start) = varint_of(value);
    bytes.strip_prefix(&text[start..])
}

/// Returns a buffer and an index. The bytes from the index on are the shortest varint of `value`.
pub fn varint_of(value: u64) -> ([u8; 9], usize)
    ensures place { result.1 ≤ 9 }
    ensures text { drop result.1 result.0 ≡ varint value }
{
    // from 2^56 on all nine bytes are used, and the last one holds eight bits of the number
    let whole = value >= 1 << 56;
    let (mut rest, last) = if whole {
        (value / 256, value % 256)
    } else {
        (value / 128, value % 128)
    };
    // filled from the back
    let mut text = [0u8; 9];
    text[8] = last as u8;
    let mut start: usize = 8;
    while start > 0 && (whole || rest > 0) {
        start -= 1;
        text[start] = 128 + (rest % 128) as u8;
        rest /= 128;
    }
    (text, start)
}
