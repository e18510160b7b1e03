//! Reads the words of a line: numbers and bytes.

ghost use Rattle.std.specs.Prelude.{◌≡◌, true, IfOk};
ghost use Rattle.cs_model.specs.Schema.{same_bytes};
ghost use Rattle.rb_script.specs.Words.{is_digit, is_numeral, value_within, number_in_word};
ghost use Rattle.rb_script.specs.Words.{bytes_of};
ghost use Rattle.std.specs.List.{list_all};

use cs_model::{Octets, Seq};
use hex::FromHexError;
use std::alloc::{AllocError, Global};

/// The number that a word spells in decimal: digits without sign or leading zero, below 2^64.
pub fn number(word: &[u8]) -> Option<u64>
    ensures { result ≡ number_in_word word.now }
{
    if numeral(word) { value_of(word) } else { None }
}

// The value of the digits, if it fits in 64 bits.
fn value_of(digits: &[u8]) -> Option<u64>
    requires { list_all is_digit digits.now ≡ true }
    ensures { result ≡ value_within digits.now }
{
    let mut value: u64 = 0;
    for digit in digits {
        value = value
            .checked_mul(10)?
            .checked_add(u64::from(*digit - b'0'))?;
    }
    Some(value)
}

fn numeral(word: &[u8]) -> bool
    ensures { result ≡ is_numeral word.now }
{
    match word {
        [] => false,
        [first, rest @ ..] => all_digits(word) && (*first != b'0' || rest.is_empty()),
    }
}

fn all_digits(word: &[u8]) -> bool
    ensures { result ≡ list_all is_digit word.now }
{
    word.iter().all(|byte| b'0' <= *byte && *byte <= b'9')
}

/// The bytes that a word spells in hexadecimal of either case; `-` spells none. Returns
/// `AllocError` if memory runs out.
pub fn octets(alloc: Global, word: &[u8]) -> Result<Option<Octets>, AllocError>
    ensures { IfOk result (λ bytes. bytes ≡ bytes_of word.now) }
{
    if word.is_empty() {
        return Ok(None);
    }
    if is(word, b"-") {
        return Ok(Some(Seq::from_vec(Vec::new(alloc))));
    }
    match hex::decode(alloc, word) {
        Ok(bytes) => Ok(Some(Seq::from_vec(bytes))),
        Err(FromHexError::OutOfMemory) => Err(AllocError),
        Err(_) => Ok(None),
    }
}

/// Whether a word equals `name`.
pub fn is(word: &[u8], name: &[u8]) -> bool
    ensures { result ≡ same_bytes word.now name.now }
{
    word == name
}
