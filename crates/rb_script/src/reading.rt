//! Parses a line into its form.

ghost use Rattle.std.specs.Prelude.{◌≡◌, IfOk, map};
ghost use Rattle.rb_script.specs.Words.{words_of, number_in_word};
ghost use Rattle.rb_script.specs.Forms.{one_word, two_words, name_and_number, two_numbers};
ghost use Rattle.rb_script.specs.Forms.{crash_form, number_and_word, form_of_words, form_of};

use crate::forms::Form;
use crate::words::{is, number, octets};
use rb_core::Event;
use std::alloc::{AllocError, Global};

/// The form of a line, if it has one. Returns `AllocError` if memory runs out.
pub fn form(alloc: Global, line: &[u8]) -> Result<Option<Form>, AllocError>
    ensures { IfOk result (λ form. form ≡ form_of line.now) }
{
    let words = parts(alloc, line)?;
    form_of_parts(alloc, &words)
}

/// The words between single spaces. Returns `AllocError` if memory runs out.
pub fn parts(alloc: Global, line: &[u8]) -> Result<Vec<&[u8]>, AllocError>
    ensures { IfOk result (λ words. map (λ word. word.now) words.items ≡ words_of line.now) }
{
    line.split(|byte| *byte == b' ').collect(alloc)
}

fn form_of_parts(alloc: Global, words: &[&[u8]]) -> Result<Option<Form>, AllocError>
    ensures { IfOk result (λ form. form ≡ form_of_words (map (λ word. word.now) words.now)) }
{
    match words {
        [] => Ok(None),
        [name] => Ok(form_of_name(name)),
        [name, word] => form_with_word(alloc, name, word),
        [name, first, word] => match number(first) {
            None => Ok(None),
            Some(n) => form_with_two(alloc, name, n, word),
        },
        [_, _, _, _, ..] => Ok(None),
    }
}

fn form_of_name(name: &[u8]) -> Option<Form>
    ensures { result ≡ one_word name.now }
{
    if is(name, b"publisher") {
        Some(Form::Happens(Event::Publisher))
    } else if is(name, b"turn") {
        Some(Form::Happens(Event::Turn))
    } else if is(name, b"close") {
        Some(Form::Happens(Event::Close))
    } else if is(name, b"left") {
        Some(Form::Left)
    } else {
        None
    }
}

fn form_with_word(alloc: Global, name: &[u8], word: &[u8]) -> Result<Option<Form>, AllocError>
    ensures { IfOk result (λ form. form ≡ two_words name.now word.now) }
{
    if is(name, b"table") {
        return Ok(octets(alloc, word)?.map(Form::Table));
    }
    match number(word) {
        None => Ok(None),
        Some(n) => Ok(form_with_number(name, n)),
    }
}

fn form_with_number(name: &[u8], n: u64) -> Option<Form>
    ensures { result ≡ name_and_number name.now (Some n) }
{
    if is(name, b"reset") {
        Some(Form::Happens(Event::Reset { publisher: n }))
    } else if is(name, b"end") {
        Some(Form::Happens(Event::End { publisher: n }))
    } else if is(name, b"send") {
        Some(Form::Happens(Event::Send { publisher: n }))
    } else if is(name, b"subscribe") {
        Some(Form::Happens(Event::Subscribe { start: n }))
    } else if is(name, b"takeany") {
        Some(Form::Happens(Event::TakeAny { now: n }))
    } else if is(name, b"accept") {
        Some(Form::Happens(Event::Accept { delivery: n }))
    } else if is(name, b"ack") {
        Some(Form::Happens(Event::Ack { delivery: n }))
    } else if is(name, b"nack") {
        Some(Form::Happens(Event::Nack { delivery: n }))
    } else if is(name, b"nackopen") {
        Some(Form::Happens(Event::NackOpened { delivery: n }))
    } else if is(name, b"expire") {
        Some(Form::Happens(Event::Expire { now: n }))
    } else if is(name, b"resume") {
        Some(Form::Happens(Event::Resume { subscription: n }))
    } else if is(name, b"unsubscribe") {
        Some(Form::Happens(Event::Unsubscribe { subscription: n }))
    } else if is(name, b"entry") {
        Some(Form::Entry(n))
    } else if is(name, b"rows") {
        Some(Form::Rows(n))
    } else {
        None
    }
}

fn form_with_two(
    alloc: Global,
    name: &[u8],
    n: u64,
    word: &[u8],
) -> Result<Option<Form>, AllocError>
    ensures { IfOk result (λ form. form ≡ number_and_word name.now (Some n) word.now) }
{
    if is(name, b"feed") {
        return match octets(alloc, word)? {
            None => Ok(None),
            Some(bytes) => Ok(Some(Form::Happens(Event::Feed {
                publisher: n,
                bytes,
            }))),
        };
    }
    if is(name, b"crash") {
        return Ok(form_of_crash(n, word));
    }
    match number(word) {
        None => Ok(None),
        Some(m) => Ok(form_with_numbers(name, n, m)),
    }
}

fn form_of_crash(delivery: u64, word: &[u8]) -> Option<Form>
    ensures { result ≡ crash_form delivery word.now }
{
    if is(word, b"0") {
        Some(Form::Happens(Event::Crash {
            delivery,
            kept: false,
        }))
    } else if is(word, b"1") {
        Some(Form::Happens(Event::Crash {
            delivery,
            kept: true,
        }))
    } else {
        None
    }
}

fn form_with_numbers(name: &[u8], first: u64, last: u64) -> Option<Form>
    ensures { result ≡ two_numbers name.now first (Some last) }
{
    if is(name, b"take") {
        Some(Form::Happens(Event::Take {
            subscription: first,
            now: last,
        }))
    } else if is(name, b"reconnect") {
        Some(Form::Happens(Event::Reconnect {
            subscription: first,
            cursor: last,
        }))
    } else if is(name, b"combine") {
        Some(Form::Combine { first, last })
    } else if is(name, b"withdraw") {
        Some(Form::Happens(Event::Withdraw {
            publisher: first,
            number: last,
        }))
    } else {
        None
    }
}
