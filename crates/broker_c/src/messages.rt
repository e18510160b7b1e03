//! Codes in words.

ghost use Rattle.std.specs.Prelude.{◌<◌, ◌≡◌, ◌≤◌, length, pos};
ghost use Rattle.cs_write.specs.Buffer.{given};
ghost use Rattle.broker_c.specs.Messages as messages;

use cs_write::put_bytes;

/// Writes the words of a code, and a zero byte after them, to the front of `out` if there is room.
/// Returns the number of these bytes, 64 at most.
#[unsafe(no_mangle)]
pub extern "C" fn broker_message(code: i32, out: &mut [u8]) -> i64
    ensures len { result ≡ pos (length (messages.message_of code)) }
    ensures short { length (messages.message_of code) ≤ 64 }
    ensures out { out.new ≡ given (messages.message_of code) out.old }
{
    message_into(words_of(code), out)
}

// the same of these words
fn message_into(words: &str, out: &mut [u8]) -> i64
    requires { length words.now < 64 }
    ensures len { result ≡ pos (length (messages.zero_ended words.now)) }
    ensures out { out.new ≡ given (messages.zero_ended words.now) out.old }
{
    let words = words.as_bytes();
    let len = words.len() + 1;
    if len <= out.len() {
        put_ended(words, out);
    }
    len as i64
}

// writes the words, and a zero byte after them
fn put_ended(words: &[u8], out: &mut [u8])
    requires { length (messages.zero_ended words.now) ≤ length out.old }
    ensures { out.new ≡ given (messages.zero_ended words.now) out.old }
{
    let end = put_bytes(out, 0, words);
    put_bytes(out, end, &[0]);
}

// the words of a code; a number that is no code has words too
fn words_of(code: i32) -> &'static str
    ensures words { result.now ≡ messages.code_words code }
    ensures short { length result.now < 64 }
{
    match code {
        0 => "ok",
        1 => "nothing waits to be placed",
        -1 => "the handle is shut",
        -2 => "memory ran out",
        -3 => "the stream spells no changeset",
        -4 => "a limit is out of its range",
        -5 => "a table is refused",
        -6 => "another call is in the handle",
        -10 => "no publisher has this number",
        -11 => "there are too many publishers or subscriptions",
        -12 => "a changeset is staged already",
        -13 => "nothing is staged",
        -14 => "the sequence or the subscription is closed",
        -15 => "the intake is full",
        -16 => "no entry has this number",
        -17 => "another publisher sent the entry",
        -18 => "the entry is withdrawn already",
        -19 => "the sequence is full",
        -20 => "a section is of a table that is not the broker's",
        -21 => "a section has another shape than its table",
        -22 => "all steps are made",
        -23 => "other changesets wait to be placed",
        -30 => "no subscription has this number",
        -31 => "the subscription has another link now",
        -32 => "the window is full",
        -33 => "no delivery has this number",
        -34 => "the delivery is not in flight",
        -35 => "the delivery is accepted already",
        -36 => "all is settled, and nothing more comes",
        -37 => "nothing is ready",
        -38 => "not all of the delivery is accepted",
        -39 => "the cursor is out of its range",
        -40 => "the start is not placed",
        -41 => "other entries come first",
        -42 => "an entry is of other tables than the subscription's",
        -43 => "a change conflicts with the rows",
        -44 => "the subscription has not fallen",
        -45 => "the subscription has fallen",
        -46 => "no table has this place",
        -47 => "no row has this key",
        _ => "unknown code",
    }
}
