//! Texts in the buffers of callers.

ghost use Rattle.std.specs.Prelude.{◌≡◌, length, pos};
ghost use Rattle.cs_write.specs.Buffer.{given};

/// Returns the length of a text, and writes the text to the front of `out` if there is room for it.
pub fn text_into(text: &[u8], out: &mut [u8]) -> i64
    ensures len { result ≡ pos (length text.now) }
    ensures out { out.new ≡ given text.now out.old }
{
    let len = text.len();
    if len <= out.len() {
        out[..len].copy_from_slice(text);
    }
    len as i64
}
