//! What reading a text gives: functions that do nothing. Their contracts state it of any text.

ghost use Rattle.changeset_c.specs.Combining.{AreReadSo, IsReadSo, texts_of};

use crate::combining::Text;
use cs_parse::laws::{reading_is_spelling, refusing_is_fault};

/// Reading the text gives what it spells, or its fault.
fn text_is_read_so(text: &[u8])
    ensures { IsReadSo text.now }
{
    reading_is_spelling();
    refusing_is_fault();
}

/// Reading each text gives what it spells, or its fault.
pub fn texts_are_read_so(texts: &[Text])
    ensures { AreReadSo (texts_of texts.now) }
{
    for text in texts {
        text_is_read_so(text.bytes);
    }
}
