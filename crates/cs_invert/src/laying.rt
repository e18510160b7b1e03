//! Puts the text of an inverse into a buffer. Each byte of the changeset is copied once.

ghost use Rattle.std.specs.Prelude.{◌≡◌, ◌+◌, ◌≤◌, ◌==◌, ◌∷◌, [], if◌then◌else◌, length};
ghost use Rattle.cs_model.specs.Changeset.{AreRecords, IsChangeset, IsSection};
ghost use Rattle.cs_model.specs.Packed.{packed};
ghost use Rattle.cs_model.specs.PackedChanges.{Long, change_bytes, changes_bytes, mark};
ghost use Rattle.cs_model.specs.SectionText.{sections_text};
ghost use Rattle.cs_model.specs.Seen.{change_seen};
ghost use Rattle.cs_model.specs.Text.{op_byte};
ghost use Rattle.cs_model.specs.declared.change.Op.TheVariants.{Update};
ghost use Rattle.cs_write.specs.Buffer.{laid};
ghost use Rattle.cs_invert.specs.Inverse.{inverse, inverse_change, inverse_old, inverse_section};
ghost use Rattle.cs_invert.specs.Inverse.{exchanged_bytes};

use cs_model::{ChangeRef, Op, RecordRef, SectionRef, SectionRefs};
use cs_write::put_bytes;

/// Writes the text of an inverse's sections to the front of `out`.
pub fn put_sections(sections: SectionRefs, out: &mut [u8])
    requires valid { IsChangeset sections }
    requires room { length (sections_text (inverse sections)) ≤ length out.old }
    ensures { out.new ≡ laid 0 (sections_text (inverse sections.entry)) out.old }
{
    let mut left = sections;
    let mut at = 0;
    for _ in 0..left.len() {
        let text = left.text();
        let Some(section) = left.next() else {
            return;
        };
        // the header is what isn't its changes
        let (front, _) = text.split_at(text.len() - left.text().len());
        let (header, _) = front.split_at(front.len() - section.bytes().len());
        at = put_bytes(out, at, header);
        at = put_changes(&section, out, at);
    }
}

/// Writes the inverses of a section's changes at `start`, in order, and returns the index after
/// them.
pub fn put_changes(section: &SectionRef, out: &mut [u8], start: usize) -> usize
    requires valid { IsSection section.now }
    requires room { start + length (changes_bytes (inverse_section section.now).changes)
        ≤ length out.old }
    ensures end { result ≡ start + length (changes_bytes (inverse_section section.now).changes) }
    ensures bytes { out.new
        ≡ laid start (changes_bytes (inverse_section section.now).changes) out.old }
{
    let flags = section.flags();
    let mut at = start;
    for change in section.changes() {
        at = put_change(flags, &change, out, at);
    }
    at
}

// Writes the inverse of a change.
fn put_change(flags: &[u8], change: &ChangeRef, out: &mut [u8], start: usize) -> usize
    requires valid { AreRecords flags.now change.now.op change.now.before change.now.after }
    requires room { start
        + length (change_bytes (inverse_change flags.now (change_seen change.now)))
        ≤ length out.old }
    ensures end { result
        ≡ start + length (change_bytes (inverse_change flags.now (change_seen change.now))) }
    ensures bytes { out.new
        ≡ laid start (change_bytes (inverse_change flags.now (change_seen change.now))) out.old }
{
    match change.op {
        Op::Insert => {
            let at = put_head(Op::Delete, change.indirect, out, start);
            put_bytes(out, at, change.after.bytes())
        }
        Op::Update => {
            let at = put_head(Op::Update, change.indirect, out, start);
            put_exchanged(flags, &change.before, &change.after, out, at)
        }
        Op::Delete => {
            let at = put_head(Op::Insert, change.indirect, out, start);
            put_bytes(out, at, change.before.bytes())
        }
    }
}

// Writes an operation and an indirect flag.
fn put_head(op: Op, indirect: bool, out: &mut [u8], start: usize) -> usize
    requires { start + 2 ≤ length out.old }
    ensures end { result ≡ start + 2 }
    ensures bytes { out.new ≡ laid start (op_byte op ∷ mark indirect ∷ []) out.old }
{
    put_bytes(out, start, &[op.byte(), u8::from(indirect)])
}

// Writes the records of an UPDATE's inverse.
fn put_exchanged(
    flags: &[u8],
    before: &RecordRef,
    after: &RecordRef,
    out: &mut [u8],
    start: usize,
) -> usize
    requires long { Long (length flags.now) Update before.now after.now }
    requires room { start + length (exchanged_bytes flags.now before.now after.now)
        ≤ length out.old }
    ensures end { result ≡ start + length (exchanged_bytes flags.now before.now after.now) }
    ensures bytes { out.new ≡ laid start (exchanged_bytes flags.now before.now after.now) out.old }
{
    let at = put_record(flags, before, after, out, start);
    put_record(flags, after, before, out, at)
}

// Writes a record with the key's values of one record and the other values of the other.
fn put_record(
    flags: &[u8],
    keys: &RecordRef,
    others: &RecordRef,
    out: &mut [u8],
    start: usize,
) -> usize
    requires keys { length keys.now ≡ length flags.now }
    requires others { length others.now ≡ length flags.now }
    requires room { start + length (packed (inverse_old flags.now keys.now others.now))
        ≤ length out.old }
    ensures end { result ≡ start + length (packed (inverse_old flags.now keys.now others.now)) }
    ensures bytes { out.new
        ≡ laid start (packed (inverse_old flags.now keys.now others.now)) out.old }
{
    // what is left of both records
    let (_, mut keys) = keys.cut(0);
    let (_, mut others) = others.cut(0);
    let mut at = start;
    for flag in flags {
        let (key, keys_left) = keys.cut(1);
        let (other, others_left) = others.cut(1);
        at = put_bytes(out, at, chosen(*flag, &key, &other));
        keys = keys_left;
        others = others_left;
    }
    at
}

// a column's field of the first record in the key, else of the second
fn chosen<'a>(flag: u8, key: &RecordRef<'a>, other: &RecordRef<'a>) -> &'a [u8]
    ensures { result.now ≡ packed (if flag == 0 then other.now else key.now) }
{
    if flag > 0 {
        return key.bytes();
    }
    other.bytes()
}
