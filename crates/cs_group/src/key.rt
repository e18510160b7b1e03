//! The key of a map: bytes where they stand, or copied.

ghost use Rattle.std.specs.Prelude.{◌≡◌, ◌∷◌, [], ℕ, IfOk, List};
ghost use Rattle.std.specs.Cmp.{partial_equiv_from_equiv};
ghost use Rattle.std.specs.Cmp.Lexicographic.{nat_list_eq_equiv, same_text};
ghost use Rattle.std.proofs.Common.{ap, sym};
ghost use Rattle.cs_model.specs.{KeyRun.{IsKeyRun, TellsKey}, Schema.{same_bytes}};
ghost use Rattle.cs_model.specs.Seen.{change_seen};
ghost use Rattle.cs_group.specs.{Group.{changed_row}, Key.{bytes_of_key}};

use cs_model::{ChangeRef, KeyColumns, Octets, Op, PackedChange, key_of_row};
use std::alloc::{AllocError, Global};
use std::hash::{Hash, Hasher};
use std::marker::Model;

/// The bytes of a key.
#[derive(Debug, Drop)]
pub(crate) enum KeyBytes<'a> {
    /// They stand in a record or in a header.
    InPlace(&'a [u8]),
    /// They are copied from columns apart.
    Copied(Octets),
}

/// The key of a row, its key columns' values in canonical form; or a table's name. Contracts see
/// the bytes.
#[derive(Debug, Drop)]
pub(crate) struct Key<'a> {
    bytes: KeyBytes<'a>,
}

impl<'a> Model for Key<'a> {
    ghost use Rattle.std.specs.Prelude.{ℕ, List};
    ghost use Rattle.cs_group.specs.Key.{bytes_of_key};

    ghost Value = { List ℕ };

    ghost view = { λ k. bytes_of_key k.bytes };
}

impl<'a> Key<'a> {
    /// The key of the row that a change of the table is about. `columns` are where the table's key
    /// columns stand, if they stand next to each other. Returns `AllocError` if memory runs out.
    pub(crate) fn of(
        alloc: Global,
        flags: &[u8],
        columns: Option<KeyColumns>,
        change: &PackedChange<'a>,
    ) -> Result<Key<'a>, AllocError>
        requires { TellsKey flags.now columns }
        ensures { IfOk result (λ key. key ≡ changed_row flags.now change.now) }
    {
        let change = change.unpack();
        let bytes = match columns {
            Some(at) => KeyBytes::InPlace(bytes_at(at, &change)),
            None => KeyBytes::Copied(key_of_row(alloc, flags, &change)?),
        };
        Ok(Key { bytes })
    }

    /// A table's name as a key.
    pub(crate) fn in_place(name: &'a [u8]) -> Key<'a>
        ensures { result ≡ name.now }
    {
        Key {
            bytes: KeyBytes::InPlace(name),
        }
    }

    // the bytes
    fn as_slice(&self) -> &[u8]
        ensures { result.now ≡ self.now }
    {
        match &self.bytes {
            KeyBytes::InPlace(bytes) => return bytes,
            KeyBytes::Copied(bytes) => return bytes,
        }
    }
}

// the bytes of these columns in the record that identifies a change's row
fn bytes_at<'a>(at: KeyColumns, change: &ChangeRef<'a>) -> &'a [u8]
    ensures { (flags : List ℕ) → IsKeyRun flags at.first at.count
        → result.now ≡ changed_row flags (change_seen change.now) }
{
    match change.op {
        Op::Insert => change.after.part(at.first, at.count),
        Op::Update | Op::Delete => change.before.part(at.first, at.count),
    }
}

impl<'a> PartialEq for Key<'a> {
    ghost eq = { same_bytes };

    ghost laws = { partial_equiv_from_equiv nat_list_eq_equiv };

    fn eq(&self, other: &Self) -> bool {
        self.as_slice() == other.as_slice()
    }
}

impl<'a> Eq for Key<'a> {
    ghost laws = { nat_list_eq_equiv };
}

impl<'a> Hash for Key<'a> {
    ghost hash_input = { λ k. k ∷ [] };

    ghost respects_eq = { λ k l same. ap (λ bytes. bytes ∷ []) (same_text k l (sym same)) };

    // all bytes at once: a slice feeds one after another
    fn hash<H: Hasher>(&self, state: &mut H) {
        state.write(self.as_slice());
    }
}
