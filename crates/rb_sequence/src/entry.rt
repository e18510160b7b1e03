//! Entries: items with their number in the sequence.

ghost use Rattle.std.specs.Prelude.{◌≡◌, IfOk};
ghost use Rattle.cs_model.specs.Changeset.{AgreeOnShapes};
ghost use Rattle.cs_write.specs.Own.{IsFormBeside};
ghost use Rattle.cs_write.specs.Text.{text_of};

use crate::form::FormBeside;
use crate::item::Item;
use bytes::Bytes;
use cs_model::{Changeset, Origin};
use once_cell::race::OnceBox;
use std::alloc::{AllocError, Global};
use std::fmt;
use std::marker::Model;

/// An entry of the sequence: an item with its number. A body in canonical form is its canonical
/// text; else the entry has that form beside it. Contracts see the number and the item.
#[derive(Drop)]
pub struct Entry {
    number: u64,
    item: Item,
    // the canonical form of the body, exactly if the body isn't in that form itself
    form: FormBeside,
    // the canonical text as bytes that readers share, once one of them asked for them
    shared: OnceBox<Bytes>,
}

impl Model for Entry {
    ghost use Rattle.cs_write.specs.Own.{IsFormBeside};
    ghost use Rattle.rb_sequence.specs.Entry.{Entry};

    ghost Value = { Entry };

    ghost view = { λ e. record { number = e.number; item = e.item } };

    ghost invariant = { λ e. IsFormBeside e.item.body e.form };
}

impl Entry {
    /// Makes the entry of an item under this number, with the form that `Item::form` returned.
    /// Copies and allocates nothing.
    pub fn new(alloc: Global, number: u64, item: Item, form: FormBeside) -> Entry
        requires { IsFormBeside item.body form }
        ensures { result ≡ record { number = number; item = item } }
    {
        Entry {
            number,
            item,
            form,
            shared: OnceBox::new(alloc),
        }
    }

    /// Its number in the sequence, from 1.
    pub fn number(&self) -> u64
        ensures { result ≡ self.now.number }
    {
        self.number
    }

    /// The number of its publisher, from 0.
    pub fn publisher(&self) -> u64
        ensures { result ≡ self.now.item.publisher }
    {
        self.item.publisher()
    }

    /// Its number among its publisher's sendings, from 1.
    pub fn own(&self) -> u64
        ensures { result ≡ self.now.item.own }
    {
        self.item.own()
    }

    /// Why it was sent.
    pub fn origin(&self) -> Origin
        ensures { result ≡ self.now.item.origin }
    {
        self.item.origin()
    }

    /// The changeset that was sent. Sections of one name in it have one shape.
    pub fn body(&self) -> &Changeset
        ensures body { result.now ≡ self.now.item.body }
        ensures agrees { AgreeOnShapes self.now.item.body }
    {
        self.item.body()
    }

    /// The item that it was made from, without a copy.
    pub fn into_item(self) -> Item
        ensures { result ≡ self.item }
    {
        let Entry { item, .. } = self;
        item
    }

    /// The canonical text of its body.
    pub fn text(&self) -> &[u8]
        ensures { result.now ≡ text_of self.now.item.body }
    {
        self.form.text(self.item.body())
    }

    /// The canonical text of its body, as bytes that all who ask for them share. The first call
    /// makes them. Returns `AllocError` if memory runs out.
    pub fn shared_text(&self, alloc: Global) -> Result<Bytes, AllocError>
        ensures { IfOk result (λ bytes. bytes ≡ text_of self.now.item.body) }
    {
        let text = self.text();
        if let Some(kept) = self.shared.get() {
            // `share` puts only this text there, but a `OnceBox` has no rule that says so
            if kept.as_slice() == text {
                return kept.clone();
            }
        }
        self.share(alloc, text)
    }

    // Bytes of this text, which the entry keeps. If two threads make them, the first ones are kept.
    fn share(&self, alloc: Global, text: &[u8]) -> Result<Bytes, AllocError>
        ensures { IfOk result (λ bytes. bytes ≡ text.now) }
    {
        let bytes = Bytes::copy_from_slice(alloc, text)?;
        let kept = Box::new(alloc, bytes.clone()?)?;
        drop(self.shared.set(kept));
        Ok(bytes)
    }
}

impl fmt::Debug for Entry {
    fn fmt<W: fmt::Write>(&self, f: &mut fmt::Formatter<W>) -> fmt::Result {
        f.debug_struct("Entry")
            .field("number", &self.number)
            .field("item", &self.item)
            .finish_non_exhaustive()
    }
}
