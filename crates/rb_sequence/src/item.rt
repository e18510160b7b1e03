//! Items: changesets that wait for their number in the sequence.

ghost use Rattle.std.specs.Prelude.{◌≡◌, IfOk};
ghost use Rattle.cs_model.specs.Changeset.{AgreeOnShapes};
ghost use Rattle.cs_write.specs.Own.{IsFormBeside};

use crate::form::FormBeside;
use cs_model::{Changeset, Origin};
use std::alloc::{AllocError, Global};
use std::marker::Model;

/// A changeset that a publisher sent and that waits for its number in the sequence. Sections of one
/// name in it have one shape.
#[derive(Debug, Drop)]
pub struct Item {
    publisher: u64,
    own: u64,
    origin: Origin,
    body: Changeset,
}

impl Model for Item {
    ghost use Rattle.cs_model.specs.Changeset.{AgreeOnShapes};
    ghost use Rattle.rb_sequence.specs.Item.{Item};

    ghost Value = { Item };

    ghost view = { λ i. record {
      publisher = i.publisher;
      own = i.own;
      origin = i.origin;
      body = i.body;
    } };

    ghost invariant = { λ i. AgreeOnShapes i.body };
}

impl Item {
    /// The item of a changeset that a publisher sends, under the publisher's number, from 0, and
    /// the changeset's number among the publisher's sendings, from 1.
    pub fn new(publisher: u64, own: u64, origin: Origin, body: Changeset) -> Item
        requires { AgreeOnShapes body }
        ensures { result ≡ record {
          publisher = publisher;
          own = own;
          origin = origin;
          body = body;
        } }
    {
        Item {
            publisher,
            own,
            origin,
            body,
        }
    }

    /// The number of its publisher, from 0.
    pub fn publisher(&self) -> u64
        ensures { result ≡ self.now.publisher }
    {
        self.publisher
    }

    /// Its number among its publisher's sendings, from 1.
    pub fn own(&self) -> u64
        ensures { result ≡ self.now.own }
    {
        self.own
    }

    /// Why it was sent.
    pub fn origin(&self) -> Origin
        ensures { result ≡ self.now.origin }
    {
        self.origin
    }

    /// The changeset that was sent. Sections of one name in it have one shape.
    pub fn body(&self) -> &Changeset
        ensures body { result.now ≡ self.now.body }
        ensures agrees { AgreeOnShapes self.now.body }
    {
        &self.body
    }

    /// The changeset that was sent, without a copy.
    pub fn into_body(self) -> Changeset
        ensures body { result ≡ self.body }
        ensures agrees { AgreeOnShapes result }
    {
        let Item { body, .. } = self;
        body
    }

    /// The canonical form of its body, for its entry, if the body isn't in that form itself.
    /// Returns `AllocError` if memory runs out.
    pub fn form(&self, alloc: Global) -> Result<FormBeside, AllocError>
        ensures { IfOk result (λ form. IsFormBeside self.now.body form) }
    {
        FormBeside::of(alloc, &self.body)
    }
}
