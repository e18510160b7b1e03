//! What a node of the slab has beside its value: its place in a list of each lane.

ghost use Rattle.std.specs.Prelude.{◌≡◌};
ghost use Rattle.link_lists.specs.Linking.{link_beside, ends_beside};

/// A side of a key in its list.
#[derive(Clone, Copy, Debug, Drop)]
pub(crate) enum Side {
    Next,
    Previous,
}

/// A key's place in a lane. It says nothing while the key stands in no list of the lane.
#[derive(Clone, Copy, Debug, Drop)]
pub(crate) struct Link {
    pub(crate) list: usize,
    pub(crate) previous: Option<usize>,
    pub(crate) next: Option<usize>,
}

/// The first key and the last key of a list.
#[derive(Clone, Copy, Debug, Drop)]
pub(crate) struct Ends {
    pub(crate) first: Option<usize>,
    pub(crate) last: Option<usize>,
}

impl Link {
    /// The link with another key on this side.
    pub(crate) fn beside(self, side: Side, key: Option<usize>) -> Link
        ensures { result ≡ link_beside side key self }
    {
        match side {
            Side::Next => Link { next: key, ..self },
            Side::Previous => Link {
                previous: key,
                ..self
            },
        }
    }
}

impl Ends {
    /// The ends with another first key, where the side is the next one, or with another last key.
    pub(crate) fn beside(self, side: Side, key: Option<usize>) -> Ends
        ensures { result ≡ ends_beside side key self }
    {
        match side {
            Side::Next => Ends { first: key, ..self },
            Side::Previous => Ends { last: key, ..self },
        }
    }
}

/// A record of the slab.
#[derive(Debug, Drop)]
pub(crate) struct Node<T> {
    pub(crate) value: T,
    pub(crate) first: Link,
    pub(crate) second: Link,
}
