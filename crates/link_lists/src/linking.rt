//! Links written so that one key comes after another.

ghost use Rattle.std.specs.Prelude.{◌≡◌, IsSome, None};
ghost use Rattle.link_lists.specs.Nodes.{strand_of, link_under, on_lane};
ghost use Rattle.link_lists.specs.Linking.{beside_set, keys_tied, key_placed, CanWrite};

use crate::lane::Lane;
use crate::link::{Link, Side};
use crate::nodes::Nodes;

impl<T> Nodes<T> {
    /// Writes what is on this side of a key of the list. Without a key it writes what comes first
    /// in the list, or last.
    pub(crate) fn set_beside(
        &mut self,
        lane: Lane,
        list: usize,
        side: Side,
        key: Option<usize>,
        other: Option<usize>,
    )
        requires { CanWrite list key (strand_of lane self.old) }
        ensures { self.new ≡ on_lane lane (beside_set side list key other) self.old }
    {
        match key {
            Some(key) => {
                let link = self.link(lane, key).beside(side, other);
                self.set_link(lane, key, link);
            }
            None => {
                let ends = self.ends(lane, list).beside(side, other);
                self.set_ends(lane, list, ends);
            }
        }
    }

    /// Lets `next` come directly after `previous` in this list.
    pub(crate) fn tie(
        &mut self,
        lane: Lane,
        list: usize,
        previous: Option<usize>,
        next: Option<usize>,
    )
        requires before { CanWrite list previous (strand_of lane self.old) }
        requires after { CanWrite list next (strand_of lane self.old) }
        ensures { self.new ≡ on_lane lane (keys_tied list previous next) self.old }
    {
        self.set_beside(lane, list, Side::Next, previous, next);
        self.set_beside(lane, list, Side::Previous, next, previous);
    }

    /// Puts the key between `previous` and `next` in this list.
    pub(crate) fn place(&mut self, lane: Lane, key: usize, link: Link)
        requires has_node { IsSome (link_under (strand_of lane self.old) key) }
        requires before { CanWrite link.list link.previous (strand_of lane self.old) }
        requires after { CanWrite link.list link.next (strand_of lane self.old) }
        ensures { self.new ≡ on_lane lane (key_placed key link) self.old }
    {
        self.set_link(lane, key, link);
        self.set_beside(lane, link.list, Side::Next, link.previous, Some(key));
        self.set_beside(lane, link.list, Side::Previous, link.next, Some(key));
    }
}
