//! The slab of nodes, and the ends of the lists of both lanes.

ghost use Rattle.std.specs.Prelude.{◌≡◌, ◌<◌, ◌≤◌, [], ◌∷◌, ◌++◌, length, slice_get};
ghost use Rattle.std.specs.Prelude.{slice_index_or, Some, None, IsSome, IfOk, OnErr, OnOk, IsTrue};
ghost use Rattle.std.specs.Prelude.{◌↔◌, option_copied, vec_len, count_by, is_some};
ghost use Rattle.std.specs.Borrow.{sem};
ghost use Rattle.link_lists.specs.Nodes.{no_strand, strand_of, link_under, link_set, with_ends};
ghost use Rattle.link_lists.specs.Nodes.{on_lane, no_ends, with_list, without_node, IsAlike};
ghost use Rattle.link_lists.specs.Nodes.{GainsValue, without_nodes};

use crate::lane::Lane;
use crate::link::{Ends, Link, Node};
use slab::Slab;
use std::alloc::{AllocError, Global};
use std::marker::Model;

/// The nodes of both lanes. Contracts see the values, and for each lane the links and the ends.
#[derive(Debug, Drop)]
pub(crate) struct Nodes<T> {
    nodes: Slab<Node<T>>,
    first: Vec<Ends>,
    second: Vec<Ends>,
}

impl<T> Model for Nodes<T> {
    ghost use Rattle.link_lists.specs.Nodes.{Nodes, nodes_seen};

    ghost Value = { Nodes T };

    ghost view = { λ n. nodes_seen n.nodes n.first.items n.second.items };
}

const NO_ENDS: Ends = Ends {
    first: None,
    last: None,
};

// Adds the ends of an empty list, and returns its number.
fn push_ends(lists: &mut Vec<Ends>) -> Result<usize, AllocError>
    ensures number { IfOk result (λ list. list ≡ vec_len lists.old) }
    ensures ok { OnOk result (lists.new.items ≡ lists.old.items ++ no_ends ∷ []) }
    ensures err { OnErr result (lists.new.items ≡ lists.old.items) }
{
    let list = lists.len();
    lists.push(NO_ENDS)?;
    Ok(list)
}

impl<T> Nodes<T> {
    ghost use Rattle.link_lists.specs.SlotLends.{lends_slot};

    pub(crate) fn new(alloc: Global) -> Nodes<T>
        ensures { result ≡ record { slots = []; first = no_strand; second = no_strand; spare = 0 } }
    {
        Nodes {
            nodes: Slab::new(alloc),
            first: Vec::new(alloc),
            second: Vec::new(alloc),
        }
    }

    /// A key has a link in each lane exactly where it has a value.
    pub(crate) fn alike(&self)
        ensures { IsAlike self.now }
    {
        let _nodes = &self.nodes;
    }

    pub(crate) fn spare(&self) -> usize
        ensures { result ≡ self.now.spare }
    {
        self.nodes.capacity() - self.nodes.len()
    }

    pub(crate) fn len(&self) -> usize
        ensures { result ≡ count_by is_some self.now.slots }
    {
        self.nodes.len()
    }

    pub(crate) fn add_list(&mut self, lane: Lane) -> Result<usize, AllocError>
        ensures number { IfOk result (λ list. list ≡ length (strand_of lane self.old).ends) }
        ensures ok { OnOk result (self.new ≡ on_lane lane with_list self.old) }
        ensures err { OnErr result (self.new ≡ self.old) }
    {
        match lane {
            Lane::First => push_ends(&mut self.first),
            Lane::Second => push_ends(&mut self.second),
        }
    }

    pub(crate) fn reserve(&mut self, n: usize) -> Result<(), AllocError>
        ensures room { OnOk result (n ≤ self.new.spare) }
        ensures spare { self.old.spare ≤ self.new.spare }
        ensures rest { self.new ≡ record self.old { spare = self.new.spare } }
    {
        self.nodes.reserve(n)
    }

    pub(crate) fn insert(&mut self, value: T) -> usize
        requires { 0 < self.old.spare }
        ensures vacant { slice_index_or self.old.slots result None ≡ None }
        ensures gains { GainsValue self.old self.new result value }
    {
        let nowhere = Link {
            list: 0,
            previous: None,
            next: None,
        };
        self.nodes.insert_reserved(Node {
            value,
            first: nowhere,
            second: nowhere,
        })
    }

    pub(crate) fn remove(&mut self, key: usize) -> T
        requires { IsSome (slice_index_or self.old.slots key None) }
        ensures value { slice_index_or self.old.slots key None ≡ Some result }
        ensures rest { self.new ≡ without_node key self.old }
    {
        let node = self.nodes.remove(key);
        let Node { value, .. } = node;
        value
    }

    pub(crate) fn value(&self, key: usize) -> Option<&T>
        ensures { option_copied result ≡ slice_index_or self.now.slots key None }
    {
        match self.nodes.get(key) {
            Some(node) => Some(&node.value),
            None => None,
        }
    }

    pub(crate) fn has_value(&self, key: usize) -> bool
        ensures { IsTrue result ↔ IsSome (slice_index_or self.now.slots key None) }
    {
        self.nodes.contains(key)
    }

    pub(crate) fn value_mut(&mut self, key: usize) -> &mut T
        requires { IsSome (slice_index_or self.old.slots key None) }
        ensures* writes_back { sem 𝓛 (lends_slot T.row self.entry key result) }
        ensures value { slice_index_or self.old.slots key None ≡ Some result.now }
    {
        let node = &mut self.nodes[key];
        &mut node.value
    }

    pub(crate) fn link(&self, lane: Lane, key: usize) -> Link
        requires { IsSome (link_under (strand_of lane self.now) key) }
        ensures { link_under (strand_of lane self.now) key ≡ Some result }
    {
        let node = &self.nodes[key];
        match lane {
            Lane::First => node.first,
            Lane::Second => node.second,
        }
    }

    pub(crate) fn set_link(&mut self, lane: Lane, key: usize, link: Link)
        requires { IsSome (link_under (strand_of lane self.old) key) }
        ensures { self.new ≡ on_lane lane (link_set key link) self.old }
    {
        let node = &mut self.nodes[key];
        match lane {
            Lane::First => node.first = link,
            Lane::Second => node.second = link,
        }
    }

    pub(crate) fn ends(&self, lane: Lane, list: usize) -> Ends
        requires { list < length (strand_of lane self.now).ends }
        ensures { slice_get (strand_of lane self.now).ends list ≡ Some result }
    {
        match lane {
            Lane::First => self.first[list],
            Lane::Second => self.second[list],
        }
    }

    pub(crate) fn set_ends(&mut self, lane: Lane, list: usize, ends: Ends)
        requires { list < length (strand_of lane self.old).ends }
        ensures { self.new ≡ on_lane lane (with_ends list ends) self.old }
    {
        match lane {
            Lane::First => self.first[list] = ends,
            Lane::Second => self.second[list] = ends,
        }
    }
}

impl<T: Drop> Nodes<T> {
    /// Removes all values and all links. Each list is empty then. The room stays.
    pub(crate) fn clear(&mut self)
        ensures { self.new ≡ without_nodes self.old }
    {
        let _capacity = self.nodes.capacity();
        self.nodes.clear();
        self.first.fill(NO_ENDS);
        self.second.fill(NO_ENDS);
    }
}
