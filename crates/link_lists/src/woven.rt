//! The public type, and its calls.

ghost use Rattle.std.specs.Prelude.{◌≡◌, ◌+◌, ◌<◌, ◌≤◌, [], ◌∷◌, ◌++◌, length, slice_set};
ghost use Rattle.std.specs.Prelude.{slice_index_or, Some, None, IsSome, IfOk, OnErr, OnOk};
ghost use Rattle.std.specs.Prelude.{option_copied};
ghost use Rattle.std.specs.Borrow.{sem};
ghost use Rattle.std.specs.Option.{option_copied_mut};
ghost use Rattle.link_lists.specs.Lanes.{value_under, lane_of, with_lane, StandsIn, IsKeyAfter};
ghost use Rattle.link_lists.specs.Lanes.{first_key, pushed_back, put_after, without_key, AreLanes};
ghost use Rattle.link_lists.specs.Lanes.{ChangesSlot, emptied, value_count};

use crate::lane::Lane;
use crate::link::Link;
use crate::nodes::Nodes;
use std::alloc::{AllocError, Global};
use std::marker::Model;

/// Values under keys, and two lanes of lists of these keys. Each call but `add_list`, `reserve` and
/// `clear` takes constant time. Only `add_list` and `reserve` allocate.
#[derive(Debug, Drop)]
pub struct Woven<T> {
    nodes: Nodes<T>,
}

impl<T> Model for Woven<T> {
    ghost use Rattle.link_lists.specs.Lanes.{Lanes};
    ghost use Rattle.link_lists.specs.Spelling.{lanes_seen, BothSpelled};

    ghost Value = { Lanes T };

    ghost view = { λ w. lanes_seen w.nodes };

    ghost invariant = { λ w. BothSpelled w.nodes };
}

impl<T> Woven<T> {
    ghost use Rattle.link_lists.specs.ValueLends.{lends_value_under};

    /// No value, and no list in either lane.
    pub fn new(alloc: Global) -> Woven<T>
        ensures { result ≡ record { slots = []; first = []; second = []; spare = 0 } }
    {
        Woven {
            nodes: Nodes::new(alloc),
        }
    }

    /// Adds an empty list to the lane, and returns its number, from 0. Returns `AllocError` if
    /// memory runs out, and then changes nothing.
    pub fn add_list(&mut self, lane: Lane) -> Result<usize, AllocError>
        ensures number { IfOk result (λ list. list ≡ length (lane_of lane self.old)) }
        ensures ok { OnOk result
            (self.new ≡ with_lane lane (lane_of lane self.old ++ [] ∷ []) self.old) }
        ensures err { OnErr result (self.new ≡ self.old) }
    {
        self.nodes.add_list(lane)
    }

    /// Makes room for `n` more values. Returns `AllocError` if memory runs out.
    pub fn reserve(&mut self, n: usize) -> Result<(), AllocError>
        ensures room { OnOk result (n ≤ self.new.spare) }
        ensures spare { self.old.spare ≤ self.new.spare }
        ensures rest { self.new ≡ record self.old { spare = self.new.spare } }
    {
        self.nodes.reserve(n)
    }

    /// How many values fit without allocation.
    pub fn spare(&self) -> usize
        ensures { result ≡ self.now.spare }
    {
        self.nodes.spare()
    }

    /// How many values there are.
    pub fn len(&self) -> usize
        ensures { result ≡ value_count self.now }
    {
        self.nodes.len()
    }

    /// Each key in a list has a value, and no key stands twice in a lane. Does nothing: its
    /// contract is for proofs.
    pub fn valid(&self)
        ensures { AreLanes self.now }
    {
        self.nodes.alike();
    }

    /// Stores the value under a key that had none, and returns the key. It stands in no list yet.
    pub fn insert(&mut self, value: T) -> usize
        requires { 0 < self.old.spare }
        ensures vacant { value_under self.old result ≡ None }
        ensures free_first { ¬ StandsIn result self.old.first }
        ensures free_second { ¬ StandsIn result self.old.second }
        ensures slots { ChangesSlot self.old self.new result (Some value) }
        ensures spare { self.old.spare ≡ self.new.spare + 1 }
        ensures rest { self.new
            ≡ record self.old { slots = self.new.slots; spare = self.new.spare } }
    {
        self.nodes.alike();
        self.nodes.insert(value)
    }

    /// Puts the key at the end of this list.
    pub fn push_back(&mut self, lane: Lane, list: usize, key: usize)
        requires has_list { list < length (lane_of lane self.old) }
        requires has_value { IsSome (value_under self.old key) }
        requires free { ¬ StandsIn key (lane_of lane self.old) }
        ensures { self.new
            ≡ with_lane lane (pushed_back list key (lane_of lane self.old)) self.old }
    {
        self.nodes.alike();
        let ends = self.nodes.ends(lane, list);
        let link = Link {
            list,
            previous: ends.last,
            next: None,
        };
        self.nodes.place(lane, key, link);
    }

    /// Puts the key directly after `at`, in the list of the lane in which `at` stands.
    pub fn insert_after(&mut self, lane: Lane, at: usize, key: usize)
        requires stands { StandsIn at (lane_of lane self.old) }
        requires has_value { IsSome (value_under self.old key) }
        requires free { ¬ StandsIn key (lane_of lane self.old) }
        ensures { self.new ≡ with_lane lane (put_after at key (lane_of lane self.old)) self.old }
    {
        self.nodes.alike();
        let found = self.nodes.link(lane, at);
        let link = Link {
            list: found.list,
            previous: Some(at),
            next: found.next,
        };
        self.nodes.place(lane, key, link);
    }

    /// Takes the key out of its list. Its value stays.
    pub fn unlink(&mut self, lane: Lane, key: usize)
        requires { StandsIn key (lane_of lane self.old) }
        ensures { self.new ≡ with_lane lane (without_key key (lane_of lane self.old)) self.old }
    {
        let link = self.nodes.link(lane, key);
        self.nodes.tie(lane, link.list, link.previous, link.next);
    }

    /// Takes out the value under a key that stands in no list, and returns it.
    pub fn remove(&mut self, key: usize) -> T
        requires has_value { IsSome (value_under self.old key) }
        requires free_first { ¬ StandsIn key self.old.first }
        requires free_second { ¬ StandsIn key self.old.second }
        ensures value { value_under self.old key ≡ Some result }
        ensures slots { ChangesSlot self.old self.new key None }
        ensures rest { self.new ≡ record self.old {
          slots = slice_set self.old.slots key None;
          spare = self.old.spare + 1;
        } }
    {
        self.nodes.remove(key)
    }

    /// The first key of this list, if it isn't empty.
    pub fn front(&self, lane: Lane, list: usize) -> Option<usize>
        requires { list < length (lane_of lane self.now) }
        ensures { result ≡ first_key (slice_index_or (lane_of lane self.now) list []) }
    {
        self.nodes.ends(lane, list).first
    }

    /// The key after this one in its list of the lane, if it isn't the last.
    pub fn next(&self, lane: Lane, key: usize) -> Option<usize>
        requires { StandsIn key (lane_of lane self.now) }
        ensures { IsKeyAfter key (lane_of lane self.now) result }
    {
        self.nodes.link(lane, key).next
    }

    /// The value under the key, if there is one.
    pub fn get(&self, key: usize) -> Option<&T>
        ensures { option_copied result ≡ value_under self.now key }
    {
        self.nodes.value(key)
    }

    /// The value under the key for writing, if there is one.
    pub fn get_mut(&mut self, key: usize) -> Option<&mut T>
        ensures* writes_back { sem 𝓛 (lends_value_under T.row self.entry key result) }
        ensures value { option_copied_mut result ≡ value_under self.old key }
    {
        if self.nodes.has_value(key) {
            Some(self.nodes.value_mut(key))
        } else {
            None
        }
    }
}

impl<T: Drop> Woven<T> {
    /// Removes all values. Each list is empty then, and the room stays. Takes time for each list
    /// and for each value that takes time to drop, and does not allocate.
    pub fn clear(&mut self)
        ensures { self.new ≡ record {
          slots = [];
          first = emptied self.old.first;
          second = emptied self.old.second;
          spare = self.old.spare + value_count self.old;
        } }
    {
        self.nodes.clear();
    }
}
