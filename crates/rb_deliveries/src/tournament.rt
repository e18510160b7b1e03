//! A tournament over ranks: places with and without a rank, and which of them wins. Changing a
//! place takes time that grows with the number of binary digits of the number of places.

ghost use Rattle.std.specs.Prelude.{◌≡◌, ◌<◌, ◌≤◌, ◌+◌, ◌++◌, ◌∷◌, suc, [], length, drop};
ghost use Rattle.std.specs.Prelude.{replicate, slice_set, List, Option, None, IfOk, OnOk, OnErr};
ghost use Rattle.rb_deliveries.specs.declared.rank.Rank.{Rank};
ghost use Rattle.rb_deliveries.specs.Tournament as spec;
ghost use Rattle.rb_deliveries.specs.Tournament.{at_place, winner_from, NodesWin, IsTree};
ghost use Rattle.rb_deliveries.specs.Tournament.{ranks_of};

use crate::rank::{Rank, overtakes};
use std::alloc::{AllocError, Global};
use std::marker::Model;

/// The place whose rank is first in line; of those with the same rank, the first.
#[derive(Clone, Copy, Debug, PartialEq, Eq)]
pub(crate) struct Winner {
    pub(crate) place: usize,
    pub(crate) rank: Rank,
}

/// Places, each with a rank or without one. Contracts see what each place has.
#[derive(Debug, Drop)]
pub(crate) struct Tournament {
    // node i, from 1 on, is the winner of nodes 2i and 2i + 1; the places are the nodes from `room`
    nodes: Vec<Option<Winner>>,
    room: usize,
    len: usize,
}

impl Model for Tournament {
    ghost use Rattle.std.specs.Prelude.{Option, List};
    ghost use Rattle.std.specs.Coded.{coded_list, coded_option};
    ghost use Rattle.rb_deliveries.specs.declared.rank.Rank.{Rank};
    ghost use Rattle.rb_deliveries.specs.contracts.rank.Rank as rank;
    ghost use Rattle.rb_deliveries.specs.Tournament.{IsTree, ranks_of};

    ghost Value = { List (Option Rank) };

    ghost coded = { coded_list (coded_option rank.the_row.coded) };

    ghost view = { λ t. ranks_of t.nodes.items t.room t.len };

    ghost invariant = { λ t. IsTree t.nodes.items t.room t.len };
}

impl Tournament {
    /// No places. Does not allocate.
    pub(crate) fn new(alloc: Global) -> Tournament
        ensures { result ≡ [] }
    {
        Tournament {
            nodes: Vec::new(alloc),
            room: 0,
            len: 0,
        }
    }

    /// The winner of all places.
    pub(crate) fn winner(&self) -> Option<Winner>
        ensures { result ≡ winner_from 0 self.now }
    {
        if self.len == 0 {
            return None;
        }
        self.nodes[1]
    }

    /// Gives a place this rank, or none.
    pub(crate) fn set(&mut self, place: usize, rank: Option<Rank>)
        requires { place < length self.old }
        ensures { self.new ≡ slice_set self.old place rank }
    {
        let at = self.room + place;
        put(&mut self.nodes, self.room, at, leaf(place, rank));
    }

    /// Adds a place with this rank, or without one.
    pub(crate) fn push(&mut self, alloc: Global, rank: Option<Rank>) -> Result<(), AllocError>
        ensures ok { OnOk result (self.new ≡ self.old ++ rank ∷ []) }
        ensures err { OnErr result (self.new ≡ self.old) }
    {
        if self.len == self.room {
            let (nodes, room) = widened(alloc, &self.nodes, self.room)?;
            self.nodes = nodes;
            self.room = room;
        }
        let place = self.len;
        let at = self.room + place;
        put(&mut self.nodes, self.room, at, leaf(place, rank));
        self.len += 1;
        Ok(())
    }
}

impl Tournament {
    /// Removes the last place.
    pub(crate) fn pop(&mut self)
        ensures { (rest : List (Option Rank)) (rank : Option Rank)
            → self.old ≡ rest ++ rank ∷ [] → self.new ≡ rest }
    {
        if self.len > 0 {
            let at = self.room + (self.len - 1);
            put(&mut self.nodes, self.room, at, None);
            self.len -= 1;
        }
    }
}

// the nodes of a tree with twice as many places, and how many these are; the first ones are the
// places of a tree that is full
fn widened(
    alloc: Global,
    nodes: &[Option<Winner>],
    room: usize,
) -> Result<(Vec<Option<Winner>>, usize), AllocError>
    requires { IsTree nodes.now room room }
    ensures { IfOk result (λ wider. IsTree wider.0.items wider.1 room × (room < wider.1)
        × (ranks_of wider.0.items wider.1 room ≡ ranks_of nodes.now room room)) }
{
    let wide = if room == 0 { 1 } else { room + room };
    let Some(many) = wide.checked_add(wide) else {
        return Err(AllocError);
    };
    let mut wider = no_winners(alloc, many)?;
    for place in 0..room {
        put(&mut wider, wide, wide + place, nodes[room + place]);
    }
    Ok((wider, wide))
}

fn no_winners(alloc: Global, many: usize) -> Result<Vec<Option<Winner>>, AllocError>
    ensures { IfOk result (λ nodes. nodes.items ≡ replicate many None) }
{
    vec![in alloc; None; many]
}

// sets a place, and makes the nodes above it winners again
fn put(nodes: &mut Vec<Option<Winner>>, room: usize, at: usize, winner: Option<Winner>)
    requires long { length nodes.old.items ≡ room + room }
    requires place { (room ≤ at) × (at < room + room) }
    requires inner { NodesWin nodes.old.items room }
    ensures long { length nodes.new.items ≡ room + room }
    ensures places { drop room nodes.new.items ≡ drop room (slice_set nodes.old.items at winner) }
    ensures inner { NodesWin nodes.new.items room }
{
    nodes[at] = winner;
    let mut i = at / 2;
    while i > 0 {
        rejoin(nodes, i);
        i /= 2;
    }
}

// makes a node the winner of the two below it
fn rejoin(nodes: &mut Vec<Option<Winner>>, i: usize)
    requires { suc (i + i) < length nodes.old.items }
    ensures { nodes.new.items ≡ slice_set nodes.old.items i (spec.winner_of_two
        (spec.node nodes.old.items (i + i)) (spec.node nodes.old.items (suc (i + i)))) }
{
    nodes[i] = join(nodes[i + i], nodes[i + i + 1]);
}

// the winner of one place
fn leaf(place: usize, rank: Option<Rank>) -> Option<Winner>
    ensures { result ≡ at_place place rank }
{
    let rank = rank?;
    Some(Winner { place, rank })
}

// the winner of two neighbouring parts
fn join(left: Option<Winner>, right: Option<Winner>) -> Option<Winner>
    ensures { result ≡ spec.winner_of_two left right }
{
    let a = left.map(|winner| winner.rank);
    let b = right.map(|winner| winner.rank);
    if overtakes(a, b) { right } else { left }
}
