//! `Journal`: all steps of a desk, in order. A placement is only counted, and takes no memory.

ghost use Rattle.std.specs.Prelude.{◌≡◌, ◌++◌, ◌∷◌, [], ◌≤◌, ◌<◌, suc, length, IfOk, OnOk, OnErr};
ghost use Rattle.rb_desk.specs.declared.step.Step.TheVariants.{Place};

use crate::step::Step;
use std::alloc::{AllocError, Global};
use std::marker::Model;
use std::mem::replace;

// how many steps one piece of memory holds
const PIECE: usize = 1_024;

/// A step that isn't a placement, and how many placements came right before it.
#[derive(Clone, Copy, Debug)]
pub(crate) struct Kept {
    pub(crate) placed: u64,
    pub(crate) step: Step,
}

/// All steps of a desk. They stand in pieces of memory, which never move. Contracts see the steps,
/// and how many more fit without memory.
#[derive(Debug, Drop)]
pub(crate) struct Journal {
    full: Vec<Vec<Kept>>,
    last: Vec<Kept>,
    // placements after the last kept step
    placed: u64,
}

impl Model for Journal {
    ghost use Rattle.std.specs.Prelude.{◌-◌, map, vec_len, vec_capacity};
    ghost use Rattle.rb_desk.specs.Journal.{Log, steps_in};

    ghost Value = { Log };

    ghost view = { λ j. record {
      steps = steps_in (map (λ piece. piece.items) j.full.items) j.last.items j.placed;
      room = vec_capacity j.last - vec_len j.last;
    } };
}

impl Journal {
    /// A journal without steps, with room for one.
    pub(crate) fn new(alloc: Global) -> Result<Journal, AllocError>
        ensures steps { IfOk result (λ j. j.steps ≡ []) }
        ensures room { IfOk result (λ j. 1 ≤ j.room) }
    {
        Ok(Journal {
            full: Vec::new(alloc),
            last: Vec::with_capacity(alloc, PIECE)?,
            placed: 0,
        })
    }

    /// Makes room for two steps.
    pub(crate) fn reserve(&mut self, alloc: Global) -> Result<(), AllocError>
        ensures steps { self.new.steps ≡ self.old.steps }
        ensures ok { OnOk result (2 ≤ self.new.room) }
        ensures err { OnErr result (self.new ≡ self.old) }
    {
        if self.last.len() + 2 <= self.last.capacity() {
            return Ok(());
        }
        self.full.reserve(1)?;
        let next = Vec::with_capacity(alloc, PIECE)?;
        self.full.push_reserved(replace(&mut self.last, next));
        Ok(())
    }

    /// Adds a step, in room that there is.
    pub(crate) fn push(&mut self, step: Step)
        requires { 1 ≤ self.old.room }
        ensures steps { self.new.steps ≡ self.old.steps ++ step ∷ [] }
        ensures room { suc self.new.room ≡ self.old.room }
    {
        let placed = replace(&mut self.placed, 0);
        self.last.push_reserved(Kept { placed, step });
    }

    /// Adds a placement.
    pub(crate) fn place(&mut self)
        requires { length self.old.steps < 268435455 }
        ensures steps { self.new.steps ≡ self.old.steps ++ Place ∷ [] }
        ensures room { self.new.room ≡ self.old.room }
    {
        self.placed += 1;
    }
}
