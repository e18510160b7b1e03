//! Gives each publisher of an input its own lines.

ghost use Rattle.std.specs.Prelude.{◌≡◌, ◌++◌, ◌∷◌, [], ◌<◌, ◌-◌, ◌≤◌, List, length, map};
ghost use Rattle.std.specs.Prelude.{replicate};
ghost use Rattle.std.specs.Prelude.{IfOk, OnOk, vec_len};
ghost use Rattle.std.specs.List.{AllByRecursion};
ghost use Rattle.rb_drive.specs.declared.input.Given.{Given as Line};
ghost use Rattle.rb_drive.specs.Published.{AreByPublisher};

use crate::input::Given;
use std::alloc::{AllocError, Global};

/// Each publisher's lines, in their order, from publisher 0 to the greatest that has one.
pub fn by_publisher(alloc: Global, givens: Vec<Given>) -> Result<Vec<Vec<Given>>, AllocError>
    requires { AllByRecursion (λ given. given.publisher < 64) givens.items }
    ensures { IfOk result (λ lines. AreByPublisher givens.items (map (λ v. v.items) lines.items)) }
{
    let mut lines = Vec::new(alloc);
    for given in givens {
        add(alloc, &mut lines, given)?;
    }
    Ok(lines)
}

// gives its publisher one more line
fn add(alloc: Global, lines: &mut Vec<Vec<Given>>, given: Given) -> Result<(), AllocError>
    requires { given.publisher < 64 }
    ensures { OnOk result ((front : List Line)
        → AreByPublisher front (map (λ v. v.items) lines.old.items)
        → AreByPublisher (front ++ given ∷ []) (map (λ v. v.items) lines.new.items)) }
{
    let publisher = given.publisher as usize;
    grow(alloc, lines, publisher + 1)?;
    let own = &mut lines[publisher];
    own.push(given)?;
    Ok(())
}

// makes it so many publishers at least; those that come have no lines
fn grow(alloc: Global, lines: &mut Vec<Vec<Given>>, count: usize) -> Result<(), AllocError>
    ensures lines { OnOk result (map (λ v. v.items) lines.new.items
        ≡ map (λ v. v.items) lines.old.items ++ replicate (count - vec_len lines.old) []) }
    ensures count { OnOk result (count ≤ vec_len lines.new) }
{
    let missing = count.saturating_sub(lines.len());
    for _ in 0..missing {
        lines.push(Vec::new(alloc))?;
    }
    Ok(())
}
