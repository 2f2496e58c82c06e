//! Names with start expressions that are compared and copied.

ghost use Rattle.std.specs.Prelude.{◌≡◌, ◌↔◌, IsTrue, IfOk, map};
ghost use Rattle.monad_lang.specs.CodeProgram.{start_of};

use crate::program::Start;
use std::alloc::{AllocError, Global};

/// Whether two lists have the same names with the same expressions.
#[tactic(auto, using(expression_lang::proofs::SameLists::maps_end, expression_lang::proofs::SameLists::maps_go_on))]
pub(crate) fn same_starts(starts: &[Start], others: &[Start]) -> bool
    ensures { IsTrue result ↔ (map start_of starts.now ≡ map start_of others.now) }
{
    let mut left = starts;
    let mut right = others;
    'along: while let Some((first, rest)) = left.split_first() {
        let Some((other, other_rest)) = right.split_first() else {
            return false;
        };
        if !same_start(first, other) {
            return false;
        }
        left = rest;
        right = other_rest;
    }
    right.is_empty()
}

fn same_start(start: &Start, other: &Start) -> bool
    ensures { IsTrue result ↔ (start_of start.now ≡ start_of other.now) }
{
    start.name.as_str() == other.name.as_str() && start.exp.same(&other.exp)
}

fn copy_of_start(alloc: Global, start: &Start) -> Result<Start, AllocError>
    ensures { IfOk result (λ copy. start_of copy ≡ start_of start.now) }
{
    let exp = start.exp.boxed_copy(alloc)?;
    let name = start.name.clone()?;
    Ok(Start {
        name,
        exp: Box::into_inner(exp),
    })
}

/// Copies of names with their expressions.
pub(crate) fn copy_of_starts(alloc: Global, starts: &[Start]) -> Result<Vec<Start>, AllocError>
    ensures { IfOk result (λ copies. map start_of copies.items ≡ map start_of starts.now) }
{
    let mut copies = Vec::new(alloc);
    for start in starts {
        copies.push(copy_of_start(alloc, start)?)?;
    }
    Ok(copies)
}
