//! Plans: commands with what is found of their parts, so that no level of nesting looks for it
//! again.

ghost use Rattle.std.specs.Prelude.{◌≡◌, IfOk};

use crate::rows::Row;
use expression_lang::Exp;
use simpl_lang::{Condition, Simpl};
use std::alloc::{AllocError, Global};

/// What is found of a loop: what each local leads to in turns of it, and the locals that are live
/// before it whatever is live after it.
#[derive(Drop)]
pub(crate) struct Turns {
    pub(crate) steps: Vec<Row>,
    pub(crate) own: Row,
}

/// A command with what is found of its parts.
#[cycle(plan)]
pub(crate) enum Plan<'a> {
    /// A command without parts.
    Alone(&'a Simpl),
    Cond(&'a Exp, Box<Plan<'a>>, Box<Plan<'a>>),
    Catch(Box<Plan<'a>>, Box<Plan<'a>>),
    /// A loop, with the locals that its body assigns.
    While(&'a [Condition], &'a Exp, Box<Plan<'a>>, Row, Box<Turns>),
    /// A last part, and what stands before it.
    Behind(Box<Fronts<'a>>, Box<Plan<'a>>),
}

impl Drop for Plan<'_> {
    #[cycle(drop_plan)]
    fn drop(self) {
        match self {
            Plan::Alone(_) => {}
            Plan::Cond(_, _first, _second) => {}
            Plan::Catch(_first, _second) => {}
            Plan::While(_, _, _body, _assigned, _turns) => {}
            Plan::Behind(_fronts, _last) => {}
        }
    }
}

/// What stands before a last part: first parts, each with the locals that it assigns, and guards,
/// the last of them first.
#[cycle(plan)]
pub(crate) enum Fronts<'a> {
    None,
    Seq(Box<Plan<'a>>, Row, Box<Fronts<'a>>),
    Guard(&'a Condition, Box<Fronts<'a>>),
}

// A derived drop would call itself once for each part of a sequence.
impl Drop for Fronts<'_> {
    #[cycle(drop_plan)]
    fn drop(mut self) {
        loop {
            match self {
                Fronts::None => return,
                Fronts::Seq(_first, _assigned, rest) => self = Box::into_inner(rest),
                Fronts::Guard(_, rest) => self = Box::into_inner(rest),
            }
        }
    }
}

/// The plan on the heap.
pub(crate) fn boxed<'a>(alloc: Global, plan: Plan<'a>) -> Result<Box<Plan<'a>>, AllocError>
    ensures { IfOk result (λ boxed. boxed.value ≡ plan.entry) }
{
    Ok(Box::new(alloc, plan)?)
}

/// What stands before a last part on the heap.
pub(crate) fn boxed_fronts<'a>(
    alloc: Global,
    fronts: Fronts<'a>,
) -> Result<Box<Fronts<'a>>, AllocError>
    ensures { IfOk result (λ boxed. boxed.value ≡ fronts.entry) }
{
    Ok(Box::new(alloc, fronts)?)
}

/// What is found of a loop on the heap.
pub(crate) fn boxed_turns(alloc: Global, turns: Turns) -> Result<Box<Turns>, AllocError>
    ensures { IfOk result (λ boxed. boxed.value ≡ turns) }
{
    Ok(Box::new(alloc, turns)?)
}
