//! Assignments: a value goes to its target.

ghost use Rattle.std.specs.Prelude.{◌≡◌, ◌++◌, map, OnOk, IfOk};
ghost use Rattle.c_lang.specs.Typed as C;
ghost use Rattle.c_lang.specs.CodeTyped as typed;
ghost use Rattle.expression_lang.specs.CodeExpression.{exp_of, level_of};
ghost use Rattle.simpl_lang.specs.CodeCommand.{condition_of, simpl_of};
ghost use Rattle.generation.specs.Guards.{guards, exp};
ghost use Rattle.generation.specs.Generate as rules;

use crate::commands::{set, with_guards};
use c_lang::tree::{Destination, Expr, Place};
use c_values::{Layout, copy_of};
use expression_lang::{Exp, Level};
use simpl_expressions::{add_accesses, add_guards, add_place_guards, path_to, value};
use simpl_lang::{Condition, Simpl};
use std::alloc::{AllocError, Global};

/// `x = e;`
pub(crate) fn assign(
    alloc: Global,
    l: &Layout,
    level: Level,
    target: &Destination,
    e: &Expr,
) -> Result<Box<Simpl>, AllocError>
    ensures { IfOk result (λ s. simpl_of s.value ≡ rules.guarded
        (guards l.now (level_of level) (typed.expr_of e.now) ++ rules.target_guards l.now
        (level_of level) (typed.destination_of target.now))
        (rules.assignment l.now (typed.destination_of target.now)
        (exp l.now (typed.expr_of e.now)))) }
{
    let mut guards = Vec::new(alloc);
    add_guards(alloc, l, level, e, &mut guards)?;
    add_target_guards(alloc, l, level, target, &mut guards)?;
    let assignment = assignment(alloc, l, target, value(alloc, l, e)?)?;
    with_guards(alloc, guards, assignment)
}

/// A value that has been computed goes to its target.
pub(crate) fn assignment(
    alloc: Global,
    l: &Layout,
    target: &Destination,
    value: Box<Exp>,
) -> Result<Box<Simpl>, AllocError>
    ensures { IfOk result
        (λ s. simpl_of s.value ≡ rules.assignment l.now (typed.destination_of target.now)
        (exp_of value.value)) }
{
    match target {
        Destination::ToLocal(name, _) => set(alloc, name.clone()?, value),
        Destination::ToPlace(place) => store(alloc, l, place, value),
    }
}

// A value goes to a place.
fn store(alloc: Global, l: &Layout, place: &Place, e: Box<Exp>) -> Result<Box<Simpl>, AllocError>
    ensures { IfOk result
        (λ s. simpl_of s.value ≡ rules.assignment l.now (C.ToPlace (typed.place_of place.now))
        (exp_of e.value)) }
{
    let e = Box::into_inner(e);
    match place {
        Place::Through(root, pointer, path, _) => {
            let pointer = Box::into_inner(value(alloc, l, pointer)?);
            let path = path_to(alloc, l, path)?;
            let root = copy_of(alloc, root)?;
            Ok(Box::new(alloc, Simpl::Store(root, pointer, path, e))?)
        }
        Place::InGlobal(name, path, _) => {
            let name = name.clone()?;
            let path = path_to(alloc, l, path)?;
            Ok(Box::new(alloc, Simpl::SetGlobal(name, path, e))?)
        }
    }
}

/// What has to hold before a value goes to its target.
pub(crate) fn add_target_guards(
    alloc: Global,
    l: &Layout,
    level: Level,
    target: &Destination,
    out: &mut Vec<Condition>,
) -> Result<(), AllocError>
    ensures { OnOk result (map condition_of out.new.items
        ≡ map condition_of out.old.items ++ rules.target_guards l.now (level_of level)
        (typed.destination_of target.now)) }
{
    match target {
        Destination::ToLocal(_, _) => Ok(()),
        Destination::ToPlace(place) => {
            add_place_guards(alloc, l, level, place, out)?;
            add_accesses(alloc, l, level, place, out)
        }
    }
}
