//! What has to hold before an expression has a value: its conditions in order, those of operands
//! before those of the operation. Each function adds them behind those that are there.

ghost use Rattle.std.specs.Prelude.{◌≡◌, ◌++◌, map, OnOk, IfOk};
ghost use Rattle.c_lang.specs.CodeTyped as typed;
ghost use Rattle.expression_lang.specs.CodeExpression.{exp_of, level_of};
ghost use Rattle.simpl_lang.specs.CodeCommand.{condition_of};
ghost use Rattle.generation.specs.Guards as rules;
ghost use Rattle.simpl_expressions.specs.CodeTests.{where_is};

use crate::checks::{add_accesses, add_bounds, add_computation, add_negation, add_shift};
use crate::terms::{implication, not};
use crate::values::truth;
use c_lang::tree::{Expr, Path, Place};
use c_values::Layout;
use expression_lang::{Exp, Level};
use simpl_lang::Condition;
use std::alloc::{AllocError, Global};

/// Those of an expression.
#[cycle(guards)]
pub fn add_guards(
    alloc: Global,
    l: &Layout,
    level: Level,
    e: &Expr,
    out: &mut Vec<Condition>,
) -> Result<(), AllocError>
    ensures { OnOk result (map condition_of out.new.items
        ≡ map condition_of out.old.items ++ rules.guards l.now (level_of level)
        (typed.expr_of e.now)) }
{
    match e {
        Expr::Constant(_, _) | Expr::Local(_, _) => Ok(()),
        Expr::Value(place) => {
            add_place_guards(alloc, l, level, place, out)?;
            add_accesses(alloc, l, level, place, out)
        }
        Expr::Address(place, _) | Expr::Decay(place, _) => {
            add_place_guards(alloc, l, level, place, out)
        }
        Expr::Convert(_, a) | Expr::ConvertNull(_, a) | Expr::Complement(_, a) | Expr::Not(a) => {
            add_guards(alloc, l, level, a, out)
        }
        Expr::Negate(ty, a) => {
            add_guards(alloc, l, level, a, out)?;
            add_negation(alloc, l, level, *ty, a, out)
        }
        Expr::Compute(op, ty, a, b) => {
            add_guards(alloc, l, level, a, out)?;
            add_guards(alloc, l, level, b, out)?;
            add_computation(alloc, l, level, *op, *ty, a, b, out)
        }
        Expr::Shift(direction, ty, a, b) => {
            add_guards(alloc, l, level, a, out)?;
            add_guards(alloc, l, level, b, out)?;
            add_shift(alloc, l, *direction, *ty, a, b, out)
        }
        Expr::Combine(_, _, a, b)
        | Expr::Compare(_, _, a, b)
        | Expr::Equate(_, _, a, b)
        | Expr::Move(_, _, a, b)
        | Expr::MoveBy(_, a, b) => {
            add_guards(alloc, l, level, a, out)?;
            add_guards(alloc, l, level, b, out)
        }
        Expr::And(a, b) => {
            add_guards(alloc, l, level, a, out)?;
            add_guards_under(alloc, l, level, b, a, true, out)
        }
        Expr::Or(a, b) => {
            add_guards(alloc, l, level, a, out)?;
            add_guards_under(alloc, l, level, b, a, false, out)
        }
        Expr::Choose(_, c, a, b) => {
            add_guards(alloc, l, level, c, out)?;
            add_guards_under(alloc, l, level, a, c, true, out)?;
            add_guards_under(alloc, l, level, b, c, false, out)
        }
    }
}

// Those of an operand that is needed only where a condition holds, or only where it doesn't.
#[cycle(guards)]
fn add_guards_under(
    alloc: Global,
    l: &Layout,
    level: Level,
    e: &Expr,
    condition: &Expr,
    holds: bool,
    out: &mut Vec<Condition>,
) -> Result<(), AllocError>
    ensures { OnOk result (map condition_of out.new.items
        ≡ map condition_of out.old.items
        ++ rules.under (where_is l.now (typed.expr_of condition.now) holds)
        (rules.guards l.now (level_of level) (typed.expr_of e.now))) }
{
    let mut guards = Vec::new(alloc);
    add_guards(alloc, l, level, e, &mut guards)?;
    add_under(alloc, l, condition, holds, guards, out)
}

// Each of these under a condition.
fn add_under(
    alloc: Global,
    l: &Layout,
    condition: &Expr,
    holds: bool,
    guards: Vec<Condition>,
    out: &mut Vec<Condition>,
) -> Result<(), AllocError>
    ensures { OnOk result (map condition_of out.new.items
        ≡ map condition_of out.old.items
        ++ rules.under (where_is l.now (typed.expr_of condition.now) holds)
        (map condition_of guards.items)) }
{
    for guard in guards {
        let Condition { kind, exp } = guard;
        let premise = truth_where(alloc, l, condition, holds)?;
        let exp = implication(alloc, premise, exp)?;
        out.push(Condition { kind, exp })?;
    }
    Ok(())
}

// What stands for an expression that is true, or for one that isn't.
fn truth_where(alloc: Global, l: &Layout, e: &Expr, holds: bool) -> Result<Box<Exp>, AllocError>
    ensures { IfOk result (λ x. exp_of x.value ≡ where_is l.now (typed.expr_of e.now) holds) }
{
    let truth = truth(alloc, l, e)?;
    if holds { Ok(truth) } else { not(alloc, truth) }
}

/// Those of a place: the root pointer's, each index's, and the bounds of each index.
#[cycle(guards)]
pub fn add_place_guards(
    alloc: Global,
    l: &Layout,
    level: Level,
    place: &Place,
    out: &mut Vec<Condition>,
) -> Result<(), AllocError>
    ensures { OnOk result (map condition_of out.new.items
        ≡ map condition_of out.old.items ++ rules.place_guards l.now (level_of level)
        (typed.place_of place.now)) }
{
    match place {
        Place::Through(_, pointer, path, _) => {
            add_guards(alloc, l, level, pointer, out)?;
            add_index_guards(alloc, l, level, path, out)?;
            add_bounds(alloc, l, path, out)
        }
        Place::InGlobal(_, path, _) => {
            add_index_guards(alloc, l, level, path, out)?;
            add_bounds(alloc, l, path, out)
        }
    }
}

#[cycle(guards)]
fn add_index_guards(
    alloc: Global,
    l: &Layout,
    level: Level,
    path: &Path,
    out: &mut Vec<Condition>,
) -> Result<(), AllocError>
    ensures { OnOk result (map condition_of out.new.items
        ≡ map condition_of out.old.items ++ rules.index_guards l.now (level_of level)
        (typed.path_of path.now)) }
{
    match path {
        Path::Here => Ok(()),
        Path::Member(_, rest) => add_index_guards(alloc, l, level, rest, out),
        Path::Element(_, index, rest) => {
            add_guards(alloc, l, level, index, out)?;
            add_index_guards(alloc, l, level, rest, out)
        }
    }
}
