//! Trees read as derivations of programs.
ghost use Rattle.std.specs.Prelude.{◌≡◌, Ok, map};
ghost use Rattle.ac_sx.specs.CodeSx.{tree_of, trees_in, one_of, two_of, three_of};
ghost use Rattle.expression_lang.specs.CodeExpression.{exp_of};
ghost use Rattle.expression_text.specs.CodeFault.{Gives};
ghost use Rattle.triple_lang.specs.CodeDeriv as derivs;
ghost use Rattle.triple_text.specs.Parts.{six_of, seven_of};
ghost use Rattle.triple_text.specs.DerivReading as reading;
ghost use Rattle.triple_text.specs.CodeDerivRows as rows;
ghost use Rattle.triple_text.specs.CodeDerivRows.{given_rule};

use crate::deriv_heads::{DerivHead, deriv_head};
use crate::deriv_rules::GivenRule;
use crate::entail_reading::entail_at;
use crate::parts::{seven, six};
use crate::positions::position_at;
use ac_sx::{Sx, headed, one, three, two};
use expression_lang::Exp;
use expression_text::{TextFault, exps_at, next};
use program_text::boxed_exp_at;
use std::alloc::Global;
use triple_lang::{Deriv, Entail};

type Read = Result<(Box<Deriv>, u32), TextFault>;

/// The derivation that a tree is.
#[cycle(derivs)]
pub(crate) fn deriv_at(alloc: Global, tree: &Sx, at: u32) -> Read
    ensures { Gives (λ d. derivs.tree_of d.value) result
        (reading.deriv_at at (tree_of tree.now)) }
{
    let Some((word, parts)) = headed(tree) else {
        return Err(TextFault::Shape(at));
    };
    match deriv_head(word) {
        Some(head) => row_at(alloc, at, next(next(at)), head, parts),
        None => Err(TextFault::Shape(at)),
    }
}

// What was read, with the number of the node behind it.
fn read(alloc: Global, deriv: Deriv, at: u32) -> Read
    ensures { Gives (λ d. derivs.tree_of d.value) result (Ok (derivs.tree_of deriv, at)) }
{
    let deriv = Box::new(alloc, deriv)?;
    Ok((deriv, at))
}

// The derivation of an assertion that a tree is.
fn shown_at(alloc: Global, tree: &Sx, at: u32) -> Result<(Box<Entail>, u32), TextFault>
    ensures { Gives (λ e. derivs.shows e.value) result
        (reading.shown_at at (tree_of tree.now)) }
{
    entail_at(alloc, tree, at)
}

// The derivation of a list at a number, whose parts begin at the inner one. Each row is a function of its own, since
// derivations nest deeply: only the row in use takes room on the stack.
#[cycle(derivs)]
fn row_at(alloc: Global, at: u32, inner: u32, head: DerivHead, parts: &[Sx]) -> Read
    ensures { Gives (λ d. derivs.tree_of d.value) result
        (rows.row_at at inner head (trees_in parts.now)) }
{
    match head {
        DerivHead::Ret => given_row(alloc, at, inner, GivenRule::Ret, parts),
        DerivHead::Bind => bind_row(alloc, at, inner, parts),
        DerivHead::Guard => guard_row(alloc, at, inner, parts),
        DerivHead::If => if_row(alloc, at, inner, parts),
        DerivHead::Loop => loop_row(alloc, at, inner, parts),
        DerivHead::Call => call_row(alloc, at, inner, parts),
        DerivHead::Pick => pick_row(alloc, at, inner, parts),
        DerivHead::Write => given_row(alloc, at, inner, GivenRule::Write, parts),
        DerivHead::Gset => given_row(alloc, at, inner, GivenRule::Gset, parts),
    }
}

#[inline(never)]
fn given_row(alloc: Global, at: u32, inner: u32, rule: GivenRule, parts: &[Sx]) -> Read
    ensures { Gives (λ d. derivs.tree_of d.value) result
        (reading.given_row at inner (given_rule rule) (two_of (trees_in parts.now))) }
{
    let Some((exp, shown)) = two(parts) else {
        return Err(TextFault::Shape(at));
    };
    let (exp, at) = boxed_exp_at(alloc, exp, inner)?;
    let (shown, at) = shown_at(alloc, shown, at)?;
    read(alloc, rule.over(exp, shown), at)
}

#[inline(never)]
fn guard_row(alloc: Global, at: u32, inner: u32, parts: &[Sx]) -> Read
    ensures { Gives (λ d. derivs.tree_of d.value) result
        (reading.guard_row at inner (two_of (trees_in parts.now))) }
{
    let Some((first, last)) = two(parts) else {
        return Err(TextFault::Shape(at));
    };
    let (first, at) = shown_at(alloc, first, inner)?;
    let (last, at) = shown_at(alloc, last, at)?;
    read(alloc, Deriv::Guard(first, last), at)
}

#[inline(never)]
fn pick_row(alloc: Global, at: u32, inner: u32, parts: &[Sx]) -> Read
    ensures { Gives (λ d. derivs.tree_of d.value) result
        (reading.pick_row at inner (one_of (trees_in parts.now))) }
{
    let Some(shown) = one(parts) else {
        return Err(TextFault::Shape(at));
    };
    let (shown, at) = shown_at(alloc, shown, inner)?;
    read(alloc, Deriv::Pick(shown), at)
}

#[inline(never)]
fn call_row(alloc: Global, at: u32, inner: u32, parts: &[Sx]) -> Read
    ensures { Gives (λ d. derivs.tree_of d.value) result
        (reading.call_row at inner (six_of (trees_in parts.now))) }
{
    let Some((triple, logicals, before, asked, after, given)) = six(parts) else {
        return Err(TextFault::Shape(at));
    };
    let (triple, at) = position_at(triple, inner)?;
    let (logicals, at) = values_at(alloc, logicals, at)?;
    let (before, at) = boxed_exp_at(alloc, before, at)?;
    let (asked, at) = shown_at(alloc, asked, at)?;
    let (after, at) = boxed_exp_at(alloc, after, at)?;
    let (given, at) = shown_at(alloc, given, at)?;
    read(
        alloc,
        Deriv::Call {
            triple,
            logicals,
            before,
            asked,
            after,
            given,
        },
        at,
    )
}

// The expressions that a list is.
fn values_at(alloc: Global, tree: &Sx, at: u32) -> Result<(Vec<Exp>, u32), TextFault>
    ensures { Gives (λ exps. map exp_of exps.items) result
        (reading.values_at at (tree_of tree.now)) }
{
    match tree.parts() {
        Some(parts) => exps_at(alloc, parts, next(at)),
        None => Err(TextFault::Shape(at)),
    }
}

#[cycle(derivs)]
#[inline(never)]
fn bind_row(alloc: Global, at: u32, inner: u32, parts: &[Sx]) -> Read
    ensures { Gives (λ d. derivs.tree_of d.value) result
        (rows.bind_row at inner (three_of (trees_in parts.now))) }
{
    let Some((between, first, last)) = three(parts) else {
        return Err(TextFault::Shape(at));
    };
    let (between, at) = boxed_exp_at(alloc, between, inner)?;
    let (first, at) = deriv_at(alloc, first, at)?;
    let (last, at) = deriv_at(alloc, last, at)?;
    read(alloc, Deriv::Bind(between, first, last), at)
}

#[cycle(derivs)]
#[inline(never)]
fn if_row(alloc: Global, at: u32, inner: u32, parts: &[Sx]) -> Read
    ensures { Gives (λ d. derivs.tree_of d.value) result
        (rows.if_row at inner (two_of (trees_in parts.now))) }
{
    let Some((first, last)) = two(parts) else {
        return Err(TextFault::Shape(at));
    };
    let (first, at) = deriv_at(alloc, first, inner)?;
    let (last, at) = deriv_at(alloc, last, at)?;
    read(alloc, Deriv::If(first, last), at)
}

#[cycle(derivs)]
#[inline(never)]
fn loop_row(alloc: Global, at: u32, inner: u32, parts: &[Sx]) -> Read
    ensures { Gives (λ d. derivs.tree_of d.value) result
        (rows.loop_row at inner (seven_of (trees_in parts.now))) }
{
    let Some((invariant, first, begins, guarded, kept, last, ends)) = seven(parts) else {
        return Err(TextFault::Shape(at));
    };
    let (invariant, at) = boxed_exp_at(alloc, invariant, inner)?;
    let (first, at) = boxed_exp_at(alloc, first, at)?;
    let (begins, at) = shown_at(alloc, begins, at)?;
    let (guarded, at) = shown_at(alloc, guarded, at)?;
    let (kept, at) = deriv_at(alloc, kept, at)?;
    let (last, at) = boxed_exp_at(alloc, last, at)?;
    let (ends, at) = shown_at(alloc, ends, at)?;
    read(
        alloc,
        Deriv::Loop {
            invariant,
            first,
            begins,
            guarded,
            kept,
            last,
            ends,
        },
        at,
    )
}
