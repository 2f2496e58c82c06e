//! Whether an expression is another one with some of an expression made a third one.

ghost use Rattle.std.specs.Prelude.{◌≡◌, ◌↔◌, [], IsTrue};
ghost use Rattle.expression_lang.specs.CodeExpression.{exp_of};
ghost use Rattle.ac_expr.specs.CodeHeads.{children_in};
ghost use Rattle.entailment.specs.Rewritten.{IsRewritten};
ghost use Rattle.entailment.specs.CodeClaim.{claim_of};
ghost use Rattle.entailment.specs.CodeSides.{sides_of};

use crate::claim::Claim;
use crate::sides::{Sides, sides_in};
use ac_expr::{Children, children_of, same_head};
use expression_lang::Exp;

/// Whether an expression is the claim with some of the first made the second.
pub(crate) fn is_rewritten(from: &Exp, to: &Exp, claim: &Claim<'_>, rest: &Exp) -> bool
    ensures { IsTrue result ↔ IsRewritten (exp_of from.now) (exp_of to.now) (claim_of claim.now)
        (exp_of rest.now) }
{
    match claim {
        Claim::Whole(e) => is_exp_rewritten(from, to, *e, rest),
        Claim::AtLeast(x, low) => {
            let numeral = Exp::Number(*low);
            are_sides_rewritten(from, to, &Sides::at_most(&numeral, *x), rest)
        }
        Claim::AtMost(x, high) => {
            let numeral = Exp::Number(*high);
            are_sides_rewritten(from, to, &Sides::at_most(*x, &numeral), rest)
        }
        Claim::Equal(a, b) => are_sides_rewritten(from, to, &Sides::equal(*a, *b), rest),
        Claim::Nothing => {
            let nothing = Exp::Truth(false);
            is_exp_rewritten(from, to, &nothing, rest)
        }
    }
}

// The same of a claim of two sides.
fn are_sides_rewritten(from: &Exp, to: &Exp, sides: &Sides<'_>, rest: &Exp) -> bool
    ensures { IsTrue result ↔ IsRewritten (exp_of from.now) (exp_of to.now) (sides_of sides.now)
        (exp_of rest.now) }
{
    if is_claim_made(from, to, sides, rest) {
        return true;
    }
    match sides_in(sides.relation, rest) {
        Some((a, b)) => are_both_rewritten(from, to, sides, a, b),
        None => false,
    }
}

// Whether two expressions are the claim's sides with some of the first made the second.
fn are_both_rewritten(from: &Exp, to: &Exp, sides: &Sides<'_>, a: &Exp, b: &Exp) -> bool
    ensures { IsTrue result ↔ (
        IsRewritten (exp_of from.now) (exp_of to.now) (exp_of sides.now.first.now) (exp_of a.now)
        × IsRewritten (exp_of from.now) (exp_of to.now) (exp_of sides.now.second.now)
        (exp_of b.now)) }
{
    is_exp_rewritten(from, to, sides.first, a) && is_exp_rewritten(from, to, sides.second, b)
}

// Whether the claim and the other expression are these.
fn is_claim_made(from: &Exp, to: &Exp, sides: &Sides<'_>, rest: &Exp) -> bool
    ensures { IsTrue result
        ↔ ((sides_of sides.now ≡ exp_of from.now) × (exp_of rest.now ≡ exp_of to.now)) }
{
    sides.are_of(from) && rest.same(to)
}

// Whether an expression is another one with some of the first made the second. For each level of
// the expression it takes some of the stack.
fn is_exp_rewritten(from: &Exp, to: &Exp, e: &Exp, rest: &Exp) -> bool
    ensures { IsTrue result ↔ IsRewritten (exp_of from.now) (exp_of to.now) (exp_of e.now)
        (exp_of rest.now) }
{
    if is_made(from, to, e, rest) {
        return true;
    }
    if !same_head(e, rest) {
        return false;
    }
    let mut ones = children_of(e);
    let mut others = children_of(rest);
    'along: loop {
        let Some((a, behind)) = ones.next() else {
            return is_empty(others);
        };
        let Some((b, left)) = others.next() else {
            return false;
        };
        if !is_exp_rewritten(from, to, a, b) {
            return false;
        }
        ones = behind;
        others = left;
    }
}

// Whether two expressions are these.
fn is_made(from: &Exp, to: &Exp, e: &Exp, rest: &Exp) -> bool
    ensures { IsTrue result
        ↔ ((exp_of e.now ≡ exp_of from.now) × (exp_of rest.now ≡ exp_of to.now)) }
{
    e.same(from) && rest.same(to)
}

// Whether there are no expressions.
fn is_empty(children: Children<'_>) -> bool
    ensures { IsTrue result ↔ (children_in children.entry ≡ []) }
{
    children.next().is_none()
}
