//! Whether an expression gives a claim by one row of the table of steps: one of its parts decides
//! it, or it undoes another one.

ghost use Rattle.std.specs.Prelude.{◌≡◌, ◌↔◌, IsTrue, List, true};
ghost use Rattle.expression_lang.specs.Expression as plain;
ghost use Rattle.expression_lang.specs.CodeExpression.{exp_of};
ghost use Rattle.expression_lang.specs.Sort.{Scope as Scoped, is_truth, sort_of};
ghost use Rattle.ac_expr.specs.Fact.{Fact as Plain};
ghost use Rattle.ac_expr.specs.Step.{IsFlag, Shortens};
ghost use Rattle.entailment.specs.CodeSides.{sides_of};
ghost use Rattle.entailment.specs.CodeTruth.{is_connective};

use crate::sides::Sides;
use c_values::{Word, same_truth};
use expression_lang::Exp;

/// Whether a truth value gives the claim.
pub(crate) fn gives(e: &Exp, sides: &Sides<'_>) -> bool
    requires { (g : Scoped) × (is_truth (sort_of g (exp_of e.now)) ≡ true) }
    ensures { (g : Scoped) (fs : List Plain) →
        IsTrue result ↔ Shortens g fs (exp_of e.now) (sides_of sides.now) }
{
    if !is_connective(e) {
        return false;
    }
    match e {
        Exp::And(x, y) => and_gives(x, y, sides),
        Exp::Or(x, y) => or_gives(x, y, sides),
        Exp::Imp(x, y) => imp_gives(x, y, sides),
        Exp::Not(x) => not_gives(x, sides),
        Exp::If(c, x, y) => if_gives(c, x, y, sides),
        _ => false,
    }
}

// Whether it is a head that a claim may stand under, and be what it gives.
fn is_connective(e: &Exp) -> bool
    ensures { result ≡ is_connective (exp_of e.now) }
{
    matches!(
        e,
        Exp::And(_, _) | Exp::Or(_, _) | Exp::Imp(_, _) | Exp::Not(_) | Exp::If(_, _, _)
    )
}

// Whether an expression is this constant.
fn is_literal(e: &Exp, truth: bool) -> bool
    ensures { IsTrue result ↔ (exp_of e.now ≡ plain.TruthLit truth) }
{
    match e {
        Exp::Truth(own) => same_truth(*own, truth),
        _ => false,
    }
}

#[tactic(auto, using(crate::proofs::LongForms::no_literal))]
fn and_gives(x: &Exp, y: &Exp, sides: &Sides<'_>) -> bool
    ensures { (g : Scoped) (fs : List Plain) → IsTrue result
        ↔ Shortens g fs (plain.And (exp_of x.now) (exp_of y.now)) (sides_of sides.now) }
{
    is_literal(x, true) && sides.are_of(y) || is_literal(y, true) && sides.are_of(x)
}

#[tactic(auto, using(crate::proofs::LongForms::no_literal))]
fn or_gives(x: &Exp, y: &Exp, sides: &Sides<'_>) -> bool
    ensures { (g : Scoped) (fs : List Plain) → IsTrue result
        ↔ Shortens g fs (plain.Or (exp_of x.now) (exp_of y.now)) (sides_of sides.now) }
{
    is_literal(x, false) && sides.are_of(y)
}

#[tactic(auto, using(crate::proofs::LongForms::no_literal))]
fn imp_gives(x: &Exp, y: &Exp, sides: &Sides<'_>) -> bool
    ensures { (g : Scoped) (fs : List Plain) → IsTrue result
        ↔ Shortens g fs (plain.Imp (exp_of x.now) (exp_of y.now)) (sides_of sides.now) }
{
    is_literal(x, true) && sides.are_of(y)
}

fn if_gives(c: &Exp, x: &Exp, y: &Exp, sides: &Sides<'_>) -> bool
    ensures { (g : Scoped) (fs : List Plain) → IsTrue result
        ↔ Shortens g fs (plain.If (exp_of c.now) (exp_of x.now) (exp_of y.now))
        (sides_of sides.now) }
{
    is_literal(c, true) && sides.are_of(x)
        || is_literal(c, false) && sides.are_of(y)
        || y.same(x) && sides.are_of(x)
}

fn not_gives(x: &Exp, sides: &Sides<'_>) -> bool
    ensures { (g : Scoped) (fs : List Plain) → IsTrue result
        ↔ Shortens g fs (plain.Not (exp_of x.now)) (sides_of sides.now) }
{
    match x {
        Exp::Not(inner) => sides.are_of(inner),
        Exp::Eq(y, z) => flag_gives(y, z, sides),
        _ => false,
    }
}

// Whether words are 1, 0 and 0 of one width.
fn is_flag(u: Word, v: Word, w: Word) -> bool
    ensures { IsTrue result ↔ IsFlag u v w }
{
    u.width() == w.width()
        && u.bits() == 1
        && v.width() == w.width()
        && v.bits() == w.bits()
        && w.bits() == 0
}

fn flag_gives(x: &Exp, y: &Exp, sides: &Sides<'_>) -> bool
    ensures { (g : Scoped) (fs : List Plain) → IsTrue result
        ↔ Shortens g fs (plain.Not (plain.Eq (exp_of x.now) (exp_of y.now)))
        (sides_of sides.now) }
{
    match x {
        Exp::If(c, one, zero) => match &**one {
            Exp::Word(u) => match &**zero {
                Exp::Word(v) => match y {
                    Exp::Word(w) => is_flag(*u, *v, *w) && sides.are_of(c),
                    _ => false,
                },
                _ => false,
            },
            _ => false,
        },
        _ => false,
    }
}
