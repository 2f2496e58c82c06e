//! The truth values of claims of constants alone.

ghost use Rattle.std.specs.Prelude.{◌≡◌, int_le};
ghost use Rattle.expression_lang.specs.Expression as plain;
ghost use Rattle.expression_lang.specs.CodeExpression.{exp_of};
ghost use Rattle.ac_expr.specs.CodeConstants.{computed, number_of};
ghost use Rattle.entailment.specs.CodeClaim.{claim_of};
ghost use Rattle.entailment.specs.CodeSides.{sides_of};
ghost use Rattle.entailment.specs.CodeTruth.{literal_truth, literal_number, truth_of};

use crate::claim::Claim;
use crate::sides::{Relation, Sides};
use ac_expr::constant_of;
use c_values::{Layout, Number};
use expression_lang::Exp;

/// The truth value of a claim of constants alone.
pub(crate) fn truth_of_claim(claim: &Claim<'_>, l: &Layout) -> Option<bool>
    ensures { result ≡ truth_of (computed l.now (claim_of claim.now)) }
{
    match claim {
        Claim::Whole(e) => truth_of(*e, l),
        Claim::AtLeast(x, low) => {
            let numeral = Exp::Number(*low);
            truth_of_order(&numeral, *x, l)
        }
        Claim::AtMost(x, high) => {
            let numeral = Exp::Number(*high);
            truth_of_order(*x, &numeral, l)
        }
        Claim::Equal(a, b) => truth_of_equation(*a, *b, l),
        Claim::Nothing => Some(false),
    }
}

/// The same of a claim of two sides.
pub(crate) fn truth_of_sides(sides: &Sides<'_>, l: &Layout) -> Option<bool>
    ensures { result ≡ truth_of (computed l.now (sides_of sides.now)) }
{
    match sides.relation {
        Relation::AtMost => truth_of_order(sides.first, sides.second, l),
        Relation::Equal => truth_of_equation(sides.first, sides.second, l),
    }
}

/// The truth value that a constant is.
pub(crate) fn literal_truth(e: &Exp) -> Option<bool>
    ensures { result ≡ literal_truth (exp_of e.now) }
{
    match e {
        Exp::Truth(truth) => Some(*truth),
        _ => None,
    }
}

// The number that a constant is.
fn literal_number(e: &Exp) -> Option<Number>
    ensures { result ≡ literal_number (exp_of e.now) }
{
    match e {
        Exp::Number(n) => Some(*n),
        _ => None,
    }
}

// The truth value of an expression of constants alone.
fn truth_of(e: &Exp, l: &Layout) -> Option<bool>
    ensures { result ≡ truth_of (computed l.now (exp_of e.now)) }
{
    let constant = constant_of(e, l)?;
    literal_truth(&constant)
}

// The number that an expression of constants alone is.
fn number_of(e: &Exp, l: &Layout) -> Option<Number>
    ensures { result ≡ number_of (computed l.now (exp_of e.now)) }
{
    let constant = constant_of(e, l)?;
    literal_number(&constant)
}

// Whether a number is at most another.
fn is_at_most(a: Number, b: Number) -> bool
    ensures { result ≡ int_le a b }
{
    if a.negative() {
        !b.negative() || b.magnitude() <= a.magnitude()
    } else {
        !b.negative() && a.magnitude() <= b.magnitude()
    }
}

// The truth value of that a number is at most another.
fn truth_of_order(a: &Exp, b: &Exp, l: &Layout) -> Option<bool>
    ensures { result
        ≡ truth_of (computed l.now (plain.Le (exp_of a.now) (exp_of b.now))) }
{
    let low = number_of(a, l)?;
    let high = number_of(b, l)?;
    Some(is_at_most(low, high))
}

// The truth value of that two expressions are equal.
fn truth_of_equation(a: &Exp, b: &Exp, l: &Layout) -> Option<bool>
    ensures { result
        ≡ truth_of (computed l.now (plain.Eq (exp_of a.now) (exp_of b.now))) }
{
    let first = constant_of(a, l)?;
    let second = constant_of(b, l)?;
    Some(second.same(&first))
}
