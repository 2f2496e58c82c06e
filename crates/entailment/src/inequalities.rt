//! Inequalities of two sides, and what they have at a place.

ghost use Rattle.std.specs.Prelude.{◌≡◌, pos, ◌+ℤ◌, ◌-ℤ◌, if◌then◌else◌};
ghost use Rattle.std.specs.Option.{option_map};
ghost use Rattle.expression_lang.specs.CodeExpression.{exp_of};
ghost use Rattle.entailment.specs.Linear.{one_where, opposite, stated};
ghost use Rattle.entailment.specs.CodeClaim.{claim_of};
ghost use Rattle.entailment.specs.CodeSums.{excess_found, found, narrow, times_found};
ghost use Rattle.entailment.specs.CodeInequality.{inequality_of, place_of, side_of};

use crate::claim::Claim;
use crate::coefficients::{Place, calculated, coefficient, of_literal, small};
use c_values::{Number, NumberOp};
use expression_lang::Exp;

/// A side of an inequality.
#[derive(Clone, Copy)]
pub(crate) enum Side<'a> {
    Whole(&'a Exp),
    Literal(Number),
}

/// Two sides, the first of which is at most the second, or less by one.
#[derive(Clone, Copy)]
pub(crate) struct Inequality<'a> {
    pub left: Side<'a>,
    pub right: Side<'a>,
    pub strict: bool,
}

/// What a fact says.
pub(crate) fn stated(fact: &Exp) -> Option<Inequality<'_>>
    ensures { option_map inequality_of result ≡ stated (exp_of fact.now) }
{
    match fact {
        Exp::Le(a, b) | Exp::Eq(a, b) => Some(Inequality {
            left: Side::Whole(a),
            right: Side::Whole(b),
            strict: false,
        }),
        Exp::Lt(a, b) => Some(Inequality {
            left: Side::Whole(a),
            right: Side::Whole(b),
            strict: true,
        }),
        _ => None,
    }
}

/// What the opposite of a claim says.
pub(crate) fn opposite<'a>(claim: &'a Claim<'a>) -> Option<Inequality<'a>>
    ensures { option_map inequality_of result ≡ opposite (claim_of claim.now) }
{
    match claim {
        Claim::Whole(Exp::Le(a, b)) => Some(Inequality {
            left: Side::Whole(b),
            right: Side::Whole(a),
            strict: true,
        }),
        Claim::Whole(Exp::Lt(a, b)) => Some(Inequality {
            left: Side::Whole(b),
            right: Side::Whole(a),
            strict: false,
        }),
        Claim::AtLeast(e, low) => Some(Inequality {
            left: Side::Whole(*e),
            right: Side::Literal(*low),
            strict: true,
        }),
        Claim::AtMost(e, high) => Some(Inequality {
            left: Side::Literal(*high),
            right: Side::Whole(*e),
            strict: true,
        }),
        _ => None,
    }
}

// What a side has at a place.
fn of_side(side: &Side<'_>, place: &Place<'_>) -> Option<Number>
    ensures { result ≡ found (place_of place.now) (side_of side.now) }
{
    match side {
        Side::Whole(e) => coefficient(*e, place),
        Side::Literal(n) => of_literal(*n, place),
    }
}

// Whether a strict inequality has one more there.
fn has_one(strict: bool, place: &Place<'_>) -> bool
    ensures { (if result then pos 1 else pos 0) ≡ one_where strict (place_of place.now) }
{
    strict && matches!(place, Place::Constant)
}

// The difference of two numbers, or one more, where it is narrow. The difference itself may be wide
// where one more isn't, so the one goes to a side first: to the left where that is below zero, else
// from the right, which is wide only where the whole is.
fn difference(left: Number, right: Number, one: bool) -> Option<Number>
    ensures { result ≡ narrow ((left -ℤ right) +ℤ (if one then pos 1 else pos 0)) }
{
    let more = small(one);
    if left.negative() {
        calculated(NumberOp::Sub, calculated(NumberOp::Add, left, more)?, right)
    } else {
        calculated(NumberOp::Sub, left, calculated(NumberOp::Sub, right, more)?)
    }
}

// What an inequality has at a place: the first side less the second, and one more where it is
// strict.
fn excess(i: &Inequality<'_>, place: &Place<'_>) -> Option<Number>
    ensures { result ≡ excess_found (place_of place.now) (inequality_of i.now) }
{
    let left = of_side(&i.left, place)?;
    let right = of_side(&i.right, place)?;
    difference(left, right, has_one(i.strict, place))
}

/// What an inequality, where there is one, has at a place, when it is taken so often.
pub(crate) fn times(weight: Number, i: &Option<Inequality<'_>>, place: &Place<'_>) -> Option<Number>
    ensures { result
        ≡ times_found weight (option_map inequality_of i.now) (place_of place.now) }
{
    match i {
        Some(i) => calculated(NumberOp::Mul, weight, excess(i, place)?),
        None => None,
    }
}
