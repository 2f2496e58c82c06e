//! Sums of inequalities, each taken so often, at a place.

ghost use Rattle.std.specs.Prelude.{◌≡◌, pos, int_le, int_lt, map};
ghost use Rattle.std.specs.Ordering.{int_eq};
ghost use Rattle.std.specs.Option.{option_map};
ghost use Rattle.expression_lang.specs.CodeExpression.{exp_of};
ghost use Rattle.entailment.specs.CodeClaim.{claim_of};
ghost use Rattle.triple_lang.specs.CodeEntail.{weighed_of};
ghost use Rattle.entailment.specs.CodeSums.{added, cancels, contradicts, each_in, each_in_all, each_unknown, first_found, in_factors, is_nothing, is_positive, is_zero, may_deny, total_found};
ghost use Rattle.entailment.specs.CodeInequality.{inequality_of, place_of, side_of};

use crate::claim::Claim;
use crate::coefficients::{Place, literal, of_two, small};
use crate::inequalities::{Inequality, Side, opposite, stated, times};
use c_values::{Number, NumberOp, same_number};
use expression_lang::Exp;
use triple_lang::Weighed;

/// So often the opposite of a claim, and so often each of the facts.
#[derive(Clone, Copy)]
pub(crate) struct Combination<'a> {
    pub weight: Number,
    pub claim: &'a Claim<'a>,
    pub weighed: &'a [Weighed],
}

// Whether the claim is that nothing holds.
fn is_nothing(claim: &Claim<'_>) -> bool
    ensures { result ≡ is_nothing (claim_of claim.now) }
{
    match claim {
        Claim::Nothing => true,
        Claim::Whole(e) => match *e {
            Exp::Truth(truth) => !*truth,
            _ => false,
        },
        _ => false,
    }
}

// What the opposite of the claim has at a place.
fn first(all: &Combination<'_>, place: &Place<'_>) -> Option<Number>
    ensures { result
        ≡ first_found all.now.weight (claim_of all.now.claim.now) (place_of place.now) }
{
    if is_nothing(all.claim) {
        Some(small(false))
    } else {
        times(all.weight, &opposite(all.claim), place)
    }
}

// The sum with one more fact.
fn added(sum: Option<Number>, w: &Weighed, place: &Place<'_>) -> Option<Number>
    ensures { result ≡ added sum (weighed_of w.now) (place_of place.now) }
{
    of_two(NumberOp::Add, sum, times(w.weight, &stated(&w.fact), place))
}

// The sum of all.
fn total(all: &Combination<'_>, place: &Place<'_>) -> Option<Number>
    ensures { result ≡ total_found all.now.weight (map weighed_of all.now.weighed.now)
        (claim_of all.now.claim.now) (place_of place.now) }
{
    let mut sum = first(all, place);
    let mut rest = all.weighed;
    'along: while let Some((w, others)) = rest.split_first() {
        sum = added(sum, w, place);
        rest = others;
    }
    sum
}

fn is_zero(n: Option<Number>) -> bool
    ensures { result ≡ is_zero n }
{
    match n {
        Some(n) => same_number(n, small(false)),
        None => false,
    }
}

fn is_positive(n: Option<Number>) -> bool
    ensures { result ≡ is_positive n }
{
    match n {
        Some(n) => !n.negative() && n.magnitude() > 0,
        None => false,
    }
}

// Whether an unknown isn't left in the sum.
fn cancels(all: &Combination<'_>, unknown: &Exp) -> bool
    ensures { result ≡ cancels all.now.weight (map weighed_of all.now.weighed.now)
        (claim_of all.now.claim.now) (exp_of unknown.now) }
{
    is_zero(total(all, &Place::Unknown(unknown)))
}

// Whether no unknown of an expression is left in the sum. It calls itself no deeper than the
// expression goes.
fn each_unknown(all: &Combination<'_>, e: &Exp) -> bool
    ensures { result ≡ each_unknown (cancels all.now.weight (map weighed_of all.now.weighed.now)
        (claim_of all.now.claim.now)) (exp_of e.now) }
{
    match e {
        Exp::Number(_) => true,
        Exp::Arith(NumberOp::Add | NumberOp::Sub, a, b) => {
            each_unknown(all, a) && each_unknown(all, b)
        }
        Exp::Arith(NumberOp::Mul, a, b) => match literal(a) {
            Some(_) => each_unknown(all, b),
            None => match literal(b) {
                Some(_) => each_unknown(all, a),
                None => cancels(all, e),
            },
        },
        Exp::Negate(a) => each_unknown(all, a),
        _ => cancels(all, e),
    }
}

fn each_in_side(all: &Combination<'_>, side: &Side<'_>) -> bool
    ensures { result ≡ each_unknown (cancels all.now.weight (map weighed_of all.now.weighed.now)
        (claim_of all.now.claim.now)) (side_of side.now) }
{
    match side {
        Side::Whole(e) => each_unknown(all, *e),
        Side::Literal(_) => true,
    }
}

// Whether no unknown of an inequality is left in the sum.
fn each_in(all: &Combination<'_>, i: &Option<Inequality<'_>>) -> bool
    ensures { result ≡ each_in (cancels all.now.weight (map weighed_of all.now.weighed.now)
        (claim_of all.now.claim.now)) (option_map inequality_of i.now) }
{
    match i {
        Some(i) => each_in_side(all, &i.left) && each_in_side(all, &i.right),
        None => true,
    }
}

// Whether no unknown of a fact is left in the sum.
fn each_in_all(all: &Combination<'_>) -> bool
    ensures { result ≡ each_in_all (cancels all.now.weight (map weighed_of all.now.weighed.now)
        (claim_of all.now.claim.now)) (map weighed_of all.now.weighed.now) }
{
    let mut rest = all.weighed;
    'along: while let Some((w, others)) = rest.split_first() {
        if !each_in(all, &stated(&w.fact)) {
            return false;
        }
        rest = others;
    }
    true
}

// Whether the opposite of the claim may be taken so often.
fn may_deny(all: &Combination<'_>) -> bool
    ensures { result ≡ may_deny all.now.weight (claim_of all.now.claim.now) }
{
    if is_nothing(all.claim) {
        same_number(all.weight, small(false))
    } else {
        !all.weight.negative()
    }
}

/// Whether no unknown is left in the sum, and its constant is positive.
pub(crate) fn contradicts(all: &Combination<'_>) -> bool
    ensures { result ≡ contradicts all.now.weight (map weighed_of all.now.weighed.now)
        (claim_of all.now.claim.now) }
{
    may_deny(all)
        && is_positive(total(all, &Place::Constant))
        && each_in(all, &opposite(all.claim))
        && each_in_all(all)
}
