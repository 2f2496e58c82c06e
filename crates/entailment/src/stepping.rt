//! Whether a claim is true by its constants, or an expression is one step apart from it.

ghost use Rattle.std.specs.Prelude.{◌≡◌, ◌↔◌, ◌⊎◌, IsTrue, List, Some, true};
ghost use Rattle.expression_lang.specs.CodeExpression.{exp_of};
ghost use Rattle.expression_lang.specs.Expression.{TruthLit};
ghost use Rattle.expression_lang.specs.Sort.{sort_of, is_truth};
ghost use Rattle.ac_expr.specs.CodeChain.{facts_of};
ghost use Rattle.ac_expr.specs.CodeApart.{IsSomeSorted};
ghost use Rattle.ac_expr.specs.CodeConstants.{computed};
ghost use Rattle.ac_expr.specs.Fact.{Fact as Plain};
ghost use Rattle.ac_expr.specs.Step.{IsItsValue, IsStep, OneStepApart};
ghost use Rattle.entailment.specs.CodeClaim.{claim_of, scope_at};
ghost use Rattle.entailment.specs.CodeSides.{AreEqual, related, sides_of};
ghost use Rattle.entailment.specs.CodeTruth.{truth_of};

use crate::claim::Claim;
use crate::computing::{literal_truth, truth_of_claim, truth_of_sides};
use crate::lengthening::gives;
use crate::sides::{Sides, sides_in};
use crate::site::Site;
use ac_expr::{Facts, Sequence, one_step};
use c_values::{Layout, same_truth};
use expression_lang::{Exp, Scope};

/// Whether the claim is of constants alone, and true.
pub(crate) fn is_computed<N: Scope>(claim: &Claim<'_>, site: &Site<'_, N>) -> bool
    requires { is_truth (sort_of (scope_at (N.scalars) site.now) (claim_of claim.now)) ≡ true }
    ensures { IsTrue result ↔ IsItsValue site.now.layout.now (claim_of claim.now) (TruthLit true) }
{
    is_value(truth_of_claim(claim, site.layout), true)
}

// Whether a value is this one.
fn is_value(value: Option<bool>, truth: bool) -> bool
    ensures { IsTrue result ↔ (value ≡ Some truth) }
{
    match value {
        Some(own) => same_truth(own, truth),
        None => false,
    }
}

/// Whether an expression is one step apart from the claim.
#[tactic(auto, using(crate::proofs::TruthValues::truth_sorted))]
pub(crate) fn is_step_apart<S: Sequence, N: Scope>(
    claim: &Claim<'_>,
    rest: &Exp,
    facts: &Facts<'_, S>,
    site: &Site<'_, N>,
) -> bool
    requires claim { is_truth (sort_of (scope_at (N.scalars) site.now) (claim_of claim.now)) ≡ true }
    requires rest { is_truth (sort_of (scope_at (N.scalars) site.now) (exp_of rest.now)) ≡ true }
    ensures { IsTrue result ↔ OneStepApart (scope_at (N.scalars) site.now)
        (facts_of (S.parts) facts.now) (claim_of claim.now) (exp_of rest.now) }
{
    match claim {
        Claim::Whole(e) => are_apart(*e, rest, facts, site),
        Claim::AtLeast(x, low) => {
            let numeral = Exp::Number(*low);
            is_apart_from_sides(&Sides::at_most(&numeral, *x), rest, facts, site)
        }
        Claim::AtMost(x, high) => {
            let numeral = Exp::Number(*high);
            is_apart_from_sides(&Sides::at_most(*x, &numeral), rest, facts, site)
        }
        Claim::Equal(a, b) => is_apart_from_sides(&Sides::equal(*a, *b), rest, facts, site),
        Claim::Nothing => {
            let nothing = Exp::Truth(false);
            are_apart(&nothing, rest, facts, site)
        }
    }
}

// Whether two well-sorted expressions are one step apart.
fn are_apart<S: Sequence, N: Scope>(
    left: &Exp,
    right: &Exp,
    facts: &Facts<'_, S>,
    site: &Site<'_, N>,
) -> bool
    requires left { IsSomeSorted (scope_at (N.scalars) site.now) (exp_of left.now) }
    requires right { IsSomeSorted (scope_at (N.scalars) site.now) (exp_of right.now) }
    ensures { IsTrue result ↔ OneStepApart (scope_at (N.scalars) site.now)
        (facts_of (S.parts) facts.now) (exp_of left.now) (exp_of right.now) }
{
    one_step(facts, site.names, site.layout, site.globals, left, right)
}

// Whether a truth value is one step apart from a claim of two sides.
fn is_apart_from_sides<S: Sequence, N: Scope>(
    sides: &Sides<'_>,
    rest: &Exp,
    facts: &Facts<'_, S>,
    site: &Site<'_, N>,
) -> bool
    requires sides { is_truth (sort_of (scope_at (N.scalars) site.now) (sides_of sides.now))
        ≡ true }
    requires rest { is_truth (sort_of (scope_at (N.scalars) site.now) (exp_of rest.now)) ≡ true }
    ensures { IsTrue result ↔ OneStepApart (scope_at (N.scalars) site.now)
        (facts_of (S.parts) facts.now) (sides_of sides.now) (exp_of rest.now) }
{
    if is_given(sides, rest, site) {
        return true;
    }
    if gives(rest, sides) {
        return true;
    }
    match sides_in(sides.relation, rest) {
        Some((first, second)) => is_side_apart(sides, first, second, facts, site),
        None => false,
    }
}

// Whether a row of the table takes the claim to the expression, which is its truth value.
fn is_given<N: Scope>(sides: &Sides<'_>, rest: &Exp, site: &Site<'_, N>) -> bool
    requires { is_truth (sort_of (scope_at (N.scalars) site.now) (sides_of sides.now)) ≡ true }
    ensures { (fs : List Plain) → IsTrue result
        ↔ IsStep (scope_at (N.scalars) site.now) fs (sides_of sides.now) (exp_of rest.now) }
{
    match literal_truth(rest) {
        Some(truth) => becomes(sides, truth, site.layout),
        None => false,
    }
}

// Whether the claim becomes this truth value: both sides are the same, or of constants alone.
fn becomes(sides: &Sides<'_>, truth: bool, l: &Layout) -> bool
    ensures { IsTrue result ↔ ((truth ≡ true) × AreEqual sides.now.relation
        (exp_of sides.now.first.now) (exp_of sides.now.second.now))
        ⊎ (truth_of (computed l.now (sides_of sides.now)) ≡ Some truth) }
{
    truth && sides.are_equal() || is_value(truth_of_sides(sides, l), truth)
}

// Whether one side is the same and the other one step apart.
fn is_side_apart<S: Sequence, N: Scope>(
    sides: &Sides<'_>,
    first: &Exp,
    second: &Exp,
    facts: &Facts<'_, S>,
    site: &Site<'_, N>,
) -> bool
    requires sides { is_truth (sort_of (scope_at (N.scalars) site.now) (sides_of sides.now))
        ≡ true }
    requires others { is_truth (sort_of (scope_at (N.scalars) site.now)
        (related sides.now.relation (exp_of first.now) (exp_of second.now))) ≡ true }
    ensures { IsTrue result
        ↔ ((exp_of second.now ≡ exp_of sides.now.second.now)
        × OneStepApart (scope_at (N.scalars) site.now) (facts_of (S.parts) facts.now)
        (exp_of sides.now.first.now) (exp_of first.now))
        ⊎ ((exp_of first.now ≡ exp_of sides.now.first.now)
        × OneStepApart (scope_at (N.scalars) site.now) (facts_of (S.parts) facts.now)
        (exp_of sides.now.second.now) (exp_of second.now)) }
{
    second.same(sides.second) && are_apart(sides.first, first, facts, site)
        || first.same(sides.first) && are_apart(sides.second, second, facts, site)
}
