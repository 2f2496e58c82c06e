//! Linear arithmetic: whether facts, each taken so often, contradict the opposite of a claim.

ghost use Rattle.std.specs.Prelude.{◌≡◌, ◌↔◌, IsTrue, map};
ghost use Rattle.expression_lang.specs.CodeExpression.{exp_of};
ghost use Rattle.ac_expr.specs.CodeChain.{facts_of};
ghost use Rattle.entailment.specs.Linear.{IsLinear, is_equation};
ghost use Rattle.entailment.specs.CodeClaim.{claim_of, scope_at};
ghost use Rattle.triple_lang.specs.CodeEntail.{weighed_of};
ghost use Rattle.entailment.specs.CodeSums.{AllMayTake, MayTake, are_numbers, may_weigh};

use crate::claim::Claim;
use crate::site::Site;
use crate::sums::{Combination, contradicts};
use ac_expr::{Fact, Facts, Sequence, known};
use c_values::Number;
use expression_lang::sort_rules::is_number;
use expression_lang::{Exp, Scope, sort_of};
use triple_lang::Weighed;

// Whether an equation is of numbers.
fn are_numbers<N: Scope>(site: &Site<'_, N>, fact: &Exp) -> bool
    ensures { result ≡ are_numbers (scope_at (N.scalars) site.now) (exp_of fact.now) }
{
    match fact {
        Exp::Eq(a, b) => {
            is_number(sort_of(a, site.names, site.layout, site.globals))
                && is_number(sort_of(b, site.names, site.layout, site.globals))
        }
        _ => true,
    }
}

fn is_equation(fact: &Exp) -> bool
    ensures { result ≡ is_equation (exp_of fact.now) }
{
    matches!(fact, Exp::Eq(_, _))
}

// Whether a fact may be taken so often.
fn may_weigh<N: Scope>(site: &Site<'_, N>, w: &Weighed) -> bool
    ensures { result ≡ may_weigh (scope_at (N.scalars) site.now) (weighed_of w.now) }
{
    are_numbers(site, &w.fact) && (is_equation(&w.fact) || !w.weight.negative())
}

// Whether it is known too.
fn may_take<S: Sequence, N: Scope>(facts: &Facts<'_, S>, site: &Site<'_, N>, w: &Weighed) -> bool
    ensures { IsTrue result ↔ MayTake (scope_at (N.scalars) site.now) (facts_of (S.parts) facts.now)
        (weighed_of w.now) }
{
    known(facts, &Fact::Whole(&w.fact)) && may_weigh(site, w)
}

fn all_may_take<S: Sequence, N: Scope>(
    facts: &Facts<'_, S>,
    site: &Site<'_, N>,
    weighed: &[Weighed],
) -> bool
    ensures { IsTrue result ↔ AllMayTake (scope_at (N.scalars) site.now)
        (facts_of (S.parts) facts.now) (map weighed_of weighed.now) }
{
    let mut rest = weighed;
    'along: while let Some((w, others)) = rest.split_first() {
        if !may_take(facts, site, w) {
            return false;
        }
        rest = others;
    }
    true
}

/// Whether the opposite of the claim and the facts, each taken so often, contradict each other.
pub(crate) fn is_linear<S: Sequence, N: Scope>(
    facts: &Facts<'_, S>,
    site: &Site<'_, N>,
    claim: &Claim<'_>,
    weight: Number,
    weighed: &[Weighed],
) -> bool
    ensures { IsTrue result ↔ IsLinear (scope_at (N.scalars) site.now) (facts_of (S.parts) facts.now)
        weight (map weighed_of weighed.now) (claim_of claim.now) }
{
    let all = Combination {
        weight,
        claim,
        weighed,
    };
    contradicts(&all) && all_may_take(facts, site, weighed)
}
