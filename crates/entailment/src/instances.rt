//! What rules ask of an assertion.

ghost use Rattle.std.specs.Prelude.{◌≡◌, ◌↔◌, IsTrue, Bool, List, if◌then◌else◌};
ghost use Rattle.expression_lang.specs.CodeExpression.{exp_of};
ghost use Rattle.expression_lang.specs.Expression.{Eq};
ghost use Rattle.expression_lang.specs.Form.{has, is_load, is_read};
ghost use Rattle.expression_lang.specs.Sort.{Scope as Scoped};
ghost use Rattle.ac_expr.specs.Fact.{Fact as Plain};
ghost use Rattle.ac_expr.specs.Known.{IsKnown};
ghost use Rattle.ac_expr.specs.CodeChain.{facts_of};
ghost use Rattle.triple_lang.specs.Entail as names;
ghost use Rattle.entailment.specs.Table.{IsAssertion, row};
ghost use Rattle.entailment.specs.CodeClaim.{claim_of, scope_at};

use crate::claim::Claim;
use crate::site::Site;
use ac_expr::{Fact, Facts, Sequence, known};
use expression_lang::sort_rules::{are_same, is_truth};
use expression_lang::{Exp, IsLoad, IsRead, Scope, sort_of};

/// Whether an assertion is known from facts.
pub(crate) fn is_known<S: Sequence>(claim: &Claim<'_>, facts: &Facts<'_, S>) -> bool
    ensures { IsTrue result
        ↔ IsKnown (facts_of (S.parts) facts.now) (claim_of claim.now) }
{
    match claim {
        Claim::Whole(e) => known(facts, &Fact::Whole(*e)),
        Claim::AtLeast(x, low) => known(facts, &Fact::AtLeast(*x, *low)),
        Claim::AtMost(x, high) => known(facts, &Fact::AtMost(*x, *high)),
        Claim::Equal(a, b) => known(facts, &Fact::Equal(*a, *b)),
        Claim::Nothing => {
            let nothing = Exp::Truth(false);
            known(facts, &Fact::Whole(&nothing))
        }
    }
}

/// Whether an assertion says that an expression is equal to itself.
pub(crate) fn is_reflexive(claim: &Claim<'_>) -> bool
    ensures { (lifted : Bool) (g : Scoped) (fs : List Plain) →
        IsTrue result ↔ (row lifted g fs names.Same (claim_of claim.now)).holds }
{
    match claim {
        Claim::Whole(Exp::Eq(a, b)) => b.same(a),
        Claim::Equal(a, b) => b.same(*a),
        _ => false,
    }
}

// Whether an expression looks at the other heap than assertions may.
fn is_of_other_heap(lifted: bool, e: &Exp) -> bool
    ensures { result ≡ has (if lifted then is_load else is_read) (exp_of e.now) }
{
    if lifted {
        e.any(&IsLoad)
    } else {
        e.any(&IsRead)
    }
}

// Whether an equation of two expressions looks at it.
#[tactic(auto, using(crate::proofs::Equations::last_looks))]
fn is_equation_of_other_heap(lifted: bool, a: &Exp, b: &Exp) -> bool
    ensures { result ≡ has (if lifted then is_load else is_read)
        (Eq (exp_of a.now) (exp_of b.now)) }
{
    is_of_other_heap(lifted, a) || is_of_other_heap(lifted, b)
}

/// Whether an expression is an assertion.
pub fn is_assertion<N: Scope>(e: &Exp, site: &Site<'_, N>) -> bool
    ensures { IsTrue result
        ↔ IsAssertion site.now.lifted (scope_at (N.scalars) site.now) (exp_of e.now) }
{
    is_truth(sort_of(e, site.names, site.layout, site.globals)) && !is_of_other_heap(site.lifted, e)
}

/// Whether an equation of two expressions is an assertion.
pub(crate) fn is_equation<N: Scope>(a: &Exp, b: &Exp, site: &Site<'_, N>) -> bool
    ensures { IsTrue result ↔ IsAssertion site.now.lifted (scope_at (N.scalars) site.now)
        (Eq (exp_of a.now) (exp_of b.now)) }
{
    are_same(
        sort_of(a, site.names, site.layout, site.globals),
        sort_of(b, site.names, site.layout, site.globals),
    ) && !is_equation_of_other_heap(site.lifted, a, b)
}
