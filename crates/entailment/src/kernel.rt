//! The checker of the rules by which an assertion is shown from facts.

ghost use Rattle.std.specs.Prelude.{◌≡◌, true, ◌∷◌};
ghost use Rattle.expression_lang.specs.CodeExpression.{exp_of};
ghost use Rattle.expression_lang.specs.Sort.{sort_of, is_truth};
ghost use Rattle.ac_expr.specs.CodeFacts.{fact_of};
ghost use Rattle.ac_expr.specs.CodeChain.{facts_of};
ghost use Rattle.rule_trees.specs.RuleTree.{Checked};
ghost use Rattle.rule_trees.specs.CodeFound.{leaf_answer};
ghost use Rattle.triple_lang.specs.Entail as names;
ghost use Rattle.triple_lang.specs.Entail.{shown};
ghost use Rattle.entailment.specs.Table.{table};
ghost use Rattle.entailment.specs.CodeClaim.{claim_of, scope_at};
ghost use Rattle.triple_lang.specs.CodeEntail.{tree_of, over, over_both};

use crate::claim::Claim;
use crate::instances::{is_assertion, is_equation, is_known, is_reflexive};
use crate::linear::is_linear;
use crate::ranges::is_range;
use crate::rewriting::is_rewritten;
use crate::site::Site;
use crate::stepping::{is_computed, is_step_apart};
use ac_expr::{Fact, Facts, Sequence};
use expression_lang::{Exp, Scope};
use rule_trees::next;
use triple_lang::Entail;

/// What is checked of an assertion: the number behind the last node of a tree whose first has the
/// number `at`, or the number of the first bad node. At each level of the tree it takes some of the
/// stack.
#[cycle(showing)]
pub fn checked<S: Sequence, N: Scope>(
    tree: &Entail,
    claim: &Claim<'_>,
    facts: &Facts<'_, S>,
    site: &Site<'_, N>,
    at: u32,
) -> Result<u32, u32>
    requires { is_truth (sort_of (scope_at (N.scalars) site.now) (claim_of claim.now)) ≡ true }
    ensures { Checked (table site.now.lifted (scope_at (N.scalars) site.now)) (tree_of tree.now)
        (shown (facts_of (S.parts) facts.now) (claim_of claim.now)) at result }
{
    match tree {
        Entail::Hyp => checked_leaf(is_known(claim, facts), at),
        Entail::Same => checked_leaf(is_reflexive(claim), at),
        Entail::Compute => checked_leaf(is_computed(claim, site), at),
        Entail::Range => checked_leaf(is_range(claim, site), at),
        Entail::Linear(weight, weighed) => {
            checked_leaf(is_linear(facts, site, claim, *weight, weighed), at)
        }
        Entail::And(first, last) => checked_and(first, last, claim, facts, site, at),
        Entail::Imp(part) => checked_imp(part, claim, facts, site, at),
        Entail::Or(part) => checked_or(part, claim, facts, site, at),
        Entail::Not(part) => checked_not(part, claim, facts, site, at),
        Entail::Between(first, last) => checked_between(first, last, claim, facts, site, at),
        Entail::Case(c, first, last) => checked_case(c, first, last, claim, facts, site, at),
        Entail::Cut(c, first, last) => checked_cut(c, first, last, claim, facts, site, at),
        Entail::Absurd(part) => checked(part, &Claim::Nothing, facts, site, next(at)),
        Entail::Rewrite(a, b, rest, first, last) => {
            checked_rewrite(a, b, rest, first, last, claim, facts, site, at)
        }
        Entail::Step(rest, part) => checked_step(rest, part, claim, facts, site, at),
    }
}

// The same of a rule without parts.
fn checked_leaf(holds: bool, at: u32) -> Result<u32, u32>
    ensures { result ≡ leaf_answer holds at }
{
    if holds { Ok(next(at)) } else { Err(at) }
}

// The same where one fact more is known.
#[cycle(showing)]
fn checked_knowing<S: Sequence, N: Scope>(
    tree: &Entail,
    fact: &Fact<'_>,
    claim: &Claim<'_>,
    facts: &Facts<'_, S>,
    site: &Site<'_, N>,
    at: u32,
) -> Result<u32, u32>
    requires { is_truth (sort_of (scope_at (N.scalars) site.now) (claim_of claim.now)) ≡ true }
    ensures { Checked (table site.now.lifted (scope_at (N.scalars) site.now)) (tree_of tree.now)
        (shown (fact_of fact.now ∷ facts_of (S.parts) facts.now) (claim_of claim.now)) at result }
{
    let known = (&*facts).with(&*fact);
    checked(tree, claim, &known, site, at)
}

// The same of an `and`.
#[cycle(showing)]
fn checked_and<S: Sequence, N: Scope>(
    first: &Entail,
    last: &Entail,
    claim: &Claim<'_>,
    facts: &Facts<'_, S>,
    site: &Site<'_, N>,
    at: u32,
) -> Result<u32, u32>
    requires { is_truth (sort_of (scope_at (N.scalars) site.now) (claim_of claim.now)) ≡ true }
    ensures { Checked (table site.now.lifted (scope_at (N.scalars) site.now))
        (over_both names.And (tree_of first.now) (tree_of last.now))
        (shown (facts_of (S.parts) facts.now) (claim_of claim.now)) at result }
{
    let Claim::Whole(Exp::And(a, b)) = claim else {
        return Err(at);
    };
    let behind = checked(first, &Claim::Whole(a), facts, site, next(at))?;
    checked_knowing(last, &Fact::Whole(a), &Claim::Whole(b), facts, site, behind)
}

// The same of an `imp`.
#[cycle(showing)]
fn checked_imp<S: Sequence, N: Scope>(
    part: &Entail,
    claim: &Claim<'_>,
    facts: &Facts<'_, S>,
    site: &Site<'_, N>,
    at: u32,
) -> Result<u32, u32>
    requires { is_truth (sort_of (scope_at (N.scalars) site.now) (claim_of claim.now)) ≡ true }
    ensures { Checked (table site.now.lifted (scope_at (N.scalars) site.now))
        (over names.Imp (tree_of part.now))
        (shown (facts_of (S.parts) facts.now) (claim_of claim.now)) at result }
{
    let Claim::Whole(Exp::Imp(a, b)) = claim else {
        return Err(at);
    };
    checked_knowing(
        part,
        &Fact::Whole(a),
        &Claim::Whole(b),
        facts,
        site,
        next(at),
    )
}

// The same of an `or`.
#[cycle(showing)]
fn checked_or<S: Sequence, N: Scope>(
    part: &Entail,
    claim: &Claim<'_>,
    facts: &Facts<'_, S>,
    site: &Site<'_, N>,
    at: u32,
) -> Result<u32, u32>
    requires { is_truth (sort_of (scope_at (N.scalars) site.now) (claim_of claim.now)) ≡ true }
    ensures { Checked (table site.now.lifted (scope_at (N.scalars) site.now))
        (over names.Or (tree_of part.now))
        (shown (facts_of (S.parts) facts.now) (claim_of claim.now)) at result }
{
    let Claim::Whole(Exp::Or(a, b)) = claim else {
        return Err(at);
    };
    checked_knowing(part, &Fact::Not(a), &Claim::Whole(b), facts, site, next(at))
}

// The same of a `not`.
#[cycle(showing)]
fn checked_not<S: Sequence, N: Scope>(
    part: &Entail,
    claim: &Claim<'_>,
    facts: &Facts<'_, S>,
    site: &Site<'_, N>,
    at: u32,
) -> Result<u32, u32>
    requires { is_truth (sort_of (scope_at (N.scalars) site.now) (claim_of claim.now)) ≡ true }
    ensures { Checked (table site.now.lifted (scope_at (N.scalars) site.now))
        (over names.Not (tree_of part.now))
        (shown (facts_of (S.parts) facts.now) (claim_of claim.now)) at result }
{
    let Claim::Whole(Exp::Not(a)) = claim else {
        return Err(at);
    };
    checked_knowing(
        part,
        &Fact::Whole(a),
        &Claim::Nothing,
        facts,
        site,
        next(at),
    )
}

// The same of a range.
#[cycle(showing)]
fn checked_between<S: Sequence, N: Scope>(
    first: &Entail,
    last: &Entail,
    claim: &Claim<'_>,
    facts: &Facts<'_, S>,
    site: &Site<'_, N>,
    at: u32,
) -> Result<u32, u32>
    requires { is_truth (sort_of (scope_at (N.scalars) site.now) (claim_of claim.now)) ≡ true }
    ensures { Checked (table site.now.lifted (scope_at (N.scalars) site.now))
        (over_both names.Between (tree_of first.now) (tree_of last.now))
        (shown (facts_of (S.parts) facts.now) (claim_of claim.now)) at result }
{
    let Claim::Whole(Exp::Between(low, x, high)) = claim else {
        return Err(at);
    };
    let behind = checked(first, &Claim::AtLeast(x, *low), facts, site, next(at))?;
    checked(last, &Claim::AtMost(x, *high), facts, site, behind)
}

// The same of the two cases of an assertion.
#[cycle(showing)]
fn checked_case<S: Sequence, N: Scope>(
    c: &Exp,
    first: &Entail,
    last: &Entail,
    claim: &Claim<'_>,
    facts: &Facts<'_, S>,
    site: &Site<'_, N>,
    at: u32,
) -> Result<u32, u32>
    requires { is_truth (sort_of (scope_at (N.scalars) site.now) (claim_of claim.now)) ≡ true }
    ensures { Checked (table site.now.lifted (scope_at (N.scalars) site.now))
        (over_both (names.Case (exp_of c.now)) (tree_of first.now) (tree_of last.now))
        (shown (facts_of (S.parts) facts.now) (claim_of claim.now)) at result }
{
    if !is_assertion(c, site) {
        return Err(at);
    }
    let behind = checked_knowing(first, &Fact::Whole(c), claim, facts, site, next(at))?;
    checked_knowing(last, &Fact::Not(c), claim, facts, site, behind)
}

// The same of an assertion that is shown first.
#[cycle(showing)]
fn checked_cut<S: Sequence, N: Scope>(
    c: &Exp,
    first: &Entail,
    last: &Entail,
    claim: &Claim<'_>,
    facts: &Facts<'_, S>,
    site: &Site<'_, N>,
    at: u32,
) -> Result<u32, u32>
    requires { is_truth (sort_of (scope_at (N.scalars) site.now) (claim_of claim.now)) ≡ true }
    ensures { Checked (table site.now.lifted (scope_at (N.scalars) site.now))
        (over_both (names.Cut (exp_of c.now)) (tree_of first.now) (tree_of last.now))
        (shown (facts_of (S.parts) facts.now) (claim_of claim.now)) at result }
{
    if !is_assertion(c, site) {
        return Err(at);
    }
    let behind = checked(first, &Claim::Whole(c), facts, site, next(at))?;
    checked_knowing(last, &Fact::Whole(c), claim, facts, site, behind)
}

// The same of an equation that takes the assertion to another one.
#[cycle(showing)]
fn checked_rewrite<S: Sequence, N: Scope>(
    a: &Exp,
    b: &Exp,
    rest: &Exp,
    first: &Entail,
    last: &Entail,
    claim: &Claim<'_>,
    facts: &Facts<'_, S>,
    site: &Site<'_, N>,
    at: u32,
) -> Result<u32, u32>
    requires { is_truth (sort_of (scope_at (N.scalars) site.now) (claim_of claim.now)) ≡ true }
    ensures { Checked (table site.now.lifted (scope_at (N.scalars) site.now))
        (over_both (names.Rewrite (exp_of a.now) (exp_of b.now) (exp_of rest.now))
        (tree_of first.now) (tree_of last.now))
        (shown (facts_of (S.parts) facts.now) (claim_of claim.now)) at result }
{
    if !is_equation(a, b, site) || !is_assertion(rest, site) || !is_rewritten(a, b, claim, rest) {
        return Err(at);
    }
    let behind = checked(first, &Claim::Equal(a, b), facts, site, next(at))?;
    checked(last, &Claim::Whole(rest), facts, site, behind)
}

// The same of one step.
#[cycle(showing)]
fn checked_step<S: Sequence, N: Scope>(
    rest: &Exp,
    part: &Entail,
    claim: &Claim<'_>,
    facts: &Facts<'_, S>,
    site: &Site<'_, N>,
    at: u32,
) -> Result<u32, u32>
    requires { is_truth (sort_of (scope_at (N.scalars) site.now) (claim_of claim.now)) ≡ true }
    ensures { Checked (table site.now.lifted (scope_at (N.scalars) site.now))
        (over (names.Step (exp_of rest.now)) (tree_of part.now))
        (shown (facts_of (S.parts) facts.now) (claim_of claim.now)) at result }
{
    if !is_assertion(rest, site) || !is_step_apart(claim, rest, facts, site) {
        return Err(at);
    }
    checked(part, &Claim::Whole(rest), facts, site, next(at))
}
