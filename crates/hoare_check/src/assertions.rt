//! The checker of assertions at a place of a derivation.

ghost use Rattle.std.specs.Prelude.{◌≡◌, ◌↔◌, IsTrue, true, ◌∷◌};
ghost use Rattle.expression_lang.specs.CodeExpression.{exp_of};
ghost use Rattle.expression_lang.specs.Sort.{sort_of, is_truth};
ghost use Rattle.ac_expr.specs.CodeFacts.{fact_of};
ghost use Rattle.ac_expr.specs.CodeChain.{facts_of};
ghost use Rattle.rule_trees.specs.RuleTree.{Checked};
ghost use Rattle.triple_lang.specs.Deriv.{entailed};
ghost use Rattle.hoare_check.specs.DeriveTable.{scope, Asserts, table};
ghost use Rattle.triple_lang.specs.CodeDeriv.{shows};
ghost use Rattle.hoare_check.specs.CodePosed.{ground_of};

use crate::ground::Ground;
use ac_expr::{Fact, Facts, Sequence};
use entailment::{Claim, Site, checked, is_assertion};
use expression_lang::{Exp, Scope};
use triple_lang::Entail;

/// Whether an expression is an assertion, with these names in scope.
pub(crate) fn asserts<N: Scope>(e: &Exp, names: &N, ground: &Ground<'_>) -> bool
    ensures { IsTrue result
        ↔ Asserts (ground_of ground.now) (N.scalars names.now) (exp_of e.now) }
{
    let site = Site {
        lifted: ground.lifted,
        names,
        layout: &ground.unit.layout,
        globals: &ground.unit.globals,
    };
    is_assertion(e, &site)
}

/// What is checked of an assertion, as `kernel::checked` tells it.
pub(crate) fn shown<S: Sequence, N: Scope>(
    tree: &Entail,
    claim: &Exp,
    facts: &Facts<'_, S>,
    names: &N,
    ground: &Ground<'_>,
    at: u32,
) -> Result<u32, u32>
    requires { is_truth (sort_of (scope (ground_of ground.now) (N.scalars names.now))
        (exp_of claim.now)) ≡ true }
    ensures { Checked (table (ground_of ground.now)) (shows tree.now)
        (entailed (N.scalars names.now) (facts_of (S.parts) facts.now) (exp_of claim.now))
        at result }
{
    let site = Site {
        lifted: ground.lifted,
        names,
        layout: &ground.unit.layout,
        globals: &ground.unit.globals,
    };
    checked(tree, &Claim::Whole(claim), facts, &site, at)
}

/// The same where one fact more is known.
pub(crate) fn shown_knowing<S: Sequence, N: Scope>(
    tree: &Entail,
    claim: &Exp,
    fact: &Fact<'_>,
    facts: &Facts<'_, S>,
    names: &N,
    ground: &Ground<'_>,
    at: u32,
) -> Result<u32, u32>
    requires { is_truth (sort_of (scope (ground_of ground.now) (N.scalars names.now))
        (exp_of claim.now)) ≡ true }
    ensures { Checked (table (ground_of ground.now)) (shows tree.now)
        (entailed (N.scalars names.now) (fact_of fact.now ∷ facts_of (S.parts) facts.now)
        (exp_of claim.now)) at result }
{
    let known = (&*facts).with(&*fact);
    shown(tree, claim, &known, names, ground, at)
}
