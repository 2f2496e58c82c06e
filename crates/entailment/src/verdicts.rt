//! Which assertions follow from facts.

ghost use Rattle.std.specs.Prelude.{◌≡◌, true, List, OnOk};
ghost use Rattle.c_values.specs.Layout.{IsLayout, GlobalVar, global_type};
ghost use Rattle.expression_lang.specs.CodeExpression.{exp_of};
ghost use Rattle.expression_lang.specs.Sort.{sort_of, is_truth};
ghost use Rattle.ac_expr.specs.CodeChain.{facts_of, scope_of_facts};
ghost use Rattle.rule_trees.specs.RuleTree.{Checked, IsVerdict};
ghost use Rattle.triple_lang.specs.Entail.{shown};
ghost use Rattle.entailment.specs.Table.{table};
ghost use Rattle.entailment.specs.Follows.{Follows};
ghost use Rattle.entailment.specs.CodeClaim.{verdict_of};
ghost use Rattle.triple_lang.specs.CodeEntail.{tree_of};

use crate::claim::Claim;
use crate::kernel::checked;
use crate::site::{NamesOf, Site, globals_of, layout_of};
use ac_expr::{Facts, Sequence};
use expression_lang::Exp;
use rule_trees::At;
use triple_lang::Entail;

// What is checked of an assertion in the scope of facts.
fn checked_among<S: Sequence>(
    lifted: bool,
    facts: &Facts<'_, S>,
    claim: &Exp,
    tree: &Entail,
) -> Result<u32, u32>
    requires { is_truth (sort_of (scope_of_facts facts.now) (exp_of claim.now)) ≡ true }
    ensures { Checked (table lifted (scope_of_facts facts.now)) (tree_of tree.now)
        (shown (facts_of (S.parts) facts.now) (exp_of claim.now)) 0 result }
{
    let names = NamesOf { facts };
    let site = Site {
        lifted,
        names: &names,
        layout: layout_of(facts),
        globals: globals_of(facts),
    };
    checked(tree, &Claim::Whole(claim), facts, &site, 0)
}

/// Whether the rules of a tree show an assertion from facts: yes exactly where each node is an
/// instance of its rule, and then it holds wherever the facts do; else the first node that isn't.
/// No memory is taken, and nothing is built. For each level of the tree it takes some of the stack.
#[tactic(auto, using(rule_trees::proofs::Checking::checked_accepts))]
pub fn entails<S: Sequence>(
    lifted: bool,
    facts: &Facts<'_, S>,
    claim: &Exp,
    tree: &Entail,
) -> Result<(), At>
    requires { is_truth (sort_of (scope_of_facts facts.now) (exp_of claim.now)) ≡ true }
    ensures verdict { IsVerdict (table lifted (scope_of_facts facts.now)) (tree_of tree.now)
        (shown (facts_of (S.parts) facts.now) (exp_of claim.now)) (verdict_of result) }
    ensures follows { (vs : List GlobalVar) → OnOk result
        (IsLayout (scope_of_facts facts.now).layout →
        (scope_of_facts facts.now).globals ≡ global_type vs →
        Follows (scope_of_facts facts.now) vs (facts_of (S.parts) facts.now) (exp_of claim.now)) }
{
    match checked_among(lifted, facts, claim, tree) {
        Ok(_) => Ok(()),
        Err(at) => Err(At(at)),
    }
}
