//! The kernel of the rules that lift locals.

ghost use Rattle.std.specs.Prelude.{◌↔◌, IsTrue, map, string_bytes};
ghost use Rattle.simpl_lang.specs.CodeCommand.{simpl_of};
ghost use Rattle.monad_lang.specs.CodeProgram.{mon_of};
ghost use Rattle.monad_lang.specs.Reach.{IfTrue};
ghost use Rattle.rule_trees.specs.RuleTree.{Accepts, Checked, IsVerdict};
ghost use Rattle.rule_local.specs.Rule.{whole};
ghost use Rattle.rule_local.specs.Table.{table, AllFreeAmong};
ghost use Rattle.rule_local.specs.CodeRow.{claim, forms, table_of};
ghost use Rattle.rule_local.specs.CodeRule.{rule_of, tree_of, context_of};
ghost use Rattle.rule_local.specs.CodeVerdict.{verdict_of};

use crate::instances::{fits, is_asked};
use crate::part_claims::{first_left, first_outputs, first_right, last_left, last_of};
use crate::rule::{Asks, Context, Parts, Rule};
use crate::strays::are_free_parameters;
use crate::taken::are_names_kept;
use monad_lang::Mon;
use rule_trees::{At, Tree, both, next, only};
use simpl_lang::Simpl;

/// Whether the rules of a tree take the body of a function to a program that gives the outputs: yes
/// exactly where each node is an instance of its rule, else the first node that isn't. Both sides
/// are looked at, and no memory is taken. Where all names are locals, a yes comes in one walk over
/// the tree and one over both sides for each 64 locals; the first bad node is found by walks over
/// what is left at each node.
#[tactic(auto, using(rule_trees::proofs::Checking::checked_accepts))]
pub fn check(
    tree: &Tree<Rule>,
    left: &Simpl,
    right: &Mon,
    outputs: &[String],
    context: Context<'_>,
) -> Result<(), At>
    ensures { IsVerdict (table (context_of context.entry)) (tree_of tree.now)
        (whole (simpl_of left.now) (mon_of right.now) (map string_bytes outputs.now))
        (verdict_of result) }
{
    if is_taken(tree, left, right, outputs, context) {
        return Ok(());
    }
    match checked(tree, left, right, outputs, true, Asks::All, context, 0) {
        Ok(_) => Ok(()),
        Err(at) => Err(At(at)),
    }
}

// Whether the rules of a tree take the body of a function to a program, by a walk for the forms of
// the nodes and one for each 64 locals. It may say no where a name is no local.
fn is_taken(
    tree: &Tree<Rule>,
    left: &Simpl,
    right: &Mon,
    outputs: &[String],
    context: Context<'_>,
) -> bool
    ensures { IsTrue result → Accepts (table (context_of context.entry)) (tree_of tree.now)
        (whole (simpl_of left.now) (mon_of right.now) (map string_bytes outputs.now)) }
{
    are_names_kept(tree.rule, left, right, outputs, context)
        && have_forms(tree, left, right, outputs, context)
}

// Whether each node of a tree has the form that its rule asks.
#[tactic(auto, using(rule_trees::proofs::Checking::checked_accepts))]
fn have_forms(
    tree: &Tree<Rule>,
    left: &Simpl,
    right: &Mon,
    outputs: &[String],
    context: Context<'_>,
) -> bool
    ensures { IsTrue result → Accepts (forms (context_of context.entry)) (tree_of tree.now)
        (whole (simpl_of left.now) (mon_of right.now) (map string_bytes outputs.now)) }
{
    checked(tree, left, right, outputs, true, Asks::Forms, context, 0).is_ok()
}

// The number behind the last node of a tree whose first has the number `at`, or the number of the
// first bad node. It goes along the last parts by a loop, since a text may have long sequences.
fn checked(
    tree: &Tree<Rule>,
    left: &Simpl,
    right: &Mon,
    outputs: &[String],
    is_whole: bool,
    asks: Asks,
    context: Context<'_>,
    at: u32,
) -> Result<u32, u32>
    ensures { Checked (table_of asks (context_of context.entry)) (tree_of tree.now)
        (claim (simpl_of left.now) (mon_of right.now) (map string_bytes outputs.now) is_whole)
        at result }
{
    let mut tree = tree;
    let mut left = left;
    let mut right = right;
    let mut outputs = outputs;
    let mut is_whole = is_whole;
    let mut at = at;
    'along: loop {
        let rule = tree.rule;
        if !meets(rule, left, right, outputs, is_whole, asks, context) {
            return Err(at);
        }
        match rule.parts() {
            Parts::None => {
                return if tree.parts.is_empty() {
                    Ok(next(at))
                } else {
                    Err(at)
                };
            }
            Parts::One => {
                let Some(part) = only(&tree.parts) else {
                    return Err(at);
                };
                outputs = first_outputs(rule, right, outputs);
                left = first_left(rule, left);
                right = first_right(rule, right);
                is_whole = false;
                tree = part;
                at = next(at);
            }
            Parts::Two => {
                let Some((first, last)) = both(&tree.parts) else {
                    return Err(at);
                };
                at = checked(
                    first,
                    first_left(rule, left),
                    first_right(rule, right),
                    first_outputs(rule, right, outputs),
                    false,
                    asks,
                    context,
                    next(at),
                )?;
                left = last_left(left);
                right = last_of(right);
                is_whole = false;
                tree = last;
            }
        }
    }
}

// Whether two sides meet what is asked of a rule's.
fn meets(
    rule: Rule,
    left: &Simpl,
    right: &Mon,
    outputs: &[String],
    is_whole: bool,
    asks: Asks,
    context: Context<'_>,
) -> bool
    ensures { let c = claim (simpl_of left.now) (mon_of right.now) (map string_bytes outputs.now)
        is_whole in
        IsTrue result ↔ (table_of asks (context_of context.entry) (rule_of rule) c).holds }
{
    match asks {
        Asks::All => is_instance(rule, left, right, outputs, is_whole, context),
        Asks::Forms => fits(rule, left, right, outputs, is_whole, context),
    }
}

// Whether two sides are an instance of a rule: what the rule asks holds, and the free names of a
// whole function's program are parameters.
fn is_instance(
    rule: Rule,
    left: &Simpl,
    right: &Mon,
    outputs: &[String],
    is_whole: bool,
    context: Context<'_>,
) -> bool
    ensures { let c = claim (simpl_of left.now) (mon_of right.now) (map string_bytes outputs.now)
        is_whole in
        IsTrue result ↔ (table (context_of context.entry) (rule_of rule) c).holds }
{
    is_asked(rule, left, right, outputs, is_whole, context)
        && are_names_bound(right, is_whole, context)
}

// Whether the free names of a program are parameters, where it is a whole function's.
fn are_names_bound(m: &Mon, is_whole: bool, context: Context<'_>) -> bool
    ensures { IsTrue result
        ↔ IfTrue is_whole (AllFreeAmong (context_of context.entry).parameters (mon_of m.now)) }
{
    !is_whole || are_free_parameters(m, context.parameters)
}
