//! The kernel of the rules that take exceptions out of commands.

ghost use Rattle.std.specs.Prelude.{◌≡◌, true};
ghost use Rattle.simpl_lang.specs.CodeCommand.{simpl_of};
ghost use Rattle.rule_trees.specs.RuleTree.{Checked, IsVerdict};
ghost use Rattle.rule_exn.specs.Quiet.{quiet};
ghost use Rattle.rule_exn.specs.Rule.{◌to◌};
ghost use Rattle.rule_exn.specs.Table.{table};
ghost use Rattle.rule_exn.specs.CodeRow as row;
ghost use Rattle.rule_exn.specs.CodeRule.{rule_of, tree_of};
ghost use Rattle.rule_exn.specs.CodeVerdict.{verdict_of};

use crate::instances::is_instance;
use crate::parts::{first_of, first_right, last_of, last_right};
use crate::rule::{Parts, Rule};
use rule_trees::{At, Tree, both, next, only};
use simpl_lang::Simpl;

/// Whether the rules of a tree take a left side to a right side: yes exactly where each node is an
/// instance of its rule, else the first node that isn't. Both sides are looked at once, and no
/// memory is taken.
#[tactic(auto, using(rule_trees::proofs::Checking::checked_accepts))]
pub fn check(tree: &Tree<Rule>, left: &Simpl, right: &Simpl) -> Result<(), At>
    ensures { IsVerdict table (tree_of tree.now) (simpl_of left.now to simpl_of right.now)
        (verdict_of result) }
{
    match checked(tree, left, right, false, 0) {
        Ok(_) => Ok(()),
        Err(at) => Err(At(at)),
    }
}

// The number behind the last node of a tree whose first has the number `at`, or the number of the
// first bad node. It goes along the last parts by a loop, since a text may have long sequences. It
// may be known that the left side is quiet.
fn checked(
    tree: &Tree<Rule>,
    left: &Simpl,
    right: &Simpl,
    known_quiet: bool,
    at: u32,
) -> Result<u32, u32>
    requires { known_quiet ≡ true → quiet (simpl_of left.now) ≡ true }
    ensures { Checked table (tree_of tree.now) (simpl_of left.now to simpl_of right.now) at result }
{
    let mut tree = tree;
    let mut left = left;
    let mut right = right;
    let mut known_quiet = known_quiet;
    let mut at = at;
    'along: loop {
        let rule = tree.rule;
        if !is_instance(rule, left, right, known_quiet) {
            return Err(at);
        }
        match rule.parts() {
            Parts::None => {
                return if tree.parts.is_empty() {
                    Ok(next(at))
                } else {
                    Err(at)
                };
            }
            Parts::One => {
                let Some(part) = only(&tree.parts) else {
                    return Err(at);
                };
                known_quiet = first_is_quiet(rule, known_quiet);
                left = first_of(left);
                right = first_right(rule, right);
                tree = part;
                at = next(at);
            }
            Parts::Two => {
                let Some((first, last)) = both(&tree.parts) else {
                    return Err(at);
                };
                at = checked(
                    first,
                    first_of(left),
                    first_right(rule, right),
                    first_is_quiet(rule, known_quiet),
                    next(at),
                )?;
                known_quiet = last_is_quiet(rule, known_quiet);
                left = last_of(left);
                right = last_right(rule, right);
                tree = last;
            }
        }
    }
}

// Whether the first part of an instance's left side is known to be quiet.
fn first_is_quiet(rule: Rule, known_quiet: bool) -> bool
    ensures { result ≡ row.first_is_quiet (rule_of rule) known_quiet }
{
    match rule {
        Rule::SeqPlain | Rule::WhilePlain | Rule::CatchPlain => true,
        Rule::CatchTest | Rule::CatchSkip => false,
        _ => known_quiet,
    }
}

// Whether the last part of an instance's left side is known to be quiet.
fn last_is_quiet(rule: Rule, known_quiet: bool) -> bool
    ensures { result ≡ row.last_is_quiet (rule_of rule) known_quiet }
{
    match rule {
        Rule::CatchPlain | Rule::CatchTest | Rule::CatchSkip => false,
        _ => known_quiet,
    }
}
