//! Trees of rules that are made of parts.

ghost use Rattle.std.specs.Prelude.{◌≡◌, IfOk};
ghost use Rattle.rule_trees.specs.RuleTree as trees;
ghost use Rattle.rule_trees.specs.RuleTree.{Trees, node, no_trees};
ghost use Rattle.rule_word.specs.Rule.{Rule as Named};
ghost use Rattle.rule_word.specs.CodeRule.{rule_of, tree_of};
ghost use Rattle.word_abstract.specs.CodeTrees.{with_trees};

use rule_trees::Tree;
use rule_word::Rule;
use std::alloc::{AllocError, Global};

/// A node over these parts.
pub(crate) fn over(rule: Rule, parts: Vec<Tree<Rule>>) -> Tree<Rule>
    ensures { tree_of result ≡ node (rule_of rule) (with_trees parts.items no_trees) }
{
    Tree { rule, parts }
}

/// A tree alone.
pub(crate) fn alone(alloc: Global, part: Tree<Rule>) -> Result<Vec<Tree<Rule>>, AllocError>
    ensures { IfOk result (λ parts. (more : Trees Named) →
        with_trees parts.items more ≡ trees.tree (tree_of part) more) }
{
    let mut parts = Vec::new(alloc);
    parts.push(part)?;
    Ok(parts)
}

/// Trees, and then one more.
#[tactic(auto, using(crate::proofs::TreeLists::with_trees_push))]
pub(crate) fn and_then(
    before: Vec<Tree<Rule>>,
    part: Tree<Rule>,
) -> Result<Vec<Tree<Rule>>, AllocError>
    ensures { IfOk result (λ parts. (more : Trees Named) →
        with_trees parts.items more
        ≡ with_trees before.items (trees.tree (tree_of part) more)) }
{
    let mut parts = before;
    parts.push(part)?;
    Ok(parts)
}

/// Trees, and then others.
#[tactic(auto, using(crate::proofs::TreeLists::with_trees_push))]
pub(crate) fn joined(
    before: Vec<Tree<Rule>>,
    after: Vec<Tree<Rule>>,
) -> Result<Vec<Tree<Rule>>, AllocError>
    ensures { IfOk result (λ parts. (more : Trees Named) →
        with_trees parts.items more
        ≡ with_trees before.items (with_trees after.items more)) }
{
    let mut parts = before;
    'along: for part in after {
        parts.push(part)?;
    }
    Ok(parts)
}
