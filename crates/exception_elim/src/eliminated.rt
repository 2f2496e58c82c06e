//! What a command is taken to.

ghost use Rattle.std.specs.Prelude.{◌≡◌, IfOk};
ghost use Rattle.rule_trees.specs.RuleTree as trees;
ghost use Rattle.rule_trees.specs.RuleTree.{node, no_trees};
ghost use Rattle.rule_exn.specs.CodeRule.{rule_of, tree_of};

use rule_exn::Rule;
use rule_trees::Tree;
use simpl_lang::Simpl;
use std::alloc::{AllocError, Global};

/// A command in which nothing is thrown, the tree of rules that takes another command to it, and
/// whether that one is quiet.
#[derive(Drop)]
pub(crate) struct Eliminated {
    pub(crate) right: Box<Simpl>,
    pub(crate) tree: Tree<Rule>,
    pub(crate) is_quiet: bool,
}

/// A node without parts.
pub(crate) fn leaf(alloc: Global, rule: Rule) -> Tree<Rule>
    ensures { tree_of result ≡ node (rule_of rule) no_trees }
{
    Tree {
        rule,
        parts: Vec::new(alloc),
    }
}

/// A node over one part.
pub(crate) fn over_one(
    alloc: Global,
    rule: Rule,
    part: Tree<Rule>,
) -> Result<Tree<Rule>, AllocError>
    ensures { IfOk result (λ t.
        tree_of t ≡ node (rule_of rule) (trees.tree (tree_of part) no_trees)) }
{
    let mut parts = Vec::new(alloc);
    parts.push(part)?;
    Ok(Tree { rule, parts })
}

/// A node over two parts.
pub(crate) fn over_two(
    alloc: Global,
    rule: Rule,
    first: Tree<Rule>,
    last: Tree<Rule>,
) -> Result<Tree<Rule>, AllocError>
    ensures { IfOk result (λ t. tree_of t
        ≡ node (rule_of rule) (trees.tree (tree_of first) (trees.tree (tree_of last) no_trees))) }
{
    let mut parts = Vec::new(alloc);
    parts.push(first)?;
    parts.push(last)?;
    Ok(Tree { rule, parts })
}
