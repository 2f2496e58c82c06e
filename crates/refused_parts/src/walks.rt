//! Down a tree of rules and down what its step takes, together.

ghost use Rattle.std.specs.Prelude.{◌≡◌, IfOk, reverse, slice_get};
ghost use Rattle.std.specs.Option.{option_map};
ghost use Rattle.rule_trees.specs.CodeTree.{tree_of};
ghost use Rattle.refused_parts.specs.CodeWalks.{IsFound, walked};

use crate::ways::way_to;
use rule_trees::Tree;
use std::alloc::{AllocError, Global};

/// Rules of a step that takes parts of this type.
pub(crate) trait Inside<P>: Drop {
    ghost use Rattle.std.specs.Prelude.{◌≡◌, ℕ, Option};
    ghost use Rattle.std.specs.Option.{option_map};

    ghost Rule: { Type 0 };

    ghost Seen: { Type 0 };

    ghost rule: { Self → Rule };

    ghost seen: { P → Seen };

    ghost goes_on: { Rule → Seen → ℕ → Option Seen };

    /// What the tree at a position is about, below a node of this rule that is about the part. It
    /// is none where that is an expression, which stands in the part.
    fn inside<'a>(&'a self, part: &'a P, position: usize) -> Option<&'a P>
        ensures { option_map (λ inner. seen inner.now) result
            ≡ goes_on (rule self.now) (seen part.now) position };
}

/// What the node with this number is about, in a tree whose root is about the left side of its
/// step. It is none where the tree has fewer nodes.
pub(crate) fn numbered<'a, P, R: Inside<P>>(
    alloc: Global,
    tree: &'a Tree<R>,
    left: &'a P,
    node: u32,
) -> Result<Option<&'a P>, AllocError>
    ensures { IfOk result (λ found. IsFound R.goes_on (tree_of R.rule tree.now)
        (R.seen left.now) node (option_map (λ part. R.seen part.now) found)) }
{
    match way_to(alloc, tree, node)? {
        Some(way) => Ok(Some(at_way(tree, left, &way))),
        None => Ok(None),
    }
}

// What the node at the end of a way is about.
fn at_way<'a, P, R: Inside<P>>(tree: &'a Tree<R>, left: &'a P, way: &[usize]) -> &'a P
    ensures { R.seen result.now
        ≡ walked R.goes_on (tree_of R.rule tree.now) (R.seen left.now) (reverse way.now) }
{
    let mut part = left;
    let mut at = tree;
    let mut rest = way;
    'down: while let Some((position, higher)) = rest.split_last() {
        let Some(inner) = at.rule.inside(part, *position) else {
            return part;
        };
        let Some(below) = tree_at(&at.parts, *position) else {
            return part;
        };
        part = inner;
        at = below;
        rest = higher;
    }
    part
}

// The tree at a position.
fn tree_at<R: Drop>(trees: &[Tree<R>], position: usize) -> Option<&Tree<R>>
    ensures { option_map (λ tree. tree.now) result ≡ slice_get trees.now position }
{
    if position < trees.len() {
        Some(&trees[position])
    } else {
        None
    }
}
