//! Ways down trees of rules.

ghost use Rattle.std.specs.Prelude.{◌≡◌, ◌≤◌, Some, IfOk, IfSome, IfNone, reverse};
ghost use Rattle.rule_trees.specs.CodeNodes.{nodes};
ghost use Rattle.refused_parts.specs.Ways.{number_at};
ghost use Rattle.refused_parts.specs.CodeWays.{IsSought, shape_of};

use rule_trees::Tree;
use std::alloc::{AllocError, Global};

/// Where a number leads in a tree.
#[derive(Drop)]
pub(crate) enum Sought {
    /// To a node: the positions of the way to it, the last one first.
    Within(Vec<usize>),
    /// So far behind the tree's last node.
    Behind(u32),
}

/// The way to the node with this number: the positions of the parts that it goes down to, the last
/// one first. It is none where the tree has fewer nodes.
///
/// A recursion goes as deep as the tree, and each node is met once at most.
pub fn way_to<R: Drop>(
    alloc: Global,
    tree: &Tree<R>,
    node: u32,
) -> Result<Option<Vec<usize>>, AllocError>
    ensures found { IfOk result (λ found. IfSome found
        (λ way. number_at (shape_of tree.now) (reverse way.items) ≡ Some node)) }
    ensures none { IfOk result (λ found. IfNone found (nodes (shape_of tree.now) ≤ node)) }
{
    match looked_for(alloc, tree, node)? {
        Sought::Within(way) => Ok(Some(way)),
        Sought::Behind(_) => Ok(None),
    }
}

// The same, and how far the number is behind the tree.
fn looked_for<R: Drop>(alloc: Global, tree: &Tree<R>, node: u32) -> Result<Sought, AllocError>
    ensures { IfOk result (IsSought (shape_of tree.now) node) }
{
    if node == 0 {
        return Ok(Sought::Within(Vec::new(alloc)));
    }
    let mut left = node - 1;
    let mut at = 0;
    let mut rest = tree.parts.as_slice();
    'parts: while let Some((part, others)) = rest.split_first() {
        match looked_for(alloc, part, left)? {
            Sought::Within(mut way) => {
                way.push(at)?;
                return Ok(Sought::Within(way));
            }
            Sought::Behind(behind) => left = behind,
        }
        at += 1;
        rest = others;
    }
    Ok(Sought::Behind(left))
}
