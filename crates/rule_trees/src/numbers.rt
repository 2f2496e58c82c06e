//! The numbers of a tree's nodes.

ghost use Rattle.std.specs.Prelude.{◌≡◌};
ghost use Rattle.rule_trees.specs.RuleTree as trees;

/// The number of a node that is no instance of its rule, in preorder from 0. Past the last number
/// of 32 bits every node has that number.
#[derive(Clone, Copy, Debug, PartialEq, Eq)]
pub struct At(pub u32);

/// The number of the next node.
pub fn next(at: u32) -> u32
    ensures { result ≡ trees.next at }
{
    at.saturating_add(1)
}
