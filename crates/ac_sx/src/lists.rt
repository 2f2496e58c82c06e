//! The parts of a list, where there are so many.
ghost use Rattle.std.specs.Prelude.{◌≡◌, ◌+◌, ◌≤◌, IfSome, option_map};
ghost use Rattle.ac_sx.specs.Tree.{nodes, all_nodes};
ghost use Rattle.ac_sx.specs.CodeSx.{tree_of, trees_in, headed_in, one_of, two_of, three_of, first_of};

use crate::sx::Sx;

/// The word that a list begins with, and its other parts.
pub fn headed(tree: &Sx) -> Option<(&str, &[Sx])>
    ensures parts { option_map (λ x. (x.0.now, trees_in x.1.now)) result
        ≡ headed_in (tree_of tree.now) }
    ensures smaller { IfSome result
        (λ x. all_nodes (trees_in x.1.now) + 2 ≤ nodes (tree_of tree.now)) }
{
    let (head, parts) = first(tree.parts()?)?;
    Some((head.word()?, parts))
}

/// The first, and the others.
pub fn first(parts: &[Sx]) -> Option<(&Sx, &[Sx])>
    ensures parts { option_map (λ x. (tree_of x.0.now, trees_in x.1.now)) result
        ≡ first_of (trees_in parts.now) }
    ensures smaller { IfSome result (λ x. nodes (tree_of x.0.now) + all_nodes (trees_in x.1.now)
        ≤ all_nodes (trees_in parts.now)) }
{
    parts.split_first()
}

/// The only one.
pub fn one(parts: &[Sx]) -> Option<&Sx>
    ensures parts { option_map (λ x. tree_of x.now) result ≡ one_of (trees_in parts.now) }
    ensures smaller { IfSome result (λ x. nodes (tree_of x.now) ≤ all_nodes (trees_in parts.now)) }
{
    let (part, others) = first(parts)?;
    if others.is_empty() { Some(part) } else { None }
}

/// The two of two.
pub fn two(parts: &[Sx]) -> Option<(&Sx, &Sx)>
    ensures parts { option_map (λ x. (tree_of x.0.now, tree_of x.1.now)) result
        ≡ two_of (trees_in parts.now) }
    ensures smaller { IfSome result (λ x. nodes (tree_of x.0.now) + nodes (tree_of x.1.now)
        ≤ all_nodes (trees_in parts.now)) }
{
    let (part, others) = first(parts)?;
    Some((part, one(others)?))
}

/// The three of three.
pub fn three(parts: &[Sx]) -> Option<(&Sx, &Sx, &Sx)>
    ensures parts { option_map (λ x. (tree_of x.0.now, tree_of x.1.now, tree_of x.2.now)) result
        ≡ three_of (trees_in parts.now) }
    ensures smaller { IfSome result (λ x. nodes (tree_of x.0.now) + nodes (tree_of x.1.now)
        + nodes (tree_of x.2.now) ≤ all_nodes (trees_in parts.now)) }
{
    let (part, others) = first(parts)?;
    let (second, third) = two(others)?;
    Some((part, second, third))
}
