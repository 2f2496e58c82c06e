//! Lists of five parts, of six and of seven.
ghost use Rattle.std.specs.Prelude.{◌≡◌, ◌+◌, ◌≤◌, IfSome, option_map};
ghost use Rattle.ac_sx.specs.Tree.{nodes, all_nodes};
ghost use Rattle.ac_sx.specs.CodeSx.{tree_of, trees_in};
ghost use Rattle.triple_text.specs.Parts.{five_of, six_of, seven_of};

use ac_sx::{Sx, first};
use program_text::four;

/// The five of five.
pub(crate) fn five(parts: &[Sx]) -> Option<(&Sx, &Sx, &Sx, &Sx, &Sx)>
    ensures parts { option_map (λ x. (
      tree_of x.0.now,
      tree_of x.1.now,
      tree_of x.2.now,
      tree_of x.3.now,
      tree_of x.4.now,
    )) result
        ≡ five_of (trees_in parts.now) }
    ensures smaller { IfSome result (λ x. nodes (tree_of x.0.now) + nodes (tree_of x.1.now)
        + nodes (tree_of x.2.now) + nodes (tree_of x.3.now) + nodes (tree_of x.4.now)
        ≤ all_nodes (trees_in parts.now)) }
{
    let (part, others) = first(parts)?;
    let (second, third, fourth, fifth) = four(others)?;
    Some((part, second, third, fourth, fifth))
}

/// The six of six.
pub(crate) fn six(parts: &[Sx]) -> Option<(&Sx, &Sx, &Sx, &Sx, &Sx, &Sx)>
    ensures parts { option_map (λ x. (
      tree_of x.0.now,
      tree_of x.1.now,
      tree_of x.2.now,
      tree_of x.3.now,
      tree_of x.4.now,
      tree_of x.5.now,
    )) result
        ≡ six_of (trees_in parts.now) }
    ensures smaller { IfSome result (λ x. nodes (tree_of x.0.now) + nodes (tree_of x.1.now)
        + nodes (tree_of x.2.now) + nodes (tree_of x.3.now) + nodes (tree_of x.4.now)
        + nodes (tree_of x.5.now) ≤ all_nodes (trees_in parts.now)) }
{
    let (part, others) = first(parts)?;
    let (second, third, fourth, fifth, sixth) = five(others)?;
    Some((part, second, third, fourth, fifth, sixth))
}

/// The seven of seven.
pub(crate) fn seven(parts: &[Sx]) -> Option<(&Sx, &Sx, &Sx, &Sx, &Sx, &Sx, &Sx)>
    ensures parts { option_map (λ x. (
      tree_of x.0.now,
      tree_of x.1.now,
      tree_of x.2.now,
      tree_of x.3.now,
      tree_of x.4.now,
      tree_of x.5.now,
      tree_of x.6.now,
    )) result
        ≡ seven_of (trees_in parts.now) }
    ensures smaller { IfSome result (λ x. nodes (tree_of x.0.now) + nodes (tree_of x.1.now)
        + nodes (tree_of x.2.now) + nodes (tree_of x.3.now) + nodes (tree_of x.4.now)
        + nodes (tree_of x.5.now) + nodes (tree_of x.6.now)
        ≤ all_nodes (trees_in parts.now)) }
{
    let (part, others) = first(parts)?;
    let (second, third, fourth, fifth, sixth, seventh) = six(others)?;
    Some((part, second, third, fourth, fifth, sixth, seventh))
}
