//! The parts of lists.
ghost use Rattle.std.specs.Prelude.{◌≡◌, option_map};
ghost use Rattle.ac_sx.specs.CodeSx.{tree_of, trees_in};
ghost use Rattle.memory_text.specs.MemoryReading.{parts_behind, pair_in};

use ac_sx::{Sx, headed, two};

/// The parts of a list behind this word.
pub(crate) fn parts_behind<'a>(word: &str, tree: &'a Sx) -> Option<&'a [Sx]>
    ensures { option_map (λ parts. trees_in parts.now) result
        ≡ parts_behind word.now (tree_of tree.now) }
{
    let (head, parts) = headed(tree)?;
    if head == word { Some(parts) } else { None }
}

/// The two parts of a list of two.
pub(crate) fn pair(tree: &Sx) -> Option<(&Sx, &Sx)>
    ensures { option_map (λ x. (tree_of x.0.now, tree_of x.1.now)) result
        ≡ pair_in (tree_of tree.now) }
{
    two(tree.parts()?)
}
