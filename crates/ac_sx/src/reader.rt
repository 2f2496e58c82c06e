//! The reader.
ghost use Rattle.std.specs.Prelude.{◌≡◌, ℕ, ◌≤◌, IfOk, IfErr, MatchResult};
ghost use Rattle.ac_sx.specs.Tree.{Tree, IsTree, file, depth, deepest};
ghost use Rattle.ac_sx.specs.Front.{OpensTooDeep};
ghost use Rattle.ac_sx.specs.CodeSx.{tree_of};
ghost use Rattle.ac_sx.specs.Answer.{IsNoText, IsFaultOf, IsRefused};

use crate::builder::build;
use crate::fault::SxFault;
use crate::recogniser::recognise;
use crate::sx::Sx;
use std::alloc::Global;

/// The tree whose text this is, with the line's end behind it.
///
/// It takes time in proportion to the length of the text, and no stack. What is refused is refused before any memory is taken.
pub fn read(alloc: Global, text: &[u8]) -> Result<Sx, SxFault>
    // Ok is the tree of the text, and where a tree that isn't too deep has this text, it is this one, unless memory runs out.
    ensures found { IfOk result (λ tree. IsTree (tree_of tree) × (text.now ≡ file (tree_of tree))
        × (depth (tree_of tree) ≤ deepest)) }
    ensures only { (tree : Tree) → IsTree tree → depth tree ≤ deepest → text.now ≡ file tree →
        MatchResult result (λ found. tree_of found ≡ tree) (λ e. e ≡ SxFault.Memory) }

    // An error has its cause ..
    ensures fault { IfErr result (IsFaultOf text.now) }

    // .. and where there is a cause, there is its error, unless memory runs out.
    ensures no_text { (at : ℕ) → IsNoText text.now at → IsRefused result (SxFault.NotText at) }
    ensures deep { (at : ℕ) → OpensTooDeep text.now at → IsRefused result (SxFault.Deep at) }
{
    recognise(text)?;
    match build(alloc, text)? {
        Some(tree) => Ok(tree),
        None => unreachable!(),
    }
}
