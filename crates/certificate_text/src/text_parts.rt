//! Parts of a text that spell trees.
ghost use Rattle.std.specs.Prelude.{◌≡◌, ◌+◌, ◌++◌, ◌<◌, ◌≤◌, ◌^◌, ℕ, [], ◌∷◌, true, false, length, IfOk, IsTrue};
ghost use Rattle.ac_sx.specs.Tree.{Tree, Atom, IsTree, is_atom, spelling, line_end, depth, deepest};
ghost use Rattle.ac_sx.specs.Table.{Keeps};
ghost use Rattle.ac_sx.specs.CodeSx.{tree_of};
ghost use Rattle.certificate_text.specs.TextParts.{IsAt};

use ac_sx::{Sx, SxFault, SxPart, Terms, read};
use std::alloc::{AllocError, Global};

/// The tree that bytes spell, by way of this table.
pub(crate) fn spelt_tree(alloc: Global, bytes: &[u8], terms: &mut Terms) -> Result<Sx, AllocError>
    requires spelt { (tree : Tree) × IsTree tree × (depth tree ≤ deepest) ×
        (bytes.now ≡ spelling tree) }
    requires room { length terms.old + length bytes.now < 2 ^ 32 }
    ensures tree { (tree : Tree) → IsTree tree → depth tree ≤ deepest → bytes.now ≡ spelling tree →
        IfOk result (λ found. tree_of found ≡ tree) }
    ensures kept { Keeps terms.old terms.new }
    ensures len { length terms.new ≤ length terms.old + length bytes.now }
{
    match terms.read(bytes) {
        Ok(id) => terms.tree(alloc, id),
        Err(SxFault::Memory) => Err(AllocError),
        Err(_) => unreachable!(),
    }
}

/// The tree that a part of a text spells. Nothing of it is shared, so it is read without a table.
pub(crate) fn tree_at(alloc: Global, text: &[u8], part: SxPart) -> Result<Sx, AllocError>
    requires spelt { (at : ℕ) × (tree : Tree) × IsAt text.now at part tree }
    ensures { (at : ℕ) (tree : Tree) → IsAt text.now at part tree →
        IfOk result (λ found. tree_of found ≡ tree) }
{
    let file = as_file(alloc, &text[part.start as usize..part.end as usize])?;
    match read(alloc, &file) {
        Ok(tree) => Ok(tree),
        Err(SxFault::Memory) => Err(AllocError),
        Err(_) => unreachable!(),
    }
}

// The bytes with a line's end behind them.
fn as_file(alloc: Global, bytes: &[u8]) -> Result<Vec<u8>, AllocError>
    ensures { IfOk result (λ file. file.items ≡ bytes.now ++ line_end ∷ []) }
{
    let mut file = Vec::from_slice(alloc, bytes)?;
    file.push(b'\n')?;
    Ok(file)
}

/// Whether a part of a text that spells a tree is this word.
pub(crate) fn is_word(text: &[u8], part: SxPart, word: &str) -> bool
    requires spelt { (at : ℕ) × (tree : Tree) × IsAt text.now at part tree }
    requires word { IsTrue (is_atom word.now) }
    ensures yes { (at : ℕ) (tree : Tree) → IsAt text.now at part tree → result ≡ true →
        tree ≡ Atom word.now }
    ensures no { (at : ℕ) (tree : Tree) → IsAt text.now at part tree → result ≡ false →
        tree ≡ Atom word.now → ⊥ }
{
    &text[part.start as usize..part.end as usize] == word.as_bytes()
}
