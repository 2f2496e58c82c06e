//! Texts of kinds and of programs.
ghost use Rattle.std.specs.Prelude.{◌≡◌, ℕ, Err, IfOk, IfErr};
ghost use Rattle.ac_sx.specs.CodeSx.{tree_of};
ghost use Rattle.expression_lang.specs.Sort as sorts;
ghost use Rattle.expression_lang.specs.CodeExpression.{kind_of};
ghost use Rattle.expression_text.specs.CodeFault.{Fails};
ghost use Rattle.expression_text.specs.Answer.{IsRead, IsRefused};
ghost use Rattle.monad_lang.specs.Program as plain;
ghost use Rattle.monad_lang.specs.CodeProgram.{mon_of};
ghost use Rattle.program_text.specs.Kinds as kinds;
ghost use Rattle.program_text.specs.MonText as text;
ghost use Rattle.program_text.specs.MonReading as reading;
ghost use Rattle.program_text.specs.Answer.{IsKindText, IsMonText};

use crate::kinds::{kind_at, kind_into};
use crate::mon_reading::mon_at;
use crate::mon_writing::mon_into;
use ac_sx::{Sx, SxBuilder};
use expression_lang::Kind;
use expression_text::TextFault;
use monad_lang::Mon;
use std::alloc::{AllocError, Global};

/// The kind whose text a tree is.
pub fn read_kind(tree: &Sx) -> Result<Kind, TextFault>
    // Ok is the kind whose text the tree is, and where the tree is the text of one, it is this one, unless memory runs out.
    ensures found { IfOk result (λ k. IsKindText (tree_of tree.now) (kind_of k)) }
    ensures only { (k : sorts.Kind) → IsKindText (tree_of tree.now) k → IsRead kind_of result k }

    // An error tells the first bad node, and where there is one, it is told, unless memory runs out.
    ensures fault { IfErr result (λ fault. Fails fault (kinds.kind_at 0 (tree_of tree.now))) }
    ensures shape { (at : ℕ) → kinds.kind_at 0 (tree_of tree.now) ≡ Err at →
        IsRefused result at }
{
    match kind_at(tree, 0) {
        Ok((kind, _behind)) => Ok(kind),
        Err(fault) => Err(fault),
    }
}

/// The tree of a kind, which is its text where the kind is of a width.
pub fn write_kind(alloc: Global, kind: Kind) -> Result<Sx, AllocError>
    ensures { IfOk result (λ tree. tree_of tree ≡ kinds.kind_tree (kind_of kind)) }
{
    let mut tree = SxBuilder::new(alloc);
    kind_into(&mut tree, kind)?;
    Ok(tree.finish())
}

/// The program whose text a tree is.
///
/// This takes stack for each level of lists in the tree, and none for the programs of a sequence.
pub fn read_mon(alloc: Global, tree: &Sx) -> Result<Mon, TextFault>
    // Ok is the program whose text the tree is, and where the tree is the text of one, it is this one, unless memory runs out.
    ensures found { IfOk result (λ m. IsMonText (tree_of tree.now) (mon_of m)) }
    ensures only { (m : plain.Mon) → IsMonText (tree_of tree.now) m → IsRead mon_of result m }

    // An error tells the first bad node, and where there is one, it is told, unless memory runs out.
    ensures fault { IfErr result (λ fault. Fails fault (reading.mon_at 0 (tree_of tree.now))) }
    ensures shape { (at : ℕ) → reading.mon_at 0 (tree_of tree.now) ≡ Err at →
        IsRefused result at }
{
    match mon_at(alloc, tree, 0) {
        Ok((m, _behind)) => Ok(Box::into_inner(m)),
        Err(fault) => Err(fault),
    }
}

/// The tree of a program, which is its text where it has one.
pub fn write_mon(alloc: Global, m: &Mon) -> Result<Sx, AllocError>
    ensures { IfOk result (λ tree. tree_of tree ≡ text.mon_tree (mon_of m.now)) }
{
    let mut tree = SxBuilder::new(alloc);
    mon_into(alloc, &mut tree, m)?;
    Ok(tree.finish())
}
