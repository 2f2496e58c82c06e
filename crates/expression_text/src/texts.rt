//! Texts of expressions.
ghost use Rattle.std.specs.Prelude.{◌≡◌, ℕ, Err, IfOk, IfErr};
ghost use Rattle.ac_sx.specs.CodeSx.{tree_of};
ghost use Rattle.expression_lang.specs.Expression as plain;
ghost use Rattle.expression_lang.specs.CodeExpression.{exp_of};
ghost use Rattle.expression_text.specs.ExpText as text;
ghost use Rattle.expression_text.specs.ExpReading as reading;
ghost use Rattle.expression_text.specs.CodeFault.{Fails};
ghost use Rattle.expression_text.specs.Answer.{IsExpText, IsRead, IsRefused};

use crate::exp_reading::exp_at;
use crate::exp_writing::exp_into;
use crate::fault::TextFault;
use ac_sx::{Sx, SxBuilder};
use expression_lang::Exp;
use std::alloc::{AllocError, Global};

/// The expression whose text a tree is.
///
/// This takes stack for each level of lists in the tree.
pub fn read_exp(alloc: Global, tree: &Sx) -> Result<Exp, TextFault>
    // Ok is the expression whose text the tree is, and where the tree is the text of one, it is this one, unless memory runs out.
    ensures found { IfOk result (λ e. IsExpText (tree_of tree.now) (exp_of e)) }
    ensures only { (e : plain.Exp) → IsExpText (tree_of tree.now) e → IsRead exp_of result e }

    // An error tells the first bad node, and where there is one, it is told, unless memory runs out.
    ensures fault { IfErr result (λ fault. Fails fault (reading.exp_at 0 (tree_of tree.now))) }
    ensures shape { (at : ℕ) → reading.exp_at 0 (tree_of tree.now) ≡ Err at →
        IsRefused result at }
{
    match exp_at(alloc, tree, 0) {
        Ok((exp, _behind)) => Ok(exp),
        Err(fault) => Err(fault),
    }
}

/// The tree of an expression, which is its text where it has one.
pub fn write_exp(alloc: Global, e: &Exp) -> Result<Sx, AllocError>
    ensures { IfOk result (λ tree. tree_of tree ≡ text.exp_tree (exp_of e.now)) }
{
    let mut tree = SxBuilder::new(alloc);
    exp_into(alloc, &mut tree, e)?;
    Ok(tree.finish())
}
