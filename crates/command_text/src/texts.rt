//! Texts of commands.
ghost use Rattle.std.specs.Prelude.{◌≡◌, ℕ, Err, IfOk, IfErr};
ghost use Rattle.ac_sx.specs.CodeSx.{tree_of};
ghost use Rattle.expression_text.specs.CodeFault.{Fails};
ghost use Rattle.expression_text.specs.Answer.{IsRead, IsRefused};
ghost use Rattle.simpl_lang.specs.Command as plain;
ghost use Rattle.simpl_lang.specs.CodeCommand.{simpl_of};
ghost use Rattle.command_text.specs.CommandText as text;
ghost use Rattle.command_text.specs.CommandReading as reading;
ghost use Rattle.command_text.specs.Answer.{IsCommandText};

use crate::command_reading::command_at;
use crate::command_writing::command_into;
use ac_sx::{Sx, SxBuilder};
use expression_text::TextFault;
use simpl_lang::Simpl;
use std::alloc::{AllocError, Global};

/// The command whose text a tree is.
///
/// This takes stack for each level of lists in the tree, and none for the commands of a sequence.
pub fn read_simpl(alloc: Global, tree: &Sx) -> Result<Simpl, TextFault>
    // Ok is the command whose text the tree is, and where the tree is the text of one, it is this one, unless memory runs out.
    ensures found { IfOk result (λ c. IsCommandText (tree_of tree.now) (simpl_of c)) }
    ensures only { (c : plain.Simpl) → IsCommandText (tree_of tree.now) c →
        IsRead simpl_of result c }

    // An error tells the first bad node, and where there is one, it is told, unless memory runs out.
    ensures fault { IfErr result
        (λ fault. Fails fault (reading.command_at 0 (tree_of tree.now))) }
    ensures shape { (at : ℕ) → reading.command_at 0 (tree_of tree.now) ≡ Err at →
        IsRefused result at }
{
    match command_at(alloc, tree, 0) {
        Ok((c, _behind)) => Ok(Box::into_inner(c)),
        Err(fault) => Err(fault),
    }
}

/// The tree of a command, which is its text where it has one.
pub fn write_simpl(alloc: Global, c: &Simpl) -> Result<Sx, AllocError>
    ensures { IfOk result (λ tree. tree_of tree ≡ text.command_tree (simpl_of c.now)) }
{
    let mut tree = SxBuilder::new(alloc);
    command_into(alloc, &mut tree, c)?;
    Ok(tree.finish())
}
