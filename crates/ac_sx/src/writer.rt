//! The writer.
ghost use Rattle.std.specs.Prelude.{◌≡◌, ◌+◌, ◌<◌, ◌++◌, IfOk, OnOk};
ghost use Rattle.ac_sx.specs.Tree.{spelling, file, nodes};
ghost use Rattle.ac_sx.specs.CodeSx.{tree_of};
ghost use Rattle.ac_sx.specs.CodeWriter.{lists_behind, nodes_behind, left_of};

use crate::sx::Sx;
use std::alloc::{AllocError, Global};

/// The text of a tree, with the line's end behind it.
///
/// What is written is read again as this tree where its atoms can be atoms and it isn't too deep. Of a tree as deep as it may
/// be this takes no stack.
pub fn write(alloc: Global, tree: &Sx) -> Result<Vec<u8>, AllocError>
    ensures { IfOk result (λ text. text.items ≡ file (tree_of tree.now)) }
{
    let mut text = Vec::new(alloc);
    let mut lists = Vec::new(alloc);
    descend(&mut text, &mut lists, tree)?;
    'lists: while let Some(parts) = lists.pop() {
        match parts.split_first() {
            None => text.push(b')')?,
            Some((next, others)) => {
                text.push(b' ')?;
                lists.push(others)?;
                descend(&mut text, &mut lists, next)?;
            }
        }
    }
    text.push(b'\n')?;
    Ok(text)
}

/// Writes a tree as far as its first part without parts. What stands behind that in its lists is put aside, the innermost last.
fn descend<'a>(
    text: &mut Vec<u8>,
    lists: &mut Vec<&'a [Sx]>,
    tree: &'a Sx,
) -> Result<(), AllocError>
    ensures text { OnOk result (text.new.items ++ lists_behind (left_of lists.new.items)
        ≡ (text.old.items ++ spelling (tree_of tree.now))
        ++ lists_behind (left_of lists.old.items)) }
    ensures less { OnOk result (nodes_behind (left_of lists.new.items)
        < nodes_behind (left_of lists.old.items) + nodes (tree_of tree.now)) }
{
    let mut inner = tree;
    'inner: loop {
        match inner {
            Sx::Atom(word) => {
                text.extend_from_slice(word.as_bytes())?;
                return Ok(());
            }
            Sx::List(parts) => {
                text.push(b'(')?;
                let Some((first, others)) = parts.split_first() else {
                    text.push(b')')?;
                    return Ok(());
                };
                lists.push(others)?;
                inner = first;
            }
        }
    }
}
