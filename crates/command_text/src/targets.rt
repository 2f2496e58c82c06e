//! Where results go, as trees, both ways.
ghost use Rattle.std.specs.Prelude.{◌≡◌, OnOk, option_map, string_bytes};
ghost use Rattle.ac_sx.specs.CodeSx.{tree_of};
ghost use Rattle.ac_sx.specs.Writing.{written};
ghost use Rattle.expression_text.specs.CodeFault.{Gives};
ghost use Rattle.command_text.specs.CommandText.{target_tree};
ghost use Rattle.command_text.specs.CommandReading.{target_at};

use ac_sx::{Sx, TreeWriter};
use expression_text::{TextFault, is_name, next};
use std::alloc::{AllocError, Global};

/// The local that a tree names, or none.
pub(crate) fn target_at(
    alloc: Global,
    tree: &Sx,
    at: u32,
) -> Result<(Option<String>, u32), TextFault>
    ensures { Gives (option_map string_bytes) result (target_at at (tree_of tree.now)) }
{
    let Some(word) = tree.word() else {
        return Err(TextFault::Shape(at));
    };
    if word == "-" {
        return Ok((None, next(at)));
    }
    if !is_name(word) {
        return Err(TextFault::Shape(at));
    }
    let name = String::from_str(alloc, word)?;
    Ok((Some(name), next(at)))
}

/// Writes where a result goes.
pub(crate) fn target_into<W: TreeWriter>(
    out: &mut W,
    target: &Option<String>,
) -> Result<(), AllocError>
    ensures { OnOk result (W.state out.new ≡ written W.writing (W.state out.old)
        (target_tree (option_map string_bytes target.now))) }
{
    match target {
        Some(name) => out.atom(name.as_str()),
        None => out.atom("-"),
    }
}
