//! The positions of triples.
ghost use Rattle.std.specs.Prelude.{◌≡◌, ◌^◌, OnOk};
ghost use Rattle.std.specs.Fmt.{decimal};
ghost use Rattle.ac_sx.specs.CodeSx.{tree_of};
ghost use Rattle.expression_text.specs.CodeFault.{Gives};
ghost use Rattle.expression_text.specs.Numbers.{natural_at};

use ac_sx::{Sx, TreeWriter};
use expression_text::{TextFault, number_at};
use itoa::Buffer;
use std::alloc::AllocError;

/// The number of 128 bits that a tree is.
pub(crate) fn position_at(tree: &Sx, at: u32) -> Result<(u128, u32), TextFault>
    ensures { Gives (λ n. n) result (natural_at (2 ^ 128) at (tree_of tree.now)) }
{
    let (number, behind) = number_at(tree, at)?;
    if number.negative() {
        return Err(TextFault::Shape(at));
    }
    Ok((number.magnitude(), behind))
}

/// The atom of a position.
pub(crate) fn position_into<W: TreeWriter>(out: &mut W, position: u128) -> Result<(), AllocError>
    ensures { OnOk result (W.state out.new ≡ W.writing.put (W.state out.old) (decimal position)) }
{
    out.atom(Buffer::new().format(position))
}
