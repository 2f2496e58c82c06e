//! Natural numbers and addresses.
ghost use Rattle.std.specs.Prelude.{◌≡◌, ◌+◌, ◌≤◌, IfOk, option_map};
ghost use Rattle.c_values.specs.Layout.{space};
ghost use Rattle.ac_sx.specs.CodeSx.{tree_of};
ghost use Rattle.expression_text.specs.CodeFault.{Gives};
ghost use Rattle.memory_text.specs.MemoryReading as reading;

use crate::parts::parts_behind;
use ac_sx::{Sx, one};
use c_values::{Layout, Target};
use expression_text::{TextFault, next, number_at};

/// The last address of the space.
pub(crate) fn last_address(layout: &Layout) -> u64
    ensures { result + 1 ≡ space layout.now }
{
    match layout.target() {
        Target::Ilp32 => u64::from(u32::MAX),
        Target::Lp64 => u64::MAX,
    }
}

/// The natural number that a tree is, if it isn't above the greatest one.
pub(crate) fn natural_at(greatest: u128, tree: &Sx, at: u32) -> Result<(u128, u32), TextFault>
    ensures gives { Gives (λ n. n) result
        (reading.natural_at (greatest + 1) at (tree_of tree.now)) }
    ensures small { IfOk result (λ x. x.0 ≤ greatest) }
{
    let (number, behind) = number_at(tree, at)?;
    if number.negative() || number.magnitude() > greatest {
        return Err(TextFault::Shape(at));
    }
    Ok((number.magnitude(), behind))
}

/// The address that a tree is, up to the last one.
pub(crate) fn address_at(last: u64, tree: &Sx, at: u32) -> Result<(u64, u32), TextFault>
    ensures { Gives (λ n. n) result (reading.natural_at (last + 1) at (tree_of tree.now)) }
{
    let (address, behind) = natural_at(u128::from(last), tree, at)?;
    Ok((address as u64, behind))
}

/// The natural number in a list of a word and it, if it isn't above the greatest one.
pub(crate) fn count_at(
    word: &str,
    greatest: u128,
    tree: &Sx,
    at: u32,
) -> Result<(u128, u32), TextFault>
    ensures gives { Gives (λ n. n) result
        (reading.count_at word.now (greatest + 1) at (tree_of tree.now)) }
    ensures small { IfOk result (λ x. x.0 ≤ greatest) }
{
    let Some(number) = only_part(word, tree) else {
        return Err(TextFault::Shape(at));
    };
    natural_at(greatest, number, next(next(at)))
}

// The only part of a list behind this word.
fn only_part<'a>(word: &str, tree: &'a Sx) -> Option<&'a Sx>
    ensures { option_map (λ part. tree_of part.now) result
        ≡ reading.one_in (reading.parts_behind word.now (tree_of tree.now)) }
{
    one(parts_behind(word, tree)?)
}
