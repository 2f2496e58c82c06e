//! Trees read as ranges of bytes.
ghost use Rattle.std.specs.Prelude.{◌≡◌, codes, map, option_map, IfOk};
ghost use Rattle.ac_sx.specs.CodeSx.{tree_of, trees_in};
ghost use Rattle.c_memory.specs.Ranges.{run_of};
ghost use Rattle.expression_text.specs.CodeFault.{Gives};
ghost use Rattle.memory_text.specs.MemoryReading as reading;

use crate::numbers::{address_at, last_address};
use crate::parts::{pair, parts_behind};
use ac_sx::Sx;
use c_values::Layout;
use expression_text::{TextFault, next};
use hex::FromHexError;
use std::alloc::{AllocError, Global};

/// The ranges of bytes that a tree is, in order and apart.
pub(crate) fn ranges_at(
    alloc: Global,
    layout: &Layout,
    tree: &Sx,
    at: u32,
) -> Result<(Vec<(u64, Vec<u8>)>, u32), TextFault>
    ensures { Gives (λ runs. map run_of runs.items) result
        (reading.listed_at (codes "bytes") (reading.chained_at (reading.run_at layout.now) 0) at
        (tree_of tree.now)) }
{
    match parts_behind("bytes", tree) {
        Some(parts) => runs_at(alloc, layout, parts, next(next(at))),
        None => Err(TextFault::Shape(at)),
    }
}

fn runs_at(
    alloc: Global,
    layout: &Layout,
    parts: &[Sx],
    at: u32,
) -> Result<(Vec<(u64, Vec<u8>)>, u32), TextFault>
    ensures { Gives (λ runs. map run_of runs.items) result
        (reading.chained_at (reading.run_at layout.now) 0 at (trees_in parts.now)) }
{
    let mut runs = Vec::new(alloc);
    let mut from = 0;
    let mut here = at;
    let mut rest = parts;
    'runs: while let Some((part, others)) = rest.split_first() {
        let ((run, end), behind) = run_at(alloc, layout, from, part, here)?;
        runs.push(run)?;
        from = end;
        here = behind;
        rest = others;
    }
    Ok((runs, here))
}

// The range that a tree is, from an address on, and where it ends.
fn run_at(
    alloc: Global,
    layout: &Layout,
    from: u128,
    tree: &Sx,
    at: u32,
) -> Result<(((u64, Vec<u8>), u128), u32), TextFault>
    ensures { Gives (λ x. (run_of x.0, x.1)) result
        (reading.run_at layout.now from at (tree_of tree.now)) }
{
    let Some((address, digits)) = pair(tree) else {
        return Err(TextFault::Shape(at));
    };
    let last = last_address(layout);
    let start = next(at);
    let (address, here) = address_at(last, address, start)?;
    if u128::from(address) < from {
        return Err(TextFault::Shape(start));
    }
    let room = u128::from(last - address) + 1;
    let (bytes, behind) = bytes_at(alloc, room, digits, here)?;
    let end = u128::from(address) + bytes.len() as u128;
    Ok((((address, bytes), end), behind))
}

// The bytes that a tree is, one at least and not more than there is room for.
fn bytes_at(alloc: Global, room: u128, tree: &Sx, at: u32) -> Result<(Vec<u8>, u32), TextFault>
    ensures { Gives (λ bytes. bytes.items) result (reading.bytes_at room at (tree_of tree.now)) }
{
    let Some(word) = tree.word() else {
        return Err(TextFault::Shape(at));
    };
    let Some(bytes) = bytes_in(alloc, word)? else {
        return Err(TextFault::Shape(at));
    };
    if !bytes.is_empty() && bytes.len() as u128 <= room {
        Ok((bytes, next(at)))
    } else {
        Err(TextFault::Shape(at))
    }
}

// The bytes that a word spells, by two digits in lower case each.
fn bytes_in(alloc: Global, word: &str) -> Result<Option<Vec<u8>>, AllocError>
    ensures { IfOk result (λ bytes.
        option_map (λ b. b.items) bytes ≡ reading.bytes_in word.now) }
{
    match hex::decode(alloc, word) {
        Ok(bytes) => {
            // Digits in upper case are read too.
            let spelled = hex::encode(alloc, bytes.as_slice())?;
            if spelled.as_str() == word {
                Ok(Some(bytes))
            } else {
                Ok(None)
            }
        }
        Err(FromHexError::OutOfMemory) => Err(AllocError),
        Err(_) => Ok(None),
    }
}
