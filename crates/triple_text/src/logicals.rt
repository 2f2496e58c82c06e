//! Logical variables as trees, both ways.
ghost use Rattle.std.specs.Prelude.{◌≡◌, OnOk, map};
ghost use Rattle.ac_sx.specs.Tree.{Node};
ghost use Rattle.ac_sx.specs.CodeSx.{tree_of, trees_in, one_of, two_of};
ghost use Rattle.ac_sx.specs.Writing.{written};
ghost use Rattle.expression_lang.specs.Sort.{WordSort};
ghost use Rattle.expression_lang.specs.CodeSort.{scalar_of};
ghost use Rattle.expression_text.specs.CodeFault.{Gives};
ghost use Rattle.expression_text.specs.Lists.{list_at, trees_for};
ghost use Rattle.triple_lang.specs.CodeDeriv.{logical_of};
ghost use Rattle.triple_text.specs.TripleText.{scalar_tree, logical_tree};
ghost use Rattle.triple_text.specs.TripleReading as reading;

use ac_sx::{Sx, TreeWriter, headed, one, two};
use expression_lang::Scalar;
use expression_text::{TextFault, begin_list, name_at, natural_into, next, width_at};
use std::alloc::{AllocError, Global};
use triple_lang::Logical;

/// The logical variables that a list is.
pub(crate) fn logicals_at(
    alloc: Global,
    tree: &Sx,
    at: u32,
) -> Result<(Vec<Logical>, u32), TextFault>
    ensures { Gives (λ logicals. map logical_of logicals.items) result
        (reading.logicals_at at (tree_of tree.now)) }
{
    match tree.parts() {
        Some(parts) => each_logical_at(alloc, parts, next(at)),
        None => Err(TextFault::Shape(at)),
    }
}

fn each_logical_at(alloc: Global, parts: &[Sx], at: u32) -> Result<(Vec<Logical>, u32), TextFault>
    ensures { Gives (λ logicals. map logical_of logicals.items) result
        (list_at reading.logical_at at (trees_in parts.now)) }
{
    let mut logicals = Vec::new(alloc);
    let mut here = at;
    'parts: for part in parts {
        let (logical, behind) = logical_at(alloc, part, here)?;
        logicals.push(logical)?;
        here = behind;
    }
    Ok((logicals, here))
}

// The name and the sort that a list is.
fn logical_at(alloc: Global, tree: &Sx, at: u32) -> Result<(Logical, u32), TextFault>
    ensures { Gives logical_of result (reading.logical_at at (tree_of tree.now)) }
{
    match tree.parts() {
        Some(parts) => logical_row(alloc, parts, at),
        None => Err(TextFault::Shape(at)),
    }
}

fn logical_row(alloc: Global, parts: &[Sx], at: u32) -> Result<(Logical, u32), TextFault>
    ensures { Gives logical_of result (reading.logical_row at (two_of (trees_in parts.now))) }
{
    let Some((name, scalar)) = two(parts) else {
        return Err(TextFault::Shape(at));
    };
    let (name, at) = name_at(alloc, name, next(at))?;
    let (scalar, at) = scalar_at(scalar, at)?;
    Ok((Logical { name, scalar }, at))
}

// The sort that a tree is.
fn scalar_at(tree: &Sx, at: u32) -> Result<(Scalar, u32), TextFault>
    ensures { Gives scalar_of result (reading.scalar_at at (tree_of tree.now)) }
{
    if let Some(word) = tree.word() {
        return scalar_leaf_at(word, at);
    }
    let Some((head, parts)) = headed(tree) else {
        return Err(TextFault::Shape(at));
    };
    if head == "w" {
        width_row(at, next(next(at)), parts)
    } else {
        Err(TextFault::Shape(at))
    }
}

fn scalar_leaf_at(word: &str, at: u32) -> Result<(Scalar, u32), TextFault>
    ensures { Gives scalar_of result (reading.scalar_leaf_at at word.now) }
{
    if word == "num" {
        Ok((Scalar::Num, next(at)))
    } else if word == "bool" {
        Ok((Scalar::Truth, next(at)))
    } else {
        Err(TextFault::Shape(at))
    }
}

fn width_row(at: u32, inner: u32, parts: &[Sx]) -> Result<(Scalar, u32), TextFault>
    ensures { Gives scalar_of result (reading.width_row at inner (one_of (trees_in parts.now))) }
{
    let Some(width) = one(parts) else {
        return Err(TextFault::Shape(at));
    };
    let (width, at) = width_at(width, inner)?;
    Ok((Scalar::Word(width), at))
}

/// Writes the list of logical variables.
pub(crate) fn logicals_into<W: TreeWriter>(
    out: &mut W,
    logicals: &[Logical],
) -> Result<(), AllocError>
    ensures { OnOk result (W.state out.new ≡ written W.writing (W.state out.old)
        (Node (trees_for logical_tree (map logical_of logicals.now)))) }
{
    out.enter()?;
    let mut rest = logicals;
    'logicals: while let Some((logical, others)) = rest.split_first() {
        logical_into(out, logical)?;
        rest = others;
    }
    out.leave()
}

fn logical_into<W: TreeWriter>(out: &mut W, logical: &Logical) -> Result<(), AllocError>
    ensures { OnOk result (W.state out.new
        ≡ written W.writing (W.state out.old) (logical_tree (logical_of logical.now))) }
{
    out.enter()?;
    out.atom(logical.name.as_str())?;
    scalar_into(out, logical.scalar)?;
    out.leave()
}

fn scalar_into<W: TreeWriter>(out: &mut W, scalar: Scalar) -> Result<(), AllocError>
    ensures { OnOk result (W.state out.new
        ≡ written W.writing (W.state out.old) (scalar_tree (scalar_of scalar))) }
{
    match scalar {
        Scalar::Word(width) => word_into(out, width),
        Scalar::Num => out.atom("num"),
        Scalar::Truth => out.atom("bool"),
    }
}

fn word_into<W: TreeWriter>(out: &mut W, width: u8) -> Result<(), AllocError>
    ensures { OnOk result (W.state out.new
        ≡ written W.writing (W.state out.old) (scalar_tree (WordSort width))) }
{
    begin_list(out, "w")?;
    natural_into(out, u64::from(width))?;
    out.leave()
}
