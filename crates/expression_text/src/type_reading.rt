//! Trees read as types.
ghost use Rattle.c_values.specs.CodeTypes.{type_of};
ghost use Rattle.ac_sx.specs.CodeSx.{tree_of, trees_in, one_of, two_of};
ghost use Rattle.expression_text.specs.TypeReading.{type_at, plain_type_at, built_by, ptr_type_at, struct_type_at, array_type_at};
ghost use Rattle.expression_text.specs.Words.{looked_up, int_type_word, int_types};
ghost use Rattle.expression_text.specs.CodeFault.{Gives};
ghost use Rattle.expression_text.specs.CodeWords.{type_head_of};
ghost use Rattle.std.specs.Prelude.{Some};

use crate::fault::TextFault;
use crate::names::name_at;
use crate::numbering::next;
use crate::numbers::count_at;
use crate::words::{TypeHead, int_type, type_head};
use ac_sx::{Sx, headed, one, two};
use c_values::CType;
use std::alloc::Global;

/// The type that a tree is.
#[cycle(types)]
pub fn type_at(alloc: Global, tree: &Sx, at: u32) -> Result<(CType, u32), TextFault>
    ensures { Gives type_of result (type_at at (tree_of tree.now)) }
{
    if let Some(word) = tree.word() {
        return plain_type_at(word, at);
    }
    let Some((head, parts)) = headed(tree) else {
        return Err(TextFault::Shape(at));
    };
    let inner = next(next(at));
    match type_head(head) {
        Some(head) => built_type_at(alloc, at, inner, head, parts),
        None => Err(TextFault::Shape(at)),
    }
}

fn plain_type_at(word: &str, at: u32) -> Result<(CType, u32), TextFault>
    ensures { Gives type_of result
        (plain_type_at at word.now (looked_up int_type_word int_types word.now)) }
{
    if let Some(integer) = int_type(word) {
        return Ok((CType::Int(integer), next(at)));
    }
    if word == "void" {
        Ok((CType::Void, next(at)))
    } else {
        Err(TextFault::Shape(at))
    }
}

#[cycle(types)]
fn built_type_at(
    alloc: Global,
    at: u32,
    inner: u32,
    head: TypeHead,
    parts: &[Sx],
) -> Result<(CType, u32), TextFault>
    ensures { Gives type_of result
        (built_by at inner (Some (type_head_of head)) (trees_in parts.now)) }
{
    match head {
        TypeHead::Ptr => ptr_type_at(alloc, at, inner, parts),
        TypeHead::Struct => struct_type_at(alloc, at, inner, parts),
        TypeHead::Array => array_type_at(alloc, at, inner, parts),
    }
}

#[cycle(types)]
fn ptr_type_at(alloc: Global, at: u32, inner: u32, parts: &[Sx]) -> Result<(CType, u32), TextFault>
    ensures { Gives type_of result (ptr_type_at at inner (one_of (trees_in parts.now))) }
{
    let Some(target) = one(parts) else {
        return Err(TextFault::Shape(at));
    };
    let (target, at) = boxed_type_at(alloc, target, inner)?;
    Ok((CType::Ptr(target), at))
}

fn struct_type_at(
    alloc: Global,
    at: u32,
    inner: u32,
    parts: &[Sx],
) -> Result<(CType, u32), TextFault>
    ensures { Gives type_of result (struct_type_at at inner (one_of (trees_in parts.now))) }
{
    let Some(name) = one(parts) else {
        return Err(TextFault::Shape(at));
    };
    let (name, at) = name_at(alloc, name, inner)?;
    Ok((CType::Struct(name), at))
}

#[cycle(types)]
fn array_type_at(
    alloc: Global,
    at: u32,
    inner: u32,
    parts: &[Sx],
) -> Result<(CType, u32), TextFault>
    ensures { Gives type_of result (array_type_at at inner (two_of (trees_in parts.now))) }
{
    let Some((element, length)) = two(parts) else {
        return Err(TextFault::Shape(at));
    };
    let (element, at) = boxed_type_at(alloc, element, inner)?;
    let (length, at) = count_at(length, at)?;
    Ok((CType::Array(element, length), at))
}

#[cycle(types)]
fn boxed_type_at(alloc: Global, tree: &Sx, at: u32) -> Result<(Box<CType>, u32), TextFault>
    ensures { Gives (λ b. type_of b.value) result (type_at at (tree_of tree.now)) }
{
    let (ty, at) = type_at(alloc, tree, at)?;
    Ok((Box::new(alloc, ty)?, at))
}
