//! Trees read as tags.
ghost use Rattle.std.specs.Prelude.{◌≡◌, codes, map};
ghost use Rattle.ac_sx.specs.CodeSx.{tree_of, trees_in};
ghost use Rattle.c_values.specs.CodeTypes.{type_of};
ghost use Rattle.c_memory.specs.CodeTag.{tag_of};
ghost use Rattle.c_memory.specs.Tags as tags;
ghost use Rattle.expression_text.specs.CodeFault.{Gives};
ghost use Rattle.expression_text.specs.Lists.{list_at};
ghost use Rattle.memory_text.specs.MemoryReading as reading;

use crate::numbers::{address_at, last_address};
use crate::parts::{pair, parts_behind};
use ac_sx::Sx;
use c_values::{CType, Layout, is_object};
use expression_text::{TextFault, next, type_at};
use std::alloc::Global;

/// The tags that a tree is.
pub(crate) fn tags_at(
    alloc: Global,
    layout: &Layout,
    tree: &Sx,
    at: u32,
) -> Result<(Vec<(u64, CType)>, u32), TextFault>
    ensures { Gives (λ tags. map tag_of tags.items) result
        (reading.listed_at (codes "tags") (list_at (reading.tag_at layout.now)) at
        (tree_of tree.now)) }
{
    match parts_behind("tags", tree) {
        Some(parts) => each_tag_at(alloc, layout, parts, next(next(at))),
        None => Err(TextFault::Shape(at)),
    }
}

fn each_tag_at(
    alloc: Global,
    layout: &Layout,
    parts: &[Sx],
    at: u32,
) -> Result<(Vec<(u64, CType)>, u32), TextFault>
    ensures { Gives (λ tags. map tag_of tags.items) result
        (list_at (reading.tag_at layout.now) at (trees_in parts.now)) }
{
    let mut tags = Vec::new(alloc);
    let mut here = at;
    'parts: for part in parts {
        let (tag, behind) = tag_at(alloc, layout, part, here)?;
        tags.push(tag)?;
        here = behind;
    }
    Ok((tags, here))
}

fn tag_at(
    alloc: Global,
    layout: &Layout,
    tree: &Sx,
    at: u32,
) -> Result<((u64, CType), u32), TextFault>
    ensures { Gives tag_of result (reading.tag_at layout.now at (tree_of tree.now)) }
{
    let Some((address, ty)) = pair(tree) else {
        return Err(TextFault::Shape(at));
    };
    let (address, here) = address_at(last_address(layout), address, next(at))?;
    let (ty, behind) = tag_type_at(alloc, layout, ty, here)?;
    Ok(((address, ty), behind))
}

// The type that a tree is, where a tag may have it.
fn tag_type_at(
    alloc: Global,
    layout: &Layout,
    tree: &Sx,
    at: u32,
) -> Result<(CType, u32), TextFault>
    ensures { Gives type_of result (reading.tag_type_at layout.now at (tree_of tree.now)) }
{
    if parts_behind("array", tree).is_some() {
        return Err(TextFault::Shape(at));
    }
    let (ty, behind) = type_at(alloc, tree, at)?;
    if is_root_type(&ty) && is_object(layout, &ty) {
        Ok((ty, behind))
    } else {
        Err(TextFault::Shape(at))
    }
}

// Whether a type is an integer, a pointer or a struct.
fn is_root_type(ty: &CType) -> bool
    ensures { result ≡ tags.is_root_type (type_of ty.now) }
{
    match ty {
        CType::Int(_) | CType::Ptr(_) | CType::Struct(_) => true,
        CType::Void | CType::Array(_, _) => false,
    }
}
