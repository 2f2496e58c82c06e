//! Heaps of either kind in tests: their places, words that are written and read there, and rows of
//! tags.

ghost use Rattle.std.specs.Prelude.{◌≡◌, ◌^◌, ◌<◌, true, map, Some, All, IfOk, IfSome};
ghost use Rattle.std.specs.Option.{option_map};
ghost use Rattle.c_values.specs.Layout.{Layout as Table, IsLayout, shape_of, space, is_object, is_scalar, scalar_width};
ghost use Rattle.c_values.specs.Path.{spot};
ghost use Rattle.c_values.specs.Width.{IsWidth};
ghost use Rattle.c_values.specs.Types.{address_width};
ghost use Rattle.c_values.specs.CodeTypes.{target_of, type_of};
ghost use Rattle.c_memory.specs.CodeStep.{step_of};
ghost use Rattle.c_memory.specs.CodeTag.{tag_of};
ghost use Rattle.c_memory.specs.CodeHeap.{memory_of};
ghost use Rattle.c_memory.specs.TagFault.{IsRoot};
ghost use Rattle.c_memory.specs.Tags.{is_root_type};
ghost use Rattle.c_memory.specs.Heap.{IsHeap, OnBytes};

use c_memory::{ByteHeap, Heap, HeapFault, Step};
use c_values::views::word;
use c_values::{
    CType, IntType, Layout, Number, StructDef, Target, Value, address_width, is_object, width_of,
};
use std::alloc::{AllocError, Global};
use std::test::Fail;
use typed_heap::type_at;

pub(crate) const UINT: CType = CType::Int(IntType::UInt);

pub(crate) const BYTE: CType = CType::Int(IntType::UChar);

/// A member of a struct.
pub(crate) fn member(alloc: Global, name: &str, ty: CType) -> Result<(String, CType), AllocError> {
    Ok((String::from_str(alloc, name)?, ty))
}

/// A struct of such members.
pub(crate) fn struct_of(
    alloc: Global,
    name: &str,
    members: Vec<(String, CType)>,
) -> Result<StructDef, AllocError> {
    let name = String::from_str(alloc, name)?;
    Ok(StructDef { name, members })
}

/// A struct `p` of a byte and an `unsigned`.
pub(crate) fn pair(alloc: Global) -> Result<StructDef, AllocError> {
    let mut members = Vec::new(alloc);
    members.push(member(alloc, "a", BYTE)?)?;
    members.push(member(alloc, "b", UINT)?)?;
    struct_of(alloc, "p", members)
}

/// The type of a struct of a name.
pub(crate) fn struct_type(alloc: Global, name: &str) -> Result<CType, AllocError> {
    Ok(CType::Struct(String::from_str(alloc, name)?))
}

/// Adds a struct to a layout.
pub(crate) fn define(alloc: Global, l: &mut Layout, definition: StructDef) -> Result<(), Fail> {
    l.can_follow(&definition).then_some(()).ok_or("no layout")?;
    Ok(l.define(alloc, definition)?)
}

/// Whether a type may be that of a tag.
pub(crate) fn is_root(l: &Layout, t: &CType) -> bool
    ensures root { result ≡ true → is_root_type (type_of t.now) ≡ true }
    ensures object { result ≡ true → is_object l.now (type_of t.now) ≡ true }
{
    match t {
        CType::Int(_) | CType::Ptr(_) | CType::Struct(_) => is_object(l, t),
        CType::Void | CType::Array(_, _) => false,
    }
}

/// The type of a place in the space.
pub(crate) fn place<'a>(
    l: &'a Layout,
    t: &'a CType,
    address: u64,
    path: &[Step],
) -> Option<&'a CType>
    ensures whole { IfSome result (λ _. is_object l.now (type_of t.now) ≡ true) }
    ensures address { IfSome result (λ _. address < space l.now) }
    ensures shape { IfSome result (λ u. Some (shape_of l.now (type_of u.now))
        ≡ option_map (λ q. q.shape)
        (spot (shape_of l.now (type_of t.now)) (map step_of path.now))) }
    ensures part { IfSome result (λ u. is_object l.now (type_of u.now) ≡ true) }
    ensures layout { IfSome result (λ _. IsLayout l.now) }
{
    if !is_object(l, t) || !is_in_space(l.target(), address) {
        return None;
    }
    type_at(l, t, path)
}

pub(crate) fn is_in_space(target: Target, address: u64) -> bool
    ensures { result ≡ true → address < 2 ^ address_width (target_of target) }
{
    match target {
        Target::Ilp32 => address <= u64::from(u32::MAX),
        Target::Lp64 => true,
    }
}

/// The bits of a scalar type.
pub(crate) fn bits_of(l: &Layout, t: &CType) -> Option<u8>
    ensures scalar { IfSome result (λ _. is_scalar (type_of t.now) ≡ true) }
    ensures width { IfSome result (λ width. width ≡ scalar_width l.now.target (type_of t.now)) }
    ensures known { IfSome result IsWidth }
{
    match t {
        CType::Int(i) => Some(width_of(l.target(), *i)),
        CType::Ptr(_) => Some(address_width(l.target())),
        CType::Void | CType::Struct(_) | CType::Array(_, _) => None,
    }
}

/// The word at a place of a scalar.
pub(crate) fn word_at<H: Heap>(
    h: &H,
    l: &Layout,
    t: &CType,
    address: u64,
    path: &[Step],
) -> Option<u64>
    requires { IsHeap l.now (H.content h.now) }
{
    let part = place(l, t, address, path)?;
    let _ = bits_of(l, part)?;
    Some(h.read_word(l, t, address, path).bits())
}

/// Puts a word at a place of a scalar.
pub(crate) fn put_word<H: Heap>(
    alloc: Global,
    h: &mut H,
    l: &Layout,
    t: &CType,
    address: u64,
    path: &[Step],
    bits: u64,
) -> Result<(), AllocError>
    requires { IsHeap l.now (H.content h.old) }
    ensures { IsHeap l.now (H.content h.new) }
{
    let Some(part) = place(l, t, address, path) else {
        return Ok(());
    };
    let Some(width) = bits_of(l, part) else {
        return Ok(());
    };
    let number = Number::new(false, u128::from(bits));
    let new = word(width, number);
    h.write_value(alloc, l, t, address, path, &Value::Word(new))
}

/// Puts the value of a place into another of its type.
pub(crate) fn copy_value<H: Heap>(
    alloc: Global,
    h: &mut H,
    l: &Layout,
    t: &CType,
    to: u64,
    from: u64,
) -> Result<(), AllocError>
    requires { IsHeap l.now (H.content h.old) }
    ensures { IsHeap l.now (H.content h.new) }
{
    let Some(_) = place(l, t, from, &[]) else {
        return Ok(());
    };
    let Some(_) = place(l, t, to, &[]) else {
        return Ok(());
    };
    let value = h.read_value(alloc, l, t, from, &[])?;
    h.write_value(alloc, l, t, to, &[], &value)
}

/// Whether a root is covered.
pub(crate) fn covers<H: Heap>(h: &H, l: &Layout, t: &CType, address: u64) -> bool
    requires { IsHeap l.now (H.content h.now) }
{
    place(l, t, address, &[]).is_some() && h.tagged(l, t, address)
}

/// So many tags of an `unsigned`, one after the other.
pub(crate) fn row_of_tags(alloc: Global, count: u16) -> Result<Vec<(u64, CType)>, AllocError>
    ensures { IfOk result (λ tags. (l : Table) → All (IsRoot l) (map tag_of tags.items)) }
{
    let mut tags = Vec::new(alloc);
    for k in 0..count {
        tags.push((4096 + 4 * u64::from(k), UINT))?;
    }
    Ok(tags)
}

/// The heap of a row of tags, with a number in its first bytes.
pub(crate) fn heap_of_row(alloc: Global, l: &Layout, count: u16) -> Result<ByteHeap, HeapFault>
    ensures { IfOk result (λ h. IsHeap l.now (OnBytes (memory_of h))) }
{
    let tags = row_of_tags(alloc, count)?;
    ByteHeap::new(alloc, l, &[], &tags)
}
