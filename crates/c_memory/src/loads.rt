//! Values in memory.

ghost use Rattle.std.specs.Prelude.{◌≡◌, ◌<◌, true, IfOk};
ghost use Rattle.c_values.specs.Types.{Array, Struct};
ghost use Rattle.c_values.specs.Layout.{shape_of, space, is_object};
ghost use Rattle.c_values.specs.CodeTypes.{type_of};
ghost use Rattle.c_values.specs.CodeValue.{value_of};
ghost use Rattle.c_memory.specs.Memory.{AreBytes, load};
ghost use Rattle.c_memory.specs.CodePages.{byte_at};

use crate::addresses::moved;
use crate::pages::Pages;
use crate::parts_of_values::with_parts;
use crate::words::load_word;
use c_values::{CType, Layout, Value, around, inside, size_of};
use std::alloc::{AllocError, Global};

/// The value of a type at an address. A text may nest arrays of one element deeply, so loops go through those: the
/// recursion is as deep as structs, and arrays of other lengths, nest.
#[cycle(load)]
pub(crate) fn load(
    alloc: Global,
    pages: &Pages,
    l: &Layout,
    t: &CType,
    address: u64,
) -> Result<Value, AllocError>
    requires object { is_object l.now (type_of t.now) ≡ true }
    requires address { address < space l.now }
    requires bytes { AreBytes (byte_at pages.now) }
    ensures { IfOk result
        (λ v. value_of v ≡ load (space l.now) (byte_at pages.now)
        (shape_of l.now (type_of t.now)) address) }
{
    let value = load_by_kind(alloc, pages, l, inside(t), address)?;
    around(alloc, t, value)
}

#[cycle(load)]
fn load_by_kind(
    alloc: Global,
    pages: &Pages,
    l: &Layout,
    t: &CType,
    address: u64,
) -> Result<Value, AllocError>
    requires object { is_object l.now (type_of t.now) ≡ true }
    requires address { address < space l.now }
    requires bytes { AreBytes (byte_at pages.now) }
    ensures { IfOk result
        (λ v. value_of v ≡ load (space l.now) (byte_at pages.now)
        (shape_of l.now (type_of t.now)) address) }
{
    match t {
        CType::Int(_) | CType::Ptr(_) => Ok(Value::Word(load_word(pages, l, t, address))),
        CType::Struct(name) => load_struct(alloc, pages, l, name.as_str(), address),
        CType::Array(element, length) => load_array(alloc, pages, l, &**element, *length, address),
        CType::Void => Ok(with_parts(Vec::new(alloc))),
    }
}

#[cycle(load)]
fn load_struct(
    alloc: Global,
    pages: &Pages,
    l: &Layout,
    name: &str,
    address: u64,
) -> Result<Value, AllocError>
    requires object { is_object l.now (Struct name.now) ≡ true }
    requires bytes { AreBytes (byte_at pages.now) }
    ensures { IfOk result
        (λ v. value_of v ≡ load (space l.now) (byte_at pages.now)
        (shape_of l.now (Struct name.now)) address) }
{
    let mut values = Vec::new(alloc);
    let mut k = 0;
    'members: while let Some((at, ty)) = l.member(name, k) {
        let address = moved(l.target(), address, u64::from(at));
        values.push(load(alloc, pages, l, ty, address)?)?;
        k += 1;
    }
    Ok(with_parts(values))
}

#[cycle(load)]
fn load_array(
    alloc: Global,
    pages: &Pages,
    l: &Layout,
    element: &CType,
    length: u32,
    address: u64,
) -> Result<Value, AllocError>
    requires object { is_object l.now (Array (type_of element.now) length) ≡ true }
    requires bytes { AreBytes (byte_at pages.now) }
    ensures { IfOk result (λ v. value_of v
        ≡ load (space l.now) (byte_at pages.now)
        (shape_of l.now (Array (type_of element.now) length)) address) }
{
    let size = u64::from(size_of(l, element));
    let mut values = Vec::new(alloc);
    'elements: for i in 0..length {
        let address = moved(l.target(), address, u64::from(i) * size);
        values.push(load(alloc, pages, l, element, address)?)?;
    }
    Ok(with_parts(values))
}
