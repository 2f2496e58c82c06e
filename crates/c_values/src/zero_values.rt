//! Values that are all zeros.

ghost use Rattle.std.specs.Prelude.{◌≡◌, map, pos, IfOk};
ghost use Rattle.c_values.specs.CodeLayout.{member_of};
ghost use Rattle.c_values.specs.CodeTypes.{target_of, type_of};
ghost use Rattle.c_values.specs.CodeValue.{value_of};
ghost use Rattle.c_values.specs.Layout.{IsLayout, placed, shape_of};
ghost use Rattle.c_values.specs.Path as paths;
ghost use Rattle.c_values.specs.Types.{Array, Struct};
ghost use Rattle.c_values.specs.Value.{Bits, Parts, nothing};
ghost use Rattle.c_values.specs.Width.{IsWidth};
ghost use Rattle.c_values.specs.Word as words;

use crate::layouts::Layout;
use crate::lone_arrays::{around, inside};
use crate::numbers::Number;
use crate::types::{CType, Target, address_width, width_of};
use crate::values::Value;
use crate::views::word;
use std::alloc::{AllocError, Global};

/// The value of a type that is all zeros; that of an incomplete type has no parts.
pub fn zeros(alloc: Global, layout: &Layout, ty: &CType) -> Result<Value, AllocError>
    ensures { IfOk result (λ v. value_of v ≡ paths.zeros (shape_of layout.now (type_of ty.now))) }
{
    zeros_of_type(alloc, layout, layout.target(), ty)
}

// A text may nest arrays of one element deeply, so loops go through those: the recursion is as deep as structs, and arrays
// of other lengths, nest.
#[cycle(zeros)]
fn zeros_of_type(
    alloc: Global,
    layout: &Layout,
    target: Target,
    ty: &CType,
) -> Result<Value, AllocError>
    requires layout { IsLayout layout.now }
    requires target { target_of target ≡ layout.now.target }
    ensures { IfOk result (λ v. value_of v ≡ paths.zeros (shape_of layout.now (type_of ty.now))) }
{
    let value = zeros_by_kind(alloc, layout, target, inside(ty))?;
    around(alloc, ty, value)
}

#[cycle(zeros)]
fn zeros_by_kind(
    alloc: Global,
    layout: &Layout,
    target: Target,
    ty: &CType,
) -> Result<Value, AllocError>
    requires layout { IsLayout layout.now }
    requires target { target_of target ≡ layout.now.target }
    ensures { IfOk result (λ v. value_of v ≡ paths.zeros (shape_of layout.now (type_of ty.now))) }
{
    match ty {
        CType::Int(integer) => Ok(zero(width_of(target, *integer))),
        CType::Ptr(_) => Ok(zero(address_width(target))),
        CType::Void => Ok(no_parts(alloc)),
        CType::Struct(name) => zeros_of_struct(alloc, layout, target, name.as_str()),
        CType::Array(element, length) => zeros_of_array(alloc, layout, target, &**element, *length),
    }
}

// The word of a scalar that is zero.
fn zero(width: u8) -> Value
    requires { IsWidth width }
    ensures { value_of result ≡ Bits (words.word width (pos 0)) }
{
    Value::Word(word(width, Number::new(false, 0)))
}

fn no_parts(alloc: Global) -> Value
    ensures { value_of result ≡ nothing }
{
    Value::Parts(Vec::new(alloc))
}

#[cycle(zeros)]
fn zeros_of_struct(
    alloc: Global,
    layout: &Layout,
    target: Target,
    name: &str,
) -> Result<Value, AllocError>
    requires layout { IsLayout layout.now }
    requires target { target_of target ≡ layout.now.target }
    ensures { IfOk result (λ v. value_of v ≡ paths.zeros (shape_of layout.now (Struct name.now))) }
{
    match layout.definition(name) {
        None => Ok(no_parts(alloc)),
        Some(definition) => zeros_of_members(alloc, layout, target, definition.members.as_slice()),
    }
}

#[cycle(zeros)]
fn zeros_of_members(
    alloc: Global,
    layout: &Layout,
    target: Target,
    members: &[(String, CType)],
) -> Result<Value, AllocError>
    requires layout { IsLayout layout.now }
    requires target { target_of target ≡ layout.now.target }
    ensures { IfOk result
        (λ v. value_of v
        ≡ Parts (paths.member_zeros
        (placed (shape_of layout.now) 0 (map member_of members.now)))) }
{
    let mut values = Vec::new(alloc);
    let mut rest = members;
    'members: while let Some(((_, ty), more)) = rest.split_first() {
        values.push(zeros_of_type(alloc, layout, target, ty)?)?;
        rest = more;
    }
    Ok(Value::Parts(values))
}

#[cycle(zeros)]
fn zeros_of_array(
    alloc: Global,
    layout: &Layout,
    target: Target,
    element: &CType,
    length: u32,
) -> Result<Value, AllocError>
    requires layout { IsLayout layout.now }
    requires target { target_of target ≡ layout.now.target }
    ensures { IfOk result
        (λ v. value_of v ≡ paths.zeros (shape_of layout.now (Array (type_of element.now) length))) }
{
    let mut values = Vec::new(alloc);
    'elements: for _i in 0..length {
        values.push(zeros_of_type(alloc, layout, target, element)?)?;
    }
    Ok(Value::Parts(values))
}
