//! Trees read as values.
ghost use Rattle.std.specs.Prelude.{◌≡◌, Some, map};
ghost use Rattle.ac_sx.specs.CodeSx.{tree_of, trees_in};
ghost use Rattle.c_values.specs.CodeParts.{values_in};
ghost use Rattle.c_values.specs.CodeTypes.{type_of};
ghost use Rattle.c_values.specs.CodeValue.{value_of};
ghost use Rattle.c_values.specs.Layout.{shape_of};
ghost use Rattle.expression_text.specs.CodeFault.{Gives};
ghost use Rattle.memory_text.specs.ValueText as texts;
ghost use Rattle.memory_text.specs.ValueReading as reading;
ghost use Rattle.memory_text.specs.CodeTypes.{types_in};

use crate::numbers::last_address;
use crate::types::{Types, types_of};
use ac_sx::Sx;
use c_values::{CType, Layout, Number, Value, is_of_type};
use expression_text::{TextFault, next, number_at};
use std::alloc::Global;

/// The value of a type that a tree is.
#[cycle(values)]
pub(crate) fn value_at(
    alloc: Global,
    layout: &Layout,
    ty: &CType,
    tree: &Sx,
    at: u32,
) -> Result<(Value, u32), TextFault>
    ensures { Gives value_of result (reading.value_at layout.now.target
        (shape_of layout.now (type_of ty.now)) at (tree_of tree.now)) }
{
    let Some(parts) = tree.parts() else {
        return number_value_at(layout, ty, tree, at);
    };
    let Some(types) = types_of(layout, ty) else {
        return Err(TextFault::Shape(at));
    };
    let (values, behind) = values_at(alloc, layout, types, parts, at, next(at))?;
    Ok((Value::Parts(values), behind))
}

/// The values of the types that the parts of a list at a number are, which begin at the inner one.
#[cycle(values)]
pub(crate) fn values_at(
    alloc: Global,
    layout: &Layout,
    types: Types<'_>,
    parts: &[Sx],
    at: u32,
    inner: u32,
) -> Result<(Vec<Value>, u32), TextFault>
    ensures { Gives (λ values. values_in values.items) result
        (reading.counted at (trees_in parts.now)
        (Some (map (shape_of layout.now) (types_in types.entry)))
        (λ shapes. reading.values_at layout.now.target shapes inner (trees_in parts.now))) }
{
    if parts.len() != types.len() {
        return Err(TextFault::Shape(at));
    }
    let mut values = Vec::new(alloc);
    let mut here = inner;
    'parts: for (k, part) in parts.iter().enumerate() {
        let (value, behind) = value_at(alloc, layout, types.get(k), part, here)?;
        values.push(value)?;
        here = behind;
    }
    Ok((values, here))
}

// The number of a type that a tree is.
fn number_value_at(
    layout: &Layout,
    ty: &CType,
    tree: &Sx,
    at: u32,
) -> Result<(Value, u32), TextFault>
    ensures { Gives value_of result (reading.number_value_at layout.now.target
        (shape_of layout.now (type_of ty.now)) at (tree_of tree.now)) }
{
    let (number, behind) = number_at(tree, at)?;
    if is_number_of(layout, ty, number) {
        Ok((Value::Number(number), behind))
    } else {
        Err(TextFault::Shape(at))
    }
}

// Whether a number is of an integer type, or an address.
#[tactic(auto, using(crate::proofs::Shapes::no_number))]
fn is_number_of(layout: &Layout, ty: &CType, number: Number) -> bool
    ensures { result ≡ texts.is_number_of layout.now.target
        (shape_of layout.now (type_of ty.now)) number }
{
    match ty {
        CType::Int(integer) => is_of_type(layout.target(), *integer, number),
        CType::Ptr(_) => is_address(layout, number),
        CType::Void | CType::Struct(_) | CType::Array(_, _) => false,
    }
}

fn is_address(layout: &Layout, number: Number) -> bool
    ensures { result ≡ texts.is_address layout.now.target number }
{
    !number.negative() && number.magnitude() <= u128::from(last_address(layout))
}
