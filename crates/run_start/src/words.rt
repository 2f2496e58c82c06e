//! Values whose numbers become words.

ghost use Rattle.std.specs.Prelude.{◌≡◌, IfOk, map};
ghost use Rattle.c_values.specs.CodeParts.{values_in};
ghost use Rattle.c_values.specs.CodeTypes.{type_of};
ghost use Rattle.c_values.specs.CodeValue.{value_of};
ghost use Rattle.c_values.specs.Layout.{shape_of};
ghost use Rattle.memory_text.specs.CodeTypes.{types_in};
ghost use Rattle.run_start.specs.Start as start;

use c_values::views::word;
use c_values::{CType, Layout, Number, Value, address_width, width_of};
use memory_text::{Types, types_of};
use std::alloc::{AllocError, Global};

/// A value of a type, each of its numbers being a word of the width that the type has there.
///
/// This takes stack for each level of parts in the value.
#[cycle(words)]
pub(crate) fn as_words(
    alloc: Global,
    layout: &Layout,
    ty: &CType,
    value: &Value,
) -> Result<Value, AllocError>
    ensures { IfOk result (λ v. value_of v
        ≡ start.as_words (shape_of layout.now (type_of ty.now)) (value_of value.now)) }
{
    match value {
        Value::Word(word) => Ok(Value::Word(*word)),
        Value::Number(number) => Ok(word_at(layout, ty, *number)),
        Value::Truth(truth) => Ok(Value::Truth(*truth)),
        Value::Parts(parts) => {
            let Some(types) = types_of(layout, ty) else {
                return Ok(Value::Parts(Vec::new(alloc)));
            };
            let words = all_as_words(alloc, layout, types, parts)?;
            Ok(Value::Parts(words))
        }
    }
}

/// The values of types in a row, each as words.
#[cycle(words)]
pub(crate) fn all_as_words(
    alloc: Global,
    layout: &Layout,
    types: Types<'_>,
    values: &[Value],
) -> Result<Vec<Value>, AllocError>
    ensures { IfOk result (λ words. values_in words.items
        ≡ start.all_as_words (map (shape_of layout.now) (types_in types.entry))
        (values_in values.now)) }
{
    let mut words = Vec::new(alloc);
    'values: for (k, value) in values.iter().enumerate() {
        if k >= types.len() {
            return Ok(words);
        }
        words.push(as_words(alloc, layout, types.get(k), value)?)?;
    }
    Ok(words)
}

// The word of a scalar type's number.
#[tactic(auto, using(crate::proofs::Structs::no_word))]
fn word_at(layout: &Layout, ty: &CType, number: Number) -> Value
    ensures { value_of result
        ≡ start.word_at (shape_of layout.now (type_of ty.now)) number }
{
    match ty {
        CType::Int(integer) => Value::Word(word(width_of(layout.target(), *integer), number)),
        CType::Ptr(_) => Value::Word(word(address_width(layout.target()), number)),
        CType::Void | CType::Struct(_) | CType::Array(_, _) => Value::Number(number),
    }
}
