//! Trees read as calls.
ghost use Rattle.std.specs.Prelude.{◌≡◌, Some, map, option_map, string_bytes};
ghost use Rattle.ac_sx.specs.CodeSx.{tree_of, trees_in};
ghost use Rattle.c_values.specs.CodeParts.{values_in};
ghost use Rattle.c_lang.specs.CodeTyped.{function_of, unit_of};
ghost use Rattle.c_lang.specs.Typed.{typed_fn};
ghost use Rattle.expression_text.specs.CodeFault.{Gives};
ghost use Rattle.memory_text.specs.MemoryText.{parameter_shapes};
ghost use Rattle.memory_text.specs.ValueReading.{counted};
ghost use Rattle.memory_text.specs.ValueReading as values;
ghost use Rattle.memory_text.specs.MemoryReading as reading;

use crate::parts::parts_behind;
use crate::types::Types;
use crate::value_reading::values_at;
use ac_sx::{Sx, first};
use c_lang::tree::{TypedFn, TypedUnit};
use c_values::{Layout, Value};
use expression_text::{TextFault, name_at, next};
use std::alloc::Global;

/// The function and the arguments of the call that a tree is.
pub(crate) fn call_at(
    alloc: Global,
    unit: &TypedUnit,
    tree: &Sx,
    at: u32,
) -> Result<((String, Vec<Value>), u32), TextFault>
    ensures { Gives (λ c. (string_bytes c.0, values_in c.1.items)) result
        (reading.call_at (unit_of unit.now) at (tree_of tree.now)) }
{
    let Some(parts) = parts_behind("call", tree) else {
        return Err(TextFault::Shape(at));
    };
    let Some((name, arguments)) = first(parts) else {
        return Err(TextFault::Shape(at));
    };
    let inner = next(next(at));
    let (name, here) = name_at(alloc, name, inner)?;
    let Some(function) = function_named(&unit.functions, name.as_str()) else {
        return Err(TextFault::Shape(inner));
    };
    let (arguments, here) = arguments_at(alloc, &unit.layout, function, arguments, at, here)?;
    Ok(((name, arguments), here))
}

// The arguments of a function that the parts of a list at a number are, which begin at the inner one.
fn arguments_at(
    alloc: Global,
    layout: &Layout,
    function: &TypedFn,
    parts: &[Sx],
    at: u32,
    inner: u32,
) -> Result<(Vec<Value>, u32), TextFault>
    ensures { Gives (λ arguments. values_in arguments.items) result
        (counted at (trees_in parts.now)
        (Some (parameter_shapes layout.now (function_of function.now)))
        (λ shapes. values.values_at layout.now.target shapes inner (trees_in parts.now))) }
{
    let types = Types::Parameters(&function.params);
    values_at(alloc, layout, types, parts, at, inner)
}

// The first function of a name.
fn function_named<'a>(functions: &'a [TypedFn], name: &str) -> Option<&'a TypedFn>
    ensures { option_map (λ f. function_of f.now) result
        ≡ typed_fn (map function_of functions.now) name.now }
{
    let mut rest = functions;
    'functions: while let Some((function, others)) = rest.split_first() {
        if function.name.as_str() == name {
            return Some(function);
        }
        rest = others;
    }
    None
}
