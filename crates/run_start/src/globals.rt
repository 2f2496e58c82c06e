//! The values that globals begin with.

ghost use Rattle.std.specs.Prelude.{◌≡◌, true, IfOk, map};
ghost use Rattle.c_values.specs.CodeValue.{value_of, global_of};
ghost use Rattle.expression_lang.specs.CodeState.{AreOfTypes, globals_of as globals_under};
ghost use Rattle.c_lang.specs.CodeTyped.{unit_of};
ghost use Rattle.c_lang.specs.WellTyped.{IsWellTyped};
ghost use Rattle.memory_text.specs.CodeMemory.{memory_of, setting_of};
ghost use Rattle.memory_text.specs.MemoryText.{is_memory};
ghost use Rattle.run_start.specs.Start as start;

use crate::words::as_words;
use c_lang::tree::TypedUnit;
use c_values::{GlobalVar, Layout, Value, copy_value};
use memory_text::MemoryText;
use std::alloc::{AllocError, Global};

/// The values that the globals of a unit begin with, in their order. The memory is one of the unit,
/// which is well-typed.
pub fn globals_of(
    alloc: Global,
    unit: &TypedUnit,
    memory: &MemoryText,
) -> Result<Vec<Value>, AllocError>
    requires unit { IsWellTyped (unit_of unit.now) }
    requires memory { is_memory (unit_of unit.now) (memory_of memory.now) ≡ true }
    ensures values { IfOk result (λ values. globals_under unit.now.globals.items values.items
        ≡ start.globals_in (unit_of unit.now) (memory_of memory.now)) }
    ensures typed { IfOk result (λ values. AreOfTypes unit.now.layout unit.now.globals.items
        values.items) }
{
    values_set(alloc, &unit.layout, &unit.globals, &memory.globals)
}

// The value that each global begins with, where these are set.
fn values_set(
    alloc: Global,
    layout: &Layout,
    globals: &[GlobalVar],
    settings: &[(String, Value)],
) -> Result<Vec<Value>, AllocError>
    ensures { IfOk result (λ values. map value_of values.items
        ≡ start.values_set layout.now (map global_of globals.now) (map setting_of settings.now)) }
{
    let mut values = Vec::new(alloc);
    let mut left = settings;
    let mut rest = globals;
    'globals: while let Some((global, others)) = rest.split_first() {
        let (value, later) = value_set(alloc, layout, global, left)?;
        values.push(value)?;
        left = later;
        rest = others;
    }
    Ok(values)
}

// The value that a global begins with, and the settings of those behind it.
fn value_set<'a>(
    alloc: Global,
    layout: &Layout,
    global: &GlobalVar,
    settings: &'a [(String, Value)],
) -> Result<(Value, &'a [(String, Value)]), AllocError>
    ensures { IfOk result (λ v. (value_of v.0, map setting_of v.1.now)
        ≡ start.value_set layout.now (global_of global.now) (map setting_of settings.now)) }
{
    if let Some(((name, value), others)) = settings.split_first() {
        if global.name.as_str() == name.as_str() {
            return Ok((as_words(alloc, layout, &global.ty, value)?, others));
        }
    }
    Ok((copy_value(alloc, &global.initial)?, settings))
}
