//! The arguments of a run.

ghost use Rattle.std.specs.Prelude.{◌≡◌, true, Some, IfOk, map};
ghost use Rattle.c_values.specs.CodeValue.{value_of};
ghost use Rattle.c_lang.specs.CodeTyped.{function_of, unit_of};
ghost use Rattle.c_lang.specs.Typed.{typed_fn};
ghost use Rattle.c_lang.specs.WellTyped.{IsWellTyped};
ghost use Rattle.c_meaning.specs.Fitting.{AreOfTypes};
ghost use Rattle.memory_text.specs.CodeMemory.{memory_of};
ghost use Rattle.memory_text.specs.MemoryText.{is_memory};
ghost use Rattle.run_start.specs.Start as start;

use crate::words::all_as_words;
use c_lang::tree::{TypedFn, TypedUnit};
use c_values::Value;
use memory_text::{MemoryText, Types};
use std::alloc::{AllocError, Global};

/// The arguments of a memory for its function, as words of the parameters' types. The memory is one
/// of the unit, which is well-typed.
pub fn arguments_of(
    alloc: Global,
    unit: &TypedUnit,
    function: &TypedFn,
    memory: &MemoryText,
) -> Result<Vec<Value>, AllocError>
    requires unit { IsWellTyped (unit_of unit.now) }
    requires memory { is_memory (unit_of unit.now) (memory_of memory.now) ≡ true }
    requires function { typed_fn (unit_of unit.now).functions (memory_of memory.now).function
        ≡ Some (function_of function.now) }
    ensures arguments { IfOk result (λ arguments. map value_of arguments.items
        ≡ start.arguments_in unit.now.layout (function_of function.now) (memory_of memory.now)) }
    ensures typed { IfOk result (λ arguments. AreOfTypes unit.now.layout
        (function_of function.now).params (map value_of arguments.items)) }
{
    let types = Types::Parameters(&function.params);
    all_as_words(alloc, &unit.layout, types, &memory.arguments)
}
