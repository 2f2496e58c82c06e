//! The memory that a run begins with.

ghost use Rattle.std.specs.Prelude.{◌≡◌, ◌⊎◌, true, [], Some, None, IfOk, IfErr};
ghost use Rattle.c_memory.specs.CodeHeap as heaps;
ghost use Rattle.c_memory.specs.TagFault.{first_fault};
ghost use Rattle.c_memory.specs.Tags.{IsWellTagged};
ghost use Rattle.c_memory.specs.declared.faults.HeapFault.TheVariants.{Memory};
ghost use Rattle.c_lang.specs.CodeTyped.{unit_of};
ghost use Rattle.memory_text.specs.CodeMemory.{memory_of};
ghost use Rattle.memory_text.specs.MemoryText.{is_memory};
ghost use Rattle.run_start.specs.Start as start;

use c_lang::tree::TypedUnit;
use c_memory::{ByteHeap, HeapFault};
use memory_text::MemoryText;
use std::alloc::Global;

/// The bytes and the tags of a memory, which is one of the unit.
///
/// An `Err` names the first tag that is at fault, or there is no memory.
pub fn heap_of(alloc: Global, unit: &TypedUnit, memory: &MemoryText) -> Result<ByteHeap, HeapFault>
    requires { is_memory (unit_of unit.now) (memory_of memory.now) ≡ true }
    ensures heap { IfOk result (λ heap. heaps.memory_of heap
        ≡ start.bytes_in (memory_of memory.now)) }
    ensures well_tagged { IfOk result (λ heap. IsWellTagged unit.now.layout
        (heaps.memory_of heap)) }
    ensures sound { IfOk result (λ _. first_fault unit.now.layout [] 0
        (memory_of memory.now).tags ≡ None) }
    ensures cause { IfErr result (λ fault. (fault ≡ Memory)
        ⊎ (first_fault unit.now.layout [] 0 (memory_of memory.now).tags ≡ Some fault)) }
{
    ByteHeap::new(alloc, &unit.layout, &memory.bytes, &memory.tags)
}
