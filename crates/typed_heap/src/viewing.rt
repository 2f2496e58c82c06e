//! Memory of bytes as a typed heap.

ghost use Rattle.std.specs.Prelude.{◌≡◌, IfOk};
ghost use Rattle.c_memory.specs.Tags.{IsWellTagged};
ghost use Rattle.c_memory.specs.TypedHeap.{view};
ghost use Rattle.c_memory.specs.CodeHeap.{memory_of};
ghost use Rattle.typed_heap.specs.CodeCells.{cells_of};

use crate::heap::TypedHeap;
use c_memory::{ByteHeap, Heap};
use c_values::Layout;
use std::alloc::{AllocError, Global};

/// The typed heap with what memory has at its tags.
pub fn view(alloc: Global, l: &Layout, h: &ByteHeap) -> Result<TypedHeap, AllocError>
    requires { IsWellTagged l.now (memory_of h.now) }
    ensures { IfOk result (λ cells. cells_of cells ≡ view l.now (memory_of h.now)) }
{
    // Its layout gives each object at least one byte, so each tag's address is in the space.
    let _ = l.target();
    let mut values = Vec::new(alloc);
    for (address, ty) in h.tags() {
        values.push(h.read_value(alloc, l, ty, *address, &[])?)?;
    }
    let tags = h.tag_table().copy(alloc)?;
    Ok(TypedHeap { tags, values })
}
