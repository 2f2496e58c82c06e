//! Laws of where runs begin.

ghost use Rattle.std.specs.Prelude.{◌≡◌, true, Some};
ghost use Rattle.c_memory.specs.Tags.{AreTags};
ghost use Rattle.c_lang.specs.Typed.{TypedUnit, TypedFn, typed_fn};
ghost use Rattle.c_lang.specs.WellTyped.{IsWellTyped};
ghost use Rattle.exactness.specs.Exact.{IsBegin};
ghost use Rattle.memory_text.specs.MemoryText.{Memory, is_memory};
ghost use Rattle.run_start.specs.Start.{begin_of};

/// A memory of a well-typed unit, whose tags lie where objects may, and apart, is where runs of its
/// function may begin.
pub fn memories_are_begins()
    ensures { (u : TypedUnit) (f : TypedFn) (m : Memory) → IsWellTyped u →
        typed_fn u.functions m.function ≡ Some f → is_memory u m ≡ true →
        AreTags u.layout m.tags → IsBegin u f (begin_of u f m) }
{}
