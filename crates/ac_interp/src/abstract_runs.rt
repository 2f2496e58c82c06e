//! Runs of functions of a unit's last programs, from a memory.

ghost use Rattle.std.specs.Prelude.{◌≡◌, true, false, map, IsSomeAnd, slice_get};
ghost use Rattle.c_values.specs.CodeValue.{value_of};
ghost use Rattle.c_memory.specs.Tags.{IsWellTagged};
ghost use Rattle.c_memory.specs.LevelHeap.{heap_for};
ghost use Rattle.c_memory.specs.CodeHeap.{memory_of, byte_content};
ghost use Rattle.typed_heap.specs.CodeCells.{typed_content};
ghost use Rattle.expression_lang.specs.Sort.{is_lifted};
ghost use Rattle.expression_lang.specs.CodeExpression.{level_of};
ghost use Rattle.expression_lang.specs.CodeState.{state_of, AreOfTypes};
ghost use Rattle.monad_lang.specs.Sorted.{IsWellFormed};
ghost use Rattle.monad_lang.specs.CodeProgram.{final_unit_of};
ghost use Rattle.program_runs.specs.CodeRun.{ends_of_call, TakesThem, IsEnd, OnLasting, OnResults};
ghost use Rattle.ac_interp.specs.CodeRan.{is_typed, HasEnd, HasLasted, HasResults};

use c_memory::ByteHeap;
use c_values::Value;
use expression_lang::Level;
use monad_lang::FinalUnit;
use program_runs::{AOutcome, run_final};
use std::alloc::Global;
use typed_heap::{TypedHeap, view};

/// How a run of a function of programs ends, on the heap of the function's level.
#[derive(Drop)]
pub enum Ran {
    /// The function is lifted to typed heaps.
    Typed(AOutcome<TypedHeap>),
    Bytes(AOutcome<ByteHeap>),
}

/// What function `f` of a unit does, as `run_final` says, from a memory: on the memory's view where
/// the function is lifted to typed heaps, and else on a copy of the memory. Memory is as it was.
pub fn run_abstract(
    alloc: Global,
    u: &FinalUnit,
    f: u32,
    args: &[Value],
    memory: &ByteHeap,
    globals: Vec<Value>,
    turns: u32,
    fill: u64,
) -> Ran
    requires unit { IsWellFormed (final_unit_of u.now) }
    requires called { TakesThem u.now f (map value_of args.now) }
    requires memory { IsWellTagged u.now.layout (memory_of memory.now) }
    requires globals { AreOfTypes u.now.layout u.now.globals.items globals.items }
    ensures level { IsSomeAnd (slice_get u.now.functions.items f) (λ g.
        is_typed result ≡ is_lifted (level_of g.level)) }
    ensures end { IsSomeAnd (slice_get u.now.functions.items f) (λ g. HasEnd u.now
        (ends_of_call u.now fill turns g (map value_of args.now)
        (state_of (heap_for u.now.layout (is_lifted (level_of g.level)) (memory_of memory.now))
        u.now.globals.items globals.items)) result) }
    ensures lasts { IsSomeAnd (slice_get u.now.functions.items f) (λ g. HasLasted u.now
        (heap_for u.now.layout (is_lifted (level_of g.level)) (memory_of memory.now)) result) }
    ensures results { IsSomeAnd (slice_get u.now.functions.items f) (λ g. HasResults g result) }
{
    match u.functions[f as usize].level {
        Level::Bytes => Ran::Bytes(on_bytes(alloc, u, f, args, memory, globals, turns, fill)),
        Level::Words => Ran::Typed(on_view(alloc, u, f, args, memory, globals, turns, fill)),
        Level::Numbers => Ran::Typed(on_view(alloc, u, f, args, memory, globals, turns, fill)),
    }
}

// What a function does on the view of a memory.
fn on_view(
    alloc: Global,
    u: &FinalUnit,
    f: u32,
    args: &[Value],
    memory: &ByteHeap,
    globals: Vec<Value>,
    turns: u32,
    fill: u64,
) -> AOutcome<TypedHeap>
    requires unit { IsWellFormed (final_unit_of u.now) }
    requires called { TakesThem u.now f (map value_of args.now) }
    requires memory { IsWellTagged u.now.layout (memory_of memory.now) }
    requires globals { AreOfTypes u.now.layout u.now.globals.items globals.items }
    ensures end { IsSomeAnd (slice_get u.now.functions.items f) (λ g. IsEnd typed_content u.now
        (ends_of_call u.now fill turns g (map value_of args.now)
        (state_of (heap_for u.now.layout true (memory_of memory.now)) u.now.globals.items
        globals.items)) result) }
    ensures lasts { OnLasting typed_content u.now
        (heap_for u.now.layout true (memory_of memory.now)) result }
    ensures results { IsSomeAnd (slice_get u.now.functions.items f) (λ g. OnResults g result) }
{
    match view(alloc, &u.layout, memory) {
        Ok(heap) => run_final(alloc, u, f, args, heap, globals, turns, fill),
        Err(_) => AOutcome::Memory,
    }
}

// What a function does on a copy of a memory.
fn on_bytes(
    alloc: Global,
    u: &FinalUnit,
    f: u32,
    args: &[Value],
    memory: &ByteHeap,
    globals: Vec<Value>,
    turns: u32,
    fill: u64,
) -> AOutcome<ByteHeap>
    requires unit { IsWellFormed (final_unit_of u.now) }
    requires called { TakesThem u.now f (map value_of args.now) }
    requires memory { IsWellTagged u.now.layout (memory_of memory.now) }
    requires globals { AreOfTypes u.now.layout u.now.globals.items globals.items }
    ensures end { IsSomeAnd (slice_get u.now.functions.items f) (λ g. IsEnd byte_content u.now
        (ends_of_call u.now fill turns g (map value_of args.now)
        (state_of (heap_for u.now.layout false (memory_of memory.now)) u.now.globals.items
        globals.items)) result) }
    ensures lasts { OnLasting byte_content u.now
        (heap_for u.now.layout false (memory_of memory.now)) result }
    ensures results { IsSomeAnd (slice_get u.now.functions.items f) (λ g. OnResults g result) }
{
    match memory.copy(alloc) {
        Ok(heap) => run_final(alloc, u, f, args, heap, globals, turns, fill),
        Err(_) => AOutcome::Memory,
    }
}
