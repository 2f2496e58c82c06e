//! Runs of functions of a unit of programs.

ghost use Rattle.std.specs.Prelude.{◌≡◌, map, IsSomeAnd, slice_get};
ghost use Rattle.c_values.specs.CodeValue.{value_of};
ghost use Rattle.c_memory.specs.Heap.{IsHeap};
ghost use Rattle.expression_lang.specs.CodeState.{state_of, AreOfTypes};
ghost use Rattle.monad_lang.specs.Sorted.{IsWellFormed};
ghost use Rattle.monad_lang.specs.CodeProgram.{final_unit_of};
ghost use Rattle.program_runs.specs.CodeRun.{ends_of_call, stopped_at, outcome_of, TakesThem, IsEnd, OnLasting, OnResults};

use crate::ends::{AOutcome, Stop};
use crate::machine::{AState, Setting};
use c_memory::Heap;
use c_values::Value;
use monad_lang::FinalUnit;
use std::alloc::Global;

/// What function `f` of a unit does under a fill number, at a bound of so many turns: what is picked
/// is the fill number modulo 2 to the width, and `false` of truth values. The answer is the one end
/// of the run that the definitions of programs allow there where numbers have 128 bits, or `Memory`.
///
/// - `Value` with the result, where the function has one, and the heap and the globals after it.
/// - `Fails` where a guard doesn't hold.
/// - `Wide` with the first operation whose exact result has a magnitude of 2^128 or more.
/// - `OutOfTurns` where a turn of a loop or a call is asked at the bound 0. A turn and a call each take
/// one: the body, and the rest of the loop, run at a bound that is smaller by one.
/// - `Deep` where a call would be the 257th nested inside the first function, and its bound isn't 0.
///
/// The unit is well-formed. There is an argument of its sort for each parameter, the heap is
/// well-tagged under the unit's layout, and each global has a value of its type.
pub fn run_final<H: Heap + Drop>(
    alloc: Global,
    u: &FinalUnit,
    f: u32,
    args: &[Value],
    heap: H,
    globals: Vec<Value>,
    turns: u32,
    fill: u64,
) -> AOutcome<H>
    requires unit { IsWellFormed (final_unit_of u.now) }
    requires called { TakesThem u.now f (map value_of args.now) }
    requires heap { IsHeap u.now.layout (H.content heap) }
    requires globals { AreOfTypes u.now.layout u.now.globals.items globals.items }
    ensures end { IsSomeAnd (slice_get u.now.functions.items f) (λ g. IsEnd H.content u.now
        (ends_of_call u.now fill turns g (map value_of args.now)
        (state_of (H.content heap) u.now.globals.items globals.items)) result) }
    ensures lasts { OnLasting H.content u.now (H.content heap) result }
    ensures results { IsSomeAnd (slice_get u.now.functions.items f) (λ g. OnResults g result) }
{
    let setting = Setting {
        alloc,
        unit: u,
        fill,
    };
    let mut state = AState { heap, globals };
    let given = setting.returned(&u.functions[f as usize], args, turns, &mut state);
    outcome(given, state)
}

// The outcome of what a function gives, and the state after it.
fn outcome<H: Drop>(returned: Result<Option<Value>, Stop>, state: AState<H>) -> AOutcome<H>
    ensures { result ≡ outcome_of returned state }
{
    match returned {
        Ok(value) => AOutcome::Value(value, state.heap, state.globals),
        Err(stop) => stopped(stop),
    }
}

// The outcome of a run that stops before its end.
fn stopped<H>(stop: Stop) -> AOutcome<H>
    ensures { result ≡ stopped_at stop }
{
    match stop {
        Stop::Fails => AOutcome::Fails,
        Stop::Wide(op, a, b) => AOutcome::Wide(op, a, b),
        Stop::OutOfTurns => AOutcome::OutOfTurns,
        Stop::Deep => AOutcome::Deep,
        Stop::Memory => AOutcome::Memory,
    }
}
