//! Runs of functions of a Simpl unit.

ghost use Rattle.std.specs.Prelude.{◌≡◌, ◌<◌, map, Some, IsSomeAnd, slice_get};
ghost use Rattle.c_values.specs.Choice.{Fill};
ghost use Rattle.c_values.specs.CodeValue.{value_of};
ghost use Rattle.simpl_lang.specs.Exec.{simpl_runs};
ghost use Rattle.simpl_lang.specs.CodeCommand.{simpl_unit_of};
ghost use Rattle.command_runs.specs.CodeRun.{CanRun, IsStateOf, TakesThem, call_of, state_in, outcome_of, IsEnd, OnLasting};

use crate::ends::Stop;
use crate::frame::Frame;
use crate::outcome::{COutcome, CState};
use c_values::Value;
use simpl_lang::SimplUnit;
use std::alloc::Global;

/// How many calls may be nested inside the first function.
const NESTED_CALLS: u32 = 256;

/// What function `f` of a unit does under a fill number, at a bound of so many turns: what is picked
/// is the fill number modulo 2 to the width, and `false` of truth values. The answer is the one end
/// of the run that the definitions of commands allow there, or `Memory`.
///
/// - `Value` with the result, where the function has one, and the state after it, from which functions
/// can run as from the one before.
/// - `Guard` with the kind of the first guard that doesn't hold.
/// - `OutOfTurns` where a turn of a loop or a call is asked at the bound 0. A turn and a call each take
/// one: the body, and the rest of the loop, run at a bound that is smaller by one.
/// - `Deep` where a call would be the 257th nested inside the first function, and its bound isn't 0.
///
/// The unit is well-formed, and no operation on numbers is wide in it. There is an argument of its
/// sort for each parameter, memory is well-tagged under the unit's layout, and each global has a
/// value of its type.
pub fn run_simpl(
    alloc: Global,
    u: &SimplUnit,
    f: u32,
    args: &[Value],
    state: CState,
    turns: u32,
    fill: u64,
) -> COutcome
    requires unit { CanRun u.now }
    requires called { TakesThem u.now f (map value_of args.now) }
    requires state { IsStateOf u.now state }
    ensures end { IsSomeAnd (slice_get u.now.functions.items f) (λ g. IsEnd u.now
        (simpl_runs (simpl_unit_of u.now) (Fill fill) turns (Some 256)
        (call_of g (map value_of args.now) (state_in u.now state))) result) }
    ensures lasts { OnLasting u.now result }
{
    let mut state = state;
    let function = &u.functions[f as usize];
    let frame = Frame {
        alloc,
        unit: u,
        locals: &function.locals,
        fill,
        depth: NESTED_CALLS,
    };
    let given = frame.returned(function, &u.signatures[f as usize], args, turns, &mut state);
    outcome(given, state)
}

// The outcome of what a function gives, and the state after it.
fn outcome(returned: Result<Option<Value>, Stop>, state: CState) -> COutcome
    ensures { result ≡ outcome_of returned state }
{
    match returned {
        Ok(value) => COutcome::Value(value, state),
        Err(Stop::Guard(kind)) => COutcome::Guard(kind),
        Err(Stop::OutOfTurns) => COutcome::OutOfTurns,
        Err(Stop::Deep) => COutcome::Deep,
        Err(Stop::Memory) => COutcome::Memory,
    }
}
