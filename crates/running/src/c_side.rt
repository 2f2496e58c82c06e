//! The side of the C: the Simpl that is generated with every function on bytes is run.

ghost use Rattle.std.specs.Prelude.{◌≡◌, ◌++◌, IfOk};
ghost use Rattle.simpl_lang.specs.CodeCommand.{simpl_unit_of};
ghost use Rattle.c_lang.specs.CodeTyped.{unit_of};
ghost use Rattle.c_lang.specs.Typed as typed;
ghost use Rattle.c_levels.specs.CodeModes.{AreLevels};
ghost use Rattle.c_meaning.specs.CRun.{plain};
ghost use Rattle.generation.specs.Generate as rules;
ghost use Rattle.memory_text.specs.MemoryText as memories;
ghost use Rattle.run_lines.specs.CodeEnds.{c_stop_of};
ghost use Rattle.run_lines.specs.RunLines as texts;
ghost use Rattle.running.specs.CodeRuns.{CSide, HasCEnd, IsStart, c_came};

use crate::start::{Came, Start};
use ac_interp::{COutcome, CState, run_simpl};
use c_lang::tree::TypedUnit;
use c_levels::Modes;
use expression_lang::Level;
use run_lines::{CStop, write_c_stop, write_c_value};
use run_start::{arguments_of, globals_of};
use simpl_gen::generate;
use simpl_lang::SimplUnit;
use std::alloc::{AllocError, Global};

/// Runs the C function, and writes how it ends.
pub(crate) fn c_side(
    alloc: Global,
    start: Start<'_>,
    lines: &mut Vec<u8>,
) -> Result<Came, AllocError>
    requires { IsStart start }
    ensures { IfOk result (CSide start.entry lines.old.items lines.new.items) }
{
    let outcome = c_outcome(alloc, start)?;
    c_lines(alloc, start, outcome, lines)
}

// How the C function ends.
fn c_outcome(alloc: Global, start: Start<'_>) -> Result<COutcome, AllocError>
    requires { IsStart start }
    ensures { IfOk result (HasCEnd start.entry) }
{
    let generated = plain_unit(alloc, start.unit)?;
    let arguments = arguments_of(alloc, start.unit, start.function, start.memory)?;
    let globals = globals_of(alloc, start.unit, start.memory)?;
    let heap = start.heap.copy(alloc)?;
    let turns = start.memory.turns;
    let fill = start.memory.fill;
    let state = CState { heap, globals };
    Ok(run_simpl(
        alloc,
        &generated,
        start.position,
        &arguments,
        state,
        turns,
        fill,
    ))
}

// The Simpl of a text, with every function on bytes.
fn plain_unit(alloc: Global, unit: &TypedUnit) -> Result<SimplUnit, AllocError>
    ensures { IfOk result
        (λ u. simpl_unit_of u ≡ rules.generated (unit_of unit.now) plain) }
{
    let modes = plain_modes(alloc, unit)?;
    generate(alloc, unit, &modes)
}

// Each function on bytes.
fn plain_modes(alloc: Global, unit: &TypedUnit) -> Result<Modes, AllocError>
    ensures { IfOk result (λ modes. AreLevels (unit_of unit.now) modes plain) }
{
    let mut levels = Vec::new(alloc);
    let mut rest = unit.functions.as_slice();
    'functions: while let Some((_function, others)) = rest.split_first() {
        levels.push(Level::Bytes)?;
        rest = others;
    }
    Ok(Modes { levels })
}

// The lines of an end of the C function.
fn c_lines(
    alloc: Global,
    start: Start<'_>,
    outcome: COutcome,
    lines: &mut Vec<u8>,
) -> Result<Came, AllocError>
    requires start { IsStart start }
    requires ends { HasCEnd start outcome }
    ensures { IfOk result (CSide start.entry lines.old.items lines.new.items) }
{
    match outcome {
        COutcome::Value(value, state) => {
            write_c_value(
                alloc,
                start.unit,
                start.function,
                start.memory,
                &value,
                &state.heap,
                &state.globals,
                lines,
            )?;
            Ok(Came::Value)
        }
        COutcome::Guard(kind) => c_stop(CStop::Guard(kind), lines),
        COutcome::OutOfTurns => c_stop(CStop::OutOfTurns, lines),
        COutcome::Deep => c_stop(CStop::Deep, lines),
        COutcome::Memory => Err(AllocError),
    }
}

// The line of an end that gives nothing.
fn c_stop(stop: CStop, lines: &mut Vec<u8>) -> Result<Came, AllocError>
    ensures { (u : typed.TypedUnit) (f : typed.TypedFn) (m : memories.Memory) →
        IfOk result (λ came. (came ≡ c_came (c_stop_of stop)) × (lines.new.items
        ≡ lines.old.items ++ texts.c_lines u f m (c_stop_of stop))) }
{
    write_c_stop(stop, lines)?;
    Ok(Came::Stopped)
}
