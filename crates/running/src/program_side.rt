//! The side of the program: the last program of a certificate is run, on the heap of its level.

ghost use Rattle.std.specs.Prelude.{◌≡◌, ◌++◌, ◌<◌, ◌^◌, List, length, IfOk};
ghost use Rattle.c_lang.specs.Typed as typed;
ghost use Rattle.acceptance.specs.Certificate.{Steps};
ghost use Rattle.certificate_text.specs.CertificateText as certificates;
ghost use Rattle.memory_text.specs.MemoryText as memories;
ghost use Rattle.run_lines.specs.CodeEnds.{program_stop_of};
ghost use Rattle.run_lines.specs.RunLines as texts;
ghost use Rattle.checking.specs.CodeJudged.{IsAcceptedAs};
ghost use Rattle.running.specs.CodeRuns.{HasOutcome, HasProgramEnd, IsStart, ProgramSide, stop_came, unit_at};

use crate::start::{Came, Start};
use ac_interp::{AOutcome, Ran, run_abstract};
use checking::{Accepted, final_text};
use run_lines::{ProgramStop, RunHeap, write_program_stop, write_program_value};
use run_start::{arguments_of, globals_of, views_of};
use std::alloc::{AllocError, Global};

/// Runs the function's program in an accepted certificate, and writes how it ends.
pub(crate) fn program_side(
    alloc: Global,
    start: Start<'_>,
    certificate: &[u8],
    accepted: &Accepted,
    lines: &mut Vec<u8>,
) -> Result<Came, AllocError>
    requires start { IsStart start }
    requires short { length certificate.now < 2 ^ 32 }
    requires accepted { (c : certificates.Certificate)
        × IsAcceptedAs certificate.now (unit_at start) c accepted.now }
    ensures { (c : certificates.Certificate) →
        IsAcceptedAs certificate.now (unit_at start.entry) c accepted.now →
        IfOk result (ProgramSide start.entry c.functions lines.old.items lines.new.items) }
{
    match program_outcome(alloc, start, certificate, accepted)? {
        Ran::Typed(outcome) => end_lines(alloc, start, outcome, lines),
        Ran::Bytes(outcome) => end_lines(alloc, start, outcome, lines),
    }
}

// How the program ends.
fn program_outcome(
    alloc: Global,
    start: Start<'_>,
    certificate: &[u8],
    accepted: &Accepted,
) -> Result<Ran, AllocError>
    requires start { IsStart start }
    requires short { length certificate.now < 2 ^ 32 }
    requires accepted { (c : certificates.Certificate)
        × IsAcceptedAs certificate.now (unit_at start) c accepted.now }
    ensures { (c : certificates.Certificate) →
        IsAcceptedAs certificate.now (unit_at start.entry) c accepted.now →
        IfOk result (HasProgramEnd start.entry c.functions) }
{
    let programs = final_text(alloc, &accepted.generated, certificate, &accepted.index)?;
    let words = arguments_of(alloc, start.unit, start.function, start.memory)?;
    let program = &programs.functions[start.position as usize];
    let arguments = views_of(alloc, &program.params, &words)?;
    let globals = globals_of(alloc, start.unit, start.memory)?;
    let turns = start.memory.turns;
    let fill = start.memory.fill;
    Ok(run_abstract(
        alloc,
        &programs,
        start.position,
        &arguments,
        start.heap,
        globals,
        turns,
        fill,
    ))
}

// The lines of an end of a program.
fn end_lines<H: RunHeap + Drop>(
    alloc: Global,
    start: Start<'_>,
    outcome: AOutcome<H>,
    lines: &mut Vec<u8>,
) -> Result<Came, AllocError>
    requires start { IsStart start }
    requires ends { (cs : List Steps) × HasOutcome H.content start cs outcome }
    ensures { (cs : List Steps) → HasOutcome H.content start.entry cs outcome →
        IfOk result (ProgramSide start.entry cs lines.old.items lines.new.items) }
{
    match outcome {
        AOutcome::Value(value, heap, globals) => {
            write_program_value(
                alloc,
                start.unit,
                start.function,
                start.memory,
                &value,
                &heap,
                &globals,
                lines,
            )?;
            Ok(Came::Value)
        }
        AOutcome::Fails => program_stop(ProgramStop::Fails, lines),
        AOutcome::Wide(op, a, b) => program_stop(ProgramStop::Wide(op, a, b), lines),
        AOutcome::OutOfTurns => program_stop(ProgramStop::OutOfTurns, lines),
        AOutcome::Deep => program_stop(ProgramStop::Deep, lines),
        AOutcome::Memory => Err(AllocError),
    }
}

// The line of an end that gives nothing.
fn program_stop(stop: ProgramStop, lines: &mut Vec<u8>) -> Result<Came, AllocError>
    ensures { (u : typed.TypedUnit) (f : typed.TypedFn) (m : memories.Memory) →
        IfOk result (λ came. (came ≡ stop_came stop) × (lines.new.items
        ≡ lines.old.items ++ texts.program_lines u f m (program_stop_of stop))) }
{
    write_program_stop(stop, lines)?;
    Ok(match stop {
        ProgramStop::Fails => Came::Failed,
        ProgramStop::Wide(_, _, _) | ProgramStop::OutOfTurns | ProgramStop::Deep => Came::Stopped,
    })
}
