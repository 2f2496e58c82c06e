//! The lines that say what became of a certificate.

ghost use Rattle.std.specs.Prelude.{◌≡◌, ◌<◌, ◌^◌, ◌++◌, [], List, map, length, slice_index_or, IfOk, OnOk};
ghost use Rattle.c_values.specs.Name.{Name};
ghost use Rattle.expression_lang.specs.Sort as sorts;
ghost use Rattle.expression_lang.specs.CodeExpression.{level_of};
ghost use Rattle.c_lang.specs.Typed as C;
ghost use Rattle.c_lang.specs.CodeTyped.{function_of, unit_of};
ghost use Rattle.c_meaning.specs.Levels as rules;
ghost use Rattle.c_lang.specs.WellTyped.{IsWellTyped};
ghost use Rattle.c_levels.specs.CodeModes.{AreLevels, IsAt};
ghost use Rattle.certificate_text.specs.CertificateText as texts;
ghost use Rattle.answers.specs.declared.status.Status.{Status};
ghost use Rattle.checking.specs.Checked.{function_names};
ghost use Rattle.checking.specs.Lines.{reason_text, function_line, function_lines, accepted_lines, refusal_line};
ghost use Rattle.checking.specs.Refused.{refused_text};
ghost use Rattle.checking.specs.CodeRefused.{phase_of};

use crate::refused::Phase;
use answers::{Answer, Status, push};
use c_lang::tree::{TypedFn, TypedUnit};
use c_levels::reasons::reason;
use c_levels::{Modes, Reason};
use expression_lang::Level;
use itoa::Buffer;
use std::alloc::{AllocError, Global};

/// The first place that isn't accepted: a function, a step and a node.
pub(crate) fn refusal(
    alloc: Global,
    name: &str,
    phase: &str,
    node: usize,
) -> Result<Answer, AllocError>
    ensures { IfOk result (λ a. (a.status ≡ Status.No)
        × (a.lines.items ≡ refusal_line name.now phase.now node)) }
{
    let mut lines = Vec::from_slice(alloc, b"no: ")?;
    push(&mut lines, name)?;
    push(&mut lines, " ")?;
    push(&mut lines, phase)?;
    push(&mut lines, " ")?;
    push(&mut lines, Buffer::new().format(node))?;
    push(&mut lines, "\n")?;
    Ok(Answer {
        status: Status::No,
        lines,
    })
}

/// The word of what isn't as it should be.
pub(crate) fn phase_word(phase: Phase) -> &'static str
    ensures { result.now ≡ refused_text (phase_of phase) }
{
    match phase {
        Phase::List => "list",
        Phase::Level => "level",
        Phase::Exception => "exception",
        Phase::Local => "local",
        Phase::Heap => "heap",
        Phase::Word => "word",
        Phase::Equal => "equal",
    }
}

/// Each function with its level, and how many there are. So many functions that a `u32` doesn't
/// count them don't stand in memory.
pub(crate) fn accepted(alloc: Global, unit: &TypedUnit, modes: &Modes) -> Result<Answer, AllocError>
    requires typed { IsWellTyped (unit_of unit.now) }
    ensures status { IfOk result (λ a. a.status ≡ Status.Done) }
    ensures lines { IfOk result (λ a. (levels : Name → sorts.Level) →
        AreLevels (unit_of unit.now) modes.now levels →
        a.lines.items ≡ accepted_lines levels (unit_of unit.now).functions) }
{
    let Ok(count) = u32::try_from(unit.functions.len()) else {
        return Err(AllocError);
    };
    let mut lines = function_lines(alloc, unit, modes)?;
    push(&mut lines, "accepted ")?;
    push(&mut lines, Buffer::new().format(count))?;
    push(&mut lines, "\n")?;
    Ok(Answer {
        status: Status::Done,
        lines,
    })
}

// A line for each function.
fn function_lines(alloc: Global, unit: &TypedUnit, modes: &Modes) -> Result<Vec<u8>, AllocError>
    requires typed { IsWellTyped (unit_of unit.now) }
    requires few { length unit.now.functions.items < 2 ^ 32 }
    ensures { IfOk result (λ lines. (levels : Name → sorts.Level) →
        AreLevels (unit_of unit.now) modes.now levels →
        lines.items ≡ function_lines levels (unit_of unit.now).functions) }
{
    let mut lines = Vec::new(alloc);
    let mut at = 0;
    let mut functions = unit.functions.as_slice();
    let mut levels = modes.levels.as_slice();
    'functions: while let Some((function, others)) = functions.split_first() {
        let Some((level, behind)) = levels.split_first() else {
            return Ok(lines);
        };
        add_line(&mut lines, unit, modes, function, *level, at)?;
        at += 1;
        functions = others;
        levels = behind;
    }
    Ok(lines)
}

// A function's line: its name, its level, and on bytes why it has that.
fn add_line(
    lines: &mut Vec<u8>,
    unit: &TypedUnit,
    modes: &Modes,
    function: &TypedFn,
    level: Level,
    at: u32,
) -> Result<(), AllocError>
    requires typed { IsWellTyped (unit_of unit.now) }
    requires few { length unit.now.functions.items < 2 ^ 32 }
    requires position { at < length unit.now.functions.items }
    requires here { IsAt (unit_of unit.now).functions at (function_of function.now) }
    ensures { OnOk result ((levels : Name → sorts.Level) →
        AreLevels (unit_of unit.now) modes.now levels →
        levels (function_of function.now).name ≡ level_of level →
        lines.new.items ≡ lines.old.items ++ function_line levels (function_of function.now)) }
{
    push(lines, function.name.as_str())?;
    push(lines, " ")?;
    push(lines, level_word(level))?;
    match level {
        Level::Bytes => add_reason(lines, unit, modes, at)?,
        Level::Words | Level::Numbers => {}
    }
    push(lines, "\n")
}

fn level_word(level: Level) -> &'static str
    ensures { result.now ≡ texts.level_word (level_of level) }
{
    match level {
        Level::Bytes => "bytes",
        Level::Words => "words",
        Level::Numbers => "numbers",
    }
}

// Why the function at a position works on bytes.
fn add_reason(
    lines: &mut Vec<u8>,
    unit: &TypedUnit,
    modes: &Modes,
    at: u32,
) -> Result<(), AllocError>
    requires typed { IsWellTyped (unit_of unit.now) }
    requires few { length unit.now.functions.items < 2 ^ 32 }
    requires position { at < length unit.now.functions.items }
    ensures { OnOk result ((levels : Name → sorts.Level) (g : C.TypedFn) →
        AreLevels (unit_of unit.now) modes.now levels → IsAt (unit_of unit.now).functions at g →
        lines.new.items ≡ lines.old.items ++ reason_text (rules.reason levels g)) }
{
    match reason(unit, modes, at) {
        Reason::Cast => push(lines, " cast"),
        Reason::Calls(k) => {
            push(lines, " calls ")?;
            push(lines, name_at(&unit.functions, k))
        }
        Reason::Chosen => push(lines, " chosen"),
    }
}

/// The name of the function at a position.
pub(crate) fn name_at(functions: &[TypedFn], k: u32) -> &str
    ensures { result.now ≡ slice_index_or
        (function_names (map function_of functions.now)) k [] }
{
    match functions.get(k as usize) {
        Some(function) => function.name.as_str(),
        None => "",
    }
}
