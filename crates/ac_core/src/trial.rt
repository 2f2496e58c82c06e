//! A typed text is translated, and the certificate checked.

ghost use Rattle.std.specs.Prelude.{◌≡◌, ◌++◌, OnOk, IfOk, length, map};
ghost use Rattle.c_values.specs.CodeTypes as types;
ghost use Rattle.expression_lang.specs.CodeExpression.{level_of};
ghost use Rattle.c_lang.specs.CodeTyped.{unit_of};
ghost use Rattle.simpl_lang.specs.CodeCommand.{simpl_fn_of};
ghost use Rattle.simpl_lang.specs.Sorted.{same_level};
ghost use Rattle.text_answers.specs.TextAnswer.{IsRead};
ghost use Rattle.answers.specs.declared.status.Status.{Status};
ghost use Rattle.ac_core.specs.Trial.{IsTried, count_at, number_line, trial_lines};

use crate::limits::has_few_locals;
use ac_base::Progress;
use acceptance::check_functions;
use answers::{Answer, Status, push};
use c_lang::tree::TypedUnit;
use c_levels::default_modes;
use c_values::Target;
use certificate_text::{Certificate, Version, write};
use expression_lang::Level;
use itoa::Buffer;
use simpl_gen::generate;
use simpl_lang::SimplFn;
use std::alloc::{AllocError, Global};
use unit_translation::translate_functions;

/// What a trial says of a typed text, at the levels by default.
pub(crate) fn tried<P: Progress>(
    alloc: Global,
    unit: &TypedUnit,
    target: Target,
    progress: &P,
) -> Result<Answer, AllocError>
    requires { IsRead (types.target_of target) (unit_of unit.now) }
    ensures { IfOk result (λ a.
        IsTried (types.target_of target) (unit_of unit.now) a.status a.lines.items) }
{
    let modes = default_modes(alloc, unit, &[], &[])?;
    let generated = generate(alloc, unit, &modes)?;
    if !has_few_locals(&generated) {
        return Err(AllocError);
    }
    let functions = translate_functions(alloc, &generated, progress)?;
    // The kernel is run, though what is translated is proved to be accepted: a trial is a run of both.
    if check_functions(&generated, &functions).is_err() {
        unreachable!()
    }
    let version = Version::Two(target);
    let text = write(alloc, &Certificate { version, functions })?;
    let lines = trial_lines(alloc, &generated.functions, text.len())?;
    Ok(Answer {
        status: Status::Done,
        lines,
    })
}

// The lines of a trial of these functions, whose certificate has so many bytes.
fn trial_lines(alloc: Global, functions: &[SimplFn], bytes: usize) -> Result<Vec<u8>, AllocError>
    ensures { IfOk result (λ lines. lines.items ≡ trial_lines (length functions.now)
        (count_at (level_of Level.Numbers) (map simpl_fn_of functions.now))
        (count_at (level_of Level.Bytes) (map simpl_fn_of functions.now)) bytes) }
{
    let mut lines = Vec::new(alloc);
    push_line(&mut lines, "functions", functions.len())?;
    push_line(&mut lines, "numbers", count_at(Level::Numbers, functions))?;
    push_line(&mut lines, "bytes", count_at(Level::Bytes, functions))?;
    push_line(&mut lines, "certificate", bytes)?;
    push_line(&mut lines, "accepted", functions.len())?;
    Ok(lines)
}

// A word and a number.
fn push_line(lines: &mut Vec<u8>, word: &str, number: usize) -> Result<(), AllocError>
    ensures { OnOk result (lines.new.items ≡ lines.old.items ++ number_line word.now number) }
{
    push(lines, word)?;
    push(lines, " ")?;
    push(lines, Buffer::new().format(number))?;
    push(lines, "\n")
}

// How many functions are at a level.
fn count_at(level: Level, functions: &[SimplFn]) -> usize
    ensures { result ≡ count_at (level_of level) (map simpl_fn_of functions.now) }
{
    let mut count = 0;
    let mut rest = functions;
    'functions: while let Some((function, others)) = rest.split_first() {
        if is_at(function, level) {
            count += 1;
        }
        rest = others;
    }
    count
}

fn is_at(function: &SimplFn, level: Level) -> bool
    ensures { result ≡ same_level (simpl_fn_of function.now).level (level_of level) }
{
    function.level == level
}
