//! The programs of a typed text, at the levels that options ask for.

ghost use Rattle.std.specs.Prelude.{◌≡◌, None, IfOk, map};
ghost use Rattle.std.specs.HashSet.{contains_text};
ghost use Rattle.c_values.specs.Name.{Name, is_among};
ghost use Rattle.c_lang.specs.CodeTyped.{function_of, unit_of};
ghost use Rattle.simpl_lang.specs.CodeCommand.{simpl_unit_of};
ghost use Rattle.command_line.specs.Words.{target_of, first_unknown};
ghost use Rattle.command_line.specs.CodeCommand.{form_in};
ghost use Rattle.text_answers.specs.TextAnswer.{IsRead};
ghost use Rattle.ac_core.specs.CodeTasks.{options_of, IsGenerated};
ghost use Rattle.ac_core.specs.Written.{gives, is_function, IsWritten};

use crate::certificates::certificate;
use crate::limits::{has_few_locals, has_long_function};
use crate::tasks::Asked;
use abs_print::print;
use ac_base::Progress;
use answers::{Answer, Status, line, unknown_name};
use c_lang::tree::{TypedFn, TypedUnit};
use c_levels::default_modes;
use command_line::{Writing, first_unknown, names_after, target_of};
use simpl_gen::generate;
use simpl_lang::SimplUnit;
use std::alloc::{AllocError, Global};
use std::collections::HashSet;
use unit_text::write_program;
use unit_translation::translate_generated;

/// What is written of a typed text.
pub(crate) fn write_unit<P: Progress>(
    alloc: Global,
    unit: &TypedUnit,
    asked: Asked<'_>,
    progress: &P,
) -> Result<Answer, AllocError>
    requires { IsRead (target_of (options_of asked)) (unit_of unit.now) }
    ensures { IfOk result (λ a. IsWritten (form_in asked.entry.writing) (options_of asked.entry)
        (unit_of unit.now) a.status a.lines.items) }
{
    let functions = function_names(alloc, &unit.functions)?;
    match first_unknown(&functions, asked.options) {
        Some(name) => unknown_name(alloc, name),
        None => write_named(alloc, unit, asked, progress),
    }
}

// The names of functions, to be looked up.
fn function_names(alloc: Global, functions: &[TypedFn]) -> Result<HashSet<String>, AllocError>
    ensures { IfOk result (λ names. (x : Name) → contains_text names x
        ≡ is_among x (map (λ f. f.name) (map function_of functions.now))) }
{
    let mut names = HashSet::new(alloc);
    let mut rest = functions;
    'functions: while let Some((f, others)) = rest.split_first() {
        names.insert(f.name.clone()?)?;
        rest = others;
    }
    Ok(names)
}

// What is written where each function is there that an option names.
fn write_named<P: Progress>(
    alloc: Global,
    unit: &TypedUnit,
    asked: Asked<'_>,
    progress: &P,
) -> Result<Answer, AllocError>
    requires read { IsRead (target_of (options_of asked)) (unit_of unit.now) }
    requires named { first_unknown (is_function (unit_of unit.now)) (options_of asked) ≡ None }
    ensures { IfOk result (λ a. IsWritten (form_in asked.entry.writing) (options_of asked.entry)
        (unit_of unit.now) a.status a.lines.items) }
{
    let bytes = names_after(alloc, "bytes=", asked.options)?;
    let words = names_after(alloc, "words=", asked.options)?;
    let modes = default_modes(alloc, unit, &bytes, &words)?;
    let generated = generate(alloc, unit, &modes)?;
    if has_long_function(&generated) {
        return line(alloc, Status::Limit, "limit: commands\n");
    }
    if !has_few_locals(&generated) {
        return Err(AllocError);
    }
    let lines = written(alloc, unit, generated, asked, progress)?;
    Ok(Answer {
        status: Status::Done,
        lines,
    })
}

// What is written of a unit, once the levels that its functions have are chosen.
fn written<P: Progress>(
    alloc: Global,
    unit: &TypedUnit,
    generated: SimplUnit,
    asked: Asked<'_>,
    progress: &P,
) -> Result<Vec<u8>, AllocError>
    requires read { IsRead (target_of (options_of asked)) (unit_of unit.now) }
    requires named { first_unknown (is_function (unit_of unit.now)) (options_of asked) ≡ None }
    requires generated { IsGenerated (options_of asked) (unit_of unit.now)
        (simpl_unit_of generated) }
    ensures { IfOk result (λ lines. gives (options_of asked.entry) (unit_of unit.now)
        (form_in asked.entry.writing) lines.items) }
{
    match asked.writing {
        Writing::Tree => {
            let programs = translate_generated(alloc, generated, progress)?;
            write_program(alloc, &programs)
        }
        Writing::Notation => {
            let programs = translate_generated(alloc, generated, progress)?;
            print(alloc, &programs)
        }
        Writing::Certificate => certificate(alloc, &generated, asked.options, progress),
    }
}
