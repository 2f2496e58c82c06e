//! The steps of one function.

ghost use Rattle.std.specs.Prelude.{◌≡◌, IfOk, map, string_bytes};
ghost use Rattle.std.specs.Option.{option_map};
ghost use Rattle.expression_lang.specs.Sort.{is_lifted};
ghost use Rattle.expression_lang.specs.CodeExpression.{kind_of, level_of};
ghost use Rattle.expression_lang.specs.CodeSignature.{signature_of};
ghost use Rattle.ac_expr.specs.SameExp.{same_exp};
ghost use Rattle.simpl_lang.specs.CodeCommand.{simpl_of, simpl_fn_of, simpl_unit_of};
ghost use Rattle.monad_lang.specs.CodeProgram.{mon_of};
ghost use Rattle.rule_exn.specs.CodeRule as exceptions;
ghost use Rattle.rule_exn.specs.Eliminated.{exceptions_eliminated};
ghost use Rattle.rule_local.specs.CodeRule as locals;
ghost use Rattle.rule_local.specs.Units.{outputs_of};
ghost use Rattle.rule_heap.specs.CodeRule as heaps;
ghost use Rattle.rule_word.specs.CodeRule as words;
ghost use Rattle.rule_eq.specs.CodeRule as equality;
ghost use Rattle.acceptance.specs.CodeCertificate.{step_of, steps_of};
ghost use Rattle.pipeline.specs.Made.{exception_made, local_made, heap_made, word_made, tidy_last, steps_with};
ghost use Rattle.unit_translation.specs.CodeTranslated.{IsReadyToLift, program_before};

use acceptance::{Step, Steps};
use expression_lang::{Kind, Level, Signature};
use given_scalars::Unit;
use monad_lang::Mon;
use program_sorts::Phase;
use simpl_lang::{Simpl, SimplFn, SimplUnit};
use std::alloc::{AllocError, Global};
use word_abstract::FunctionKinds;

/// What a certificate has for a function.
pub(crate) fn steps(
    alloc: Global,
    u: &SimplUnit,
    f: &SimplFn,
    s: &Signature,
) -> Result<Steps, AllocError>
    requires ready { IsReadyToLift (simpl_fn_of f.now) (signature_of s.now) }
    ensures { IfOk result (λ c. steps_of c ≡ steps_with tidy_last same_exp
        (simpl_unit_of u.now) (simpl_fn_of f.now) (signature_of s.now)) }
{
    let exception = exception_step(alloc, f)?;
    let local = local_step(alloc, &exception.program, f, s)?;
    let heap = heap_step(alloc, &local.program, f.level)?;
    let word = word_step(alloc, before_words(&local, &heap), u, f, s)?;
    let equal = equal_step(alloc, &word.program, u, s)?;
    Ok(Steps {
        name: f.name.clone()?,
        level: f.level,
        exception,
        local,
        heap,
        word,
        equal,
    })
}

// Exceptions taken out.
fn exception_step(alloc: Global, f: &SimplFn) -> Result<Step<Simpl, rule_exn::Rule>, AllocError>
    ensures { IfOk result (λ step. step_of simpl_of exceptions.rule_of step
        ≡ exception_made (simpl_fn_of f.now)) }
{
    let (program, tree) = exception_elim::translate(alloc, &f.body)?;
    Ok(Step { program, tree })
}

// Locals lifted.
fn local_step(
    alloc: Global,
    flat: &Simpl,
    f: &SimplFn,
    s: &Signature,
) -> Result<Step<Mon, rule_local::Rule>, AllocError>
    requires ready { IsReadyToLift (simpl_fn_of f.now) (signature_of s.now) }
    requires flat { simpl_of flat.now ≡ (exceptions_eliminated (simpl_of f.now.body)).right }
    ensures { IfOk result (λ step. step_of mon_of locals.rule_of step
        ≡ local_made (simpl_fn_of f.now) (signature_of s.now)) }
{
    let context = rule_local::Context {
        locals: &f.locals,
        parameters: &s.params,
    };
    let outputs = outputs(alloc, s.result)?;
    let (program, tree) = local_lift::translate(alloc, flat, context, &outputs)?;
    Ok(Step { program, tree })
}

// The local that holds the result, where there is one.
fn outputs(alloc: Global, given: Option<Kind>) -> Result<Vec<String>, AllocError>
    ensures { IfOk result
        (λ xs. map string_bytes xs.items ≡ outputs_of (option_map kind_of given)) }
{
    let mut outputs = Vec::new(alloc);
    if given.is_some() {
        outputs.push(String::from_str(alloc, "$ret")?)?;
    }
    Ok(outputs)
}

// Loads made reads, of a function on typed heaps.
fn heap_step(
    alloc: Global,
    left: &Mon,
    level: Level,
) -> Result<Option<Step<Mon, rule_heap::Rule>>, AllocError>
    ensures { IfOk result (λ step. option_map (step_of mon_of heaps.rule_of) step
        ≡ heap_made (is_lifted (level_of level)) (mon_of left.now)) }
{
    match level {
        Level::Bytes => Ok(None),
        Level::Words | Level::Numbers => {
            let (program, tree) = heap_lift::translate(alloc, left)?;
            Ok(Some(Step { program, tree }))
        }
    }
}

// The program before words become numbers.
fn before_words<'a>(
    local: &'a Step<Mon, rule_local::Rule>,
    heap: &'a Option<Step<Mon, rule_heap::Rule>>,
) -> &'a Mon
    ensures { mon_of result.now ≡ program_before (step_of mon_of locals.rule_of local.now)
        (option_map (step_of mon_of heaps.rule_of) heap.now) }
{
    match heap {
        Some(step) => &step.program,
        None => &local.program,
    }
}

// Words made numbers, where the function's level says so.
fn word_step(
    alloc: Global,
    left: &Mon,
    u: &SimplUnit,
    f: &SimplFn,
    s: &Signature,
) -> Result<Step<Mon, rule_word::Rule>, AllocError>
    ensures { IfOk result (λ step. step_of mon_of words.rule_of step
        ≡ word_made same_exp (simpl_unit_of u.now) (simpl_fn_of f.now) (signature_of s.now)
        (mon_of left.now)) }
{
    let context = rule_word::Context {
        layout: &u.layout,
        globals: &u.globals,
        functions: &u.signatures,
    };
    let kinds = FunctionKinds {
        params: &s.params,
        result: s.result,
        locals: &f.locals,
    };
    let (program, tree) = word_abstract::translate(alloc, left, f.level, context, kinds)?;
    Ok(Step { program, tree })
}

// Made tidy.
fn equal_step(
    alloc: Global,
    left: &Mon,
    u: &SimplUnit,
    s: &Signature,
) -> Result<Step<Mon, rule_eq::Rule>, AllocError>
    ensures { IfOk result (λ step. step_of mon_of equality.rule_of step
        ≡ tidy_last (simpl_unit_of u.now) (signature_of s.now) (mon_of left.now)) }
{
    let unit = Unit {
        layout: &u.layout,
        globals: &u.globals,
        functions: &u.signatures,
        phase: Phase::OnNumbers,
    };
    let (program, tree) = polish::translate(alloc, left, unit, &s.params)?;
    Ok(Step { program, tree })
}
