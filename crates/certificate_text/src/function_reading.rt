//! Trees read as the steps of functions.

ghost use Rattle.std.specs.Prelude.{◌≡◌, ◌≢◌, option_map, IfSome, IfNone, string_bytes};
ghost use Rattle.ac_sx.specs.CodeSx.{tree_of, trees_in, headed_in, first_of};
ghost use Rattle.expression_lang.specs.Sort as sorts;
ghost use Rattle.expression_lang.specs.CodeExpression.{level_of};
ghost use Rattle.expression_text.specs.CodeFault.{Gives};
ghost use Rattle.expression_text.specs.ExpRows.{with_second};
ghost use Rattle.simpl_lang.specs.CodeCommand.{simpl_of};
ghost use Rattle.monad_lang.specs.CodeProgram.{mon_of};
ghost use Rattle.rule_exn.specs.CodeRule as exceptions;
ghost use Rattle.rule_local.specs.CodeRule as locals;
ghost use Rattle.rule_heap.specs.CodeRule as heaps;
ghost use Rattle.rule_word.specs.CodeRule as words;
ghost use Rattle.rule_eq.specs.CodeRule as equality;
ghost use Rattle.acceptance.specs.CodeCertificate.{step_of, steps_of};
ghost use Rattle.certificate_text.specs.CertificateText as texts;
ghost use Rattle.certificate_text.specs.CertificateReading as reading;
ghost use Rattle.certificate_text.specs.CodeCertificate.{parts_of};

use ac_sx::{Sx, first, headed, two};
use acceptance::{Step, Steps};
use command_text::command_at;
use expression_lang::Level;
use expression_text::{TextFault, name_at, next};
use monad_lang::Mon;
use program_text::{four, mon_at};
use rule_text::{equality_tree_at, exception_tree_at, heap_tree_at, local_tree_at, word_tree_at};
use simpl_lang::Simpl;
use std::alloc::Global;

/// The steps of a function that a tree is.
pub fn function_at(alloc: Global, tree: &Sx, at: u32) -> Result<(Steps, u32), TextFault>
    ensures { Gives steps_of result (reading.function_at at (tree_of tree.now)) }
{
    let Some((word, parts)) = headed(tree) else {
        return Err(TextFault::Shape(at));
    };
    if word == "fun" {
        function_row(alloc, parts, at)
    } else {
        Err(TextFault::Shape(at))
    }
}

// The function of a list at a number, behind its head.
fn function_row(alloc: Global, parts: &[Sx], at: u32) -> Result<(Steps, u32), TextFault>
    ensures { Gives steps_of result
        (reading.function_row at (with_second (first_of (trees_in parts.now)))) }
{
    let Some((name, others)) = first(parts) else {
        return Err(TextFault::Shape(at));
    };
    let Some((level, steps)) = first(others) else {
        return Err(TextFault::Shape(at));
    };
    let Some(steps) = parts_in(steps) else {
        return Err(TextFault::Shape(at));
    };
    function_from(alloc, name, level, &steps, at)
}

// The function of a name, a level and these steps, in a list at a number.
fn function_from(
    alloc: Global,
    name: &Sx,
    level: &Sx,
    steps: &Parts,
    at: u32,
) -> Result<(Steps, u32), TextFault>
    ensures { Gives steps_of result (reading.function_from at (tree_of name.now)
        (tree_of level.now) (Some (parts_of steps.now))) }
{
    let level = level_in(level);
    if !fits(level, steps) {
        return Err(TextFault::Shape(at));
    }
    let (name, here) = name_at(alloc, name, next(next(at)))?;
    let Some(level) = level else {
        return Err(TextFault::Shape(here));
    };
    steps_at(alloc, name, level, steps, next(here))
}

// Whether a function at this level has so many steps.
fn fits(level: Option<Level>, steps: &Parts) -> bool
    ensures { result ≡ reading.fits (option_map level_of level) (parts_of steps.now).heap }
{
    match level {
        None => true,
        Some(Level::Bytes) => steps.heap.is_none(),
        Some(_) => steps.heap.is_some(),
    }
}

fn steps_at(
    alloc: Global,
    name: String,
    level: Level,
    steps: &Parts,
    at: u32,
) -> Result<(Steps, u32), TextFault>
    ensures { Gives steps_of result
        (reading.steps_at (string_bytes name) (level_of level) at (parts_of steps.now)) }
{
    let (exception, here) = exception_at(alloc, steps.exception, at)?;
    let (local, here) = local_at(alloc, steps.local, here)?;
    let (heap, here) = heap_from(alloc, steps.heap, here)?;
    let (word, here) = word_at(alloc, steps.word, here)?;
    let (equal, here) = equal_at(alloc, steps.equal, here)?;
    let steps = Steps {
        name,
        level,
        exception,
        local,
        heap,
        word,
        equal,
    };
    Ok((steps, here))
}

fn heap_from(
    alloc: Global,
    heap: Option<&Sx>,
    at: u32,
) -> Result<(Option<Step<Mon, rule_heap::Rule>>, u32), TextFault>
    ensures { Gives (λ o. option_map (step_of mon_of heaps.rule_of) o) result
        (reading.heap_from at (option_map (λ h. tree_of h.now) heap.entry)) }
{
    match heap {
        Some(heap) => {
            let (step, here) = heap_at(alloc, heap, at)?;
            Ok((Some(step), here))
        }
        None => Ok((None, at)),
    }
}

// The steps of a function: each a list, and that to typed heaps only where there are five.
#[derive(Clone, Copy)]
struct Parts<'a> {
    exception: &'a Sx,
    local: &'a Sx,
    heap: Option<&'a Sx>,
    word: &'a Sx,
    equal: &'a Sx,
}

fn parts_in(parts: &[Sx]) -> Option<Parts<'_>>
    ensures { option_map parts_of result ≡ reading.parts_in (trees_in parts.now) }
{
    if let Some((exception, local, word, equal)) = four(parts) {
        return Some(Parts {
            exception,
            local,
            heap: None,
            word,
            equal,
        });
    }
    let (exception, others) = first(parts)?;
    let (local, heap, word, equal) = four(others)?;
    Some(Parts {
        exception,
        local,
        heap: Some(heap),
        word,
        equal,
    })
}

fn level_in(tree: &Sx) -> Option<Level>
    ensures { option_map level_of result ≡ reading.level_in (tree_of tree.now) }
{
    level_named(tree.word()?)
}

fn level_named(word: &str) -> Option<Level>
    ensures some { IfSome result (λ l. word.now ≡ texts.level_word (level_of l)) }
    ensures none { IfNone result ((l : sorts.Level) → word.now ≢ texts.level_word l) }
{
    match word {
        "bytes" => Some(Level::Bytes),
        "words" => Some(Level::Words),
        "numbers" => Some(Level::Numbers),
        _ => None,
    }
}

// The program and the tree of rules of a step, which is a list of a word and these.
fn step_parts<'a>(tree: &'a Sx, step: &str) -> Option<(&'a Sx, &'a Sx)>
    ensures { option_map (λ x. (tree_of x.0.now, tree_of x.1.now)) result
        ≡ reading.step_parts step.now (headed_in (tree_of tree.now)) }
{
    let (head, parts) = headed(tree)?;
    if head == step { two(parts) } else { None }
}

fn exception_at(
    alloc: Global,
    tree: &Sx,
    at: u32,
) -> Result<(Step<Simpl, rule_exn::Rule>, u32), TextFault>
    ensures { Gives (step_of simpl_of exceptions.rule_of) result
        (reading.exception_at at (tree_of tree.now)) }
{
    let Some((program, rules)) = step_parts(tree, "exception") else {
        return Err(TextFault::Shape(at));
    };
    let (program, here) = command_at(alloc, program, next(next(at)))?;
    let (tree, here) = exception_tree_at(alloc, rules, here)?;
    Ok((Step { program, tree }, here))
}

fn local_at(
    alloc: Global,
    tree: &Sx,
    at: u32,
) -> Result<(Step<Mon, rule_local::Rule>, u32), TextFault>
    ensures { Gives (step_of mon_of locals.rule_of) result
        (reading.local_at at (tree_of tree.now)) }
{
    let Some((program, rules)) = step_parts(tree, "local") else {
        return Err(TextFault::Shape(at));
    };
    let (program, here) = mon_at(alloc, program, next(next(at)))?;
    let (tree, here) = local_tree_at(alloc, rules, here)?;
    Ok((Step { program, tree }, here))
}

fn heap_at(
    alloc: Global,
    tree: &Sx,
    at: u32,
) -> Result<(Step<Mon, rule_heap::Rule>, u32), TextFault>
    ensures { Gives (step_of mon_of heaps.rule_of) result
        (reading.heap_at at (tree_of tree.now)) }
{
    let Some((program, rules)) = step_parts(tree, "heap") else {
        return Err(TextFault::Shape(at));
    };
    let (program, here) = mon_at(alloc, program, next(next(at)))?;
    let (tree, here) = heap_tree_at(alloc, rules, here)?;
    Ok((Step { program, tree }, here))
}

fn word_at(
    alloc: Global,
    tree: &Sx,
    at: u32,
) -> Result<(Step<Mon, rule_word::Rule>, u32), TextFault>
    ensures { Gives (step_of mon_of words.rule_of) result
        (reading.word_at at (tree_of tree.now)) }
{
    let Some((program, rules)) = step_parts(tree, "word") else {
        return Err(TextFault::Shape(at));
    };
    let (program, here) = mon_at(alloc, program, next(next(at)))?;
    let (tree, here) = word_tree_at(alloc, rules, here)?;
    Ok((Step { program, tree }, here))
}

fn equal_at(alloc: Global, tree: &Sx, at: u32) -> Result<(Step<Mon, rule_eq::Rule>, u32), TextFault>
    ensures { Gives (step_of mon_of equality.rule_of) result
        (reading.equal_at at (tree_of tree.now)) }
{
    let Some((program, rules)) = step_parts(tree, "equal") else {
        return Err(TextFault::Shape(at));
    };
    let (program, here) = mon_at(alloc, program, next(next(at)))?;
    let (tree, here) = equality_tree_at(alloc, rules, here)?;
    Ok((Step { program, tree }, here))
}
