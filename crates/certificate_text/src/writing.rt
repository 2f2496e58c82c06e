//! Certificates, written.

ghost use Rattle.std.specs.Prelude.{◌≡◌, IfOk, OnOk, codes, map};
ghost use Rattle.std.specs.Option.{option_map};
ghost use Rattle.c_values.specs.CodeTypes.{target_of};
ghost use Rattle.expression_lang.specs.CodeExpression.{level_of};
ghost use Rattle.monad_lang.specs.CodeProgram.{mon_of};
ghost use Rattle.simpl_lang.specs.CodeCommand.{simpl_of};
ghost use Rattle.program_text.specs.MonText.{mon_tree};
ghost use Rattle.command_text.specs.CommandText.{command_tree};
ghost use Rattle.rule_exn.specs.CodeRule as exceptions;
ghost use Rattle.rule_local.specs.CodeRule as locals;
ghost use Rattle.rule_heap.specs.CodeRule as heaps;
ghost use Rattle.rule_word.specs.CodeRule as words;
ghost use Rattle.rule_eq.specs.CodeRule as equality;
ghost use Rattle.rule_text.specs.ExceptionText as exception_texts;
ghost use Rattle.rule_text.specs.LocalText as local_texts;
ghost use Rattle.rule_text.specs.WordText as word_texts;
ghost use Rattle.rule_text.specs.EqualityText as equality_texts;
ghost use Rattle.ac_sx.specs.Tree.{Trees};
ghost use Rattle.ac_sx.specs.Writing.{written, all_written};
ghost use Rattle.expression_text.specs.Lists.{trees_for};
ghost use Rattle.acceptance.specs.CodeCertificate.{step_of, steps_of};
ghost use Rattle.certificate_text.specs.CertificateText.{target_word, level_word, step_tree, heap_before, function_tree, version_trees, certificate_tree, certificate_text};
ghost use Rattle.certificate_text.specs.CodeCertificate.{version_of, certificate_of};

use crate::certificate::{Certificate, Version};
use ac_sx::{Speller, TreeWriter};
use acceptance::{Step, Steps};
use c_values::Target;
use command_text::command_into;
use expression_lang::Level;
use expression_text::begin_list;
use monad_lang::Mon;
use program_text::mon_into;
use rule_text::{equality_into, exception_into, heap_into, local_into, word_into};
use simpl_lang::Simpl;
use std::alloc::{AllocError, Global};

/// The text of a certificate, with the line's end behind it.
pub fn write(alloc: Global, certificate: &Certificate) -> Result<Vec<u8>, AllocError>
    ensures { IfOk result (λ text.
        text.items ≡ certificate_text (certificate_of certificate.now)) }
{
    let mut text = Speller::new(alloc);
    certificate_into(alloc, &mut text, certificate)?;
    text.finish()
}

fn certificate_into<W: TreeWriter>(
    alloc: Global,
    out: &mut W,
    certificate: &Certificate,
) -> Result<(), AllocError>
    ensures { OnOk result (W.state out.new ≡ written W.writing (W.state out.old)
        (certificate_tree (certificate_of certificate.now))) }
{
    begin_list(out, "cert")?;
    version_into(out, certificate.version)?;
    functions_into(alloc, out, &certificate.functions)?;
    out.leave()
}

// What stands before the functions.
fn version_into<W: TreeWriter>(out: &mut W, version: Version) -> Result<(), AllocError>
    ensures { OnOk result ((functions : Trees) →
        all_written W.writing (W.state out.old) (version_trees (version_of version) functions)
        ≡ all_written W.writing (W.state out.new) functions) }
{
    match version {
        Version::One => {
            out.atom("1")?;
            Ok(())
        }
        Version::Two(target) => {
            out.atom("2")?;
            out.atom(target_word(target))?;
            Ok(())
        }
    }
}

fn target_word(target: Target) -> &'static str
    ensures { result.now ≡ target_word (target_of target) }
{
    match target {
        Target::Ilp32 => "ilp32",
        Target::Lp64 => "lp64",
    }
}

fn level_word(level: Level) -> &'static str
    ensures { result.now ≡ level_word (level_of level) }
{
    match level {
        Level::Bytes => "bytes",
        Level::Words => "words",
        Level::Numbers => "numbers",
    }
}

fn functions_into<W: TreeWriter>(
    alloc: Global,
    out: &mut W,
    functions: &[Steps],
) -> Result<(), AllocError>
    ensures { OnOk result (W.state out.new ≡ all_written W.writing (W.state out.old)
        (trees_for function_tree (map steps_of functions.now))) }
{
    let mut rest = functions;
    'functions: while let Some((steps, others)) = rest.split_first() {
        function_into(alloc, out, steps)?;
        rest = others;
    }
    Ok(())
}

// A function: its name, its level and its steps.
fn function_into<W: TreeWriter>(alloc: Global, out: &mut W, steps: &Steps) -> Result<(), AllocError>
    ensures { OnOk result (W.state out.new
        ≡ written W.writing (W.state out.old) (function_tree (steps_of steps.now))) }
{
    begin_list(out, "fun")?;
    out.atom(steps.name.as_str())?;
    out.atom(level_word(steps.level))?;
    exception_step(alloc, out, &steps.exception)?;
    local_step(alloc, out, &steps.local)?;
    heap_step(alloc, out, &steps.heap)?;
    word_step(alloc, out, &steps.word)?;
    equal_step(alloc, out, &steps.equal)?;
    out.leave()
}

fn exception_step<W: TreeWriter>(
    alloc: Global,
    out: &mut W,
    step: &Step<Simpl, rule_exn::Rule>,
) -> Result<(), AllocError>
    ensures { OnOk result (W.state out.new ≡ written W.writing (W.state out.old)
        (step_tree (codes "exception") (command_tree (simpl_of step.now.program.value))
        (exception_texts.text_of (exceptions.tree_of step.now.tree)))) }
{
    begin_list(out, "exception")?;
    command_into(alloc, out, &step.program)?;
    exception_into(alloc, out, &step.tree)?;
    out.leave()
}

fn local_step<W: TreeWriter>(
    alloc: Global,
    out: &mut W,
    step: &Step<Mon, rule_local::Rule>,
) -> Result<(), AllocError>
    ensures { OnOk result (W.state out.new ≡ written W.writing (W.state out.old)
        (step_tree (codes "local") (mon_tree (mon_of step.now.program.value))
        (local_texts.text_of (locals.tree_of step.now.tree)))) }
{
    begin_list(out, "local")?;
    mon_into(alloc, out, &step.program)?;
    local_into(alloc, out, &step.tree)?;
    out.leave()
}

// The step to typed heaps stands before others, where it is there.
fn heap_step<W: TreeWriter>(
    alloc: Global,
    out: &mut W,
    step: &Option<Step<Mon, rule_heap::Rule>>,
) -> Result<(), AllocError>
    ensures { OnOk result ((others : Trees) →
        all_written W.writing (W.state out.old)
        (heap_before (option_map (step_of mon_of heaps.rule_of) step.now) others)
        ≡ all_written W.writing (W.state out.new) others) }
{
    let Some(step) = step else {
        return Ok(());
    };
    begin_list(out, "heap")?;
    mon_into(alloc, out, &step.program)?;
    heap_into(alloc, out, &step.tree)?;
    out.leave()?;
    Ok(())
}

fn word_step<W: TreeWriter>(
    alloc: Global,
    out: &mut W,
    step: &Step<Mon, rule_word::Rule>,
) -> Result<(), AllocError>
    ensures { OnOk result (W.state out.new ≡ written W.writing (W.state out.old)
        (step_tree (codes "word") (mon_tree (mon_of step.now.program.value))
        (word_texts.text_of (words.tree_of step.now.tree)))) }
{
    begin_list(out, "word")?;
    mon_into(alloc, out, &step.program)?;
    word_into(alloc, out, &step.tree)?;
    out.leave()
}

fn equal_step<W: TreeWriter>(
    alloc: Global,
    out: &mut W,
    step: &Step<Mon, rule_eq::Rule>,
) -> Result<(), AllocError>
    ensures { OnOk result (W.state out.new ≡ written W.writing (W.state out.old)
        (step_tree (codes "equal") (mon_tree (mon_of step.now.program.value))
        (equality_texts.text_of (equality.tree_of step.now.tree)))) }
{
    begin_list(out, "equal")?;
    mon_into(alloc, out, &step.program)?;
    equality_into(alloc, out, &step.tree)?;
    out.leave()
}
