//! The programs of a unit, written.

ghost use Rattle.std.specs.Prelude.{◌≡◌, IfOk, OnOk, map};
ghost use Rattle.ac_sx.specs.Tree.{Node};
ghost use Rattle.ac_sx.specs.Writing.{written, all_written};
ghost use Rattle.expression_lang.specs.CodeExpression.{kind_of, level_of};
ghost use Rattle.expression_lang.specs.CodeSignature.{binder_of};
ghost use Rattle.expression_text.specs.Lists.{trees_for};
ghost use Rattle.monad_lang.specs.CodeProgram.{final_fn_of, final_unit_of};
ghost use Rattle.program_text.specs.Kinds.{kind_tree};
ghost use Rattle.certificate_text.specs.CertificateText.{level_word};
ghost use Rattle.unit_text.specs.UnitText.{parameter_tree, function_tree, unit_tree, unit_text};

use ac_sx::{Speller, TreeWriter};
use expression_lang::{Binder, Kind, Level};
use expression_text::begin_list;
use monad_lang::{FinalFn, FinalUnit};
use program_text::{kind_into, mon_into};
use std::alloc::{AllocError, Global};

/// The text of a unit's programs, with the line's end behind it.
pub fn write_program(alloc: Global, unit: &FinalUnit) -> Result<Vec<u8>, AllocError>
    ensures { IfOk result (λ text. text.items ≡ unit_text (final_unit_of unit.now)) }
{
    let mut text = Speller::new(alloc);
    unit_into(alloc, &mut text, unit)?;
    text.finish()
}

fn unit_into<W: TreeWriter>(alloc: Global, out: &mut W, unit: &FinalUnit) -> Result<(), AllocError>
    ensures { OnOk result (W.state out.new
        ≡ written W.writing (W.state out.old) (unit_tree (final_unit_of unit.now))) }
{
    begin_list(out, "program")?;
    functions_into(alloc, out, &unit.functions)?;
    out.leave()
}

fn functions_into<W: TreeWriter>(
    alloc: Global,
    out: &mut W,
    functions: &[FinalFn],
) -> Result<(), AllocError>
    ensures { OnOk result (W.state out.new ≡ all_written W.writing (W.state out.old)
        (trees_for function_tree (map final_fn_of functions.now))) }
{
    let mut rest = functions;
    'functions: while let Some((function, others)) = rest.split_first() {
        function_into(alloc, out, function)?;
        rest = others;
    }
    Ok(())
}

// A function: its name, its level, its parameters, the kinds of its results and its program.
fn function_into<W: TreeWriter>(
    alloc: Global,
    out: &mut W,
    function: &FinalFn,
) -> Result<(), AllocError>
    ensures { OnOk result (W.state out.new
        ≡ written W.writing (W.state out.old) (function_tree (final_fn_of function.now))) }
{
    out.enter()?;
    out.atom(function.name.as_str())?;
    out.atom(word_of(function.level))?;
    parameters_into(out, &function.params)?;
    kinds_into(out, &function.results)?;
    mon_into(alloc, out, &function.body)?;
    out.leave()
}

fn word_of(level: Level) -> &'static str
    ensures { result.now ≡ level_word (level_of level) }
{
    match level {
        Level::Bytes => "bytes",
        Level::Words => "words",
        Level::Numbers => "numbers",
    }
}

fn parameters_into<W: TreeWriter>(out: &mut W, parameters: &[Binder]) -> Result<(), AllocError>
    ensures { OnOk result (W.state out.new ≡ written W.writing (W.state out.old)
        (Node (trees_for parameter_tree (map binder_of parameters.now)))) }
{
    out.enter()?;
    let mut rest = parameters;
    'parameters: while let Some((parameter, others)) = rest.split_first() {
        parameter_into(out, parameter)?;
        rest = others;
    }
    out.leave()
}

fn parameter_into<W: TreeWriter>(out: &mut W, parameter: &Binder) -> Result<(), AllocError>
    ensures { OnOk result (W.state out.new
        ≡ written W.writing (W.state out.old) (parameter_tree (binder_of parameter.now))) }
{
    out.enter()?;
    out.atom(parameter.name.as_str())?;
    kind_into(out, parameter.kind)?;
    out.leave()
}

fn kinds_into<W: TreeWriter>(out: &mut W, kinds: &[Kind]) -> Result<(), AllocError>
    ensures { OnOk result (W.state out.new
        ≡ written W.writing (W.state out.old)
        (Node (trees_for kind_tree (map kind_of kinds.now)))) }
{
    out.enter()?;
    let mut rest = kinds;
    'kinds: while let Some((kind, others)) = rest.split_first() {
        kind_into(out, *kind)?;
        rest = others;
    }
    out.leave()
}
