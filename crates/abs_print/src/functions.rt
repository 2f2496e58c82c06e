//! Functions, and units.

ghost use Rattle.std.specs.Prelude.{◌≡◌, ◌++◌, map, IfOk, OnOk};
ghost use Rattle.expression_lang.specs.CodeExpression.{kind_of};
ghost use Rattle.monad_lang.specs.CodeProgram.{mon_of, final_fn_of, final_unit_of};
ghost use Rattle.abs_print.specs.Programs.{deeper, lines, results_text, head_line, lines_text, unit_text};

use crate::programs::push_lines;
use crate::steps::push_kind;
use crate::texts::{Shown, push, push_each_after, push_parted};
use expression_lang::{Binder, Kind};
use monad_lang::{FinalFn, FinalUnit, Mon};
use std::alloc::{AllocError, Global};

/// The text of a unit's programs in do-notation: for each function a line with its name, its
/// parameters and its results, and below it the lines of its program.
#[tactic(auto, using(crate::proofs::Seen::functions_seen))]
pub fn print(alloc: Global, unit: &FinalUnit) -> Result<Vec<u8>, AllocError>
    ensures { IfOk result (λ text. text.items ≡ unit_text (final_unit_of unit.now)) }
{
    let mut out = Vec::new(alloc);
    push_parted(&mut out, "\n", unit.functions.as_slice())?;
    Ok(out)
}

impl Shown for FinalFn {
    ghost use Rattle.monad_lang.specs.CodeProgram.{final_fn_of};
    ghost use Rattle.abs_print.specs.Programs.{function_text};

    ghost text = { λ f. function_text (final_fn_of f) };

    fn push_to(&self, out: &mut Vec<u8>) -> Result<(), AllocError> {
        push_head(out, self)?;
        push(out, "\n")?;
        push_body(out, &self.body)
    }
}

// The lines of a function's program.
fn push_body(out: &mut Vec<u8>, body: &Mon) -> Result<(), AllocError>
    ensures { OnOk result
        (out.new.items ≡ out.old.items ++ lines_text (deeper (lines (mon_of body.now)))) }
{
    let mut margin = Vec::new(*out.allocator());
    push(&mut margin, "  ")?;
    push_lines(out, &mut margin, body)
}

// A function's name, its parameters and its results.
fn push_head(out: &mut Vec<u8>, function: &FinalFn) -> Result<(), AllocError>
    ensures { OnOk result
        (out.new.items ≡ out.old.items ++ head_line (final_fn_of function.now)) }
{
    push(out, function.name.as_str())?;
    push_each_after(out, " ", function.params.as_slice())?;
    push(out, " : ")?;
    push_results(out, function.results.as_slice())
}

fn push_results(out: &mut Vec<u8>, results: &[Kind]) -> Result<(), AllocError>
    ensures { OnOk result
        (out.new.items ≡ out.old.items ++ results_text (map kind_of results.now)) }
{
    if results.is_empty() {
        push(out, "unit")
    } else {
        push_parted(out, ", ", results)
    }
}

impl Shown for Binder {
    ghost use Rattle.expression_lang.specs.CodeSignature.{binder_of};
    ghost use Rattle.abs_print.specs.Programs.{binder_text};

    ghost text = { λ binder. binder_text (binder_of binder) };

    fn push_to(&self, out: &mut Vec<u8>) -> Result<(), AllocError> {
        push(out, "(")?;
        push(out, self.name.as_str())?;
        push(out, " : ")?;
        push_kind(out, self.kind)?;
        push(out, ")")
    }
}
