//! Programs, line by line.

ghost use Rattle.std.specs.Prelude.{◌≡◌, ◌++◌, OnOk};
ghost use Rattle.expression_lang.specs.CodeExpression.{exp_of};
ghost use Rattle.monad_lang.specs.CodeProgram.{mon_of};
ghost use Rattle.monad_lang.specs.Program.{If};
ghost use Rattle.abs_print.specs.Programs.{deeper, as_step, lines};
ghost use Rattle.abs_print.specs.CodeLines.{at_margin, going_on, IsStep};

use crate::steps::{push_line, push_loop, push_names, push_test};
use crate::texts::push;
use expression_lang::Exp;
use monad_lang::Mon;
use std::alloc::AllocError;

/// The lines of a program, each behind the margin. It goes along a sequence by a loop, since a text
/// may have long sequences.
#[cycle(programs)]
#[tactic(auto, using(crate::proofs::Margins::margin_step))]
pub(crate) fn push_lines(
    out: &mut Vec<u8>,
    margin: &mut Vec<u8>,
    program: &Mon,
) -> Result<(), AllocError>
    ensures text { OnOk result (out.new.items
        ≡ out.old.items ++ at_margin margin.old.items (lines (mon_of program.now))) }
    ensures margin { OnOk result (margin.new.items ≡ margin.old.items) }
{
    let mut rest = program;
    'along: loop {
        out.extend_from_slice(margin.as_slice())?;
        match rest {
            Mon::Bind(first, names, last) => {
                push_names(out, names)?;
                push_first(out, margin, first)?;
                rest = &**last;
            }
            Mon::Ret(_)
            | Mon::Guard(_)
            | Mon::If(_, _, _)
            | Mon::Write(_, _)
            | Mon::Loop(_, _, _, _)
            | Mon::Call(_, _)
            | Mon::Pick(_) => return push_step(out, margin, rest),
        }
    }
}

// The lines of a program as a step of a sequence, but for the first one's margin.
#[cycle(programs)]
fn push_first(out: &mut Vec<u8>, margin: &mut Vec<u8>, program: &Mon) -> Result<(), AllocError>
    ensures text { let m = mon_of program.now in OnOk result (out.new.items
        ≡ out.old.items ++ going_on margin.old.items (as_step m (lines m))) }
    ensures margin { OnOk result (margin.new.items ≡ margin.old.items) }
{
    match program {
        Mon::Bind(_, _, _) => {
            push(out, "do\n")?;
            push_deeper(out, margin, program)
        }
        Mon::Ret(_)
        | Mon::Guard(_)
        | Mon::If(_, _, _)
        | Mon::Write(_, _)
        | Mon::Loop(_, _, _, _)
        | Mon::Call(_, _)
        | Mon::Pick(_) => push_step(out, margin, program),
    }
}

// The lines of a program, two spaces deeper.
#[cycle(programs)]
#[tactic(auto, using(crate::proofs::Margins::margin_deeper))]
fn push_deeper(out: &mut Vec<u8>, margin: &mut Vec<u8>, program: &Mon) -> Result<(), AllocError>
    ensures text { OnOk result (out.new.items
        ≡ out.old.items ++ at_margin margin.old.items (deeper (lines (mon_of program.now)))) }
    ensures margin { OnOk result (margin.new.items ≡ margin.old.items) }
{
    let width = margin.len();
    push(margin, "  ")?;
    push_lines(out, margin, program)?;
    margin.truncate(width);
    Ok(())
}

// The lines of a program that is no sequence, but for the first one's margin.
#[cycle(programs)]
#[tactic(auto, using(crate::proofs::Margins::plain_lines))]
fn push_step(out: &mut Vec<u8>, margin: &mut Vec<u8>, program: &Mon) -> Result<(), AllocError>
    requires { IsStep (mon_of program.now) }
    ensures text { OnOk result (out.new.items
        ≡ out.old.items ++ going_on margin.old.items (lines (mon_of program.now))) }
    ensures margin { OnOk result (margin.new.items ≡ margin.old.items) }
{
    match program {
        Mon::If(test, first, last) => push_if(out, margin, test, first, last),
        Mon::Loop(starts, guard, test, body) => {
            push_loop(out, starts, guard, test)?;
            push(out, "\n")?;
            push_deeper(out, margin, body)
        }
        Mon::Ret(_) | Mon::Guard(_) | Mon::Write(_, _) | Mon::Call(_, _) | Mon::Pick(_) => {
            push_line(out, program)?;
            push(out, "\n")
        }
        Mon::Bind(_, _, _) => unreachable!(),
    }
}

#[cycle(programs)]
fn push_if(
    out: &mut Vec<u8>,
    margin: &mut Vec<u8>,
    test: &Exp,
    first: &Mon,
    last: &Mon,
) -> Result<(), AllocError>
    ensures text { OnOk result (out.new.items ≡ out.old.items ++ going_on margin.old.items
        (lines (If (exp_of test.now) (mon_of first.now) (mon_of last.now)))) }
    ensures margin { OnOk result (margin.new.items ≡ margin.old.items) }
{
    push_test(out, test)?;
    push(out, "\n")?;
    push_deeper(out, margin, first)?;
    out.extend_from_slice(margin.as_slice())?;
    push(out, "else\n")?;
    push_deeper(out, margin, last)
}
