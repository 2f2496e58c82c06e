//! Jumps: return, break and continue, which are exceptions that `$exn` tells apart.

ghost use Rattle.std.specs.Prelude.{◌≡◌, pos, map, IfOk};
ghost use Rattle.expression_lang.specs.CodeExpression.{exp_of};
ghost use Rattle.simpl_lang.specs.Command.{Catch};
ghost use Rattle.simpl_lang.specs.CodeCommand.{condition_of, simpl_of};
ghost use Rattle.generation.specs.Generate as rules;
ghost use Rattle.simpl_gen.specs.CodeJump.{exception_of};

use crate::commands::{conditional, sequence, set, skip};
use crate::names::exception_local;
use expression_lang::Exp;
use simpl_expressions::terms::{equal, int_literal, variable};
use simpl_lang::{Condition, Simpl};
use std::alloc::{AllocError, Global};

/// Why a command ends abruptly.
#[derive(Clone, Copy)]
pub(crate) enum Jump {
    Return,
    Break,
    Continue,
}

// The value of `$exn` then.
fn exception(jump: Jump) -> u64
    ensures { pos result ≡ exception_of jump }
{
    match jump {
        Jump::Return => 1,
        Jump::Break => 2,
        Jump::Continue => 3,
    }
}

/// The command that ends the commands around it abruptly: `$exn` says why, and then they are thrown
/// out of.
pub(crate) fn jump_out(alloc: Global, jump: Jump) -> Result<Box<Simpl>, AllocError>
    ensures { IfOk result (λ s. simpl_of s.value ≡ rules.jump (exception_of jump)) }
{
    let exception = int_literal(alloc, exception(jump))?;
    let reason = set(alloc, exception_local(alloc)?, exception)?;
    sequence(alloc, reason, Box::new(alloc, Simpl::Throw)?)
}

// Goes on after a jump of this kind, and throws anything else on.
fn stops_at(alloc: Global, jump: Jump) -> Result<Box<Simpl>, AllocError>
    ensures { IfOk result (λ s. simpl_of s.value ≡ rules.stops_at (exception_of jump)) }
{
    let found = variable(alloc, exception_local(alloc)?)?;
    let test = equal(alloc, found, int_literal(alloc, exception(jump))?)?;
    let throw = Box::new(alloc, Simpl::Throw)?;
    conditional(alloc, test, skip(alloc)?, throw)
}

/// A command that a break ends.
pub(crate) fn until_break(alloc: Global, s: Box<Simpl>) -> Result<Box<Simpl>, AllocError>
    ensures { IfOk result
        (λ t. simpl_of t.value ≡ Catch (simpl_of s.value) (rules.stops_at rules.broken)) }
{
    let stop = stops_at(alloc, Jump::Break)?;
    Ok(Box::new(alloc, Simpl::Catch(s, stop))?)
}

/// The body of a loop, which a continue ends.
pub(crate) fn body_of_loop(alloc: Global, s: Box<Simpl>) -> Result<Box<Simpl>, AllocError>
    ensures { IfOk result (λ t. simpl_of t.value ≡ rules.body_of_loop (simpl_of s.value)) }
{
    let stop = stops_at(alloc, Jump::Continue)?;
    Ok(Box::new(alloc, Simpl::Catch(s, stop))?)
}

/// A loop, which a break ends.
pub(crate) fn loop_with_breaks(
    alloc: Global,
    guards: Vec<Condition>,
    test: Box<Exp>,
    s: Box<Simpl>,
) -> Result<Box<Simpl>, AllocError>
    ensures { IfOk result
        (λ t. simpl_of t.value ≡ rules.looped (map condition_of guards.items) (exp_of test.value)
        (simpl_of s.value)) }
{
    let turns = Box::new(alloc, Simpl::While(guards, Box::into_inner(test), s))?;
    until_break(alloc, turns)
}
