//! Calls, and what becomes of their results.

ghost use Rattle.std.specs.Prelude.{◌≡◌, ◌++◌, Some, map, string_bytes, OnOk, IfOk};
ghost use Rattle.c_values.specs.CodeTypes.{type_of};
ghost use Rattle.c_lang.specs.Typed as C;
ghost use Rattle.c_lang.specs.CodeTyped as typed;
ghost use Rattle.expression_lang.specs.Expression.{Var};
ghost use Rattle.expression_lang.specs.CodeExpression.{exp_of, level_of};
ghost use Rattle.simpl_lang.specs.Command.{Set, Seq, Call};
ghost use Rattle.simpl_lang.specs.Exec.{result_local};
ghost use Rattle.simpl_lang.specs.CodeCommand.{condition_of, simpl_of};
ghost use Rattle.generation.specs.Guards as values;
ghost use Rattle.generation.specs.Generate as rules;

use crate::assignments::{add_target_guards, assignment};
use crate::commands::{sequence, set, with_guards};
use crate::jumps::{Jump, jump_out};
use crate::names::{call_local, result_local};
use c_lang::tree::{Destination, Expr, Use};
use c_values::{CType, Layout};
use expression_lang::{Exp, Level};
use simpl_expressions::scalars::bits_of_type;
use simpl_expressions::terms::{cast_to, variable};
use simpl_expressions::{add_guards, value};
use simpl_lang::{Condition, Simpl};
use std::alloc::{AllocError, Global};

/// A call with its number, and what becomes of its result.
pub(crate) fn call(
    alloc: Global,
    l: &Layout,
    level: Level,
    n: u64,
    function: &String,
    arguments: &[Expr],
    used: &Use,
) -> Result<Box<Simpl>, AllocError>
    ensures { IfOk result (λ s. simpl_of s.value
        ≡ rules.call_of l.now (level_of level) n (string_bytes function.now)
        (map typed.expr_of arguments.now) (typed.use_of used.now)) }
{
    let mut guards = Vec::new(alloc);
    add_argument_guards(alloc, l, level, arguments, &mut guards)?;
    let values = values(alloc, l, arguments)?;
    let call = used_call(alloc, l, level, n, function.clone()?, values, used)?;
    with_guards(alloc, guards, call)
}

// The same, the arguments being values.
fn used_call(
    alloc: Global,
    l: &Layout,
    level: Level,
    n: u64,
    function: String,
    arguments: Vec<Exp>,
    used: &Use,
) -> Result<Box<Simpl>, AllocError>
    ensures { IfOk result (λ s. simpl_of s.value
        ≡ rules.call l.now (level_of level) n (string_bytes function) (map exp_of arguments.items)
        (typed.use_of used.now)) }
{
    match used {
        Use::NoResult => Ok(Box::new(alloc, Simpl::Call(None, function, arguments))?),
        Use::Ignored(_) => kept_call(alloc, n, function, arguments),
        Use::Assigned(from, target) => {
            let call = kept_call(alloc, n, function, arguments)?;
            let assigned = assigned_result(alloc, l, level, n, from, target)?;
            sequence(alloc, call, assigned)
        }
        Use::Returned(from, to) => {
            let call = kept_call(alloc, n, function, arguments)?;
            let returned = returned_result(alloc, l, n, from, to)?;
            sequence(alloc, call, returned)
        }
    }
}

// A call that leaves its result in the call's local.
fn kept_call(
    alloc: Global,
    n: u64,
    function: String,
    arguments: Vec<Exp>,
) -> Result<Box<Simpl>, AllocError>
    ensures { IfOk result (λ s. simpl_of s.value
        ≡ Call (Some (rules.call_local n)) (string_bytes function) (map exp_of arguments.items)) }
{
    let local = call_local(alloc, n)?;
    Ok(Box::new(alloc, Simpl::Call(Some(local), function, arguments))?)
}

// A call's result goes to its target.
fn assigned_result(
    alloc: Global,
    l: &Layout,
    level: Level,
    n: u64,
    from: &CType,
    target: &Destination,
) -> Result<Box<Simpl>, AllocError>
    ensures { IfOk result (λ s. simpl_of s.value
        ≡ rules.guarded
        (rules.target_guards l.now (level_of level) (typed.destination_of target.now))
        (rules.assignment l.now (typed.destination_of target.now)
        (values.conversion l.now.target (C.target_type (typed.destination_of target.now))
        (type_of from.now) (Var (rules.call_local n))))) }
{
    let mut guards = Vec::new(alloc);
    add_target_guards(alloc, l, level, target, &mut guards)?;
    let value = converted_result(alloc, l, n, from, target.ty())?;
    let assignment = assignment(alloc, l, target, value)?;
    with_guards(alloc, guards, assignment)
}

// A call's result is the function's.
fn returned_result(
    alloc: Global,
    l: &Layout,
    n: u64,
    from: &CType,
    to: &CType,
) -> Result<Box<Simpl>, AllocError>
    ensures { IfOk result (λ s. simpl_of s.value
        ≡ Seq (Set result_local (values.conversion l.now.target (type_of to.now) (type_of from.now)
        (Var (rules.call_local n)))) (rules.jump rules.returned)) }
{
    let value = converted_result(alloc, l, n, from, to)?;
    let result = set(alloc, result_local(alloc)?, value)?;
    let jump = jump_out(alloc, Jump::Return)?;
    sequence(alloc, result, jump)
}

fn converted_result(
    alloc: Global,
    l: &Layout,
    n: u64,
    from: &CType,
    to: &CType,
) -> Result<Box<Exp>, AllocError>
    ensures { IfOk result (λ e. exp_of e.value
        ≡ values.conversion l.now.target (type_of to.now) (type_of from.now)
        (Var (rules.call_local n))) }
{
    let value = variable(alloc, call_local(alloc, n)?)?;
    let width = bits_of_type(l.target(), to).width;
    cast_to(alloc, width, bits_of_type(l.target(), from), value)
}

// The values of arguments.
fn values(alloc: Global, l: &Layout, arguments: &[Expr]) -> Result<Vec<Exp>, AllocError>
    ensures { IfOk result
        (λ es. map exp_of es.items ≡ values.exps l.now (map typed.expr_of arguments.now)) }
{
    let mut values = Vec::new(alloc);
    let mut rest = arguments;
    'rest: while let Some((first, others)) = rest.split_first() {
        values.push(Box::into_inner(value(alloc, l, first)?))?;
        rest = others;
    }
    Ok(values)
}

// What has to hold before the arguments have values.
fn add_argument_guards(
    alloc: Global,
    l: &Layout,
    level: Level,
    arguments: &[Expr],
    out: &mut Vec<Condition>,
) -> Result<(), AllocError>
    ensures { OnOk result (map condition_of out.new.items
        ≡ map condition_of out.old.items ++ values.argument_guards l.now (level_of level)
        (map typed.expr_of arguments.now)) }
{
    let mut rest = arguments;
    'rest: while let Some((first, others)) = rest.split_first() {
        add_guards(alloc, l, level, first, out)?;
        rest = others;
    }
    Ok(())
}
