//! Which functions call which.

ghost use Rattle.std.specs.Prelude.{◌≡◌, ◌++◌, map, OnOk, IfOk};
ghost use Rattle.std.specs.HashMap.{get_by_text};
ghost use Rattle.c_values.specs.Name.{Name};
ghost use Rattle.c_lang.specs.CodeTyped as typed;
ghost use Rattle.c_meaning.specs.Levels as rules;
ghost use Rattle.c_levels.specs.CodeSpread.{listed};
ghost use Rattle.c_levels.specs.CodeCalls.{call_of, calls_by, calls_from, callers_of};

use c_lang::tree::{Groups, Statement, Statements, TypedFn};
use std::alloc::{AllocError, Global};
use std::collections::HashMap;

/// Each call in functions: the called function, and the position of the one that calls it.
pub(crate) fn calls(
    alloc: Global,
    functions: &[TypedFn],
) -> Result<Vec<(String, usize)>, AllocError>
    ensures { IfOk result
        (λ cs. map call_of cs.items ≡ calls_from 0 (map typed.function_of functions.now)) }
{
    let mut calls = Vec::new(alloc);
    let mut caller = 0;
    let mut rest = functions;
    'rest: while let Some((first, others)) = rest.split_first() {
        add_calls_in(&first.body, caller, &mut calls)?;
        caller += 1;
        rest = others;
    }
    Ok(calls)
}

// The calls in a statement, in the order of the text.
#[cycle(calls)]
#[tactic(auto, using(crate::proofs::CallsBy::by_both))]
fn add_calls(s: &Statement, caller: usize, out: &mut Vec<(String, usize)>) -> Result<(), AllocError>
    ensures { OnOk result (map call_of out.new.items
        ≡ map call_of out.old.items ++ calls_by caller (rules.callees (typed.statement_of s.now))) }
{
    match s {
        Statement::Empty
        | Statement::Declare(_, _)
        | Statement::Assign(_, _)
        | Statement::Break
        | Statement::Continue
        | Statement::ReturnNothing
        | Statement::Return(_) => Ok(()),
        Statement::Block(statements) => add_calls_in(statements, caller, out),
        Statement::Call(_, function, _, _) => Ok(out.push((function.clone()?, caller))?),
        Statement::If(_, a, b) => {
            add_calls(a, caller, out)?;
            add_calls(b, caller, out)
        }
        Statement::While(_, body) | Statement::DoWhile(_, body, _) => {
            add_calls(body, caller, out)
        }
        Statement::For(init, _, step, body) => {
            add_calls_in(init, caller, out)?;
            add_calls(step, caller, out)?;
            add_calls(body, caller, out)
        }
        Statement::Switch(_, _, _, groups) => add_calls_of(groups, caller, out),
    }
}

#[cycle(calls)]
#[tactic(auto, using(crate::proofs::CallsBy::by_both))]
fn add_calls_in(
    statements: &Statements,
    caller: usize,
    out: &mut Vec<(String, usize)>,
) -> Result<(), AllocError>
    ensures { OnOk result (map call_of out.new.items
        ≡ map call_of out.old.items
        ++ calls_by caller (rules.callees_in (typed.statements_of statements.now))) }
{
    match statements {
        Statements::None => Ok(()),
        Statements::Next(first, rest) => {
            add_calls(first, caller, out)?;
            add_calls_in(rest, caller, out)
        }
    }
}

#[cycle(calls)]
#[tactic(auto, using(crate::proofs::CallsBy::by_both))]
fn add_calls_of(
    groups: &Groups,
    caller: usize,
    out: &mut Vec<(String, usize)>,
) -> Result<(), AllocError>
    ensures { OnOk result (map call_of out.new.items
        ≡ map call_of out.old.items
        ++ calls_by caller (rules.callees_of (typed.groups_of groups.now))) }
{
    match groups {
        Groups::None => Ok(()),
        Groups::Next(_, _, body, rest) => {
            add_calls_in(body, caller, out)?;
            add_calls_of(rest, caller, out)
        }
    }
}

/// The positions of the callers of each function that is called.
pub(crate) fn callers(
    alloc: Global,
    calls: &[(String, usize)],
) -> Result<HashMap<String, Vec<usize>>, AllocError>
    ensures { IfOk result (λ m. (q : Name) → listed (get_by_text m q) ≡ callers_of calls.now q) }
{
    let mut callers: HashMap<String, Vec<usize>> = HashMap::new(alloc);
    for (callee, caller) in calls {
        callers.entry(callee.clone()?)?.or_default().push(*caller)?;
    }
    Ok(callers)
}
