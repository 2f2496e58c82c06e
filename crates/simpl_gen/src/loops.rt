//! Loops around bodies that are generated already.

ghost use Rattle.std.specs.Prelude.{◌≡◌, ◌++◌, map, OnOk, IfOk};
ghost use Rattle.c_lang.specs.CodeTyped as typed;
ghost use Rattle.expression_lang.specs.CodeExpression.{exp_of, level_of};
ghost use Rattle.simpl_lang.specs.Command.{Seq};
ghost use Rattle.simpl_lang.specs.CodeCommand.{condition_of, simpl_of};
ghost use Rattle.generation.specs.Guards.{guards, truth};
ghost use Rattle.generation.specs.Generate as rules;

use crate::commands::{sequence, set};
use crate::jumps::{body_of_loop, loop_with_breaks};
use crate::names::first_local;
use c_lang::tree::{Expr, Test};
use c_values::Layout;
use expression_lang::{Exp, Level};
use simpl_expressions::terms::{implication, not, or, truth_literal, variable};
use simpl_expressions::{add_guards, truth};
use simpl_lang::{Condition, Simpl};
use std::alloc::{AllocError, Global};

/// `while (e) body`
pub(crate) fn while_loop(
    alloc: Global,
    l: &Layout,
    level: Level,
    e: &Expr,
    body: Box<Simpl>,
) -> Result<Box<Simpl>, AllocError>
    ensures { IfOk result
        (λ s. simpl_of s.value ≡ rules.looped (guards l.now (level_of level) (typed.expr_of e.now))
        (truth l.now (typed.expr_of e.now)) (rules.body_of_loop (simpl_of body.value))) }
{
    let mut guards = Vec::new(alloc);
    add_guards(alloc, l, level, e, &mut guards)?;
    let test = truth(alloc, l, e)?;
    let body = body_of_loop(alloc, body)?;
    loop_with_breaks(alloc, guards, test, body)
}

/// `do body while (e);` with its number.
pub(crate) fn do_while(
    alloc: Global,
    l: &Layout,
    level: Level,
    n: u64,
    e: &Expr,
    body: Box<Simpl>,
) -> Result<Box<Simpl>, AllocError>
    ensures { IfOk result
        (λ s. simpl_of s.value
        ≡ rules.do_while n (guards l.now (level_of level) (typed.expr_of e.now))
        (truth l.now (typed.expr_of e.now)) (simpl_of body.value)) }
{
    let mut guards = Vec::new(alloc);
    add_guards(alloc, l, level, e, &mut guards)?;
    let guards = after_first(alloc, n, guards)?;
    let is_first = variable(alloc, first_local(alloc, n)?)?;
    let test = or(alloc, is_first, truth(alloc, l, e)?)?;
    let body = body_of_loop(alloc, body)?;
    let later = set(alloc, first_local(alloc, n)?, truth_literal(alloc, false)?)?;
    let body = sequence(alloc, later, body)?;
    let turns = loop_with_breaks(alloc, guards, test, body)?;
    let first = set(alloc, first_local(alloc, n)?, truth_literal(alloc, true)?)?;
    sequence(alloc, first, turns)
}

// Each condition, but not in front of the first turn.
fn after_first(alloc: Global, n: u64, guards: Vec<Condition>) -> Result<Vec<Condition>, AllocError>
    ensures { IfOk result
        (λ gs. map condition_of gs.items ≡ rules.after_first n (map condition_of guards.items)) }
{
    let mut later = Vec::new(alloc);
    for guard in guards {
        let Condition { kind, exp } = guard;
        let is_first = variable(alloc, first_local(alloc, n)?)?;
        let premise = not(alloc, is_first)?;
        let exp = implication(alloc, premise, exp)?;
        later.push(Condition { kind, exp })?;
    }
    Ok(later)
}

/// `for (..; test; step) body` without what is done first.
pub(crate) fn for_loop(
    alloc: Global,
    l: &Layout,
    level: Level,
    test: &Test,
    step: Box<Simpl>,
    body: Box<Simpl>,
) -> Result<Box<Simpl>, AllocError>
    ensures { IfOk result
        (λ s. simpl_of s.value
        ≡ rules.looped (rules.test_guards l.now (level_of level) (typed.test_of test.now))
        (rules.test_truth l.now (typed.test_of test.now))
        (Seq (rules.body_of_loop (simpl_of body.value)) (simpl_of step.value))) }
{
    let mut guards = Vec::new(alloc);
    add_test_guards(alloc, l, level, test, &mut guards)?;
    let test = test_truth(alloc, l, test)?;
    let body = body_of_loop(alloc, body)?;
    let turn = sequence(alloc, body, step)?;
    loop_with_breaks(alloc, guards, test, turn)
}

fn add_test_guards(
    alloc: Global,
    l: &Layout,
    level: Level,
    test: &Test,
    out: &mut Vec<Condition>,
) -> Result<(), AllocError>
    ensures { OnOk result (map condition_of out.new.items
        ≡ map condition_of out.old.items ++ rules.test_guards l.now (level_of level)
        (typed.test_of test.now)) }
{
    match test {
        Test::Always => Ok(()),
        Test::Tested(e) => add_guards(alloc, l, level, e, out),
    }
}

fn test_truth(alloc: Global, l: &Layout, test: &Test) -> Result<Box<Exp>, AllocError>
    ensures { IfOk result (λ x. exp_of x.value ≡ rules.test_truth l.now (typed.test_of test.now)) }
{
    match test {
        Test::Always => truth_literal(alloc, true),
        Test::Tested(e) => truth(alloc, l, e),
    }
}
