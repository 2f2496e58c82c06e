//! Assignments and calls as statements.

ghost use Rattle.c_grammar.specs.CodeTree.{exp_of, rhs_of, simple_of};
ghost use Rattle.c_grammar.specs.Tree as tree;
ghost use Rattle.typing_rules.specs.CodeAnswers.{Answers, RulesAs};
ghost use Rattle.typing_rules.specs.CodeOperand.{operand_of};
ghost use Rattle.typing_statements.specs.CodeCalls.{right_of};
ghost use Rattle.typing_scope.specs.CodeScope.{scope_of};
ghost use Rattle.typing_rules.specs.Simple as rules;
ghost use Rattle.c_lang.specs.CodeTyped.{expr_of, statement_of};

use crate::calls::{Right, assigned, call, calls_alone, right_side};
use c_grammar::tree::{CExp, Rhs, Simple};
use c_grammar::{BinaryOperator, StepOperator};
use c_lang::tree::{Expr, Statement};
use c_values::{IntType, Number};
use std::alloc::Global;
use typing_expressions::{first, place, value};
use typing_rules::copies::value_at;
use typing_rules::fault::TypeFault;
use typing_rules::operands::{Operand, destination};
use typing_rules::operators::{binary, converted};
use typing_rules::rulings::{Refusal, at_node};
use typing_rules::types::form_of;
use typing_scope::scope::Scope;

/// A simple statement.
pub(crate) fn simple(
    alloc: Global,
    simple: &Simple,
    scope: &mut Scope,
) -> Result<Statement, TypeFault>
    ensures { Answers statement_of (scope_of scope.new) result
        (rules.simple (simple_of simple.now) (scope_of scope.old)) }
{
    match simple {
        Simple::Assign(target, source) => assignment(alloc, target, source, scope),
        Simple::Update(op, target, operand) => update(alloc, *op, target, operand, scope),
        Simple::After(step, target) => stepped(alloc, first(target), *step, target, scope),
        Simple::Before(at, step, target) => stepped(alloc, *at, *step, target, scope),
        Simple::Call(c) => Ok(calls_alone(call(alloc, c, scope)?)),
    }
}

// `e = r`
fn assignment(
    alloc: Global,
    target: &CExp,
    source: &Rhs,
    scope: &mut Scope,
) -> Result<Statement, TypeFault>
    ensures { Answers statement_of (scope_of scope.new) result
        (rules.simple (tree.Assign (exp_of target.now) (rhs_of source.now)) (scope_of scope.old)) }
{
    let operand = place(alloc, target, scope)?;
    let source = right_side(alloc, source, scope)?;
    at_node(first(target), assigned_to(alloc, &*scope, operand, source))
}

// The rule of an assignment.
fn assigned_to(
    alloc: Global,
    scope: &Scope,
    operand: Operand,
    source: Right,
) -> Result<Statement, Refusal>
    ensures { RulesAs statement_of result
        (rules.assignment (operand_of operand) (right_of source) (scope_of scope.now)) }
{
    let target = destination(operand)?;
    assigned(alloc, &scope.layout, target, source)
}

// `e op= x`
fn update(
    alloc: Global,
    op: BinaryOperator,
    target: &CExp,
    operand: &CExp,
    scope: &mut Scope,
) -> Result<Statement, TypeFault>
    ensures { Answers statement_of (scope_of scope.new) result
        (rules.simple (tree.Update op (exp_of target.now) (exp_of operand.now))
        (scope_of scope.old)) }
{
    let place = place(alloc, target, scope)?;
    let operand = value(alloc, operand, scope)?;
    at_node(first(target), updated(alloc, &*scope, op, place, operand))
}

// `e++` and its kin.
fn stepped(
    alloc: Global,
    at: usize,
    step: StepOperator,
    target: &CExp,
    scope: &mut Scope,
) -> Result<Statement, TypeFault>
    ensures { Answers statement_of (scope_of scope.new) result
        (rules.simple (tree.Before at step (exp_of target.now)) (scope_of scope.old)) }
{
    let place = place(alloc, target, scope)?;
    at_node(at, stepped_by(alloc, &*scope, step, place))
}

// The rule of a step, which is an addition or a subtraction of 1.
fn stepped_by(
    alloc: Global,
    scope: &Scope,
    step: StepOperator,
    operand: Operand,
) -> Result<Statement, Refusal>
    ensures { RulesAs statement_of result
        (rules.step step (operand_of operand) (scope_of scope.now)) }
{
    let one = Expr::Constant(IntType::Int, Number::new(false, 1));
    match step {
        StepOperator::Increment => updated(alloc, scope, BinaryOperator::Add, operand, one),
        StepOperator::Decrement => updated(alloc, scope, BinaryOperator::Subtract, operand, one),
    }
}

// The rule of `e op= x`, which is `e = e op x`.
fn updated(
    alloc: Global,
    scope: &Scope,
    op: BinaryOperator,
    operand: Operand,
    by: Expr,
) -> Result<Statement, Refusal>
    ensures { RulesAs statement_of result
        (rules.update op (operand_of operand) (expr_of by) (scope_of scope.now)) }
{
    let target = destination(operand)?;
    let before = value_at(alloc, &target)?;
    let after = binary(alloc, &scope.layout, op, before, by)?;
    let after = converted(alloc, &scope.layout, form_of(target.ty()), after)?;
    Ok(Statement::Assign(target, after))
}
