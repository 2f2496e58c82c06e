//! Calls, and what may stand on the right of an assignment, of an initialiser or of a return.

ghost use Rattle.std.specs.Prelude.{◌≡◌, suc, map, IfOk};
ghost use Rattle.std.specs.Option.{option_copied, option_map};
ghost use Rattle.typing_scope.specs.CodeScope.{entity_of, scope_of};
ghost use Rattle.c_values.specs.CodeTypes.{type_of};
ghost use Rattle.c_grammar.specs.CodeTree.{call_of, exp_of, rhs_of};
ghost use Rattle.typing_rules.specs.CodeAnswers.{Answers, RulesAs};
ghost use Rattle.typing_rules.specs.Calls as rules;
ghost use Rattle.typing_statements.specs.CodeCalls.{called_of, right_of};
ghost use Rattle.c_lang.specs.CodeTyped.{destination_of, expr_of, statement_of, use_of};

use c_grammar::tree::{CExp, Call, Rhs};
use c_lang::tree::{Destination, Expr, Statement, Use};
use c_values::{CType, Layout, copy_of};
use std::alloc::Global;
use typing_expressions::value;
use typing_rules::fault::{TypeFault, TypeKind};
use typing_rules::operators::converted;
use typing_rules::progress::following;
use typing_rules::rulings::{Refusal, at_node, refuse};
use typing_rules::types::{Form, form_of};
use typing_scope::results::copy_of_result;
use typing_scope::scope::{Entity, Scope};

/// A call: what it hands over, and what it gives.
#[derive(Debug, Drop)]
pub(crate) struct Called {
    pub(crate) number: u64,
    pub(crate) function: String,
    pub(crate) result: Option<CType>,
    pub(crate) arguments: Vec<Expr>,
}

/// What may stand on the right.
#[derive(Debug, Drop)]
pub(crate) enum Right {
    Computed(Expr),
    Resulting(Called),
}

/// A right side.
pub(crate) fn right_side(alloc: Global, right: &Rhs, scope: &mut Scope) -> Result<Right, TypeFault>
    ensures { Answers right_of (scope_of scope.new) result
        (rules.right (rhs_of right.now) (scope_of scope.old)) }
{
    match right {
        Rhs::Value(e) => Ok(Right::Computed(value(alloc, e, scope)?)),
        Rhs::Call(c) => Ok(Right::Resulting(call(alloc, c, scope)?)),
    }
}

/// A call: its arguments, and then the call itself.
pub(crate) fn call(alloc: Global, call: &Call, scope: &mut Scope) -> Result<Called, TypeFault>
    ensures { Answers called_of (scope_of scope.new) result
        (rules.call (call_of call.now) (scope_of scope.old)) }
{
    let arguments = values(alloc, call.arguments.as_slice(), scope)?;
    let called = at_node(
        call.at,
        call_at(alloc, call.name.as_str(), arguments, &*scope),
    )?;
    scope.progress.calls = called.number;
    Ok(called)
}

/// A call whose result isn't used.
pub(crate) fn calls_alone(called: Called) -> Statement
    ensures { statement_of result
        ≡ rules.calls_for (called_of called) (rules.ignored (called_of called).result) }
{
    let Called {
        number,
        function,
        result,
        arguments,
    } = called;
    Statement::Call(number, function, arguments, ignored(result))
}

// What becomes of a result that isn't used.
fn ignored(given: Option<CType>) -> Use
    ensures { use_of result ≡ rules.ignored (option_map type_of given) }
{
    match given {
        None => Use::NoResult,
        Some(ty) => Use::Ignored(ty),
    }
}

/// A right side to what it is assigned to.
pub(crate) fn assigned(
    alloc: Global,
    layout: &Layout,
    target: Destination,
    right: Right,
) -> Result<Statement, Refusal>
    ensures { RulesAs statement_of result
        (rules.assigned layout.now (destination_of target) (right_of right)) }
{
    match right {
        Right::Computed(e) => {
            let e = converted(alloc, layout, form_of(target.ty()), e)?;
            Ok(Statement::Assign(target, e))
        }
        Right::Resulting(called) => result_assigned(target, called),
    }
}

// The result of a call to what it is assigned to.
fn result_assigned(target: Destination, called: Called) -> Result<Statement, Refusal>
    ensures { RulesAs statement_of result
        (rules.assigned_result (destination_of target) (called_of called)) }
{
    let Called {
        number,
        function,
        result,
        arguments,
    } = called;
    let result = result_for(target.ty(), result)?;
    Ok(Statement::Call(number, function, arguments, Use::Assigned(result, target)))
}

/// A right side to the caller, in a function with a result of this type.
pub(crate) fn returned(
    alloc: Global,
    layout: &Layout,
    ty: &CType,
    right: Right,
) -> Result<Statement, Refusal>
    ensures { RulesAs statement_of result
        (rules.returned layout.now (type_of ty.now) (right_of right)) }
{
    match right {
        Right::Computed(e) => Ok(Statement::Return(converted(alloc, layout, form_of(ty), e)?)),
        Right::Resulting(called) => result_returned(alloc, ty, called),
    }
}

// The result of a call to the caller.
fn result_returned(alloc: Global, ty: &CType, called: Called) -> Result<Statement, Refusal>
    ensures { RulesAs statement_of result
        (rules.returned_result (type_of ty.now) (called_of called)) }
{
    let Called {
        number,
        function,
        result,
        arguments,
    } = called;
    let result = result_for(ty, result)?;
    let ty = copy_of(alloc, ty)?;
    Ok(Statement::Call(number, function, arguments, Use::Returned(result, ty)))
}

// The result of a call, where something of a type is wanted.
fn result_for(wanted: &CType, given: Option<CType>) -> Result<CType, Refusal>
    ensures { RulesAs type_of result
        (rules.result_for (type_of wanted.now) (option_map type_of given)) }
{
    match given {
        None => Err(Refusal::Kind(TypeKind::Mismatch)),
        Some(ty) => {
            refuse(!goes_to(wanted, &ty), TypeKind::Mismatch)?;
            Ok(ty)
        }
    }
}

// Whether a value of the second type goes to the first as by assignment, also where it is no constant.
fn goes_to(wanted: &CType, given: &CType) -> bool
    ensures { result ≡ rules.goes_to (type_of wanted.now) (type_of given.now) }
{
    match (form_of(wanted), form_of(given)) {
        (Form::Integer(_), Form::Integer(_)) => true,
        (Form::Pointer(t), Form::Pointer(u)) => {
            t == u || matches!(t, CType::Void) || matches!(u, CType::Void)
        }
        _ => false,
    }
}

// The expressions in order.
fn values(alloc: Global, es: &[CExp], scope: &mut Scope) -> Result<Vec<Expr>, TypeFault>
    ensures { Answers (λ v. map expr_of v.items) (scope_of scope.new) result
        (rules.values (map exp_of es.now) (scope_of scope.old)) }
{
    let mut typed = Vec::new(alloc);
    for e in es {
        typed.push(value(alloc, e, scope)?)?;
    }
    Ok(typed)
}

// The rule of a call: its function is there and has a body, there are as many arguments as parameters, and they fit.
fn call_at(
    alloc: Global,
    function: &str,
    arguments: Vec<Expr>,
    scope: &Scope,
) -> Result<Called, Refusal>
    ensures value { RulesAs called_of result
        (rules.called function.now (map expr_of arguments.items) (scope_of scope.now)) }
    ensures number { IfOk result (λ c. c.number ≡ suc scope.now.progress.calls) }
{
    let (result, params) = callee(scope.entity(function))?;
    refuse(!scope.file.with_body.contains(function), TypeKind::NoBody)?;
    refuse(arguments.len() != params.len(), TypeKind::Arity)?;
    let arguments = passed(alloc, &scope.layout, params.as_slice(), arguments)?;
    Ok(Called {
        number: following(scope.progress.calls)?,
        function: String::from_str(alloc, function)?,
        result: copy_of_result(alloc, result)?,
        arguments,
    })
}

// The result and the parameters of a function that a name stands for.
fn callee(entity: Option<&Entity>) -> Result<(&Option<CType>, &Vec<CType>), Refusal>
    ensures { RulesAs (λ f.
        record { result = option_map type_of f.0.now; params = map type_of f.1.now.items }) result
        (rules.callee (option_map entity_of (option_copied entity.entry))) }
{
    match entity {
        None => Err(Refusal::Kind(TypeKind::Unknown)),
        Some(Entity::Function(result, params)) => Ok((result, params)),
        Some(Entity::Hidden) => Err(Refusal::Kind(TypeKind::OutOfSubset)),
        Some(Entity::Enumerator(_) | Entity::Global(_) | Entity::Local(_, _)) => {
            Err(Refusal::Kind(TypeKind::Mismatch))
        }
    }
}

// The arguments at the types of the parameters.
fn passed(
    alloc: Global,
    layout: &Layout,
    params: &[CType],
    arguments: Vec<Expr>,
) -> Result<Vec<Expr>, Refusal>
    ensures { RulesAs (λ v. map expr_of v.items) result
        (rules.passed layout.now (map type_of params.now) (map expr_of arguments.items)) }
{
    let mut passed = Vec::new(alloc);
    let mut rest = params;
    for e in arguments {
        if let Some((ty, others)) = rest.split_first() {
            passed.push(converted(alloc, layout, form_of(ty), e)?)?;
            rest = others;
        }
    }
    Ok(passed)
}
