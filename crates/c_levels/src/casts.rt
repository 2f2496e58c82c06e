//! Whether a function converts to a pointer to a type that isn't void, from another type, null
//! pointer constants apart.

ghost use Rattle.std.specs.Prelude.{◌≡◌, map};
ghost use Rattle.c_values.specs.CodeTypes.{type_of};
ghost use Rattle.c_lang.specs.Cast as rules;
ghost use Rattle.c_lang.specs.CodeTyped as typed;
ghost use Rattle.c_meaning.specs.Levels as levels;

use c_lang::tree::{Destination, Expr, Groups, Statement, Statements, Test, TypedFn, Use};
use c_values::CType;
use typing_rules::casts::{has_cast, place_has_cast};

/// Whether a function does.
pub(crate) fn casts(f: &TypedFn) -> bool
    ensures { result ≡ levels.casts (typed.function_of f.now) }
{
    f.folds_cast || statements_have_cast(&f.body)
}

// Whether a conversion is one.
fn casts_to(to: &CType, from: &CType) -> bool
    ensures { result ≡ rules.casts_to (type_of to.now) (type_of from.now) }
{
    let CType::Ptr(object) = to else {
        return false;
    };
    match &**object {
        CType::Void => false,
        CType::Int(_) | CType::Ptr(_) | CType::Struct(_) | CType::Array(_, _) => { to != from }
    }
}

fn some_has_cast(arguments: &[Expr]) -> bool
    ensures { result ≡ levels.some_has_cast (map typed.expr_of arguments.now) }
{
    let mut rest = arguments;
    'rest: while let Some((first, others)) = rest.split_first() {
        if has_cast(first) {
            return true;
        }
        rest = others;
    }
    false
}

fn target_has_cast(target: &Destination) -> bool
    ensures { result ≡ levels.target_has_cast (typed.destination_of target.now) }
{
    match target {
        Destination::ToLocal(_, _) => false,
        Destination::ToPlace(place) => place_has_cast(place),
    }
}

// A result that is converted on its way.
fn use_has_cast(used: &Use) -> bool
    ensures { result ≡ levels.use_has_cast (typed.use_of used.now) }
{
    match used {
        Use::NoResult | Use::Ignored(_) => false,
        Use::Assigned(from, target) => { casts_to(target.ty(), from) || target_has_cast(target) }
        Use::Returned(from, to) => casts_to(to, from),
    }
}

fn test_has_cast(test: &Test) -> bool
    ensures { result ≡ levels.test_has_cast (typed.test_of test.now) }
{
    match test {
        Test::Always => false,
        Test::Tested(e) => has_cast(e),
    }
}

#[cycle(statement_casts)]
fn statement_has_cast(s: &Statement) -> bool
    ensures { result ≡ levels.statement_has_cast (typed.statement_of s.now) }
{
    match s {
        Statement::Empty
        | Statement::Declare(_, _)
        | Statement::Break
        | Statement::Continue
        | Statement::ReturnNothing => false,
        Statement::Block(statements) => statements_have_cast(statements),
        Statement::Assign(target, e) => has_cast(e) || target_has_cast(target),
        Statement::Call(_, _, arguments, used) => some_has_cast(arguments) || use_has_cast(used),
        Statement::If(e, a, b) => { has_cast(e) || statement_has_cast(a) || statement_has_cast(b) }
        Statement::While(e, body) => has_cast(e) || statement_has_cast(body),
        Statement::DoWhile(_, body, e) => statement_has_cast(body) || has_cast(e),
        Statement::For(init, test, step, body) => {
            statements_have_cast(init)
                || test_has_cast(test)
                || statement_has_cast(step)
                || statement_has_cast(body)
        }
        Statement::Switch(_, _, e, groups) => has_cast(e) || groups_have_cast(groups),
        Statement::Return(e) => has_cast(e),
    }
}

#[cycle(statement_casts)]
fn statements_have_cast(statements: &Statements) -> bool
    ensures { result ≡ levels.statements_have_cast (typed.statements_of statements.now) }
{
    match statements {
        Statements::None => false,
        Statements::Next(first, rest) => statement_has_cast(first) || statements_have_cast(rest),
    }
}

#[cycle(statement_casts)]
fn groups_have_cast(groups: &Groups) -> bool
    ensures { result ≡ levels.groups_have_cast (typed.groups_of groups.now) }
{
    match groups {
        Groups::None => false,
        Groups::Next(_, _, body, rest) => statements_have_cast(body) || groups_have_cast(rest),
    }
}
