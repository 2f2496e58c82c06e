//! Locals: each is a scalar, has a name of its own, and begins with a value or with any.

ghost use Rattle.std.specs.Prelude.{◌≡◌, map, string_bytes, OnOk};
ghost use Rattle.std.specs.Option.{option_map};
ghost use Rattle.c_grammar.specs.CodeTree.{init_of, local_of, rhs_of};
ghost use Rattle.c_values.specs.CodeTypes.{type_of};
ghost use Rattle.typing_rules.specs.CodeAnswers.{Answers, RulesAs};
ghost use Rattle.typing_statements.specs.CodeCalls.{right_of};
ghost use Rattle.typing_scope.specs.CodeDeclared.{declared_of};
ghost use Rattle.typing_scope.specs.CodeScope.{scope_of};
ghost use Rattle.typing_expressions.specs.CodeBehind.{behind};
ghost use Rattle.typing_rules.specs.Calls as calls;
ghost use Rattle.typing_rules.specs.Locals as rules;
ghost use Rattle.c_lang.specs.Typed as C;
ghost use Rattle.c_lang.specs.CodeTyped.{statement_of};

use crate::calls::{Right, assigned, right_side};
use c_grammar::tree::{Init, Local, Rhs};
use c_lang::tree::{Destination, Statement};
use c_values::{CType, copy_of};
use std::alloc::{AllocError, Global};
use typing_expressions::{base, declarator};
use typing_rules::fault::{TypeFault, TypeKind};
use typing_rules::rulings::{Refusal, at_node, refuse};
use typing_rules::specifiers::words_start;
use typing_rules::types::{form_of, is_scalar, points_to_array};
use typing_scope::declarators::{Declared, is_incomplete};
use typing_scope::scope::{Entity, Scope};

/// Adds the statements of a declaration of locals.
pub(crate) fn local(
    alloc: Global,
    local: &Local,
    scope: &mut Scope,
    statements: &mut Vec<Statement>,
) -> Result<(), TypeFault>
    ensures { Answers (λ _. map statement_of statements.new.items) (scope_of scope.new) result
        (behind (map statement_of statements.old.items) (rules.local (local_of local.now))
        (scope_of scope.old)) }
{
    let base = base(alloc, &local.words, scope)?;
    inits(alloc, local.inits.as_slice(), scope, &base.ty, statements)?;
    at_node(
        words_start(&local.words),
        refuse(base.is_static || base.is_extern, TypeKind::OutOfSubset),
    )
}

// Adds the statements of locals of a type.
fn inits(
    alloc: Global,
    inits: &[Init],
    scope: &mut Scope,
    ty: &CType,
    statements: &mut Vec<Statement>,
) -> Result<(), TypeFault>
    ensures { Answers (λ _. map statement_of statements.new.items) (scope_of scope.new) result
        (behind (map statement_of statements.old.items)
        (rules.inits (type_of ty.now) (map init_of inits.now)) (scope_of scope.old)) }
{
    for init in inits {
        statements.push(initialized(alloc, init, scope, ty)?)?;
    }
    Ok(())
}

// A local of a type.
fn initialized(
    alloc: Global,
    init: &Init,
    scope: &mut Scope,
    ty: &CType,
) -> Result<Statement, TypeFault>
    ensures { Answers statement_of (scope_of scope.new) result
        (rules.init (type_of ty.now) (init_of init.now) (scope_of scope.old)) }
{
    let head = declarator(alloc, &init.declarator, scope, ty)?;
    declared(alloc, head, &init.value, scope)
}

// A local with its value. Its name isn't used in that.
fn declared(
    alloc: Global,
    head: Declared,
    value: &Option<Rhs>,
    scope: &mut Scope,
) -> Result<Statement, TypeFault>
    ensures { Answers statement_of (scope_of scope.new) result
        (rules.declared (declared_of head) (option_map rhs_of value.now) (scope_of scope.old)) }
{
    let own = at_node(head.at, local_name(alloc, &head, &*scope))?;
    add_local(alloc, &head, own.as_str(), scope)?;
    let statement = initial(alloc, &head, own.as_str(), value, scope)?;
    name_local(head, own, scope)?;
    Ok(statement)
}

// The rule of a local: a scalar under a name that is new in its block. It gives the local's own name.
fn local_name(alloc: Global, head: &Declared, scope: &Scope) -> Result<String, Refusal>
    ensures { RulesAs string_bytes result
        (rules.local_name (declared_of head.now) (scope_of scope.now)) }
{
    let name = head.name.as_str();
    refuse(scope.is_declared_here(name), TypeKind::Twice)?;
    refuse(is_incomplete(&scope.layout, &head.ty), TypeKind::Incomplete)?;
    refuse(
        !is_scalar(form_of(&head.ty)) || points_to_array(&head.ty),
        TypeKind::OutOfSubset,
    )?;
    Ok(scope.progress.own_name(alloc, name)?)
}

// Declares a local that isn't to be used yet.
fn add_local(alloc: Global, head: &Declared, own: &str, scope: &mut Scope) -> Result<(), AllocError>
    ensures { OnOk result (scope_of scope.new ≡ rules.add_local own.now (declared_of head.now)
        (scope_of scope.old)) }
{
    let name = head.name.as_str();
    scope.progress.add_local(alloc, own, name, &head.ty)?;
    scope.declare(String::from_str(alloc, name)?, Entity::Hidden)?;
    Ok(())
}

// A local that is to be used from here on.
fn name_local(head: Declared, own: String, scope: &mut Scope) -> Result<(), AllocError>
    ensures { OnOk result
        (scope_of scope.new ≡ rules.name_local (string_bytes own) (declared_of head)
        (scope_of scope.old)) }
{
    scope.declare(head.name, Entity::Local(own, head.ty))
}

// The value that a local begins with, or any.
fn initial(
    alloc: Global,
    head: &Declared,
    own: &str,
    value: &Option<Rhs>,
    scope: &mut Scope,
) -> Result<Statement, TypeFault>
    ensures { Answers statement_of (scope_of scope.new) result
        (rules.initial own.now (declared_of head.now) (option_map rhs_of value.now)
        (scope_of scope.old)) }
{
    match value {
        None => {
            let name = String::from_str(alloc, own)?;
            Ok(Statement::Declare(name, copy_of(alloc, &head.ty)?))
        }
        Some(source) => {
            let source = right_side(alloc, source, scope)?;
            at_node(head.at, begins(alloc, &*scope, head, own, source))
        }
    }
}

// The rule of an initialiser.
fn begins(
    alloc: Global,
    scope: &Scope,
    head: &Declared,
    own: &str,
    source: Right,
) -> Result<Statement, Refusal>
    ensures { RulesAs statement_of result
        (calls.assigned (scope_of scope.now).layout (C.ToLocal own.now (type_of head.now.ty))
        (right_of source)) }
{
    let name = String::from_str(alloc, own)?;
    let ty = copy_of(alloc, &head.ty)?;
    assigned(alloc, &scope.layout, Destination::ToLocal(name, ty), source)
}
